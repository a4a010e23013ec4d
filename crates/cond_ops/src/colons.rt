//! Colons of texts.

ghost use Rattle.std.specs.Prelude.{◌≡◌, ◌<◌, ◌↔◌, IsTrue};
ghost use Rattle.cond_ops.specs.Value.{HasColons};

use crate::cuts::cut_at;

/// Whether a text has so many colons or more.
pub fn has_colons(text: &str, colons: u32) -> bool
    ensures { IsTrue result ↔ HasColons colons text.now }
{
    if colons == 0 {
        return true;
    }
    match cut_at(text, ':') {
        Some((_, rest)) => has_colons(rest, colons - 1),
        None => false,
    }
}
