// Texts that go out.
ghost use Rattle.std.specs.Prelude.{MatchBool};
ghost use Rattle.session_front.specs.Sending.{SendsWhole, SendsShort};

use kms_io::{Link, Put};

/// Writes all of it, or answers false where the link failed.
pub fn send<L: Link>(link: &mut L, text: &[u8]) -> bool
    ensures { MatchBool result (SendsWhole (L.shows link.old) (L.shows link.new) text.now)
        (SendsShort (L.shows link.old) (L.shows link.new) text.now) }
{
    let mut at = 0;
    while at < text.len() {
        match link.write_some(&text[at..]) {
            Put::Wrote(count) => at += count,
            Put::Failed => return false,
        }
    }
    true
}
