//! Places of entries in a history.

ghost use Rattle.std.specs.Prelude.{◌≡◌};
ghost use Rattle.kms_names.specs.Place.{is_behind};

/// Whether what was made at a place was made behind this one; everything was where none is given. No memory is taken.
pub fn is_behind(after: Option<u64>, born: u64) -> bool
    ensures { result ≡ is_behind after born }
{
    match after {
        Some(place) => place < born,
        None => true,
    }
}
