// The time that passes, for limits.
use std::rt;

/// A moment, in milliseconds since some start, or a time between two.
pub type Millis = u64;

/// The moment. A clock that fails stands at 0, where nothing gets old.
pub fn moment<R: rt::Clock>(rt: &R) -> Millis {
    match rt.monotonic() {
        Ok(passed) => u64::try_from(passed.as_millis()).unwrap_or(u64::MAX),
        Err(_) => 0,
    }
}

/// How long it is since a moment.
pub fn since(moment: Millis, now: Millis) -> Millis {
    now.saturating_sub(moment)
}
