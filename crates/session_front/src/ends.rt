// How sessions end.
ghost use Rattle.std.specs.Prelude.{◌≡◌, ◌+◌, ◌<◌, ◌==◌, ◌||◌};

use http_front::Cut;

/// How many messages a session answers at most.
pub const MESSAGES: u64 = 100_000;

/// How a session ends.
#[derive(Clone, Copy)]
pub enum SessionEnd {
    /// The input ended between two messages.
    Ended,
    /// A reply that closes was written whole: to a message that closes, to bytes that are refused, or to
    /// message 100,000.
    Closed,
    /// The input ended inside a message, for which nothing was written.
    CutOff,
    /// A read failed.
    ReadFault,
    /// A write failed. The replies before are written whole, and a front of the last one.
    WriteFault,
    /// There was no memory for the buffer, and nothing was taken.
    NoMemory,
}

/// Whether a session closes after the reply to the message of this number, counted from 0.
pub fn closes_after(cut: &Cut, number: u64) -> bool
    requires { number < 100000 }
    ensures { result ≡ (cut.now.closes || (number + 1 == 100000)) }
{
    cut.closes() || number + 1 == MESSAGES
}
