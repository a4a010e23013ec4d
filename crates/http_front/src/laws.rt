// What follows from the definitions alone.
ghost use Rattle.http_front.specs.Laws.{OneMessage, OneAnswer, OneFault, StillAwaited, CrowdedHasManyLines, OneHead};

/// No message begins another: bytes begin with one message at most, and a stream is cut in one way.
pub fn one_message()
    ensures { OneMessage }
{}

/// No message is whole before the buffer has as many bytes as `Step::NeedMore` says: what is awaited
/// stays awaited until then.
pub fn still_awaited()
    ensures { StillAwaited }
{}

/// What bytes begin with decides what `next_message` answers: a message, more bytes, or a fault. Only
/// where no head can come of them, or none of at most 64 headers, may it ask for more bytes or refuse them.
pub fn one_answer()
    ensures { OneAnswer }
{}

/// A whole head that has a fault is refused with that fault alone: the first in the order of `HttpFault`.
pub fn one_fault()
    ensures { OneFault }
{}

/// Bytes that are crowded have, behind the CR and LF bytes at their front, 65 lines and then the front
/// of one more that isn't empty: a request line and more than 64 headers.
pub fn crowded_has_many_lines()
    ensures { CrowdedHasManyLines }
{}

/// A status, the size of a body, a second, a number of entries, and whether the connection closes have one head:
/// two texts that are the head of the same are one.
pub fn one_head()
    ensures { OneHead }
{}
