// The statuses with which the program ends.
ghost use Rattle.std.specs.Prelude.{◌≡◌};
ghost use Rattle.kms_program.specs.Program.{status_of_end};

use kms_session::SessionEnd;

/// Words that are no command.
pub const MISUSED: u8 = 2;

/// A configuration that is refused.
pub const REFUSED: u8 = 3;

/// Input that ended inside a message.
pub const CUT_OFF: u8 = 4;

/// A read, a file, a door or its ears that failed.
pub const UNREAD: u8 = 5;

/// A write that failed.
pub const UNWRITTEN: u8 = 6;

/// The status of want of memory.
pub const NO_MEMORY: u8 = 7;

/// The status of a session's end.
pub fn status_of(end: SessionEnd) -> u8
    ensures { result ≡ status_of_end end }
{
    match end {
        SessionEnd::Ended | SessionEnd::Closed => 0,
        SessionEnd::CutOff => CUT_OFF,
        SessionEnd::ReadFault => UNREAD,
        SessionEnd::WriteFault => UNWRITTEN,
        SessionEnd::NoMemory => NO_MEMORY,
    }
}
