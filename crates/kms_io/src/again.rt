// Calls that a signal cut short are made again.
ghost use Rattle.std.specs.Prelude.{◌≤◌, length, IfOk};

use std::io;
use std::io::{ErrorKind, Read, Write};

// How often a call is made, where each is cut short, before that is an error like others.
const TRIES: u32 = 1_000;

// Whether a signal cut a call short.
fn is_cut_short<T: Drop>(answer: &io::Result<T>) -> bool {
    match answer {
        Ok(_) => false,
        Err(fault) => fault.kind() == ErrorKind::Interrupted,
    }
}

/// Reads some bytes, and again where a signal cuts the read short.
pub fn read_again<R: Read>(reader: &mut R, room: &mut [u8]) -> io::Result<usize>
    ensures { IfOk result (λ n. n ≤ length room.new) }
{
    for _ in 1..TRIES {
        let answer = reader.read(room);
        if !is_cut_short(&answer) {
            return answer;
        }
    }
    reader.read(room)
}

/// Writes some bytes, and again where a signal cuts the write short.
pub fn write_again<W: Write>(writer: &mut W, piece: &[u8]) -> io::Result<usize>
    ensures { IfOk result (λ n. n ≤ length piece.now) }
{
    for _ in 1..TRIES {
        let answer = writer.write(piece);
        if !is_cut_short(&answer) {
            return answer;
        }
    }
    writer.write(piece)
}
