// Ears in memory, and what was written at them.
ghost use Rattle.std.specs.Prelude.{◌≡◌, [], Some, false, IfOk, IsTrue};
ghost use Rattle.kms_io.specs.MemoryEar.{listening_of};
ghost use Rattle.kms_io.specs.MemoryLink.{wire_of};
ghost use Rattle.kms_io.specs.NewLinks.{is_new_wire};

use crate::worlds::Failure;
use kms_io::{MemoryEar, MemoryLink};
use kms_names::NoMemory;
use std::alloc::Global;

// More calls than are made of an ear.
const CALLS: u64 = 64;

// The bytes of these messages.
fn bytes_of(alloc: Global, messages: &[&str]) -> Result<Vec<u8>, NoMemory> {
    let mut bytes = Vec::new(alloc);
    for message in messages {
        bytes.extend_from_slice(message.as_bytes())?;
    }
    Ok(bytes)
}

/// What comes at an ear.
#[derive(Clone, Copy)]
pub struct Coming<'a> {
    /// The messages of a connection, which come one by one.
    pub messages: &'a [&'a str],
    /// Whether the first write on it fails.
    pub fails_to_write: bool,
    /// Whether a second connection comes, with the same.
    pub is_twice: bool,
    /// How often the ear fails before each.
    pub failures: u8,
}

// A connection of those that come.
fn link_of(alloc: Global, coming: &Coming<'_>) -> Result<MemoryLink, NoMemory>
    ensures { IfOk result (λ link. IsTrue (is_new_wire (wire_of link))) }
{
    let input = bytes_of(alloc, coming.messages)?;
    let pieces = coming
        .messages
        .iter()
        .map(|message| message.len())
        .collect(alloc)?;
    let mut failing = Vec::new(alloc);
    if coming.fails_to_write {
        failing.push(0)?;
    }
    Ok(MemoryLink::new(alloc, input, pieces, Vec::new(alloc), failing))
}

/// An ear at which this comes.
pub fn ear_of(alloc: Global, coming: &Coming<'_>) -> Result<MemoryEar, NoMemory>
    ensures { IfOk result (λ ear. listening_of ear ≡ record {
      faults = 0;
      is_out = false;
      given_back = Some [];
    }) }
{
    let failures = u64::from(coming.failures);
    let failing = (0..CALLS)
        .filter(|call| *call % (failures + 1) < failures)
        .collect(alloc)?;
    let mut connections = Vec::new(alloc);
    connections.push(link_of(alloc, coming)?)?;
    if coming.is_twice {
        connections.push(link_of(alloc, coming)?)?;
    }
    Ok(MemoryEar::new(alloc, connections, failing))
}

// The status of a reply and the number of entries that it names, of what stands behind its first word.
fn reply_in(text: &str) -> Option<(&str, &str)> {
    let (status, rest) = text.split_once(' ')?;
    let (_, rest) = rest.split_once("x-kms-front: ")?;
    let (front, _) = rest.split_once("\r\n")?;
    Some((status, front))
}

/// The replies that were written, as `200 at 1, 400 at 2`.
pub fn replies_in(alloc: Global, written: &[u8]) -> Result<String, Failure> {
    let Ok(text) = str::from_utf8(written) else {
        return Err(Failure::Unlike);
    };
    let mut line = String::new(alloc);
    for reply in text.split("HTTP/1.1 ").skip(1) {
        let Some((status, front)) = reply_in(reply) else {
            return Err(Failure::Unlike);
        };
        let comma = if line.is_empty() { "" } else { ", " };
        write!(line, "{comma}{status} at {front}").map_err(NoMemory::from)?;
    }
    Ok(line)
}
