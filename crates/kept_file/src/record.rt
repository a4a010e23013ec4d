// The calls that were made of a file. The record takes no memory: only proofs read it.
ghost use Rattle.std.specs.Prelude.{◌≡◌, List, [], ◌∷◌};
ghost use Rattle.kept_file.specs.Events.{Event, bytes_of, events_of};

use http_server::Log;
use std::marker::Model;

/// A call, and whether it was done.
#[derive(Clone, Copy, Debug, PartialEq, Eq)]
pub enum Call {
    /// The file was put on the disk as it stood, and held these bytes.
    Held,
    /// Bytes were written from an offset on.
    Wrote { at: usize, is_done: bool },
    /// The file was cut to a length.
    CutTo { len: usize, is_done: bool },
    /// What was written was put on the disk.
    Synced { is_done: bool },
}

/// The calls with their bytes, the newest first.
#[derive(Drop)]
pub struct Record {
    calls: Log<Call, Log<u8, ()>>,
}

impl Model for Record {
    ghost Value = { List Event };

    ghost view = { λ r. events_of r.calls.items };
}

// These bytes, noted one by one.
fn noted(bytes: &[u8]) -> Log<u8, ()>
    ensures { bytes_of result.items ≡ bytes.now }
{
    let mut log = Log::new();
    for byte in bytes {
        log = log.and(byte, &());
    }
    log
}

impl Record {
    pub(crate) fn new() -> Record
        ensures { result ≡ [] }
    {
        Record { calls: Log::new() }
    }

    /// Notes a call with its bytes, none where it has none.
    pub(crate) fn note(&mut self, call: Call, bytes: &[u8])
        ensures { self.new ≡ (call, bytes.now) ∷ self.old }
    {
        self.calls = self.calls.and(&call, &noted(bytes));
    }
}
