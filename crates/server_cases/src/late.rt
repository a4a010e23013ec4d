// A door whose ears may wait before they give their connection.
ghost use Rattle.std.specs.Prelude.{All};
ghost use Rattle.kms_io.specs.Door.{IsNewEar};
ghost use Rattle.kms_io.specs.MemoryEar.{listening_of};

use crate::stage::Stage;
use kms_io::{Door, Ear, MemoryEar, MemoryLink, Next, Opened};
use kms_names::NoMemory;
use std::alloc::Global;
use std::sync::Wait;
use std::time::Clock;

/// An ear in memory that gives no connection before an event. Each that is given back is an event.
#[derive(Drop)]
pub struct LateEar<'a, W: Wait + Clock> {
    ear: MemoryEar,
    stage: &'a Stage<'a, W>,
    after: u64,
}

impl<W: Wait + Clock> Ear for LateEar<'_, W> {
    type Conn = MemoryLink;

    ghost use Rattle.server_cases.specs.Late.{heard_by};

    ghost shows = { heard_by };

    fn next(&mut self) -> Next<MemoryLink> {
        self.stage.await_event(self.after);
        self.ear.next()
    }

    fn done(&mut self, conn: MemoryLink) {
        self.ear.done(conn);
        self.stage.add();
    }
}

/// A door that gives all its ears at its first opening, and keeps those given back. An opening fails that asks for
/// another number of ears.
pub struct LateDoor<'a, W: Wait + Clock> {
    ears: Vec<LateEar<'a, W>>,
    back: Vec<LateEar<'a, W>>,
    faults: u64,
    ghost are_new: { All (λ late. IsNewEar (listening_of late.ear)) ears.items },
}

// Each function that lets a door go calls this one drop, and doesn't take the door apart itself.
impl<W: Wait + Clock> Drop for LateDoor<'_, W> {
    fn drop(self) {
        let LateDoor {
            ears: _,
            back: _,
            faults: _,
        } = self;
    }
}

impl<'a, W: Wait + Clock> LateDoor<'a, W> {
    ghost use Rattle.std.specs.Prelude.{◌≡◌, [], Some, false};
    ghost use Rattle.kms_io.specs.MemoryEar.{listening_of};

    /// The door of no ears.
    pub fn new(alloc: Global) -> LateDoor<'a, W> {
        LateDoor {
            ears: Vec::new(alloc),
            back: Vec::new(alloc),
            faults: 0,
        }
    }

    /// Puts an ear, which is as its `new` made it, behind the others. It gives its connection after the event of
    /// this number, and at once for 0.
    pub fn add(
        &mut self,
        ear: MemoryEar,
        stage: &'a Stage<'a, W>,
        after: u64,
    ) -> Result<(), NoMemory>
        requires { listening_of ear ≡ record {
          faults = 0;
          is_out = false;
          given_back = Some [];
        } }
    {
        self.ears.push(LateEar { ear, stage, after })?;
        Ok(())
    }

    /// What was written on the first connection of the ear of this number, counted from 0.
    pub fn written(&self, index: usize) -> Option<&[u8]> {
        Some(self.back.get(index)?.ear.conn(0)?.written())
    }
}

impl<'a, W: Wait + Clock + Sync> Door for LateDoor<'a, W> {
    ghost use Rattle.std.specs.Prelude.{map};
    ghost use Rattle.kms_io.specs.Door.{Opens, Closes};
    ghost use Rattle.server_cases.specs.Late.{heard_by, counts_of};

    type Listener = LateEar<'a, W>;

    ghost shows = { counts_of };

    fn open(&mut self, _address: &str, n: u16, ears: &mut Vec<LateEar<'a, W>>) -> Opened
        ensures { Opens heard_by (counts_of self.old) _address.now n ears.old.items result (counts_of self.new) ears.new.items }
    {
        if self.ears.len() != usize::from(n) {
            self.faults = self.faults.saturating_add(1);
            return Opened::Failed;
        }
        match ears.append(&mut self.ears) {
            Ok(()) => Opened::Open,
            Err(_) => Opened::NoMemory,
        }
    }

    fn close(&mut self, ears: Vec<LateEar<'a, W>>)
        ensures { Closes (counts_of self.old) (map heard_by ears.entry.items) (counts_of self.new) }
    {
        self.back = ears;
    }
}
