// A door over ears in memory, which can be made to fail.
ghost use Rattle.std.specs.Prelude.{IsTrue, IfOk, OnOk, OnErr, ◌≡◌, ◌+◌, ◌<◌, ◌≤◌, ◌++◌, length, take, drop, vec_len, vec_capacity};
ghost use Rattle.kms_io.specs.NewEars.{are_new_ears};
ghost use Rattle.kms_io.specs.Request.{asked_for};

use crate::{Door, MemoryEar, Opened};
use std::alloc::{AllocError, Global};
use std::mem;

/// A door that gives the ears of a list, in order, each once. An opening fails where fewer ears are
/// left than it asks for, and where its number, counted from 0, stands in a list. It keeps what each
/// opening asked for, but at `NoMemory`, and the ears of the last `close`.
#[derive(Drop)]
pub struct MemoryDoor {
    alloc: Global,
    ears: Vec<MemoryEar>,
    failing: Vec<u64>,
    calls: u64,
    asked: Vec<(String, u16)>,
    is_open: bool,
    back: Vec<MemoryEar>,
    faults: u64,
    ghost are_new: { IsTrue (are_new_ears ears.items) },
}

impl MemoryDoor {
    ghost use Rattle.std.specs.Prelude.{IsTrue, ◌≡◌, [], Some, false, IfSome, option_map, slice_get};
    ghost use Rattle.kms_io.specs.NewEars.{are_new_ears};
    ghost use Rattle.kms_io.specs.MemoryEar.{listening_of};
    ghost use Rattle.kms_io.specs.MemoryDoor.{doorway_of, waiting_at, openings_of};

    /// The door of these ears, each as its `new` made it, with the numbers of the openings that
    /// fail. It takes no memory.
    pub fn new(alloc: Global, ears: Vec<MemoryEar>, failing: Vec<u64>) -> MemoryDoor
        requires { IsTrue (are_new_ears ears.items) }
        ensures doorway { doorway_of result ≡ record {
          faults = 0;
          asked = Some [];
          is_open = Some false;
          given_back = Some [];
        } }
        ensures waiting { waiting_at result ≡ ears.items }
        ensures calls { openings_of result ≡ record { made = 0; failing = failing.items } }
    {
        MemoryDoor {
            alloc,
            ears,
            failing,
            calls: 0,
            asked: Vec::new(alloc),
            is_open: false,
            back: Vec::new(alloc),
            faults: 0,
        }
    }

    /// The ear number `index`, counted from 0, of those that the last `close` gave back.
    pub fn ear(&self, index: usize) -> Option<&MemoryEar>
        ensures { IfSome (doorway_of self.now).given_back (λ ears. option_map (λ ear. listening_of ear.now) result ≡ slice_get ears index) }
    {
        self.back.get(index)
    }
}

impl Door for MemoryDoor {
    ghost use Rattle.std.specs.Prelude.{map};
    ghost use Rattle.kms_io.specs.Calls.{one_more};
    ghost use Rattle.kms_io.specs.Door.{Opens, Closes};
    ghost use Rattle.kms_io.specs.MemoryEar.{listening_of};
    ghost use Rattle.kms_io.specs.MemoryDoor.{doorway_of, waiting_at, openings_of, GivesEars};

    type Listener = MemoryEar;

    ghost shows = { doorway_of };

    fn open(&mut self, address: &str, n: u16, ears: &mut Vec<MemoryEar>) -> Opened
        ensures opens { Opens listening_of (doorway_of self.old) address.now n ears.old.items result (doorway_of self.new) ears.new.items }
        ensures gives { GivesEars (openings_of self.old) (waiting_at self.old) n ears.old.items result (waiting_at self.new) ears.new.items }
        ensures calls { openings_of self.new ≡ one_more (openings_of self.old) }
    {
        let call = self.calls;
        self.calls = call.saturating_add(1);
        let Ok(request) = request_of(self.alloc, &mut self.asked, address, n) else {
            return Opened::NoMemory;
        };
        let count = usize::from(n);
        if self.failing.contains(&call) || self.ears.len() < count {
            self.faults = self.faults.saturating_add(1);
            self.asked.push_reserved(request);
            return Opened::Failed;
        }
        match move_first(&mut self.ears, count, ears) {
            Ok(()) => {
                self.asked.push_reserved(request);
                self.is_open = true;
                Opened::Open
            }
            Err(_) => Opened::NoMemory,
        }
    }

    fn close(&mut self, ears: Vec<MemoryEar>)
        ensures closes { Closes (doorway_of self.old) (map listening_of ears.items) (doorway_of self.new) }
        ensures waiting { waiting_at self.new ≡ waiting_at self.old }
        ensures calls { openings_of self.new ≡ openings_of self.old }
    {
        self.is_open = false;
        self.back = ears;
    }
}

// What is kept of an opening, with room for it among those asked for.
fn request_of(
    alloc: Global,
    asked: &mut Vec<(String, u16)>,
    address: &str,
    n: u16,
) -> Result<(String, u16), AllocError>
    ensures value { IfOk result (λ request. asked_for request ≡ (address.now, n)) }
    ensures room { OnOk result (vec_len asked.new < vec_capacity asked.new) }
    ensures same { asked.new.items ≡ asked.old.items }
{
    let copy = String::from_str(alloc, address)?;
    asked.reserve(1)?;
    Ok((copy, n))
}

// Moves the first ears of a list to the end of another.
fn move_first(
    from: &mut Vec<MemoryEar>,
    count: usize,
    to: &mut Vec<MemoryEar>,
) -> Result<(), AllocError>
    requires { count ≤ vec_len from.old }
    ensures rest { OnOk result (from.new.items ≡ drop count from.old.items) }
    ensures moved { OnOk result (to.new.items ≡ to.old.items ++ take count from.old.items) }
    ensures err { OnErr result ((from.new.items ≡ from.old.items) × (to.new.items ≡ to.old.items)) }
{
    to.reserve(count)?;
    let rest = from.split_off(count)?;
    let mut first = mem::replace(from, rest);
    to.append(&mut first)
}
