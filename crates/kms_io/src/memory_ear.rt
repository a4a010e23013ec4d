// An ear over connections in memory, which can be made to fail.
ghost use Rattle.std.specs.Prelude.{IsTrue, ◌+◌, ◌≤◌, length, drop};
ghost use Rattle.kms_io.specs.NewLinks.{are_new_links, is_new_wire};
ghost use Rattle.kms_io.specs.MemoryLink.{wire_of};

use crate::{Ear, MemoryLink, Next};
use std::alloc::Global;
use std::mem;

/// An ear that gives the connections of a list, in order, and keeps each in its place once it is
/// given back. It fails where none is left, and where the number of the call of `next`, counted
/// from 0, stands in a list.
#[derive(Drop)]
pub struct MemoryEar {
    alloc: Global,
    conns: Vec<MemoryLink>,
    given: usize,
    back: usize,
    failing: Vec<u64>,
    calls: u64,
    faults: u64,
    ghost order: { back ≤ given },
    ghost one_out: { given ≤ back + 1 },
    ghost within: { given ≤ length conns.items },
    ghost are_new: { IsTrue (are_new_links (drop given conns.items)) },
}

impl MemoryEar {
    ghost use Rattle.std.specs.Prelude.{IsTrue, ◌≡◌, [], Some, false, option_map, slice_get, IfSome};
    ghost use Rattle.kms_io.specs.NewLinks.{are_new_links};
    ghost use Rattle.kms_io.specs.MemoryLink.{wire_of};
    ghost use Rattle.kms_io.specs.MemoryEar.{listening_of, waiting_in, calls_of};

    /// The ear of these connections, each as its `new` made it, with the numbers of the calls that
    /// fail. It takes no memory.
    pub fn new(alloc: Global, conns: Vec<MemoryLink>, failing: Vec<u64>) -> MemoryEar
        requires { IsTrue (are_new_links conns.items) }
        ensures listening { listening_of result ≡ record {
          faults = 0;
          is_out = false;
          given_back = Some [];
        } }
        ensures waiting { waiting_in result ≡ conns.items }
        ensures calls { calls_of result ≡ record { made = 0; failing = failing.items } }
    {
        MemoryEar {
            alloc,
            conns,
            given: 0,
            back: 0,
            failing,
            calls: 0,
            faults: 0,
        }
    }

    /// The connection that was given back as number `index`, counted from 0.
    pub fn conn(&self, index: usize) -> Option<&MemoryLink>
        ensures { IfSome (listening_of self.now).given_back (λ wires. option_map (λ link. wire_of link.now) result ≡ slice_get wires index) }
    {
        self.conns[..self.back].get(index)
    }
}

impl Ear for MemoryEar {
    ghost use Rattle.std.specs.Prelude.{◌≡◌, true, false};
    ghost use Rattle.kms_io.specs.Calls.{one_more};
    ghost use Rattle.kms_io.specs.Ear.{Hears, TakesBack};
    ghost use Rattle.kms_io.specs.MemoryLink.{wire_of};
    ghost use Rattle.kms_io.specs.MemoryEar.{listening_of, waiting_in, calls_of, GivesFirst};

    type Conn = MemoryLink;

    ghost shows = { listening_of };

    fn next(&mut self) -> Next<MemoryLink>
        requires { (listening_of self.old).is_out ≡ false }
        ensures hears { Hears wire_of (listening_of self.old) result (listening_of self.new) }
        ensures gives { GivesFirst (calls_of self.old) (waiting_in self.old) result (waiting_in self.new) }
        ensures calls { calls_of self.new ≡ one_more (calls_of self.old) }
    {
        let call = self.calls;
        self.calls = call.saturating_add(1);
        if self.failing.contains(&call) || self.given >= self.conns.len() {
            self.faults = self.faults.saturating_add(1);
            return Next::Failed;
        }
        let conn = mem::replace(&mut self.conns[self.given], nothing(self.alloc));
        self.given += 1;
        Next::Conn(conn)
    }

    fn done(&mut self, conn: MemoryLink)
        requires { (listening_of self.old).is_out ≡ true }
        ensures takes { TakesBack (listening_of self.old) (wire_of conn) (listening_of self.new) }
        ensures waiting { waiting_in self.new ≡ waiting_in self.old }
        ensures calls { calls_of self.new ≡ calls_of self.old }
    {
        self.conns[self.back] = conn;
        self.back += 1;
    }
}

// What stands in the place of a connection that is out.
fn nothing(alloc: Global) -> MemoryLink
    ensures { IsTrue (is_new_wire (wire_of result)) }
{
    MemoryLink::new(
        alloc,
        Vec::new(alloc),
        Vec::new(alloc),
        Vec::new(alloc),
        Vec::new(alloc),
    )
}
