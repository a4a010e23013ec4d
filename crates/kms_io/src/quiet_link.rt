// A link that reads from another and keeps what is written.
ghost use Rattle.std.specs.Prelude.{◌<◌, length};

use crate::moves::Moves;
use crate::{Link, Move, Put, Took};
use std::alloc::Global;
use std::marker::{Brand, Model, PhantomData};

/// Which connection lies beneath a quiet one, and what it showed at first. It has no call, and contracts alone see its
/// members: one call of a program picks them.
pub trait Beneath {
    ghost use base.Fml.{GName};
    ghost use Rattle.kms_io.specs.Wire.{Wire};

    ghost name: { GName };

    ghost first: { Wire };
}

impl Beneath for Brand {
    ghost use Rattle.std.specs.Prelude.{None};

    ghost name = { 0 };

    ghost first = { record { taken = None; written = None; left = None; moves = None; read_faults = 0; write_faults = 0 } };
}

/// A connection over another, which it reads from and doesn't write to: each write is taken whole and kept, and fails
/// only where there is no memory to keep it. Contracts see it as what it shows: the bytes taken and still to come and
/// the read faults of the other, the bytes that were written to the other at first and then to it, the calls that moved
/// them, and its own write faults, each of which is want of memory.
pub struct QuietLink<'a, B: Beneath, L: Link> {
    link: &'a mut L,
    output: Vec<u8>,
    moves: Moves,
    write_faults: u64,
    of: PhantomData<B>,
}

impl<'a, B: Beneath, L: Link> Model for QuietLink<'a, B, L> {
    ghost use Rattle.std.specs.Prelude.{◌≡◌};
    ghost use Rattle.kms_io.specs.Wire.{Wire};
    ghost use Rattle.kms_io.specs.QuietLink.{shown_over, IsUnwritten};

    ghost Value = { Wire };

    ghost view = { λ q. shown_over B.first (L.shows q.link.now) q.output.items q.moves q.write_faults };

    ghost invariant = { λ q. (q.link.ghost_name ≡ B.name) × IsUnwritten B.first (L.shows q.link.now) };
}

impl<'a, B: Beneath, L: Link> QuietLink<'a, B, L> {
    ghost use Rattle.std.specs.Prelude.{◌≡◌};
    ghost use Rattle.kms_io.specs.QuietLink.{LiesBeneath};

    /// The quiet connection over this one. It takes no memory.
    pub fn new(alloc: Global, link: &'a mut L) -> QuietLink<'a, B, L>
        requires name { link.ghost_name ≡ B.name }
        requires first { L.shows link.old ≡ B.first }
        ensures { result ≡ record (L.shows link.old) { write_faults = 0 } }
    {
        QuietLink {
            link,
            output: Vec::new(alloc),
            moves: Moves::new(alloc),
            write_faults: 0,
            of: PhantomData,
        }
    }

    /// The connection beneath it. What was kept is let go.
    pub fn into_link(self) -> &'a mut L
        ensures name { result.ghost_name ≡ B.name }
        ensures lies { LiesBeneath B.first self.entry (L.shows result.now) }
    {
        let QuietLink {
            link,
            output: _,
            moves: _,
            write_faults: _,
            of: _,
        } = self;
        link
    }
}

impl<'a, B: Beneath, L: Link> Link for QuietLink<'a, B, L> {
    ghost use Rattle.kms_io.specs.Link.{Writes};
    ghost use Rattle.kms_io.specs.QuietLink.{TakesWhole};

    ghost shows = { λ wire. wire };

    fn read_some(&mut self, room: &mut [u8]) -> Took {
        let took = self.link.read_some(room);
        if let Took::Got(count) = took {
            self.moves.add(Move::In(count));
        }
        took
    }

    fn write_some(&mut self, piece: &[u8]) -> Put
        requires { 0 < length piece.now }
        ensures writes { Writes self.old piece.now result self.new }
        ensures whole { TakesWhole piece.now result }
    {
        if self.output.extend_from_slice(piece).is_err() {
            self.write_faults = self.write_faults.saturating_add(1);
            return Put::Failed;
        }
        self.moves.add(Move::Out(piece.len()));
        Put::Wrote(piece.len())
    }
}
