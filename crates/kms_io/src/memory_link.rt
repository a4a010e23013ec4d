// A link over bytes in memory, which can be made to fail and to give pieces of any size.
ghost use Rattle.std.specs.Prelude.{◌≡◌, ◌+◌, ◌<◌, ◌≤◌, [], Some, length, take, drop, slice_index};
ghost use Rattle.kms_io.specs.Script.{piece_of};
ghost use Rattle.kms_io.specs.Wire.{Wire};

use crate::moves::Moves;
use crate::{Link, Move, Put, Took};
use std::alloc::Global;

/// A connection over bytes in memory, which tells all its bytes, and its calls that moved any as long as
/// there is memory to keep them. Its reads give the input in pieces,
/// and its writes are kept. Calls are numbered from 0, reads and writes apart, and fail where their
/// number stands in a list; a write fails too where there isn't memory enough to keep its bytes.
#[derive(Drop)]
pub struct MemoryLink {
    input: Vec<u8>,
    at: usize,
    pieces: Vec<usize>,
    failing_reads: Vec<u64>,
    failing_writes: Vec<u64>,
    reads: u64,
    writes: u64,
    output: Vec<u8>,
    moves: Moves,
    read_faults: u64,
    write_faults: u64,
    ghost in_range: { at ≤ length input.items },
}

impl MemoryLink {
    ghost use Rattle.kms_io.specs.MemoryLink.{wire_of, script_of};

    /// The connection from which this input comes, with the most bytes that each read gives and the
    /// numbers of the reads and of the writes that fail. A piece of 0 bytes, or one that the list
    /// lacks, stands for all that fits. It takes no memory.
    pub fn new(
        alloc: Global,
        input: Vec<u8>,
        pieces: Vec<usize>,
        failing_reads: Vec<u64>,
        failing_writes: Vec<u64>,
    ) -> MemoryLink
        ensures wire { wire_of result ≡ record {
          taken = Some [];
          written = Some [];
          left = Some input.items;
          moves = Some [];
          read_faults = 0;
          write_faults = 0;
        } }
        ensures script { script_of result ≡ record {
          reads = record { made = 0; failing = failing_reads.items };
          writes = record { made = 0; failing = failing_writes.items };
          pieces = pieces.items;
        } }
    {
        MemoryLink {
            input,
            at: 0,
            pieces,
            failing_reads,
            failing_writes,
            reads: 0,
            writes: 0,
            output: Vec::new(alloc),
            moves: Moves::new(alloc),
            read_faults: 0,
            write_faults: 0,
        }
    }

    /// The bytes written so far.
    pub fn written(&self) -> &[u8]
        ensures { (wire_of self.now).written ≡ Some result.now }
    {
        &self.output
    }
}

impl Link for MemoryLink {
    ghost use Rattle.kms_io.specs.Calls.{one_more};
    ghost use Rattle.kms_io.specs.Link.{Reads, Writes};
    ghost use Rattle.kms_io.specs.Script.{GivesPiece, TakesPiece};
    ghost use Rattle.kms_io.specs.MemoryLink.{wire_of, left_of, script_of};

    ghost shows = { wire_of };

    fn read_some(&mut self, room: &mut [u8]) -> Took
        requires { 0 < length room.old }
        ensures reads { Reads (wire_of self.old) room.new result (wire_of self.new) }
        ensures piece { GivesPiece (script_of self.old) room.old (left_of self.old) result }
        ensures script { script_of self.new ≡ record (script_of self.old) { reads = one_more (script_of self.old).reads } }
    {
        let call = self.reads;
        self.reads = call.saturating_add(1);
        if self.failing_reads.contains(&call) {
            self.read_faults = self.read_faults.saturating_add(1);
            return Took::Failed;
        }
        let rest = self.input.len() - self.at;
        if rest == 0 {
            return Took::End;
        }
        let count = piece_at(&self.pieces, call, room.len().min(rest));
        give(&self.input, self.at, room, count);
        self.at += count;
        self.moves.add(Move::In(count));
        Took::Got(count)
    }

    fn write_some(&mut self, piece: &[u8]) -> Put
        requires { 0 < length piece.now }
        ensures writes { Writes (wire_of self.old) piece.now result (wire_of self.new) }
        ensures piece { TakesPiece (script_of self.old) piece.now result }
        ensures script { script_of self.new ≡ record (script_of self.old) { writes = one_more (script_of self.old).writes } }
    {
        let call = self.writes;
        self.writes = call.saturating_add(1);
        if self.failing_writes.contains(&call) || self.output.extend_from_slice(piece).is_err() {
            self.write_faults = self.write_faults.saturating_add(1);
            return Put::Failed;
        }
        self.moves.add(Move::Out(piece.len()));
        Put::Wrote(piece.len())
    }
}

// Puts the next bytes of the input at the front of the room.
fn give(input: &[u8], at: usize, room: &mut [u8], count: usize)
    requires input { at + count ≤ length input.now }
    requires room { count ≤ length room.old }
    ensures { take count room.new ≡ take count (drop at input.now) }
{
    room[..count].copy_from_slice(&input[at..at + count]);
}

// How many bytes this read gives. No piece, or one of 0 bytes, stands for all that fits.
fn piece_at(pieces: &[usize], call: u64, most: usize) -> usize
    requires { 0 < most }
    ensures some { 0 < result }
    ensures fits { result ≤ most }
    ensures value { result ≡ piece_of (slice_index pieces.now call) most }
{
    match pieces.get(call as usize) {
        None | Some(0) => most,
        Some(piece) => most.min(*piece),
    }
}
