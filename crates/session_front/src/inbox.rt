// The bytes that have come and aren't answered, in a buffer that is reserved once.
ghost use Rattle.std.specs.Prelude.{◌≡◌, ◌-◌, ◌<◌, ◌≤◌, ℕ, List, [], length, take, drop, IfOk, MatchBool};
ghost use Rattle.session_front.specs.Inbox.{inbox_room, Fills};

use kms_io::{Link, Took};
use std::alloc::{AllocError, Global};
use std::marker::Model;

/// How many bytes the buffer holds: more than the longest message has.
pub const ROOM: usize = 147_456;

/// The bytes that have come from a connection and aren't answered, in order. Contracts see their list.
#[derive(Drop)]
pub struct Inbox {
    bytes: Vec<u8>,
    start: usize,
    end: usize,
}

impl Model for Inbox {
    ghost Value = { List ℕ };

    ghost view = { λ b. drop b.start (take b.end b.bytes.items) };

    ghost invariant = { λ b. (b.start ≤ b.end) × (b.end ≤ inbox_room) × (length b.bytes.items ≡ inbox_room) };
}

impl Inbox {
    /// The empty buffer. It reserves all its memory.
    pub fn new(alloc: Global) -> Result<Inbox, AllocError>
        ensures { IfOk result (λ b. b ≡ []) }
    {
        let bytes = vec![in alloc; 0; ROOM]?;
        Ok(Inbox {
            bytes,
            start: 0,
            end: 0,
        })
    }

    /// The bytes.
    pub fn bytes(&self) -> &[u8]
        ensures value { result.now ≡ self.now }
        ensures fits { length self.now ≤ inbox_room }
    {
        between(&self.bytes, self.start, self.end)
    }

    /// Whether there are none.
    pub fn is_empty(&self) -> bool
        ensures { MatchBool result (self.now ≡ []) (0 < length self.now) }
    {
        self.start == self.end
    }

    /// Reads once from the link, to the end of the bytes. What is there is moved to the front of the buffer
    /// where no room is left behind it. So the room that the link is given has the whole buffer exactly where
    /// there are no bytes, which tells the link that none are left to be answered.
    pub fn fill<L: Link>(&mut self, link: &mut L) -> Took
        requires { length self.old < inbox_room }
        ensures { Fills (L.shows link.old) self.old result (L.shows link.new) self.new }
    {
        if self.end == ROOM || self.is_empty() {
            settle(&mut self.bytes, &mut self.start, &mut self.end);
        }
        read_into(link, &mut self.bytes, self.start, &mut self.end)
    }

    /// Lets so many bytes at the front go.
    pub fn drop_front(&mut self, count: usize)
        requires { count ≤ length self.old }
        ensures { self.new ≡ drop count self.old }
    {
        self.start += count;
    }
}

// The bytes from one place to another.
fn between(bytes: &[u8], start: usize, end: usize) -> &[u8]
    requires start { start ≤ end }
    requires end { end ≤ length bytes.now }
    ensures { result.now ≡ drop start (take end bytes.now) }
{
    &bytes[..end][start..]
}

// Reads once, behind the bytes that are there.
fn read_into<L: Link>(link: &mut L, bytes: &mut [u8], start: usize, filled: &mut usize) -> Took
    requires room { filled.old < length bytes.old }
    requires start { start ≤ filled.old }
    ensures fills { Fills (L.shows link.old) (drop start (take filled.old bytes.old)) result (L.shows link.new) (drop start (take filled.new bytes.new)) }
    ensures grows { filled.old ≤ filled.new }
    ensures fits { filled.new ≤ length bytes.new }
{
    let at = *filled;
    let took = link.read_some(&mut bytes[at..]);
    if let Took::Got(count) = took {
        *filled = at + count;
    }
    took
}

// Moves the bytes from one place to another to the front.
fn settle(bytes: &mut [u8], start: &mut usize, end: &mut usize)
    requires start { start.old ≤ end.old }
    requires end { end.old ≤ length bytes.old }
    ensures bytes { drop start.new (take end.new bytes.new) ≡ drop start.old (take end.old bytes.old) }
    ensures start { start.new ≡ 0 }
    ensures end { end.new ≡ end.old - start.old }
{
    bytes.copy_within(*start..*end, 0);
    *end -= *start;
    *start = 0;
}
