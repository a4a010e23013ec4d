// A TCP connection that ends by the clock.
ghost use Rattle.std.specs.Prelude.{◌≤◌, length, IfOk};

use crate::again::{read_again, write_again};
use crate::guest::Guest;
use crate::hall::Hall;
use crate::moment::{Millis, moment};
use crate::pace::{Cause, GRACE, LOOKS, Pace, STILL};
use std::alloc::Global;
use std::io::{ErrorKind, Input};
use std::net::{Shutdown, TcpStream};
use std::sync::{Arc, Wait};
use std::time::Duration;
use std::{io, rt};

/// A TCP connection that is served, which ends where it lasts too long, and waits again where nothing comes while others
/// are there.
#[derive(Drop)]
pub struct TimedStream<'a, R> {
    rt: &'a R,
    hall: Arc<Hall, Global>,
    stream: TcpStream,
    still: Millis,
    pace: Pace,
    // How long the room of the first read was.
    room: usize,
    cause: Option<Cause>,
    is_at_end: bool,
    is_parked: bool,
}

impl<'a, R: rt::Clock> TimedStream<'a, R> {
    /// The connection that waited in this hall, one of so many. An error where the stream doesn't take what is set on it.
    pub fn new(
        rt: &'a R,
        hall: &Arc<Hall, Global>,
        guest: Guest,
        waiting: usize,
    ) -> io::Result<TimedStream<'a, R>> {
        let (stream, still, came) = guest.leave();
        let pace = Pace::new(came, hall.turn(waiting));
        if still.is_none() {
            stream.set_nonblocking(false)?;
            stream.set_nodelay(true)?;
            stream.set_write_timeout(Some(Duration::from_millis(STILL)))?;
        }
        hall.counts.take(still.is_none());
        Ok(TimedStream {
            rt,
            hall: Arc::try_clone(hall)?,
            stream,
            still: still.unwrap_or(0),
            pace,
            room: 0,
            cause: None,
            is_at_end: false,
            is_parked: false,
        })
    }
}

impl<R: Wait + rt::Clock> TimedStream<'_, R> {
    /// Gives it back: it waits again, or it is closed.
    pub fn give_back(self) {
        let TimedStream {
            rt,
            hall,
            stream,
            still,
            pace: _,
            room: _,
            cause,
            is_at_end,
            is_parked,
        } = self;
        let stream = if is_parked {
            match hall.park(rt, Guest::served(stream, still, moment(rt))) {
                Ok(()) => return,
                Err(guest) => guest.leave().0,
            }
        } else {
            stream
        };
        hall.counts.end(cause);
        hall.lose();
        if !is_at_end {
            close(rt, &hall, stream);
        }
    }
}

// Closes a connection for writing, and keeps what is left of it for a moment.
fn close<R: Wait + rt::Clock>(rt: &R, hall: &Hall, stream: TcpStream) {
    let is_left = stream.shutdown(Shutdown::Write).is_ok() && stream.set_nonblocking(true).is_ok();
    if is_left {
        hall.see_off(rt, stream);
    }
}

impl<R: Wait + rt::Clock + Eprint + Input> TimedStream<'_, R> {
    /// Reads some bytes. It answers 0 at the end, where the connection has lasted too long, and where it is to wait again.
    pub fn read(&mut self, room: &mut [u8]) -> io::Result<usize>
        ensures { IfOk result (λ n. n ≤ length room.new) }
    {
        let is_settled = self.is_settled(room.len());
        for look in 0..LOOKS {
            self.is_parked = is_settled && self.hall.has_it_wait(look > 0);
            if self.is_parked || self.is_over(is_settled) {
                return Ok(0);
            }
            self.set_still(is_settled)?;
            let answer = read_again(&mut self.stream, room);
            if !would_wait(&answer) {
                self.note_read(&answer);
                return answer;
            }
        }
        Ok(0)
    }

    /// Writes some bytes. It answers 0 where the connection has lasted too long.
    pub fn write(&mut self, piece: &[u8]) -> io::Result<usize>
        ensures { IfOk result (λ n. n ≤ length piece.now) }
    {
        self.pace.replies(moment(self.rt));
        for _ in 0..LOOKS {
            if self.is_over(false) {
                return Ok(0);
            }
            let answer = write_again(&mut self.stream, piece);
            if !would_wait(&answer) {
                self.note_write(&answer, piece.len());
                return answer;
            }
        }
        Ok(0)
    }

    // Whether the session holds nothing of a message that isn't answered, where connections wait again: a reply was written
    // since the last read, and the room is as long as that of the first read, when it held nothing.
    fn is_settled(&mut self, room: usize) -> bool {
        if self.room == 0 {
            self.room = room;
        }
        self.hall.parks() && self.pace.is_idle() && room == self.room
    }

    // Notes what a read came to.
    fn note_read(&mut self, answer: &io::Result<usize>) {
        match answer {
            Ok(count) if *count > 0 => self.pace.came(moment(self.rt)),
            _ => self.is_at_end = true,
        }
    }

    // Notes what a write of so many bytes came to.
    fn note_write(&mut self, answer: &io::Result<usize>, size: usize) {
        match answer {
            Ok(count) if *count == size => self.pace.replied(moment(self.rt)),
            Ok(_) => {}
            Err(_) => self.is_at_end = true,
        }
    }

    // Sets how long a read waits, where that changes. Where others are there it isn't set for a message.
    fn set_still(&mut self, is_settled: bool) -> io::Result<()> {
        let still = match (self.hall.is_crowded(), is_settled) {
            (true, true) => GRACE,
            (true, false) if self.still > 0 => self.still,
            _ => self.pace.still(),
        };
        if still != self.still {
            self.stream
                .set_read_timeout(Some(Duration::from_millis(still)))?;
            self.still = still;
        }
        Ok(())
    }

    // Whether it has lasted too long, and notes why. One whose session holds nothing makes no room, but waits again.
    fn is_over(&mut self, is_settled: bool) -> bool {
        let now = moment(self.rt);
        self.pace.acts(now);
        self.cause = match self.pace.limit(now) {
            Some(cause) => Some(cause),
            None if is_settled => None,
            None => self.makes_room(now),
        };
        self.cause.is_some()
    }

    // Why it makes room for somebody who waits, if it does. It looks who waits from time to time. Between two messages it
    // does so only where nothing more has come, but for a turn that has lasted longest; and it closes its half at once, so
    // that nothing comes in between.
    fn makes_room(&mut self, now: Millis) -> Option<Cause> {
        if self.pace.looks(now) {
            self.hall.look(self.rt);
        }
        let cause = self.pace.limit_if_awaited(now)?;
        let may_go_on = match cause {
            Cause::Idle => true,
            Cause::Turn => !self.pace.had_longest_turn(now),
            Cause::Slow => false,
        };
        if !self.hall.is_awaited(self.rt, now)
            || (may_go_on && self.has_more())
            || !self.hall.calls(self.rt, now)
        {
            return None;
        }
        let _ = self.stream.shutdown(Shutdown::Write);
        Some(cause)
    }

    // Whether more has come, without waiting for it. Where that can't be told, it has.
    fn has_more(&self) -> bool {
        if self.stream.set_nonblocking(true).is_err() {
            return true;
        }
        let is_still = would_wait(&self.stream.peek(&mut [0]));
        self.stream.set_nonblocking(false).is_err() || !is_still
    }
}

// Whether a call ended because it had waited for as long as it may.
fn would_wait(answer: &io::Result<usize>) -> bool {
    match answer {
        Ok(_) => false,
        Err(fault) => matches!(fault.kind(), ErrorKind::WouldBlock | ErrorKind::TimedOut),
    }
}
