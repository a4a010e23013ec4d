// Who waits for a worker.
use crate::arrivals::Arrivals;
use crate::crowd::Crowd;
use crate::guest::Guest;
use crate::input_watch::InputWatch;
use crate::moment::{Millis, moment, since};
use crate::seats::Seats;
use mio::net::{TcpListener, TcpStream};
use mio::{Events, Interest, Poll, Registry, Token};
use std::alloc::Global;
use std::collections::VecDeque;
use std::io::{ErrorKind, Input};
use std::net::Net;
use std::sync::{Arc, Mutex, Wait};
use std::time::Duration;
use std::{io, rt};

// How many connections wait at most. Then the one is closed that has sent nothing for longest, and where each has sent
// something, the one that is idle for longest.
const ROOM: usize = 10_000;

// How long a connection may send nothing.
const SILENT: Millis = 75_000;

// How long a wait lasts at most before what is too old is closed.
const TICK: Millis = 1_000;

// How long it is at first and at most until a connection that couldn't be taken is tried again.
const FIRST_PAUSE: Millis = 10;

const LAST_PAUSE: Millis = 1_000;

// After how long that counts as a failure.
const SHORTAGE: Millis = 60_000;

// For how long a connection that makes room for another counts as a worker that comes.
const CALL: Millis = 50;

// How many events, and how many new connections, are taken at once.
const EVENTS: usize = 64;

// The tokens of the listener and of standard input. Those of connections are greater: even where a connection has sent
// nothing yet, and odd where it was served.
const LISTENER: usize = 0;

const INPUT: usize = 1;

const FIRST: usize = 2;

/// What a wait came to.
#[derive(Drop)]
pub enum Heard {
    /// A connection that has bytes or is at its end, and how many such waited, with it.
    Guest(Guest, usize),
    /// No connection within a second.
    Nobody,
    /// No connection could be taken for a minute, or standard input ended.
    Failed,
}

// That no connection can be taken: since when, until when it isn't tried again, and how long that is.
#[derive(Clone, Copy)]
struct Shortage {
    begin: Millis,
    until: Millis,
    pause: Millis,
}

/// Connections that have bytes or are at their ends, in the order in which these came.
pub type Queue = Mutex<VecDeque<Guest>>;

/// The listener and the connections that wait for bytes: those that have sent nothing, and those that were served and are
/// idle. Where standard input is watched and has ended, none wait.
#[derive(Drop)]
pub struct Lobby {
    listener: TcpListener,
    input: InputWatch,
    poll: Poll,
    events: Events,
    crowd: Arc<Crowd, Global>,
    silent: Seats,
    idle: Seats,
    // Those that woke since the last look, and how many the queue had then.
    woken: VecDeque<Guest>,
    queued: usize,
    last_token: usize,
    has_more: bool,
    called: usize,
    called_at: Millis,
    shortage: Option<Shortage>,
    told_at: Option<Millis>,
}

/// The first connection of the queue, if there is one, and how many there were.
pub fn first_of<R: Wait>(rt: &R, queue: &Queue, crowd: &Crowd) -> Option<Heard> {
    let mut queue = queue.lock(rt);
    let waiting = queue.len();
    let guest = queue.pop_front()?;
    crowd.queues(queue.len());
    Some(Heard::Guest(guest, waiting))
}

impl Lobby {
    /// The lobby of this listener, in which nobody waits.
    pub fn new<R: Net>(
        rt: &R,
        alloc: Global,
        mut listener: TcpListener,
        crowd: Arc<Crowd, Global>,
    ) -> io::Result<Lobby> {
        let poll = Poll::new(rt)?;
        poll.registry()
            .register(&mut listener, Token(LISTENER), Interest::READABLE)?;
        Ok(Lobby {
            listener,
            input: InputWatch::Off,
            poll,
            events: Events::with_capacity(alloc, EVENTS)?,
            silent: Seats::new(alloc, Arc::try_clone(&crowd)?),
            idle: Seats::new(alloc, Arc::try_clone(&crowd)?),
            crowd,
            woken: VecDeque::new(alloc),
            queued: 0,
            last_token: FIRST,
            has_more: false,
            called: 0,
            called_at: 0,
            shortage: None,
            told_at: None,
        })
    }

    /// From now on it ends with standard input, where that can be watched.
    pub fn watch_input(&mut self) {
        self.input = InputWatch::begin(self.poll.registry(), Token(INPUT));
    }

    /// What tells it of connections that come back.
    pub fn registry(&self) -> io::Result<Registry> {
        self.poll.registry().try_clone()
    }

    /// How many connections were closed that had sent nothing.
    pub fn closed_silent(&self) -> u64 {
        self.silent.closed()
    }

    /// How many were closed that had been served.
    pub fn closed_idle(&self) -> u64 {
        self.idle.closed()
    }

    /// Whether standard input is watched and has ended.
    pub fn has_ended(&self) -> bool {
        self.input.has_ended()
    }

    /// Whether no connection can be taken now.
    pub fn is_short(&self) -> bool {
        self.shortage.is_some()
    }

    /// Waits for a second at most for a connection that has bytes or is at its end, where the queue has none.
    pub fn next<R: Wait + rt::Clock + Eprint + Input>(
        &mut self,
        rt: &R,
        arrivals: &Mutex<Arrivals>,
        queue: &Queue,
    ) -> Heard {
        if self.input.has_ended() {
            return Heard::Failed;
        }
        let now = moment(rt);
        self.called = self.called.saturating_sub(1);
        if let Some(heard) = first_of(rt, queue, &self.crowd) {
            return heard;
        }
        let patience = self.patience(now);
        if let Err(fault) = self.gather(rt, arrivals, queue, patience) {
            self.tell(rt, now, &fault);
            return Heard::Failed;
        }
        if self.input.has_ended() || self.gives_up(moment(rt)) {
            return Heard::Failed;
        }
        first_of(rt, queue, &self.crowd).unwrap_or(Heard::Nobody)
    }

    /// Sees who waits, without waiting.
    pub fn look<R: Wait + rt::Clock + Eprint + Input>(
        &mut self,
        rt: &R,
        arrivals: &Mutex<Arrivals>,
        queue: &Queue,
    ) {
        if !self.input.has_ended() {
            let _ = self.gather(rt, arrivals, queue, 0);
        }
    }

    /// Whether a connection waits, of so many, for which no worker makes room yet. Once standard input has ended all make
    /// room.
    pub fn is_awaited(&mut self, waiting: usize, now: Millis) -> bool {
        if self.input.has_ended() {
            return true;
        }
        if since(self.called_at, now) >= CALL {
            self.called = 0;
        }
        waiting > self.called
    }

    /// The same; where one does, whoever asks is to make room for it.
    pub fn calls(&mut self, waiting: usize, now: Millis) -> bool {
        if !self.is_awaited(waiting, now) {
            return false;
        }
        self.called = self.called.saturating_add(1);
        self.called_at = now;
        true
    }

    // How long a wait may last.
    fn patience(&self, now: Millis) -> Millis {
        match &self.shortage {
            Some(shortage) => since(now, shortage.until).min(TICK),
            None if self.has_more => 0,
            None => TICK,
        }
    }

    // Whether the shortage has lasted so long that it counts as a failure. It then begins anew.
    fn gives_up(&mut self, now: Millis) -> bool {
        match &self.shortage {
            Some(shortage) if since(shortage.begin, now) >= SHORTAGE => {
                self.shortage = None;
                true
            }
            _ => false,
        }
    }

    // Sees which connections have bytes, takes the new ones, and puts those with bytes into the queue.
    fn gather<R: Wait + rt::Clock + Eprint + Input>(
        &mut self,
        rt: &R,
        arrivals: &Mutex<Arrivals>,
        queue: &Queue,
        patience: Millis,
    ) -> io::Result<()> {
        self.poll
            .poll(&mut self.events, Some(Duration::from_millis(patience)))?;
        let now = moment(rt);
        self.admit(rt, arrivals);
        let has_input = self.wake_all(now);
        if has_input {
            self.look_at_input(rt, queue);
        }
        if !self.input.has_ended() {
            self.silent.close_after(SILENT, now);
            self.idle.close_after(SILENT, now);
            self.take_new(rt, now);
            self.pass_on(rt, queue);
        }
        Ok(())
    }

    // Puts those that woke into the queue.
    fn pass_on<R: Wait>(&mut self, rt: &R, queue: &Queue) {
        let mut queue = queue.lock(rt);
        for _ in 0..self.woken.len() {
            if let Some(guest) = self.woken.pop_front() {
                if queue.push_back(guest).is_err() {
                    self.crowd.go(1);
                }
            }
        }
        self.queued = queue.len();
        self.crowd.queues(self.queued);
    }

    // Takes the connections that have come back. They are watched already, so an event may be of one of them.
    fn admit<R: Wait>(&mut self, rt: &R, arrivals: &Mutex<Arrivals>) {
        let mut arrivals = arrivals.lock(rt);
        for _ in 0..arrivals.len() {
            if let Some((token, guest)) = arrivals.take() {
                self.make_room();
                self.idle.seat(token, guest);
            }
        }
    }

    // The token of an event.
    fn token_at(&self, place: usize) -> Option<usize> {
        let event = self.events.iter().nth(place)?;
        Some(event.token().0)
    }

    // Sees which connections have bytes, and tells whether standard input has something.
    fn wake_all(&mut self, now: Millis) -> bool {
        let mut has_input = false;
        for place in 0..EVENTS {
            match self.token_at(place) {
                None => return has_input,
                Some(LISTENER) => self.has_more = true,
                Some(INPUT) => has_input = true,
                Some(token) => self.wake(token, now),
            }
        }
        has_input
    }

    // Standard input has bytes, or has ended. Then those that wait are closed.
    fn look_at_input<R: Wait + Eprint + Input>(&mut self, rt: &R, queue: &Queue) {
        self.input.look(rt, self.poll.registry(), Token(INPUT));
        if self.input.has_ended() {
            self.silent.close_all();
            self.idle.close_all();
            self.woken.clear();
            queue.lock(rt).clear();
            let _ = eprintln!(rt; "standard input ended, and no more connections are taken");
        }
    }

    // Takes connections that wait at the listener, as long as there is room for more that have bytes.
    fn take_new<R: Eprint>(&mut self, rt: &R, now: Millis) {
        for _ in 0..EVENTS {
            if !self.has_more || self.queued >= ROOM || self.pauses(now) {
                return;
            }
            match self.listener.accept() {
                Ok((stream, _address)) => {
                    self.shortage = None;
                    self.crowd.comes();
                    self.seat(Guest::new(stream, now));
                }
                Err(fault) if fault.kind() == ErrorKind::WouldBlock => {
                    self.shortage = None;
                    self.has_more = false;
                }
                Err(fault) if fault.kind() == ErrorKind::ConnectionAborted => {}
                Err(fault) => self.fall_short(rt, now, &fault),
            }
        }
    }

    // Whether it isn't time yet to try again.
    fn pauses(&self, now: Millis) -> bool {
        match &self.shortage {
            Some(shortage) => now < shortage.until,
            None => false,
        }
    }

    // A connection couldn't be taken, mostly for want of descriptors. One from which nothing comes makes room, or it is
    // tried again after a pause.
    fn fall_short<R: Eprint>(&mut self, rt: &R, now: Millis, fault: &io::Error) {
        if self.close_oldest() {
            return;
        }
        let (begin, pause) = match &self.shortage {
            Some(last) => (last.begin, last.pause.saturating_mul(2).min(LAST_PAUSE)),
            None => (now, FIRST_PAUSE),
        };
        self.shortage = Some(Shortage {
            begin,
            until: now.saturating_add(pause),
            pause,
        });
        self.tell(rt, now, fault);
    }

    // Tells why no connection can be taken, once a minute at most.
    fn tell<R: Eprint>(&mut self, rt: &R, now: Millis, fault: &io::Error) {
        if let Some(told_at) = self.told_at {
            if since(told_at, now) < SHORTAGE {
                return;
            }
        }
        self.told_at = Some(now);
        let _ = eprintln!(rt; "no connection can be taken, and those that come wait: {fault}");
    }

    // A new connection waits: with those that have bytes, or with those that don't.
    fn seat(&mut self, mut guest: Guest) {
        if !guest.is_silent() {
            self.queue(guest);
            return;
        }
        self.make_room();
        self.last_token = self.last_token.wrapping_add(2).max(FIRST);
        if guest.watch(self.poll.registry(), self.last_token).is_ok() {
            self.silent.seat(self.last_token, guest);
        } else {
            self.crowd.go(1);
        }
    }

    // A connection has bytes. Where there is no memory for it, it is closed.
    fn queue(&mut self, guest: Guest) {
        if self.woken.push_back(guest).is_err() {
            self.crowd.go(1);
        }
    }

    // The connection of this token has bytes, or is at its end.
    fn wake(&mut self, token: usize, now: Millis) {
        let seats = if token % 2 == 0 {
            &mut self.silent
        } else {
            &mut self.idle
        };
        if let Some(mut guest) = seats.take(token) {
            guest.leave_alone(self.poll.registry());
            guest.woke(now);
            self.queue(guest);
        }
    }

    // Closes a connection where as many wait as may.
    fn make_room(&mut self) {
        let idle = self.silent.len().saturating_add(self.idle.len());
        if idle.saturating_add(self.queued) >= ROOM {
            self.close_oldest();
        }
    }

    // Closes the connection that has sent nothing for longest, or else the one that is idle for longest, and tells whether
    // there was one.
    fn close_oldest(&mut self) -> bool {
        self.silent.close_oldest() || self.idle.close_oldest()
    }
}
