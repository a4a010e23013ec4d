// What the ears of an opening share.
use crate::arrivals::Arrivals;
use crate::crowd::Crowd;
use crate::guest::Guest;
use crate::lobby::{Heard, Lobby, Queue, first_of};
use crate::moment::{Millis, moment, since};
use crate::pace::{Cause, turn};
use mio::Registry;
use std::alloc::Global;
use std::collections::VecDeque;
use std::io::{Input, Read};
use std::net::TcpStream;
use std::sync::atomic::{AtomicU64, Ordering};
use std::sync::{Arc, Mutex, Wait};
use std::{io, rt};

// How long a connection stays half closed, so that no reply is lost by a reset.
const LEAVE: Millis = 500;

// How many stay so at most.
const LEAVING: usize = 16;

// How much is read of each at most before it is closed.
const READS: u32 = 16;

const ROOM: usize = 4096;

// After how long it is told that not every ear is asked.
const START: Millis = 3_000;

// A connection that is closed for writing.
#[derive(Drop)]
struct Leaver {
    stream: TcpStream,
    moment: Millis,
}

impl Leaver {
    // Reads what has come, and closes the connection.
    fn close(self) {
        let mut stream = self.stream;
        let mut room = [0; ROOM];
        for _ in 0..READS {
            match stream.read(&mut room) {
                Ok(count) if count > 0 => {}
                _ => return,
            }
        }
    }
}

/// How many connections were served, how often one was taken, and how many of them were ended, for each cause.
#[derive(Drop)]
pub struct Counts {
    served: AtomicU64,
    taken: AtomicU64,
    idle: AtomicU64,
    slow: AtomicU64,
    turn: AtomicU64,
}

impl Counts {
    fn new() -> Counts {
        Counts {
            served: AtomicU64::new(0),
            taken: AtomicU64::new(0),
            idle: AtomicU64::new(0),
            slow: AtomicU64::new(0),
            turn: AtomicU64::new(0),
        }
    }

    /// A worker took a connection: a new one, or one that had waited again.
    pub fn take(&self, is_new: bool) {
        self.taken.fetch_add(1, Ordering::SeqCst);
        if is_new {
            self.served.fetch_add(1, Ordering::SeqCst);
        }
    }

    /// A connection ended for this cause, if not by its peer.
    pub fn end(&self, cause: Option<Cause>) {
        match cause {
            Some(Cause::Idle) => self.idle.fetch_add(1, Ordering::SeqCst),
            Some(Cause::Slow) => self.slow.fetch_add(1, Ordering::SeqCst),
            Some(Cause::Turn) => self.turn.fetch_add(1, Ordering::SeqCst),
            None => 0,
        };
    }
}

/// What the ears of an opening share: who waits, who comes back, who leaves, and what was counted.
#[derive(Drop)]
pub struct Hall {
    lobby: Mutex<Lobby>,
    queue: Queue,
    arrivals: Mutex<Arrivals>,
    registry: Registry,
    leaving: Mutex<Vec<Leaver>>,
    crowd: Arc<Crowd, Global>,
    parks: bool,
    ears: u64,
    told: AtomicU64,
    opened: Millis,
    pub counts: Counts,
}

impl Hall {
    /// The hall of so many ears, in which connections wait again or don't.
    pub fn new<R: rt::Clock>(
        rt: &R,
        alloc: Global,
        lobby: Lobby,
        crowd: Arc<Crowd, Global>,
        ears: u16,
        parks: bool,
    ) -> io::Result<Hall> {
        let registry = lobby.registry()?;
        Ok(Hall {
            lobby: Mutex::new(lobby),
            queue: Mutex::new(VecDeque::new(alloc)),
            arrivals: Mutex::new(Arrivals::new(alloc)),
            registry,
            leaving: Mutex::new(Vec::new(alloc)),
            crowd,
            parks,
            ears: u64::from(ears),
            told: AtomicU64::new(0),
            opened: moment(rt),
            counts: Counts::new(),
        })
    }

    /// An ear is asked for the first time.
    pub fn begin(&self) {
        self.crowd.begins();
    }

    /// Waits for a connection: the first one with bytes, or else the next that has some. The ear that waits first holds the
    /// lobby, and others wait behind it.
    pub fn next<R: Wait + rt::Clock + Eprint + Input>(&self, rt: &R) -> Heard {
        self.crowd.waits();
        let heard = match first_of(rt, &self.queue, &self.crowd) {
            Some(heard) => heard,
            None => self.await_one(rt),
        };
        self.crowd.has();
        self.tell_missing(rt);
        heard
    }

    // Waits in the lobby.
    fn await_one<R: Wait + rt::Clock + Eprint + Input>(&self, rt: &R) -> Heard {
        let mut lobby = self.lobby.lock(rt);
        let heard = lobby.next(rt, &self.arrivals, &self.queue);
        let is_short = lobby.is_short();
        if lobby.has_ended() {
            self.arrivals.lock(rt).shut();
        }
        drop(lobby);
        self.close_leaving(rt, is_short);
        heard
    }

    /// How long a connection keeps its worker that is taken where so many wait.
    pub fn turn(&self, waiting: usize) -> Millis {
        turn(waiting, self.crowd.asked())
    }

    /// Sees who waits, where no ear does.
    pub fn look<R: Wait + rt::Clock + Eprint + Input>(&self, rt: &R) {
        if let Some(mut lobby) = self.lobby.try_lock() {
            lobby.look(rt, &self.arrivals, &self.queue);
        }
    }

    /// Whether connections wait again here.
    pub fn parks(&self) -> bool {
        self.parks
    }

    /// Whether connections wait again here, and there are more of them than workers.
    pub fn is_crowded(&self) -> bool {
        self.parks && self.crowd.is_large()
    }

    /// Whether a connection from which nothing comes is to wait again: once it was idle for a while, or else where there are
    /// more of them than workers, and no worker is free; or where it was idle, and no worker is free.
    pub fn has_it_wait(&self, was_idle: bool) -> bool {
        self.parks
            && match (self.crowd.is_large(), was_idle) {
                (true, true) => true,
                (false, false) => false,
                _ => self.crowd.is_unheard(),
            }
    }

    /// Has a connection wait again. It is given back where it can't.
    pub fn park<R: Wait>(&self, rt: &R, guest: Guest) -> Result<(), Guest> {
        self.arrivals.lock(rt).add(&self.registry, guest)
    }

    /// A connection was closed.
    pub fn lose(&self) {
        self.crowd.go(1);
    }

    /// Whether a connection waits for which no worker makes room, where no ear is asked for one; or standard input, which
    /// is watched, has ended.
    pub fn is_awaited<R: Wait>(&self, rt: &R, now: Millis) -> bool {
        match self.lobby.try_lock() {
            Some(mut lobby) => lobby.is_awaited(self.queue.lock(rt).len(), now),
            None => false,
        }
    }

    /// The same; where one does, whoever asks is to make room for it.
    pub fn calls<R: Wait>(&self, rt: &R, now: Millis) -> bool {
        match self.lobby.try_lock() {
            Some(mut lobby) => lobby.calls(self.queue.lock(rt).len(), now),
            None => false,
        }
    }

    /// Keeps a connection that is closed for writing for a moment, so that no reply is lost by a reset.
    pub fn see_off<R: Wait + rt::Clock>(&self, rt: &R, stream: TcpStream) {
        let moment = moment(rt);
        let mut leaving = self.leaving.lock(rt);
        if leaving.len() >= LEAVING {
            leaving.remove(0).close();
        }
        let _ = leaving.push(Leaver { stream, moment });
    }

    /// Tells what was counted.
    pub fn tell<R: Eprint>(&self, rt: &R) {
        let (silent, unused) = match self.lobby.try_lock() {
            Some(lobby) => (lobby.closed_silent(), lobby.closed_idle()),
            None => (0, 0),
        };
        let counts = &self.counts;
        let served = counts.served.load(Ordering::SeqCst);
        let taken = counts.taken.load(Ordering::SeqCst);
        let idle = counts.idle.load(Ordering::SeqCst).saturating_add(unused);
        let slow = counts.slow.load(Ordering::SeqCst);
        let turn = counts.turn.load(Ordering::SeqCst);
        let _ = eprintln!(rt;
            "served {served} connections, taken {taken} times; ended {idle} idle, {slow} slow, {turn} after their turn, {silent} that sent nothing"
        );
    }

    // Closes those that have left for long enough, or all.
    fn close_leaving<R: Wait + rt::Clock>(&self, rt: &R, all: bool) {
        let now = moment(rt);
        let mut leaving = self.leaving.lock(rt);
        for _ in 0..LEAVING {
            match leaving.first() {
                Some(first) if all || since(first.moment, now) >= LEAVE => {
                    leaving.remove(0).close();
                }
                _ => return,
            }
        }
    }

    // Tells once where some ears aren't asked, since there is no thread for them.
    fn tell_missing<R: rt::Clock + Eprint>(&self, rt: &R) {
        let asked = self.crowd.asked();
        if asked >= self.ears || since(self.opened, moment(rt)) < START {
            return;
        }
        if self.told.swap(1, Ordering::SeqCst) == 0 {
            let _ = eprintln!(rt; "only {asked} of {} workers have a thread", self.ears);
        }
    }
}
