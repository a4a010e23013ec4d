// The order in which two workers are served.
use kms_io::{Gate, Point};
use std::sync::{Condvar, Mutex, Wait};
use std::time::{Clock, Duration};

// How long a wait may last, in seconds, before the scene is given up.
const PATIENCE: u64 = 60;

// How many events came, and whether one was awaited for too long.
#[derive(Clone, Copy)]
struct Progress {
    events: u64,
    is_late: bool,
}

/// The events of a scene, numbered from 1 as they come: a change that is at the desk, a reply that was written,
/// and a connection that was given back. One of them, if it is a gate's, is held until another has come.
#[derive(Drop)]
pub struct Stage<'a, W: Wait + Clock> {
    rt: &'a W,
    progress: Mutex<Progress>,
    changed: Condvar,
    held: u64,
    until: u64,
}

impl<'a, W: Wait + Clock> Stage<'a, W> {
    /// The stage on which the event `held` waits for the event `until`. No event has the number 0.
    pub fn new(rt: &'a W, held: u64, until: u64) -> Stage<'a, W> {
        Stage {
            rt,
            progress: Mutex::new(Progress {
                events: 0,
                is_late: false,
            }),
            changed: Condvar::new(),
            held,
            until,
        }
    }

    /// An event comes, which is given its number.
    pub fn add(&self) -> u64 {
        let mut progress = self.progress.lock(self.rt);
        progress.events = progress.events.saturating_add(1);
        self.changed.notify_all();
        progress.events
    }

    /// Waits until the event of this number has come. Where that takes too long, nothing is awaited any more, so
    /// that workers who have no thread of their own end too.
    pub fn await_event(&self, number: u64) {
        let limit = Duration::from_secs(PATIENCE);
        let (mut progress, waited) = self.changed.wait_timeout_while(
            self.rt,
            self.progress.lock(self.rt),
            limit,
            |progress| progress.events < number && !progress.is_late,
        );
        if waited.timed_out() {
            progress.is_late = true;
            self.changed.notify_all();
        }
    }

    /// Whether an event was awaited for too long.
    pub fn is_late(&self) -> bool {
        self.progress.lock(self.rt).is_late
    }
}

impl<W: Wait + Clock> Gate for Stage<'_, W> {
    fn at(&self, _point: Point) {
        if self.add() == self.held {
            self.await_event(self.until);
        }
    }
}
