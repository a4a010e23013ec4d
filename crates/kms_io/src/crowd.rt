// How many connections and how many workers there are.
use std::sync::atomic::{AtomicU64, Ordering};

/// What is counted of a door's connections and ears.
#[derive(Drop)]
pub struct Crowd {
    // Connections that are open.
    there: AtomicU64,
    // Ears that were asked for a connection once, and those that are asked for one now.
    asked: AtomicU64,
    waiting: AtomicU64,
    // Connections with bytes that no ear has taken.
    queued: AtomicU64,
}

impl Crowd {
    /// Nobody is there.
    pub fn new() -> Crowd {
        Crowd {
            there: AtomicU64::new(0),
            asked: AtomicU64::new(0),
            waiting: AtomicU64::new(0),
            queued: AtomicU64::new(0),
        }
    }

    /// A connection was opened.
    pub fn comes(&self) {
        self.there.fetch_add(1, Ordering::SeqCst);
    }

    /// So many connections were closed.
    pub fn go(&self, number: u64) {
        self.there.fetch_sub(number, Ordering::SeqCst);
    }

    /// An ear is asked for the first time.
    pub fn begins(&self) {
        self.asked.fetch_add(1, Ordering::SeqCst);
    }

    /// An ear is asked for a connection.
    pub fn waits(&self) {
        self.waiting.fetch_add(1, Ordering::SeqCst);
    }

    /// It has its answer.
    pub fn has(&self) {
        self.waiting.fetch_sub(1, Ordering::SeqCst);
    }

    /// How many ears were asked.
    pub fn asked(&self) -> u64 {
        self.asked.load(Ordering::SeqCst)
    }

    /// So many connections have bytes.
    pub fn queues(&self, number: usize) {
        self.queued.store(number as u64, Ordering::SeqCst);
    }

    /// Whether there are more connections than workers.
    pub fn is_large(&self) -> bool {
        self.there.load(Ordering::SeqCst) > self.asked()
    }

    /// Whether those with bytes take all ears that wait, or none waits.
    pub fn is_unheard(&self) -> bool {
        self.queued.load(Ordering::SeqCst) >= self.waiting.load(Ordering::SeqCst)
    }
}
