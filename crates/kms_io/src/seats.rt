// Connections from which nothing comes, by the order in which they came.
use crate::crowd::Crowd;
use crate::guest::Guest;
use crate::moment::{Millis, since};
use std::alloc::Global;
use std::collections::BTreeMap;
use std::sync::Arc;

/// Connections by their tokens, which rise: the first one has waited for longest.
#[derive(Drop)]
pub struct Seats {
    crowd: Arc<Crowd, Global>,
    guests: BTreeMap<usize, Guest, Global>,
    closed: u64,
}

impl Seats {
    /// No connections of this crowd.
    pub fn new(alloc: Global, crowd: Arc<Crowd, Global>) -> Seats {
        Seats {
            crowd,
            guests: BTreeMap::new(alloc),
            closed: 0,
        }
    }

    /// How many there are.
    pub fn len(&self) -> usize {
        self.guests.len()
    }

    /// How many were closed here.
    pub fn closed(&self) -> u64 {
        self.closed
    }

    /// Adds the connection of a token that is greater than all before. Where there is no memory for it, it is closed.
    pub fn seat(&mut self, token: usize, guest: Guest) {
        if self.guests.insert(token, guest).is_err() {
            self.note_closed(1);
        }
    }

    /// Takes the connection of a token out, if it is there.
    pub fn take(&mut self, token: usize) -> Option<Guest> {
        self.guests.remove(&token)
    }

    /// Closes the one that has waited for longest, and tells whether there was one.
    pub fn close_oldest(&mut self) -> bool {
        let is_closed = self.guests.pop_first().is_some();
        if is_closed {
            self.note_closed(1);
        }
        is_closed
    }

    /// Closes those that have waited for so long.
    pub fn close_after(&mut self, time: Millis, now: Millis) {
        for _ in 0..self.len() {
            match self.guests.first_key_value() {
                Some((_, oldest)) if since(oldest.moment(), now) >= time => {}
                _ => return,
            }
            self.close_oldest();
        }
    }

    /// Closes all.
    pub fn close_all(&mut self) {
        self.note_closed(self.len() as u64);
        self.guests.clear();
    }

    // So many are closed.
    fn note_closed(&mut self, number: u64) {
        self.closed = self.closed.saturating_add(number);
        self.crowd.go(number);
    }
}
