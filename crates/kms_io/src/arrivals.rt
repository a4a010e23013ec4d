// Connections that were served and wait again.
use crate::guest::Guest;
use mio::Registry;
use std::alloc::Global;
use std::collections::VecDeque;

/// Connections that are given back while others may wait for events, each with its token. These are odd, and rise.
#[derive(Drop)]
pub struct Arrivals {
    guests: VecDeque<(usize, Guest)>,
    last_token: usize,
    is_shut: bool,
}

impl Arrivals {
    /// None yet.
    pub fn new(alloc: Global) -> Arrivals {
        Arrivals {
            guests: VecDeque::new(alloc),
            last_token: 1,
            is_shut: false,
        }
    }

    /// Adds a connection, which is watched from now on. It is given back where none may come any more, or it can't be.
    pub fn add(&mut self, registry: &Registry, mut guest: Guest) -> Result<(), Guest> {
        if self.is_shut {
            return Err(guest);
        }
        self.last_token = self.last_token.wrapping_add(2);
        if guest.watch(registry, self.last_token).is_err() {
            return Err(guest);
        }
        match self.guests.push_back((self.last_token, guest)) {
            Ok(()) => Ok(()),
            Err(refused) => Err(refused.value.1),
        }
    }

    /// How many have come.
    pub fn len(&self) -> usize {
        self.guests.len()
    }

    /// Takes the one that came first.
    pub fn take(&mut self) -> Option<(usize, Guest)> {
        self.guests.pop_front()
    }

    /// From now on none may come. Tells how many there were.
    pub fn shut(&mut self) -> u64 {
        self.is_shut = true;
        let number = self.guests.len() as u64;
        self.guests.clear();
        number
    }
}
