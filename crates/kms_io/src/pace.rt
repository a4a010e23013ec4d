// How long a connection may keep its worker.
use crate::moment::{Millis, since};

/// How long a write, and a read at most, waits before it looks whether somebody waits. So long a connection may
/// be idle at most where somebody does.
pub const STILL: Millis = 50;

/// How long a connection that had its reply may be idle where there are more connections than workers, of which one is free.
pub const GRACE: Millis = 2;

/// How often a call looks at most: more often than any limit lasts.
pub const LOOKS: u32 = 100_000;

// How long a connection may be idle.
const IDLE: Millis = 75_000;

// How long a message may take from its first byte to its last.
const MESSAGE: Millis = 10_000;

// How long it may take where somebody waits.
const MESSAGE_IF_AWAITED: Millis = 2_000;

// How long a connection keeps its worker at least, but where it is idle or many wait. So long a message has also that
// waited for a worker.
const TURN: Millis = 250;

// How long it keeps it at least where so many wait that they would need longer than a round for it.
const SHORTEST_TURN: Millis = 10;

const ROUND: Millis = 1_000;

// After how many turns it gives it up also where more has come.
const TURNS: u64 = 4;

/// Why a connection is ended that its peer didn't end.
#[derive(Clone, Copy)]
pub enum Cause {
    /// Nothing came for too long.
    Idle,
    /// A message came, or was taken, too slowly.
    Slow,
    /// It had its turn.
    Turn,
}

/// What a connection does, and since which moment.
#[derive(Clone, Copy)]
enum Stage {
    /// It waits for a message.
    Idle(Millis),
    /// Some bytes of a message have come.
    Asking(Millis),
    /// Bytes are to go out.
    Replying(Millis),
}

/// How long a connection keeps its worker where so many wait for so many workers: so long that each of them has its turn
/// within a round, but no longer than usual, and long enough to be of use.
pub fn turn(waiting: usize, workers: u64) -> Millis {
    let share = ROUND.saturating_mul(workers).checked_div(waiting as u64);
    share.unwrap_or(TURN).clamp(SHORTEST_TURN, TURN)
}

/// How a connection spends the time of its worker.
#[derive(Clone, Copy)]
pub struct Pace {
    turn: Millis,
    begun: Option<Millis>,
    looked: Millis,
    stage: Stage,
}

impl Pace {
    /// A connection whose first bytes came at this moment, and which no worker has read yet, with a turn of this length.
    pub fn new(came: Millis, turn: Millis) -> Pace {
        Pace {
            turn,
            begun: None,
            looked: came,
            stage: Stage::Asking(came),
        }
    }

    /// How long a read waits before it looks whether somebody waits.
    pub fn still(&self) -> Millis {
        self.turn.min(STILL)
    }

    /// The worker reads or writes. The turn begins when it does so first.
    pub fn acts(&mut self, now: Millis) {
        if self.begun.is_none() {
            self.begun = Some(now);
        }
    }

    /// Some bytes came.
    pub fn came(&mut self, now: Millis) {
        if let Stage::Idle(_) = self.stage {
            self.stage = Stage::Asking(now);
        }
    }

    /// Whether all that was to go out has gone, and nothing has come since.
    pub fn is_idle(&self) -> bool {
        matches!(self.stage, Stage::Idle(_))
    }

    /// Bytes are to go out.
    pub fn replies(&mut self, now: Millis) {
        if !matches!(self.stage, Stage::Replying(_)) {
            self.stage = Stage::Replying(now);
        }
    }

    /// All of them have gone out.
    pub fn replied(&mut self, now: Millis) {
        self.stage = Stage::Idle(now);
    }

    /// Why the connection ends whether or not somebody waits. A message that waited for a worker has a turn.
    pub fn limit(&self, now: Millis) -> Option<Cause> {
        match self.stage {
            Stage::Idle(moment) if since(moment, now) >= IDLE => Some(Cause::Idle),
            Stage::Asking(moment) | Stage::Replying(moment)
                if since(moment, now) >= MESSAGE && self.has_lasted(TURN, now) => {
                Some(Cause::Slow)
            }
            _ => None,
        }
    }

    /// Why it ends where somebody waits.
    pub fn limit_if_awaited(&self, now: Millis) -> Option<Cause> {
        match self.stage {
            Stage::Idle(moment) if since(moment, now) >= STILL => Some(Cause::Idle),
            Stage::Idle(_) if self.has_lasted(self.turn, now) => Some(Cause::Turn),
            Stage::Asking(moment) | Stage::Replying(moment)
                if since(moment, now) >= MESSAGE_IF_AWAITED && self.has_lasted(TURN, now) => {
                Some(Cause::Slow)
            }
            _ => None,
        }
    }

    /// Whether it is time to look again whether somebody waits, and notes that it is done.
    pub fn looks(&mut self, now: Millis) -> bool {
        if since(self.looked, now) < STILL {
            return false;
        }
        self.looked = now;
        true
    }

    /// Whether its turn is so long that it ends also where more has come.
    pub fn had_longest_turn(&self, now: Millis) -> bool {
        self.has_lasted(self.turn.saturating_mul(TURNS), now)
    }

    fn has_lasted(&self, time: Millis, now: Millis) -> bool {
        match self.begun {
            Some(begun) => since(begun, now) >= time,
            None => false,
        }
    }
}
