// What is shown: of two workers beside one another, and of one worker.
ghost use Rattle.std.specs.Prelude.{◌≡◌};

use crate::ears::{Coming, ear_of, replies_in};
use crate::late::LateDoor;
use crate::messages::{LIST, LOOK, MAKE, NOTHING, OPEN, TURN};
use crate::stage::Stage;
use crate::worlds::{Failure, NOW, World};
use kms_io::{MemoryDoor, NoGate};
use kms_names::NoMemory;
use kms_server::{Outcome, Served};
use std::alloc::Global;
use std::rt;
use std::sync::Wait;
use std::thread::Threads;
use std::time::Clock;

// The one connection of a worker.
#[derive(Clone, Copy)]
struct Sent<'a> {
    // The number of the event after which it comes; 0 is no event.
    after: u64,
    messages: &'a [&'a str],
}

// A scene of two workers, of which each takes one connection. The event `held` waits for the event `until`.
#[derive(Clone, Copy)]
struct Pair<'a> {
    what: &'a str,
    held: u64,
    until: u64,
    one: Sent<'a>,
    two: Sent<'a>,
}

// The second key is at the desk at event 3, and its reply is event 5; the text was opened at event 4.
const HELD_AT_DESK: Pair<'static> = Pair {
    what: "a text is opened while a change is held at the desk",
    held: 3,
    until: 4,
    one: Sent {
        after: 0,
        messages: &[MAKE, MAKE],
    },
    two: Sent {
        after: 3,
        messages: &[OPEN],
    },
};

// The replies are the events 1 and 2, in either order. Behind the second one the other is answered already.
const AT_ONCE: Pair<'static> = Pair {
    what: "two calls, each of which waits after its reply until the other is answered",
    held: 1,
    until: 2,
    one: Sent {
        after: 0,
        messages: &[LIST],
    },
    two: Sent {
        after: 0,
        messages: &[LIST],
    },
};

// The key is at the desk at event 1, its reply is event 2, and its connection is given back at event 3.
const POSTED: Pair<'static> = Pair {
    what: "a worker takes a connection after another has ended one",
    held: 0,
    until: 0,
    one: Sent {
        after: 0,
        messages: &[MAKE],
    },
    two: Sent {
        after: 3,
        messages: &[NOTHING, LOOK],
    },
};

// The second worker's first reply is event 1; then the key is at the desk at event 2, and its reply is event 3.
const STILL_OPEN: Pair<'static> = Pair {
    what: "a key is made while a connection of another worker is open",
    held: 1,
    until: 3,
    one: Sent {
        after: 1,
        messages: &[MAKE],
    },
    two: Sent {
        after: 0,
        messages: &[NOTHING, LOOK],
    },
};

// What came of an order.
fn outcome_text(alloc: Global, outcome: Outcome) -> Result<String, Failure> {
    let text = match outcome {
        Outcome::Served(served, _kept) => {
            let Served {
                connections,
                front,
                is_whole,
            } = served;
            let end = if is_whole {
                ""
            } else {
                ", and a worker gave up"
            };
            format!(in alloc; "served {connections} front {front}{end}")
        }
        Outcome::Shut => format!(in alloc; "shut"),
        Outcome::NoMemory => return Err(Failure::from(NoMemory)),
    };
    Ok(text.map_err(NoMemory::from)?)
}

// What was answered at an ear of a door.
fn replies_at<W: Wait + Clock>(
    alloc: Global,
    door: &LateDoor<'_, W>,
    index: usize,
) -> Result<String, Failure> {
    match door.written(index) {
        Some(written) => replies_in(alloc, written),
        None => Err(Failure::Unlike),
    }
}

// Puts an ear for what one worker is sent behind the others.
fn add_ear<'a, W: Wait + Clock>(
    alloc: Global,
    door: &mut LateDoor<'a, W>,
    stage: &'a Stage<'a, W>,
    sent: &Sent<'_>,
) -> Result<(), NoMemory> {
    let coming = Coming {
        messages: sent.messages,
        ..ONE
    };
    door.add(ear_of(alloc, &coming)?, stage, sent.after)
}

// Shows what each of two workers answered, and what came of it.
fn show_end<W: rt::Runtime + Wait>(
    world: &World<'_, W>,
    what: &str,
    door: &LateDoor<'_, W>,
    outcome: Outcome,
) -> Result<(), Failure> {
    let one = replies_at(world.alloc, door, 0)?;
    let two = replies_at(world.alloc, door, 1)?;
    let end = outcome_text(world.alloc, outcome)?;
    println!(world.rt; "{what}: worker 1 has {one}; worker 2 has {two}; {end}")?;
    Ok(())
}

// Shows a scene of two workers.
fn show_pair<W: rt::Runtime + Threads + Wait + Sync>(
    world: &World<'_, W>,
    scene: &Pair<'_>,
) -> Result<(), Failure> {
    let stage = Stage::new(world.rt, scene.held, scene.until);
    let mut door = LateDoor::new(world.alloc);
    add_ear(world.alloc, &mut door, &stage, &scene.one)?;
    add_ear(world.alloc, &mut door, &stage, &scene.two)?;
    let outcome = world.serve(2, 1, NOW, &mut door, &stage)?;
    if stage.is_late() {
        return Err(Failure::Unlike);
    }
    show_end(world, scene.what, &door, outcome)
}

/// Two workers beside one another.
pub fn beside<W: rt::Runtime + Threads + Wait + Sync>(world: &World<'_, W>) -> Result<(), Failure> {
    for scene in &[HELD_AT_DESK, AT_ONCE, POSTED, STILL_OPEN] {
        show_pair(world, scene)?;
    }
    Ok(())
}

// A scene of one worker, or of four at the same door.
#[derive(Clone, Copy)]
struct Single<'a> {
    what: &'a str,
    coming: Coming<'a>,
    // How many connections the worker is to take.
    connections: u16,
    // The third answer of the clock.
    later: u32,
    is_shut: bool,
    // Whether there are four workers, and so too few ears.
    lacks_ears: bool,
}

const ONE: Coming<'static> = Coming {
    messages: &[MAKE],
    fails_to_write: false,
    is_twice: false,
    failures: 0,
};

const ONE_KEY: Single<'static> = Single {
    what: "a key",
    coming: ONE,
    connections: 1,
    later: NOW,
    is_shut: false,
    lacks_ears: false,
};

// The first message is answered at the first answer of the clock, the second one at the second, and housekeeping comes
// at the third, 90 days later.
const ROTATED: Single<'static> = Single {
    what: "a key, its rotation, and the housekeeping that is due 90 days later",
    coming: Coming {
        messages: &[MAKE, TURN],
        ..ONE
    },
    later: 1_707_776_000,
    ..ONE_KEY
};

const SECOND_LACKS: Single<'static> = Single {
    what: "a key, and no second connection",
    connections: 2,
    ..ONE_KEY
};

const FAILS_15: Single<'static> = Single {
    what: "an ear that fails 15 times",
    coming: Coming {
        failures: 15,
        ..ONE
    },
    ..ONE_KEY
};

const FAILS_15_TWICE: Single<'static> = Single {
    what: "an ear that fails 15 times before each of two connections, with a key made on each",
    coming: Coming {
        is_twice: true,
        failures: 15,
        ..ONE
    },
    connections: 2,
    ..ONE_KEY
};

// The pass holds the key's entry, so it is counted.
const UNWRITTEN: Single<'static> = Single {
    what: "a key whose reply can't be written",
    coming: Coming {
        fails_to_write: true,
        ..ONE
    },
    ..ONE_KEY
};

const FAILS_16: Single<'static> = Single {
    what: "an ear that fails 16 times",
    coming: Coming {
        failures: 16,
        ..ONE
    },
    ..ONE_KEY
};

const SHUT: Single<'static> = Single {
    what: "a door that can't be opened",
    is_shut: true,
    ..ONE_KEY
};

const FEWER_EARS: Single<'static> = Single {
    what: "a door of one ear for four workers",
    lacks_ears: true,
    ..ONE_KEY
};

// The door of a scene, whose first opening fails if it is shut.
fn door_of(alloc: Global, scene: &Single<'_>) -> Result<MemoryDoor, NoMemory> {
    let mut failing = Vec::new(alloc);
    if scene.is_shut {
        failing.push(0)?;
    }
    let mut ears = Vec::new(alloc);
    ears.push(ear_of(alloc, &scene.coming)?)?;
    Ok(MemoryDoor::new(alloc, ears, failing))
}

// Shows what came of a scene of one worker.
fn show_single<W: rt::Runtime + Threads + Wait + Sync>(
    world: &World<'_, W>,
    scene: &Single<'_>,
) -> Result<(), Failure> {
    let mut door = door_of(world.alloc, scene)?;
    let workers = if scene.lacks_ears { 4 } else { 1 };
    let outcome = world.serve(workers, scene.connections, scene.later, &mut door, &NoGate)?;
    let what = scene.what;
    let end = outcome_text(world.alloc, outcome)?;
    println!(world.rt; "{what}: {end}")?;
    Ok(())
}

/// One worker.
pub fn alone<W: rt::Runtime + Threads + Wait + Sync>(world: &World<'_, W>) -> Result<(), Failure> {
    for scene in &[
        ONE_KEY,
        ROTATED,
        SECOND_LACKS,
        FAILS_15,
        FAILS_15_TWICE,
        UNWRITTEN,
        FAILS_16,
        SHUT,
        FEWER_EARS,
    ] {
        show_single(world, scene)?;
    }
    Ok(())
}
