// A read beside a change that is held at the desk.
ghost use Rattle.std.specs.Prelude.{◌≡◌};

use crate::requests::{Failure, LOOK, MAKE, Stage, front};
use kms_io::{Gate, NoGate, Point};
use publish_pass::{Pass, Realm};
use std::rt;
use std::sync::Wait;
use std::sync::atomic::{AtomicU64, Ordering};
use std::thread::{Threads, join, yield_now};

// What the word says: that a change is at the desk, and that it may go on.
const AT_DESK: u64 = 1;

const GO_ON: u64 = 2;

// Holds a change at the desk until the word lets it go on.
#[derive(Drop)]
struct Hold<'a, W: Wait> {
    rt: &'a W,
    word: &'a AtomicU64,
}

/// Waits until the word says another thing.
pub fn await_change<W: Wait>(rt: &W, word: &AtomicU64, known: u64) {
    for _ in rt.forever() {
        if word.load(Ordering::SeqCst) != known {
            return;
        }
        yield_now();
    }
    unreachable!()
}

impl<W: Wait> Gate for Hold<'_, W> {
    fn at(&self, _point: Point) {
        self.word.store(AT_DESK, Ordering::SeqCst);
        await_change(self.rt, self.word, AT_DESK);
    }
}

// Waits until a change is at the desk, looks, and lets it go on.
fn look_beside<R: Realm, W: Wait>(
    host: &Stage<'_, W, R>,
    pass: &mut Pass<R>,
    word: &AtomicU64,
) -> Result<u64, Failure>
    requires { host.now.facts.now ≡ R.facts }
{
    await_change(host.rt, word, 0);
    let front = front(host, pass, &LOOK, &NoGate);
    word.store(GO_ON, Ordering::SeqCst);
    front
}

// Makes a key, held at the desk. Where it doesn't come there, the other isn't kept waiting.
fn make_held<R: Realm, W: Wait>(
    host: &Stage<'_, W, R>,
    pass: &mut Pass<R>,
    word: &AtomicU64,
) -> Result<u64, Failure>
    requires { host.now.facts.now ≡ R.facts }
{
    let hold = Hold { rt: host.rt, word };
    let made = front(host, pass, &MAKE, &hold);
    if word.load(Ordering::SeqCst) == 0 {
        word.store(AT_DESK, Ordering::SeqCst);
    }
    made
}

/// A pass makes a second key and is held at the desk; meanwhile the other reads what was published before.
pub fn beside<R: Realm + Send + Sync, W: rt::Runtime + Threads + Wait + Sync>(
    host: &Stage<'_, W, R>,
    one: &mut Pass<R>,
    two: &mut Pass<R>,
) -> Result<(), Failure>
    requires { host.now.facts.now ≡ R.facts }
{
    let before = front(host, one, &MAKE, &NoGate)?;
    let word = AtomicU64::new(0);
    let (made, looked) = join(
        host.rt,
        || make_held(host, one, &word),
        || look_beside(host, two, &word),
    );
    let (made, looked) = (made?, looked?);
    println!(host.rt;
        "2 beside: at {before} entries a change is held, a read is answered at {looked}, and the change at {made}"
    )?;
    Ok(())
}
