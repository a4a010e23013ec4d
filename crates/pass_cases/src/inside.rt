// A read that is inside the published account while two changes are published.
ghost use Rattle.std.specs.Prelude.{◌≡◌};

use crate::beside::await_change;
use crate::requests::{Caller, Failure, MAKE, Request, Stage, front};
use kms_io::NoGate;
use kms_names::NoMemory;
use publish_pass::{Pass, Realm};
use std::alloc::Global;
use std::rt;
use std::sync::atomic::{AtomicU64, Ordering};
use std::sync::{MutexGuard, Wait};
use std::thread::{Threads, join};

// What the word says: that the read begins, and that it has ended.
const READS: u64 = 1;

const HAS_READ: u64 = 2;

// How often the scene is tried: the threads' schedule may let the changes pass before the read is inside.
const TRIES: u64 = 100;

// How many patterns the policy has, and how many letters the text that is matched with each of them. One of these isn't ASCII, so a read takes
// some milliseconds, and a change less than one.
const PATTERNS: usize = 1000;

const LETTERS: usize = 7990;

// Another policy for the key, which denies what no request here says.
fn policy(alloc: Global) -> Result<String, NoMemory> {
    let patterns = PATTERN.repeat(alloc, PATTERNS)?;
    let text = format!(in alloc; "{POLICY}{patterns}{POLICY_END}")?;
    Ok(text)
}

// A text to be sealed under it, with a context that is long to judge.
fn sealing(alloc: Global) -> Result<String, NoMemory> {
    let letters = "a".repeat(alloc, LETTERS)?;
    let text = format!(in alloc; "{SEALING}{letters}{SEALING_END}")?;
    Ok(text)
}

const POLICY: &str =
    "{\"KeyId\":\"10284733-057c-2825-aeb4-000000000000\",\"Policy\":\"{\\\"Statement\\\":[{\\\"Effect\\\":\\\"Allow\\\",\\\"Principal\\\":{\\\"AWS\\\":\\\"arn:aws:iam::111122223333:root\\\"},\\\"Action\\\":\\\"kms:*\\\",\\\"Resource\\\":\\\"*\\\"},{\\\"Effect\\\":\\\"Deny\\\",\\\"Principal\\\":\\\"*\\\",\\\"Action\\\":\\\"kms:Encrypt\\\",\\\"Resource\\\":\\\"*\\\",\\\"Condition\\\":{\\\"StringLike\\\":{\\\"kms:EncryptionContext:text\\\":[";

const PATTERN: &str = "\\\"*ab*\\\",";

const POLICY_END: &str = "\\\"b\\\"]}}}]}\"}";

const SEALING: &str =
    "{\"KeyId\":\"10284733-057c-2825-aeb4-000000000000\",\"Plaintext\":\"aGVsbG8=\",\"EncryptionContext\":{\"text\":\"\u{e9}";

const SEALING_END: &str = "\"}}";

// Reads, and says when it begins and when it has ended.
fn read_long<R: Realm, W: Wait>(
    host: &Stage<'_, W, R>,
    pass: &mut Pass<R>,
    request: &Request<'_>,
    word: &AtomicU64,
) -> Result<u64, Failure>
    requires { host.now.facts.now ≡ R.facts }
{
    word.store(READS, Ordering::SeqCst);
    let front = front(host, pass, request, &NoGate);
    word.store(HAS_READ, Ordering::SeqCst);
    front
}

// Makes two keys once the read has begun, and answers whether it had not ended when the first of them was published.
fn make_two<R: Realm, W: Wait>(
    host: &Stage<'_, W, R>,
    pass: &mut Pass<R>,
    word: &AtomicU64,
) -> Result<bool, Failure>
    requires { host.now.facts.now ≡ R.facts }
{
    await_change(host.rt, word, 0);
    front(host, pass, &MAKE, &NoGate)?;
    let reads = word.load(Ordering::SeqCst) == READS;
    front(host, pass, &MAKE, &NoGate)?;
    Ok(reads)
}

// Whether the read entered the published account before the first key was made in it, and ended after that.
fn is_shown<R: Realm + Send + Sync, W: rt::Runtime + Threads + Wait + Sync>(
    host: &Stage<'_, W, R>,
    one: &mut Pass<R>,
    two: &mut Pass<R>,
    request: &Request<'_>,
) -> Result<bool, Failure>
    requires { host.now.facts.now ≡ R.facts }
{
    let _ = MutexGuard::unlock(two.settle(host.rt, host.service));
    let before = two.seen();
    let word = AtomicU64::new(0);
    let (read, reads) = join(
        host.rt,
        || read_long(host, two, request, &word),
        || make_two(host, one, &word),
    );
    Ok(reads? && read? == before)
}

/// A pass makes two keys while another reads.
pub fn inside<R: Realm + Send + Sync, W: rt::Runtime + Threads + Wait + Sync>(
    host: &Stage<'_, W, R>,
    one: &mut Pass<R>,
    two: &mut Pass<R>,
) -> Result<(), Failure>
    requires { host.now.facts.now ≡ R.facts }
{
    let policy = policy(host.alloc)?;
    let put = Request {
        caller: Caller::Root,
        operation: "PutKeyPolicy",
        body: &policy,
        after: None,
    };
    front(host, one, &put, &NoGate)?;
    let sealing = sealing(host.alloc)?;
    let seal = Request {
        operation: "Encrypt",
        body: &sealing,
        ..put
    };
    for _ in 0..TRIES {
        if is_shown(host, one, two, &seal)? {
            println!(host.rt;
                "2 inside: a read is answered at the entries before it, while two keys are made beside it"
            )?;
            return Ok(());
        }
    }
    Err(Failure::Unlike)
}
