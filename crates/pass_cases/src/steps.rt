// The steps of a script: what one pass does.
ghost use Rattle.std.specs.Prelude.{◌≡◌};

use crate::beside::beside;
use crate::inside::inside;
use crate::requests::{Caller, Failure, Request, Stage, answer};
use kms_io::NoGate;
use publish_pass::{Answered, Pass, Realm};
use std::rt;
use std::sync::{MutexGuard, Wait};
use std::thread::Threads;

// A line: the number of the pass that acts, the word for what it does, and what else is said.
#[derive(Clone, Copy)]
struct Step<'a> {
    pass: usize,
    word: &'a str,
    rest: &'a str,
}

fn read_step(line: &str) -> Option<Step<'_>> {
    let (pass, rest) = line.split_once(' ')?;
    let (word, rest) = rest.split_once(' ').unwrap_or((rest, ""));
    Some(Step {
        pass: pass.parse::<usize>().ok()?,
        word,
        rest,
    })
}

// What a caller asks: its operation, the number of entries that it wants or `-`, and its body.
fn read_request<'a>(caller: Caller, rest: &'a str) -> Option<Request<'a>> {
    let (operation, rest) = rest.split_once(' ')?;
    let (after, body) = rest.split_once(' ')?;
    Some(Request {
        caller,
        operation,
        body,
        after: after.parse::<u64>().ok(),
    })
}

fn read_caller(word: &str) -> Option<Caller> {
    match word {
        "root" => Some(Caller::Root),
        "ann" => Some(Caller::Ann),
        _ => None,
    }
}

// The name of a refusal, which its body has in the second pair of quotes.
fn refusal(answered: &Answered) -> Option<&str> {
    str::from_utf8(answered.body.as_slice())
        .ok()?
        .split('"')
        .nth(3)
}

// The initialization vector of a blob that is the first member of a body: the bytes 21 to 32 of the blob, in base64 the characters 28
// to 43 of the text that stands behind the first 19 bytes of the body.
fn vector(answered: &Answered) -> Option<&str> {
    str::from_utf8(answered.body.as_slice().get(47..63)?).ok()
}

// Shows what was answered to an operation, by its status or the name of the refusal, and at how many entries.
fn show<W: rt::Runtime>(rt: &W, asked: &str, answered: &Answered) -> Result<(), Failure> {
    let front = answered.front;
    if answered.status != 200 {
        let name = refusal(answered).ok_or(Failure::Unlike)?;
        println!(rt; "{asked}: {name} at {front}")?;
    } else if asked.ends_with(" Encrypt") {
        let vector = vector(answered).ok_or(Failure::Unlike)?;
        println!(rt; "{asked}: 200 at {front}, sealed with {vector}")?;
    } else {
        println!(rt; "{asked}: 200 at {front}")?;
    }
    Ok(())
}

// A pass is asked.
fn ask<R: Realm, W: rt::Runtime + Wait>(
    host: &Stage<'_, W, R>,
    pass: &mut Pass<R>,
    step: &Step<'_>,
) -> Result<(), Failure>
    requires { host.now.facts.now ≡ R.facts }
{
    let caller = read_caller(step.word).ok_or(Failure::Unlike)?;
    let request = read_request(caller, step.rest).ok_or(Failure::Unlike)?;
    let answered = answer(host, pass, &request, &NoGate)?;
    let (number, word, operation) = (step.pass, step.word, request.operation);
    let asked = format!(in host.alloc; "{number} {word} {operation}")?;
    show(host.rt, &asked, &answered)
}

// What a pass does without a request. It is false where the word is none of these.
fn act<R: Realm, W: Wait>(
    host: &Stage<'_, W, R>,
    pass: &mut Pass<R>,
    step: &Step<'_>,
) -> Result<bool, Failure> {
    match step.word {
        "sees" => {}
        "posts" => {
            let _ = MutexGuard::unlock(pass.post(host.rt, host.service));
        }
        "catches-up" => {
            let _ = MutexGuard::unlock(pass.catch_up(host.rt, host.service));
        }
        "settles" => {
            let _ = MutexGuard::unlock(pass.settle(host.rt, host.service));
        }
        "keeps-house" => {
            let moment = step.rest.parse::<u64>().ok().ok_or(Failure::Unlike)?;
            if moment >= 253_402_300_800 {
                return Err(Failure::Unlike);
            }
            pass.keep_house(host.rt, host.alloc, host.service, moment)?;
        }
        _ => return Ok(false),
    }
    Ok(true)
}

// A pass acts or is asked.
fn act_or_ask<R: Realm, W: rt::Runtime + Wait>(
    host: &Stage<'_, W, R>,
    pass: &mut Pass<R>,
    step: &Step<'_>,
) -> Result<(), Failure>
    requires { host.now.facts.now ≡ R.facts }
{
    if !act(host, pass, step)? {
        return ask(host, pass, step);
    }
    show_seen(host.rt, pass, step)
}

// Shows how many entries a pass has seen.
fn show_seen<R: Realm, W: rt::Runtime>(
    rt: &W,
    pass: &Pass<R>,
    step: &Step<'_>,
) -> Result<(), Failure> {
    let (number, word, seen) = (step.pass, step.word, pass.seen());
    println!(rt; "{number} {word}: {seen} entries")?;
    Ok(())
}

// What two passes do together, the first of them and the second.
fn act_together<R: Realm + Send + Sync, W: rt::Runtime + Threads + Wait + Sync>(
    host: &Stage<'_, W, R>,
    one: &mut Pass<R>,
    two: &mut Pass<R>,
    step: &Step<'_>,
) -> Result<(), Failure>
    requires { host.now.facts.now ≡ R.facts }
{
    match step.word {
        "beside" => beside(host, one, two),
        "inside" => inside(host, one, two),
        _ => {
            two.learn(&one.tell());
            show_seen(host.rt, two, step)
        }
    }
}

fn take_step<R: Realm + Send + Sync, W: rt::Runtime + Threads + Wait + Sync>(
    host: &Stage<'_, W, R>,
    passes: &mut [Pass<R>],
    step: &Step<'_>,
) -> Result<(), Failure>
    requires { host.now.facts.now ≡ R.facts }
{
    if let "beside" | "inside" | "learns" = step.word {
        let [one, two] = passes else {
            return Err(Failure::Unlike);
        };
        return act_together(host, one, two, step);
    }
    match passes.get_mut(step.pass.wrapping_sub(1)) {
        Some(pass) => act_or_ask(host, pass, step),
        None => Err(Failure::Unlike),
    }
}

/// Takes the steps of a script, one a line; lines that are empty or begin with `#` are passed over.
pub fn take_steps<R: Realm + Send + Sync, W: rt::Runtime + Threads + Wait + Sync>(
    host: &Stage<'_, W, R>,
    passes: &mut [Pass<R>],
    steps: &[u8],
) -> Result<(), Failure>
    requires { host.now.facts.now ≡ R.facts }
{
    let Ok(steps) = str::from_utf8(steps) else {
        return Err(Failure::Unlike);
    };
    let (count, region) = (passes.len(), host.service.region());
    println!(host.rt; "{count} passes in {region}")?;
    for line in steps.lines() {
        if line.is_empty() || line.starts_with('#') {
            continue;
        }
        let step = read_step(line).ok_or(Failure::Unlike)?;
        take_step(host, passes, &step)?;
    }
    Ok(())
}
