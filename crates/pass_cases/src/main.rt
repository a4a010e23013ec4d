//! Several passes of one service, on one thread and on two: what one made, another sees. It does what the
//! lines of `passes.txt` in `data` say, and writes a line for each; the lines that are wanted stand in `stdout`.
#![tactic(auto)]

mod beside;
mod inside;
mod requests;
mod steps;

ghost use Rattle.std.specs.Prelude.{◌≡◌, ◌<◌, ◌≤◌, IfOk};
ghost use Rattle.published_account.specs.Rules.{Names};

use account_steps::RealmFacts;
use authority::{IdentityList, PolicyList};
use kms_names::{AccountNumber, NoMemory, Text};
use publish_pass::{Nothing, Opening, Realm, open_service};
use requests::{Failure, Stage};
use std::alloc::Global;
use std::marker::Brand;
use std::process::ExitCode;
use std::sync::Wait;
use std::thread::Threads;
use std::{fs, io, rt};
use steps::take_steps;

const SCRIPT: &str = "passes.txt";

// Account 111122223333 in us-east-1, with a root secret of zeros and boot number 1.
fn facts(alloc: Global) -> Result<Option<RealmFacts>, NoMemory> {
    let Some(account) = AccountNumber::read("111122223333") else {
        return Ok(None);
    };
    Ok(Some(RealmFacts {
        account,
        region: Text::from_str(alloc, "us-east-1")?,
        root: [0; 32],
        boot: 1,
        identities: IdentityList::new(Vec::new(alloc)),
        ceiling: PolicyList::new(Vec::new(alloc)),
    }))
}

// Opens a service, takes the steps of its passes, and shuts it.
fn hold<R: Realm + Send + Sync, W: rt::Runtime<A = Global> + Threads + Wait + Sync>(
    rt: &W,
    opening: Opening,
    facts: &RealmFacts,
    steps: &[u8],
) -> Result<(), Failure>
    requires ledger { (opening.name ≡ R.name) × (opening.parts ≡ R.parts) }
    requires names { Names R.book R.facts R.passes R.loaded opening.shown }
    requires facts { facts.now ≡ opening.shown.whole.facts }
{
    let (service, mut passes) = open_service::<W, R, Nothing>(rt, rt.alloc(), opening, Nothing)?;
    let host = Stage {
        rt,
        alloc: rt.alloc(),
        service: &service,
        facts,
    };
    let taken = take_steps(&host, &mut passes, steps);
    service.shut(rt);
    taken
}

// How many passes a service has, of those that it may have.
fn read_count(text: &str) -> Result<u16, Failure>
    ensures { IfOk result (λ count. (0 < count) × (count ≤ 64)) }
{
    match text.parse::<u16>() {
        Ok(count) if count >= 1 && count <= 64 => Ok(count),
        _ => Err(Failure::Unlike),
    }
}

// A service for a part of the script, which begins with the number of its passes.
fn hold_part<W: rt::Runtime<A = Global> + Threads + Wait + Sync>(
    rt: &W,
    alloc: Global,
    facts: &RealmFacts,
    part: &str,
) -> Result<(), Failure> {
    let Some((count, steps)) = part.split_once('\n') else {
        return Err(Failure::Unlike);
    };
    let opening = Opening::new(rt, alloc, facts.copy()?, read_count(count)?)?;
    hold::<Brand, W>(rt, opening, facts, steps.as_bytes())
}

fn hold_all<W: rt::Runtime<A = Global> + Threads + Wait + Sync>(rt: &W) -> Result<(), Failure> {
    let alloc = rt.alloc();
    let Some(facts) = facts(alloc)? else {
        return Err(Failure::Unlike);
    };
    let text = fs::read_to_string(rt, SCRIPT)?;
    for part in text.split("\npasses ").skip(1) {
        hold_part(rt, alloc, &facts, part)?;
    }
    Ok(())
}

fn main(rt: HostRuntime) -> io::Result<ExitCode> {
    match hold_all(&rt) {
        Ok(()) => Ok(ExitCode::SUCCESS),
        Err(Failure::Unlike) => Ok(ExitCode::FAILURE),
        Err(Failure::Stage(kind)) => Err(io::Error::from(kind)),
    }
}
