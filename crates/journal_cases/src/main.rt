//! Journals are read, and those that are taken are written again: the cases of `cases.txt`, and one journal with an entry of every
//! kind, whole, cut, with its lines moved and with each of its bytes changed.
#![tactic(auto)]

mod answers;
mod cases;
mod changes;
mod failures;
mod parts;
mod tallies;

use answers::answer_to;
use failures::Failure;
use std::alloc::Global;
use std::process::ExitCode;
use std::{fs, io, rt};

// The cases, and all that is tried with one journal, as the configuration's account reads them.
fn show_all<R: rt::Runtime<A = Global>>(rt: &R) -> Result<(), Failure> {
    let alloc = rt.alloc();
    let facts = cases::facts_in(rt, "config.json")?;
    let all = fs::read_to_string(rt, "cases.txt")?;
    cases::show_all(rt, &facts, all.as_str())?;
    let journal = fs::read_to_string(rt, "every_entry.txt")?;
    let whole = answer_to(alloc, &facts, journal.as_bytes())?.text(alloc)?;
    println!(rt; "every entry: {whole}")?;
    changes::show_all(rt, &facts, journal.as_str())
}

fn main(rt: HostRuntime) -> io::Result<ExitCode> {
    match show_all(&rt) {
        Ok(()) => Ok(ExitCode::SUCCESS),
        Err(Failure::Workshop(kind)) => Err(io::Error::from(kind)),
        Err(_) => Ok(ExitCode::from(1)),
    }
}
