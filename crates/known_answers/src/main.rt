//! Known answers: the cases of the files in `data`, each of a public call and of what it answers, told
//! apart from what the calls answer here.
//!
//! It writes a line for each file, with how many cases it has and how many of them are answered as they
//! should be, and a line for each case that isn't.
#![tactic(auto)]

mod blobs;
mod cases;
mod ciphers;
mod conditions;
mod configs;
mod contexts;
mod draws;
mod globs;
mod groups;
mod keys;
mod laws;
mod macs;
mod maps;
mod names;
mod packed;
mod parts;
mod policies;
mod report;
mod signatures;
mod tags;
mod threads;
mod verdicts;

use parts::Part;
use std::io;

fn main(rt: HostRuntime) -> io::Result<()> {
    laws::all();
    threads::all();
    for part in Part::ALL {
        report::report(&rt, part)?;
    }
    Ok(())
}
