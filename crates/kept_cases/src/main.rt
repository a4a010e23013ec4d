//! Logs and kept journals over files in memory: the cases of `cases.txt` and `journals.txt`, each with
//! what `kept_log` or `kept_journal` has to answer.
//!
//! It writes of each file how many cases there are and how many of them are answered as they should
//! be, and a line for each case that isn't.
#![tactic(auto)]

mod cases;
mod failures;
mod journals;
mod logs;
mod words;

use failures::Failure;
use std::alloc::Global;
use std::process::ExitCode;
use std::{io, rt};

fn show_all<R: rt::Runtime<A = Global>>(rt: &R) -> Result<(), Failure> {
    cases::show_all(rt, "cases.txt")?;
    cases::show_all(rt, "journals.txt")
}

fn main(rt: HostRuntime) -> io::Result<ExitCode> {
    match show_all(&rt) {
        Ok(()) => Ok(ExitCode::SUCCESS),
        Err(Failure::Workshop(kind)) => Err(io::Error::from(kind)),
        Err(_) => Ok(ExitCode::from(1)),
    }
}
