//! The program's own function over links, clocks, files and a door in memory. It writes a line for each thing
//! shown, and the lines that are wanted stand in `stdout`.
#![tactic(auto)]

mod explained;
mod journals;
mod long_files;
mod scenes;
mod scripts;

use scenes::Failure;
use std::alloc::Global;
use std::process::ExitCode;
use std::sync::Wait;
use std::thread::Threads;
use std::{io, rt};

// The scenes, then the sessions that are explained, and then the runs over journals.
fn show_all<W: rt::Runtime<A = Global> + Threads + Wait + Sync>(rt: &W) -> Result<(), Failure> {
    scenes::show_all(rt)?;
    explained::show_all(rt)?;
    journals::show_all(rt)
}

fn main(rt: HostRuntime) -> io::Result<ExitCode> {
    match show_all(&rt) {
        Ok(()) => Ok(ExitCode::SUCCESS),
        Err(Failure::Workshop(kind)) => Err(io::Error::from(kind)),
    }
}
