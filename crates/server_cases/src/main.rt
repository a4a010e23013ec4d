//! Workers that serve at doors in memory. It writes a line for each thing shown, and the lines that are wanted
//! stand in `stdout`.
#![tactic(auto)]

mod ears;
mod late;
mod messages;
mod scenes;
mod stage;
mod worlds;

use scenes::{alone, beside};
use std::alloc::Global;
use std::process::ExitCode;
use std::sync::Wait;
use std::thread::Threads;
use std::{io, rt};
use worlds::{Failure, World};

fn show_all<W: rt::Runtime<A = Global> + Threads + Wait + Sync>(rt: &W) -> Result<(), Failure> {
    let world = World::new(rt)?;
    beside(&world)?;
    alone(&world)
}

fn main(rt: HostRuntime) -> io::Result<ExitCode> {
    match show_all(&rt) {
        Ok(()) => Ok(ExitCode::SUCCESS),
        Err(Failure::Unlike) => Ok(ExitCode::FAILURE),
        Err(Failure::Workshop(kind)) => Err(io::Error::from(kind)),
    }
}
