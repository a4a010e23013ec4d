//! The outside in memory, and the machine's own clock, files and connections. It writes a line for each case, and
//! the lines that are wanted stand in `stdout`.
#![tactic(auto)]

mod lines;
mod loopback;
mod machine;
mod memory;

use lines::Lines;
use loopback::show_loopback;
use machine::{show_clock, show_files};
use memory::show_memory;
use std::alloc::Global;
use std::net::{Net, TcpListener, TcpStream};
use std::sync::Wait;
use std::{io, process, rt};

fn show_all<
    R: rt::Runtime<A = Global> + Net<Listener = TcpListener, Stream = TcpStream> + Wait + Sync,
>(rt: &R, process: u32, lines: &mut Lines) -> io::Result<()> {
    show_memory(rt.alloc(), lines)?;
    show_clock(rt, lines);
    show_files(rt, process, lines)?;
    show_loopback(rt, lines)
}

fn main(rt: HostRuntime) -> io::Result<()> {
    let mut lines = Lines::new(rt.alloc());
    let shown = show_all(&rt, process::id(rt.process()), &mut lines);
    lines.print(&rt)?;
    shown
}
