// The machine's own clock and files.
use crate::lines::Lines;
use kms_io::{Clock, Files, RealFiles, SystemClock};
use std::{env, fs, io, rt};

// 2020-09-13, long past when this was written.
const PAST: u64 = 1_600_000_000;

/// The machine's clock.
pub fn show_clock<R: rt::Clock>(rt: &R, lines: &mut Lines) {
    lines.say("the machine's clock is after second 1600000000: ");
    lines.say_whether(SystemClock::new(rt).now() > PAST);
    lines.say("\n");
}

// The name of a file for this process alone, in the folder for what passes.
fn name_for<R: rt::Env + AllocGlobal>(rt: &R, process: u32) -> io::Result<String> {
    let folder = env::temp_dir(rt)?;
    let name = format!(in rt.alloc(); "{}/io_cases.{process}", folder.display())?;
    Ok(name)
}

// Reads a file of this size while it is there, and once it is removed.
fn show_file<R: rt::Files + Eprint>(
    rt: &R,
    name: &str,
    size: usize,
    room: &mut Vec<u8>,
    lines: &mut Lines,
) -> io::Result<()> {
    let content = vec![in *room.allocator(); 7; size]?;
    fs::write(rt, name, content)?;
    let mut files = RealFiles::new(rt);
    lines.say("a file of the machine, ");
    lines.say_number(size as u64);
    lines.say(" bytes: ");
    lines.say_answer(files.read_whole(name, room), room.len());
    let removed = fs::remove_file(rt, name);
    lines.say("; removed: ");
    lines.say_answer(files.read_whole(name, room), room.len());
    lines.say("\n");
    removed
}

// Reads a file of this size as a long one.
fn show_long<R: rt::Files + Eprint>(
    rt: &R,
    name: &str,
    size: usize,
    room: &mut Vec<u8>,
    lines: &mut Lines,
) -> io::Result<()> {
    let content = vec![in *room.allocator(); 7; size]?;
    fs::write(rt, name, content)?;
    lines.say("a long file of the machine, ");
    lines.say_number(size as u64);
    lines.say(" bytes: ");
    lines.say_answer(RealFiles::new(rt).read_long(name, room), room.len());
    lines.say("\n");
    fs::remove_file(rt, name)
}

/// The machine's files.
pub fn show_files<R: rt::Env + rt::Files + Eprint + AllocGlobal>(
    rt: &R,
    process: u32,
    lines: &mut Lines,
) -> io::Result<()> {
    let name = name_for(rt, process)?;
    let mut room = b"as before".to_vec(rt.alloc())?;
    for size in [3, 0, 4_194_304, 4_194_305] {
        show_file(rt, &name, size, &mut room, lines)?;
    }
    show_long(rt, &name, 4_194_305, &mut room, lines)
}
