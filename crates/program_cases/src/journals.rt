// Runs that write journals and begin with them.
ghost use Rattle.std.specs.Prelude.{◌≡◌, [], Some, false, IfOk, IsTrue};
ghost use Rattle.kms_io.specs.MemoryEar.{listening_of};
ghost use Rattle.kms_io.specs.MemoryLink.{wire_of};
ghost use Rattle.kms_io.specs.NewLinks.{is_new_wire};

use crate::long_files::LongFiles;
use crate::scenes::{Failure, clocks};
use crate::scripts::Run;
use kms_io::{Files, MemoryDoor, MemoryEar, MemoryFiles, MemoryLink, NoGate};
use kms_program::kms_main;
use std::alloc::{AllocError, Global};
use std::sync::Wait;
use std::thread::Threads;
use std::{fs, io, rt};

// The name of the file that holds what the last run left.
const LEFT: &str = "left.journal";

// What came of a run.
#[derive(Drop)]
struct Done {
    status: u8,
    link: MemoryLink,
    door: MemoryDoor,
}

fn words_of(alloc: Global, words: &str) -> Result<Vec<String>, AllocError> {
    let mut all = Vec::new(alloc);
    for word in words.split_whitespace() {
        all.push(String::from_str(alloc, word)?)?;
    }
    Ok(all)
}

// The files of a run.
fn files_of<W: rt::Runtime<A = Global>>(
    rt: &W,
    run: &Run<'_>,
    left: &str,
) -> Result<MemoryFiles, Failure> {
    let alloc = rt.alloc();
    let mut files = Vec::new(alloc);
    for name in run.files.split_whitespace() {
        let content = if name == LEFT {
            String::from_str(alloc, left)?
        } else {
            fs::read_to_string(rt, name)?
        };
        files.push((String::from_str(alloc, name)?, content.into_bytes()))?;
    }
    Ok(MemoryFiles::new(alloc, files, run.failing(alloc, "file")?))
}

// The connection on which the messages of these files come, one file by one read, with the numbers of the reads and
// of the writes that fail.
fn link_of<W: rt::Runtime<A = Global>>(
    rt: &W,
    names: &str,
    reads: Vec<u64>,
    writes: Vec<u64>,
) -> Result<MemoryLink, Failure>
    ensures { IfOk result (λ link. IsTrue (is_new_wire (wire_of link))) }
{
    let alloc = rt.alloc();
    let mut input = Vec::new(alloc);
    let mut pieces = Vec::new(alloc);
    for name in names.split_whitespace() {
        let messages = fs::read_to_string(rt, name)?;
        pieces.push(messages.len())?;
        input.extend_from_slice(messages.as_bytes())?;
    }
    Ok(MemoryLink::new(alloc, input, pieces, reads, writes))
}

// An ear at which one connection comes, with the messages of these files.
fn ear_of<W: rt::Runtime<A = Global>>(rt: &W, names: &str) -> Result<MemoryEar, Failure>
    ensures { IfOk result (λ ear. listening_of ear ≡ record {
      faults = 0;
      is_out = false;
      given_back = Some [];
    }) }
{
    let alloc = rt.alloc();
    let mut connections = Vec::new(alloc);
    connections.push(link_of(rt, names, Vec::new(alloc), Vec::new(alloc))?)?;
    Ok(MemoryEar::new(alloc, connections, Vec::new(alloc)))
}

// The door of two ears, each with the connection of a file.
fn door_of<W: rt::Runtime<A = Global>>(rt: &W, run: &Run<'_>) -> Result<MemoryDoor, Failure> {
    let alloc = rt.alloc();
    let (first, second) = run.ears.split_once(' ').unwrap_or((run.ears, ""));
    let failing = run.failing(alloc, "door")?;
    let mut ears = Vec::new(alloc);
    ears.push(ear_of(rt, first)?)?;
    ears.push(ear_of(rt, second)?)?;
    Ok(MemoryDoor::new(alloc, ears, failing))
}

// Does what the words of a run ask, with these files.
fn perform<W: rt::Runtime<A = Global> + Threads + Wait + Sync, F: Files>(
    rt: &W,
    run: &Run<'_>,
    files: &mut F,
) -> Result<Done, Failure> {
    let alloc = rt.alloc();
    let words = words_of(alloc, run.words)?;
    let reads = run.failing(alloc, "read")?;
    let writes = run.failing(alloc, "write")?;
    let mut link = link_of(rt, run.messages, reads, writes)?;
    let mut clocks = clocks(alloc, run.begin)?;
    let mut door = door_of(rt, run)?;
    let status = kms_main(
        rt,
        alloc,
        &words,
        files,
        &mut link,
        &mut clocks,
        &mut door,
        &NoGate,
    );
    Ok(Done { status, link, door })
}

// What comes of a run.
fn done_by<W: rt::Runtime<A = Global> + Threads + Wait + Sync>(
    rt: &W,
    run: &Run<'_>,
    left: &str,
) -> Result<Done, Failure> {
    if run.has_long_files() {
        perform(rt, run, &mut LongFiles)
    } else {
        perform(rt, run, &mut files_of(rt, run, left)?)
    }
}

// How many replies of status 200 were written on the connection of an ear that was given back.
fn served_at(door: &MemoryDoor, index: usize) -> Option<usize> {
    let connection = door.ear(index)?.conn(0)?;
    let text = str::from_utf8(connection.written()).ok()?;
    let replies = text
        .lines()
        .filter(|line| line.ends_with("HTTP/1.1 200 OK"));
    Some(replies.count())
}

// The same of both ears, where the door was opened.
fn served_text(alloc: Global, door: &MemoryDoor) -> Result<String, AllocError> {
    let Some(first) = served_at(door, 0) else {
        return Ok(String::new(alloc));
    };
    let second = served_at(door, 1).unwrap_or(0);
    format!(in alloc; ", served {first} and {second}")
}

// What these files hold, one behind the other.
fn wanted_text<W: rt::Runtime<A = Global>>(rt: &W, names: &str) -> Result<String, Failure> {
    let mut all = String::new(rt.alloc());
    for name in names.split_whitespace() {
        let text = fs::read_to_string(rt, name)?;
        all.push_str(text.as_str())?;
    }
    Ok(all)
}

// Shows a run, and gives what it leaves.
fn show<W: rt::Runtime<A = Global> + Threads + Wait + Sync>(
    rt: &W,
    run: &Run<'_>,
    left: &str,
) -> Result<String, Failure> {
    let alloc = rt.alloc();
    let Run { what, shows, .. } = *run;
    let Done { status, link, door } = done_by(rt, run, left)?;
    let text = str::from_utf8(link.written()).unwrap_or("no text");
    let served = served_text(alloc, &door)?;
    print!(rt; "{what}: status {status}{served}")?;
    let (line, rest) = text.split_once('\n').unwrap_or((text, ""));
    match shows {
        "text" if text.is_empty() => println!(rt; ", nothing")?,
        "text" => print!(rt; "\n{text}")?,
        "line" => println!(rt; "\n{line}")?,
        names if wanted_text(rt, names)?.as_str() == text => println!(rt; ", as {names} says")?,
        names => println!(rt; ", other than {names} says:\n{text}")?,
    }
    Ok(String::from_str(alloc, rest)?)
}

/// All runs of the script.
pub fn show_all<W: rt::Runtime<A = Global> + Threads + Wait + Sync>(rt: &W) -> Result<(), Failure> {
    let alloc = rt.alloc();
    let script = fs::read_to_string(rt, "journals.txt")?;
    let mut left = String::new(alloc);
    let mut run = Run::new();
    for line in script.lines() {
        if line.is_empty() || line.starts_with('#') {
            continue;
        }
        if run.take(line).is_none() {
            return Err(Failure::Workshop(io::ErrorKind::InvalidData));
        }
        if !run.shows.is_empty() {
            left = show(rt, &run, left.as_str())?;
            run = Run::new();
        }
    }
    Ok(())
}
