// The forms in memory, and a connection over a reader and a writer in memory.
ghost use Rattle.std.specs.Prelude.{◌≡◌, [], Some, false, IfOk};
ghost use Rattle.kms_io.specs.MemoryEar.{listening_of};
ghost use Rattle.kms_io.specs.MemoryLink.{wire_of};

use crate::lines::Lines;
use kms_io::{
    Beneath, Clock, Door, Ear, Files, Gate, Link, MemoryClock, MemoryDoor, MemoryEar, MemoryFiles,
    MemoryLink, Next, NoGate, Point, QuietLink, StdLink, StepClock,
};
use std::alloc::{AllocError, Global};
use std::marker::Brand;

// Reads of a connection.
#[derive(Clone, Copy)]
struct Reads<'a> {
    what: &'a str,
    input: &'a [u8],
    // The most bytes that each read gives.
    pieces: &'a [usize],
    // The numbers of the reads that fail.
    failing: &'a [u64],
    room: usize,
    calls: u16,
}

const READS: [Reads<'static>; 5] = [
    Reads {
        what: "reads of 10 bytes, no pieces, room 4: ",
        input: b"0123456789",
        pieces: &[],
        failing: &[],
        room: 4,
        calls: 4,
    },
    Reads {
        what: "reads of 10 bytes, pieces 3 0 1, room 4: ",
        input: b"0123456789",
        pieces: &[3, 0, 1],
        failing: &[],
        room: 4,
        calls: 4,
    },
    Reads {
        what: "reads of 10 bytes, pieces 1 20, room 16: ",
        input: b"0123456789",
        pieces: &[1, 20],
        failing: &[],
        room: 16,
        calls: 4,
    },
    Reads {
        what: "reads of 10 bytes, pieces 7, room 1: ",
        input: b"0123456789",
        pieces: &[7],
        failing: &[],
        room: 1,
        calls: 4,
    },
    Reads {
        what: "reads of 3 bytes, numbers 0 and 2 fail, room 2: ",
        input: b"abc",
        pieces: &[],
        failing: &[0, 2],
        room: 2,
        calls: 5,
    },
];

// The connection from which this input comes.
fn link_of(
    alloc: Global,
    input: &[u8],
    pieces: &[usize],
    failing_reads: &[u64],
    failing_writes: &[u64],
) -> Result<MemoryLink, AllocError>
    ensures { IfOk result (λ link. wire_of link ≡ record {
      taken = Some [];
      written = Some [];
      left = Some input.now;
      moves = Some [];
      read_faults = 0;
      write_faults = 0;
    }) }
{
    let input = input.to_vec(alloc)?;
    let pieces = pieces.to_vec(alloc)?;
    let failing_reads = failing_reads.to_vec(alloc)?;
    let failing_writes = failing_writes.to_vec(alloc)?;
    Ok(MemoryLink::new(alloc, input, pieces, failing_reads, failing_writes))
}

// What each read gives, and what stands in the room then.
fn show_reads(alloc: Global, reads: &Reads<'_>, lines: &mut Lines) -> Result<(), AllocError> {
    let mut link = link_of(alloc, reads.input, reads.pieces, reads.failing, &[])?;
    let mut room = vec![in alloc; 0; reads.room]?;
    lines.say(reads.what);
    for _ in 0..reads.calls {
        if !room.is_empty() {
            lines.say_took(link.read_some(&mut room));
            lines.say(", ");
        }
    }
    lines.say("and the room has ");
    lines.say_text(&room);
    lines.say("\n");
    Ok(())
}

// What each write does, and what is written then.
fn show_writes(alloc: Global, lines: &mut Lines) -> Result<(), AllocError> {
    let mut link = link_of(alloc, &[], &[], &[], &[1])?;
    lines.say("writes of 2 bytes, number 1 fails: ");
    for _ in 0..3 {
        lines.say_put(link.write_some(b"xy"));
        lines.say(", ");
    }
    lines.say("and written is ");
    lines.say_text(link.written());
    lines.say("\n");
    Ok(())
}

// What a quiet connection over this one does, which is given back.
fn say_quiet<'a, B: Beneath>(
    alloc: Global,
    link: &'a mut MemoryLink,
    lines: &mut Lines,
) -> &'a mut MemoryLink
    requires name { link.ghost_name ≡ B.name }
    requires first { wire_of link.old ≡ B.first }
{
    let mut quiet = QuietLink::<'a, B, MemoryLink>::new(alloc, link);
    let mut room = [0; 4];
    lines.say_took(quiet.read_some(&mut room));
    lines.say(", the room has ");
    lines.say_text(&room);
    lines.say(", ");
    lines.say_put(quiet.write_some(b"kept"));
    lines.say(", ");
    lines.say_took(quiet.read_some(&mut room));
    quiet.into_link()
}

// A quiet connection, and then writes on the one beneath it.
fn show_quiet(alloc: Global, lines: &mut Lines) -> Result<(), AllocError> {
    let mut link = link_of(alloc, b"abc", &[], &[], &[0])?;
    lines.say("a quiet connection: ");
    let beneath = say_quiet::<Brand>(alloc, &mut link, lines);
    lines.say("; the one beneath it, whose write 0 fails: ");
    for _ in 0..2 {
        lines.say_put(beneath.write_some(b"own"));
        lines.say(", ");
    }
    lines.say("and written is ");
    lines.say_text(link.written());
    lines.say("\n");
    Ok(())
}

// A connection over a reader and a writer.
fn show_standard(alloc: Global, lines: &mut Lines) {
    let mut link = StdLink::new(b"hello".as_slice(), Vec::new(alloc));
    let mut room = [0; 8];
    lines.say("a reader and a writer: ");
    lines.say_took(link.read_some(&mut room));
    lines.say(", the room has ");
    lines.say_text(&room);
    lines.say(", ");
    lines.say_took(link.read_some(&mut room));
    lines.say(", ");
    lines.say_put(link.write_some(b"xyz"));
    lines.say("\n");
}

// What a clock answers three times.
fn show_times<C: Clock>(what: &str, clock: &mut C, lines: &mut Lines) {
    lines.say(what);
    for _ in 0..3 {
        lines.say(" ");
        lines.say_number(clock.now());
    }
    lines.say("\n");
}

fn show_clocks(alloc: Global, lines: &mut Lines) -> Result<(), AllocError> {
    let mut listed = MemoryClock::new(vec![in alloc; 5, 3]?);
    show_times("a clock of the answers 5 and 3:", &mut listed, lines);
    show_times(
        "a clock of no answers:",
        &mut MemoryClock::new(Vec::new(alloc)),
        lines,
    );
    show_times(
        "a clock of steps from 253402300798 on:",
        &mut StepClock::new(253_402_300_798),
        lines,
    );
    Ok(())
}

// The files of these names and sizes. The read number 1 fails.
fn files_in_memory(alloc: Global) -> Result<MemoryFiles, AllocError> {
    let mut files = Vec::new(alloc);
    for (name, size) in [
        ("small", 3),
        ("small", 5),
        ("longest", 4_194_304),
        ("long", 4_194_305),
    ] {
        files.push((String::from_str(alloc, name)?, vec![in alloc; 7; size]?))?;
    }
    Ok(MemoryFiles::new(alloc, files, vec![in alloc; 1]?))
}

fn show_files(alloc: Global, lines: &mut Lines) -> Result<(), AllocError> {
    let mut files = files_in_memory(alloc)?;
    let mut room = b"as before".to_vec(alloc)?;
    for name in ["none", "small", "long", "small", "longest"] {
        lines.say("a file in memory, ");
        lines.say(name);
        lines.say(": ");
        lines.say_answer(files.read_whole(name, &mut room), room.len());
        lines.say("\n");
    }
    for name in ["none", "long"] {
        lines.say("a long file in memory, ");
        lines.say(name);
        lines.say(": ");
        lines.say_answer(files.read_long(name, &mut room), room.len());
        lines.say("\n");
    }
    Ok(())
}

// What was written on the connections that were given back.
fn say_given_back(ear: &MemoryEar, lines: &mut Lines) {
    for index in 0..3 {
        lines.say(" ");
        match ear.conn(index) {
            Some(conn) => lines.say_text(conn.written()),
            None => lines.say("none"),
        }
    }
}

// Reads from the next connection, if there is one, writes on it and gives it back.
fn show_next(what: &str, ear: &mut MemoryEar, lines: &mut Lines)
    requires { (listening_of ear.old).is_out ≡ false }
    ensures { (listening_of ear.new).is_out ≡ false }
{
    lines.say(what);
    match ear.next() {
        Next::Conn(mut conn) => {
            lines.say_took(conn.read_some(&mut [0; 8]));
            let _ = conn.write_some(b"ok");
            ear.done(conn);
        }
        Next::Failed => lines.say("failed"),
    }
    lines.say("; given back:");
    say_given_back(ear, lines);
    lines.say("\n");
}

fn show_ear(alloc: Global, lines: &mut Lines) -> Result<(), AllocError> {
    let first = link_of(alloc, b"one", &[], &[], &[])?;
    let second = link_of(alloc, b"three", &[], &[], &[])?;
    let mut ear = MemoryEar::new(alloc, vec![in alloc; first, second]?, vec![in alloc; 1]?);
    show_next("an ear of 2 connections, call 0: ", &mut ear, lines);
    show_next("its call 1, which is to fail: ", &mut ear, lines);
    show_next("its call 2: ", &mut ear, lines);
    show_next("its call 3, where none is left: ", &mut ear, lines);
    Ok(())
}

// An ear to which no connection comes.
fn still_ear(alloc: Global) -> MemoryEar
    ensures { listening_of result ≡ record {
      faults = 0;
      is_out = false;
      given_back = Some [];
    } }
{
    MemoryEar::new(alloc, Vec::new(alloc), Vec::new(alloc))
}

// Asks the door for so many ears, behind these.
fn show_opening(number: u16, door: &mut MemoryDoor, ears: &mut Vec<MemoryEar>, lines: &mut Lines) {
    lines.say("a door in memory, asked for ");
    lines.say_number(u64::from(number));
    lines.say(": ");
    lines.say_opened(door.open("127.0.0.1:80", number, ears));
    lines.say(", ears ");
    lines.say_number(ears.len() as u64);
    lines.say("\n");
}

// Whether the last close gave back an ear of this number.
fn show_ear_back(index: usize, door: &MemoryDoor, lines: &mut Lines) {
    lines.say("its ear ");
    lines.say_number(index as u64);
    lines.say(" is given back: ");
    lines.say_whether(door.ear(index).is_some());
    lines.say("\n");
}

fn show_door(alloc: Global, lines: &mut Lines) -> Result<(), AllocError> {
    let waiting = vec![in alloc; still_ear(alloc), still_ear(alloc), still_ear(alloc)]?;
    let mut door = MemoryDoor::new(alloc, waiting, vec![in alloc; 1]?);
    let mut ears = Vec::new(alloc);
    for number in [4, 1, 2, 2, 1] {
        show_opening(number, &mut door, &mut ears, lines);
    }
    show_ear_back(0, &door, lines);
    door.close(ears);
    lines.say("it is closed\n");
    show_ear_back(2, &door, lines);
    show_ear_back(3, &door, lines);
    show_opening(1, &mut door, &mut Vec::new(alloc), lines);
    Ok(())
}

/// The cases of the forms in memory.
pub fn show_memory(alloc: Global, lines: &mut Lines) -> Result<(), AllocError> {
    for reads in &READS {
        show_reads(alloc, reads, lines)?;
    }
    show_writes(alloc, lines)?;
    show_quiet(alloc, lines)?;
    show_standard(alloc, lines);
    show_clocks(alloc, lines)?;
    show_files(alloc, lines)?;
    show_ear(alloc, lines)?;
    show_door(alloc, lines)?;
    NoGate.at(Point::AtDesk);
    lines.say("a gate that is open was passed\n");
    Ok(())
}
