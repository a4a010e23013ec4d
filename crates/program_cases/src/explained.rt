// What `explain` tells of sessions, line by line.
ghost use Rattle.std.specs.Prelude.{◌≡◌, IfOk, vec_len};

use crate::scenes::{BEGIN, Failure, clocks, words_of};
use kms_io::{Clock, MemoryClock, MemoryDoor, MemoryFiles, MemoryLink, NoGate};
use kms_names::NoMemory;
use kms_program::kms_main;
use std::alloc::Global;
use std::sync::Wait;
use std::thread::Threads;
use std::{fs, rt};

// The words: who asks is told by signatures.
const EXPLAIN: &[&str] = &["explain", "--config", "config.json"];

// A session by what it shows, the file of its configuration and that of its messages.
#[derive(Clone, Copy)]
struct Session<'a> {
    what: &'a str,
    config: &'a str,
    messages: &'a str,
}

const SESSIONS: &[Session<'static>] = &[
    Session {
        what: "each ground but that of a ceiling",
        config: "grounds.json",
        messages: "grounds.txt",
    },
    Session {
        what: "each mark in each run",
        config: "marks.json",
        messages: "marks.txt",
    },
    Session {
        what: "several questions",
        config: "several.json",
        messages: "several.txt",
    },
    Session {
        what: "a ceiling",
        config: "ceilings.json",
        messages: "ceilings.txt",
    },
    Session {
        what: "refused early",
        config: "early.json",
        messages: "early.txt",
    },
];

// A session in which eight days go by between the second message and the third.
const HOUSE: Session<'static> = Session {
    what: "housekeeping comes first",
    config: "house.json",
    messages: "house.txt",
};

// 64 clocks of these days.
fn later_clocks(alloc: Global) -> Result<Vec<MemoryClock>, NoMemory>
    ensures { IfOk result (λ clocks. vec_len clocks ≡ 64) }
{
    let mut clocks = Vec::with_capacity(alloc, 64)?;
    while clocks.len() < 64 {
        let answers = vec![in alloc;
            1_700_000_000,
            1_700_000_001,
            1_700_691_202,
            1_700_691_203,
            1_700_691_204,
        ]?;
        clocks.push(MemoryClock::new(answers))?;
    }
    Ok(clocks)
}

// The file of a configuration.
fn files_of(alloc: Global, config: String) -> Result<MemoryFiles, NoMemory> {
    let mut files = Vec::new(alloc);
    files.push((String::from_str(alloc, "config.json")?, config.into_bytes()))?;
    Ok(MemoryFiles::new(alloc, files, Vec::new(alloc)))
}

// Lets the program explain a session, and shows its status and its lines.
fn show<W: rt::Runtime<A = Global> + Threads + Wait + Sync, C: Clock + Send + Drop>(
    rt: &W,
    session: &Session<'_>,
    clocks: &mut Vec<C>,
) -> Result<(), Failure>
    requires { vec_len clocks.old ≡ 64 }
{
    let alloc = rt.alloc();
    let words = words_of(alloc, EXPLAIN)?;
    let config = fs::read_to_string(rt, session.config)?;
    let messages = fs::read_to_string(rt, session.messages)?;
    let mut files = files_of(alloc, config)?;
    let pieces = Vec::new(alloc);
    let none = Vec::new(alloc);
    let mut link = MemoryLink::new(alloc, messages.into_bytes(), pieces, none, Vec::new(alloc));
    let mut door = MemoryDoor::new(alloc, Vec::new(alloc), Vec::new(alloc));
    let status = kms_main(
        rt, alloc, &words, &mut files, &mut link, clocks, &mut door, &NoGate,
    );
    let what = session.what;
    let written = str::from_utf8(link.written()).unwrap_or("no text");
    println!(rt; "{what}: status {status}")?;
    print!(rt; "{written}")?;
    Ok(())
}

/// All sessions.
pub fn show_all<W: rt::Runtime<A = Global> + Threads + Wait + Sync>(rt: &W) -> Result<(), Failure> {
    for session in SESSIONS {
        show(rt, session, &mut clocks(rt.alloc(), BEGIN)?)?;
    }
    show(rt, &HOUSE, &mut later_clocks(rt.alloc())?)
}
