// What is shown: runs of the program with their words, whose reads or writes may fail.
ghost use Rattle.std.specs.Prelude.{◌≡◌, IfOk, vec_len};

use kms_io::{MemoryDoor, MemoryFiles, MemoryLink, NoGate, StepClock};
use kms_names::NoMemory;
use kms_program::kms_main;
use std::alloc::{AllocError, AllocFailed, Global};
use std::sync::Wait;
use std::thread::Threads;
use std::{fs, io, rt};

/// Why a scene can't be shown: memory lacked, or a file couldn't be read or a line written.
#[derive(Clone, Copy)]
pub enum Failure {
    Workshop(io::ErrorKind),
}

impl From<AllocError> for Failure {
    fn from(_e: AllocError) -> Failure {
        Failure::Workshop(io::ErrorKind::OutOfMemory)
    }
}

impl<T: Drop> From<AllocFailed<T>> for Failure {
    fn from(_e: AllocFailed<T>) -> Failure {
        Failure::Workshop(io::ErrorKind::OutOfMemory)
    }
}

impl From<NoMemory> for Failure {
    fn from(_e: NoMemory) -> Failure {
        Failure::Workshop(io::ErrorKind::OutOfMemory)
    }
}

impl From<io::Error> for Failure {
    fn from(e: io::Error) -> Failure {
        Failure::Workshop(e.kind())
    }
}

// The clock's first answer.
pub(crate) const BEGIN: u32 = 1_700_000_000;

// A session of the root of account 111122223333, with a root secret of zeros.
const RUN: &[&str] = &[
    "run",
    "--account",
    "111122223333",
    "--region",
    "us-east-1",
    "--root",
    "0000000000000000000000000000000000000000000000000000000000000000",
    "--as",
    "arn:aws:iam::111122223333:root",
];

// The same session, explained.
const EXPLAIN: &[&str] = &[
    "explain",
    "--account",
    "111122223333",
    "--region",
    "us-east-1",
    "--root",
    "0000000000000000000000000000000000000000000000000000000000000000",
    "--as",
    "arn:aws:iam::111122223333:root",
];

// The same with an account of eleven digits.
const SHORT_ACCOUNT: &[&str] = &[
    "run",
    "--account",
    "11112222333",
    "--region",
    "us-east-1",
    "--root",
    "0000000000000000000000000000000000000000000000000000000000000000",
    "--as",
    "arn:aws:iam::111122223333:root",
];

// A run with these words, in which the read and the write of these numbers, counted from 0, fail, and whose second
// message may be cut off.
#[derive(Clone, Copy)]
struct Scene<'a> {
    what: &'a str,
    words: &'a [&'a str],
    failing_read: Option<u64>,
    failing_write: Option<u64>,
    is_cut: bool,
}

const BOTH: Scene<'static> = Scene {
    what: "a key is made and described",
    words: RUN,
    failing_read: None,
    failing_write: None,
    is_cut: false,
};

const EXPLAINED: Scene<'static> = Scene {
    what: "the same, explained",
    words: EXPLAIN,
    ..BOTH
};

const SCENES: &[Scene<'static>] = &[
    BOTH,
    Scene {
        what: "the first read fails",
        failing_read: Some(0),
        ..BOTH
    },
    Scene {
        what: "the second read fails",
        failing_read: Some(1),
        ..BOTH
    },
    Scene {
        what: "the first write fails",
        failing_write: Some(0),
        ..BOTH
    },
    Scene {
        what: "the second write fails",
        failing_write: Some(1),
        ..BOTH
    },
    Scene {
        what: "the second message is cut off",
        is_cut: true,
        ..BOTH
    },
    EXPLAINED,
    Scene {
        what: "explained, and the second read fails",
        failing_read: Some(1),
        ..EXPLAINED
    },
    Scene {
        what: "explained, and the first write fails",
        failing_write: Some(0),
        ..EXPLAINED
    },
    Scene {
        what: "explained, and the second write fails",
        failing_write: Some(1),
        ..EXPLAINED
    },
    Scene {
        what: "explained, and the second message is cut off",
        is_cut: true,
        ..EXPLAINED
    },
    Scene {
        what: "an account number of eleven digits",
        words: SHORT_ACCOUNT,
        ..BOTH
    },
    Scene {
        what: "words that are no command",
        words: &["walk"],
        ..BOTH
    },
    Scene {
        what: "a file that isn't there",
        words: &["check", "--config", "config.json"],
        ..BOTH
    },
];

// What comes on the link, and what is to be answered, in two parts each: the messages and the replies of CreateKey
// and of DescribeKey.
#[derive(Drop)]
struct Exchange {
    make: String,
    look: String,
    made: String,
    seen: String,
}

fn read_exchange<W: rt::Runtime<A = Global>>(rt: &W) -> Result<Exchange, Failure> {
    Ok(Exchange {
        make: fs::read_to_string(rt, "make.txt")?,
        look: fs::read_to_string(rt, "look.txt")?,
        made: fs::read_to_string(rt, "made.txt")?,
        seen: fs::read_to_string(rt, "seen.txt")?,
    })
}

pub(crate) fn words_of(alloc: Global, words: &[&str]) -> Result<Vec<String>, NoMemory> {
    let mut all = Vec::new(alloc);
    for word in words {
        all.push(String::from_str(alloc, word)?)?;
    }
    Ok(all)
}

// The link on which the messages come one by one; of one that is cut off come its first twenty bytes.
fn link_of(alloc: Global, exchange: &Exchange, scene: &Scene<'_>) -> Result<MemoryLink, NoMemory> {
    let look = exchange.look.as_bytes();
    let second = if scene.is_cut {
        look.get(..20).unwrap_or(look)
    } else {
        look
    };
    let mut input = Vec::new(alloc);
    input.extend_from_slice(exchange.make.as_bytes())?;
    input.extend_from_slice(second)?;
    let pieces = vec![in alloc; exchange.make.len(), second.len()]?;
    let reads = scene.failing_read.into_iter().collect(alloc)?;
    let writes = scene.failing_write.into_iter().collect(alloc)?;
    Ok(MemoryLink::new(alloc, input, pieces, reads, writes))
}

// 64 clocks with this first answer, each a second later at each call.
pub(crate) fn clocks(alloc: Global, begin: u32) -> Result<Vec<StepClock>, NoMemory>
    ensures { IfOk result (λ clocks. vec_len clocks ≡ 64) }
{
    let mut clocks = Vec::with_capacity(alloc, 64)?;
    while clocks.len() < 64 {
        clocks.push(StepClock::new(u64::from(begin)))?;
    }
    Ok(clocks)
}

// What was written, in words where it is of the replies.
fn told<'a>(exchange: &Exchange, written: &'a str) -> &'a str {
    if written.is_empty() {
        return "nothing";
    }
    match written.strip_prefix(exchange.made.as_str()) {
        Some("") => "the first reply",
        Some(rest) if rest == exchange.seen.as_str() => "both replies",
        _ => written.trim_end(),
    }
}

// Does what the words of a scene ask, and shows the status and what was written.
fn show<W: rt::Runtime<A = Global> + Threads + Wait + Sync>(
    rt: &W,
    exchange: &Exchange,
    scene: &Scene<'_>,
) -> Result<(), Failure> {
    let alloc = rt.alloc();
    let words = words_of(alloc, scene.words)?;
    let mut link = link_of(alloc, exchange, scene)?;
    let mut clocks = clocks(alloc, BEGIN)?;
    let mut files = MemoryFiles::new(alloc, Vec::new(alloc), Vec::new(alloc));
    let mut door = MemoryDoor::new(alloc, Vec::new(alloc), Vec::new(alloc));
    let status = kms_main(
        rt,
        alloc,
        &words,
        &mut files,
        &mut link,
        &mut clocks,
        &mut door,
        &NoGate,
    );
    let written = str::from_utf8(link.written()).unwrap_or("no text");
    let what = scene.what;
    let text = told(exchange, written);
    println!(rt; "{what}: status {status}, {text}")?;
    Ok(())
}

/// All scenes.
pub fn show_all<W: rt::Runtime<A = Global> + Threads + Wait + Sync>(rt: &W) -> Result<(), Failure> {
    let exchange = read_exchange(rt)?;
    for scene in SCENES {
        show(rt, &exchange, scene)?;
    }
    Ok(())
}
