// A log that is opened on a file in memory, and the batches that are appended to it.
use crate::failures::Failure;
use crate::words::{add_bytes, bytes_of, number_in, size_in};
use kept_log::{KeepFault, KeptLog, Memory, Mixing, Reading, Step, Wary, are_plain, whole};
use std::alloc::Global;

// The bodies of a batch, with a space between two: `-` is a batch of none, and `''` an empty body.
fn bodies_of(alloc: Global, word: &str) -> Result<Vec<Vec<u8>>, Failure> {
    let mut bodies = Vec::new(alloc);
    if word == "-" {
        return Ok(bodies);
    }
    for body in word.split(' ') {
        let body = if body == "''" { "-" } else { body };
        bodies.push(bytes_of(alloc, body)?)?;
    }
    Ok(bodies)
}

// Appends a batch, and answers in a word. What isn't plain can't be appended.
fn append<M: Reading>(
    alloc: Global,
    log: &mut KeptLog<Memory<M>>,
    word: &str,
) -> Result<&'static str, Failure> {
    let bodies = bodies_of(alloc, word)?;
    let mut lent = Vec::new(alloc);
    for body in &bodies {
        lent.push(body.as_slice())?;
    }
    let batch = lent.as_slice();
    if !are_plain(batch) {
        return Ok("unfit");
    }
    Ok(match log.append(alloc, batch) {
        Ok(()) => "ok",
        Err(KeepFault::NoMemory) => "no memory",
        Err(KeepFault::Full) => "full",
        Err(KeepFault::Failed) => "failed",
        Err(KeepFault::Shut) => "shut",
    })
}

// Appends batches, and adds what was answered to each.
fn append_all<M: Reading>(
    alloc: Global,
    log: &mut KeptLog<Memory<M>>,
    word: &mut String,
    batches: &str,
) -> Result<(), Failure> {
    if batches != "none" {
        for batch in batches.split(" / ") {
            let answer = append(alloc, log, batch)?;
            write!(word, " {answer}")?;
        }
    }
    Ok(())
}

// Adds what a call did: where and how many bytes were written, to which length the file was cut, or
// that it was synced.
fn add_step(word: &mut String, step: &Step) -> Result<(), Failure> {
    match step {
        Step::Wrote(at, bytes) => {
            let count = bytes.len();
            write!(word, " w{at}+{count}")?;
        }
        Step::CutTo(len) => write!(word, " c{len}")?,
        Step::Synced(_) => word.push_str(" s")?,
    }
    Ok(())
}

// Opens a log on a file that fails after so many calls, appends batches, and tells what was answered,
// which calls the file had, how often it failed, and what it is then.
fn answer_over<M: Reading>(
    alloc: Global,
    calls: u64,
    file: &[u8],
    batches: &str,
) -> Result<String, Failure> {
    let disk: Memory<M> = Memory::new(alloc, file.to_vec(alloc)?, calls)?;
    let mut log = KeptLog::open(disk, file);
    let mut word = String::from_str(alloc, if log.is_open { "open" } else { "shut" })?;
    append_all(alloc, &mut log, &mut word, batches)?;
    word.push(';')?;
    for step in &log.device.steps {
        add_step(&mut word, step)?;
    }
    let faults = log.device.faults;
    write!(word, "; {faults}; ")?;
    add_bytes(&mut word, log.device.bytes.as_slice())?;
    Ok(word)
}

/// What a log answers: the reading, how many calls don't fail, the file and the batches are columns.
pub fn log_answer(alloc: Global, columns: &str) -> Result<String, Failure> {
    let (reading, rest) = columns.split_once(" | ").ok_or(Failure::Unfit)?;
    let (calls, rest) = rest.split_once(" | ").ok_or(Failure::Unfit)?;
    let (file, batches) = rest.split_once(" | ").ok_or(Failure::Unfit)?;
    let calls = number_in(calls)?;
    let file = bytes_of(alloc, file)?;
    match reading {
        "mixing" => answer_over::<Mixing>(alloc, calls, file.as_slice(), batches),
        "wary" => answer_over::<Wary>(alloc, calls, file.as_slice(), batches),
        _ => Err(Failure::Unfit),
    }
}

// Opens a log on a file, appends batches, and tells what a crash leaves once so many calls of the file
// came whole and a part of the next: where its whole lines end, and its bytes.
fn left_of<M: Reading>(
    alloc: Global,
    file: &[u8],
    batches: &str,
    calls: usize,
    part: usize,
) -> Result<String, Failure> {
    let disk: Memory<M> = Memory::new(alloc, file.to_vec(alloc)?, u64::MAX)?;
    let mut log = KeptLog::open(disk, file);
    let mut answers = String::new(alloc);
    append_all(alloc, &mut log, &mut answers, batches)?;
    let left = log.device.torn(alloc, calls, part)?;
    let end = whole(left.as_slice());
    let mut word = format!(in alloc; "{end}; ")?;
    add_bytes(&mut word, left.as_slice())?;
    Ok(word)
}

/// What a crash leaves of a log's file: the reading, the file, the batches, how many of the file's
/// calls came whole, and how much of the next are columns.
pub fn torn_answer(alloc: Global, columns: &str) -> Result<String, Failure> {
    let (reading, rest) = columns.split_once(" | ").ok_or(Failure::Unfit)?;
    let (file, rest) = rest.split_once(" | ").ok_or(Failure::Unfit)?;
    let (batches, rest) = rest.split_once(" | ").ok_or(Failure::Unfit)?;
    let (calls, part) = rest.split_once(" | ").ok_or(Failure::Unfit)?;
    let file = bytes_of(alloc, file)?;
    let calls = size_in(calls)?;
    let part = size_in(part)?;
    match reading {
        "mixing" => left_of::<Mixing>(alloc, file.as_slice(), batches, calls, part),
        "wary" => left_of::<Wary>(alloc, file.as_slice(), batches, calls, part),
        _ => Err(Failure::Unfit),
    }
}

/// Where the whole lines of a file end.
pub fn whole_answer(alloc: Global, column: &str) -> Result<String, Failure> {
    let file = bytes_of(alloc, column)?;
    let end = whole(file.as_slice());
    Ok(format!(in alloc; "{end}")?)
}
