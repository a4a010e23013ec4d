//! Keeps the lines of its input as records of a file: each is on the disk before it is answered.
//!
//! `kept_lines FILE` opens the file, or makes it, and writes how many records it has; then of each line of its
//! input whether it is kept. What stands behind the records of a file is put into FILE.torn before it is cut off.
#![tactic(auto)]

use kept_file::{FileDevice, OpenError, keep_torn};
use kept_log::{KeepFault, KeptLog, Mixing, is_plain, whole};
use std::alloc::Global;
use std::process::ExitCode;
use std::{env, io};

type Log = KeptLog<FileDevice<Mixing>>;

const WRONG_WORDS: u8 = 2;

const NOT_OPENED: u8 = 5;

const NOT_KEPT: u8 = 6;

// How many records these bytes stand for, and whether what stands behind them is more than room.
fn look_over(bytes: &[u8]) -> (usize, &[u8], bool) {
    let (lines, behind) = bytes.split_at(whole(bytes));
    let records = lines.iter().filter(|&&byte| byte == b'\n').count();
    (records, behind, behind.iter().any(|&byte| byte != b'\t'))
}

// The log in a file, under its lock.
fn open(rt: &HostRuntime, alloc: Global, path: &str) -> Result<Log, OpenError> {
    let (device, bytes) = FileDevice::<Mixing>::open(rt, alloc, path)?;
    let (records, behind, is_torn) = look_over(&bytes);
    if is_torn {
        keep_torn(rt, alloc, path, behind)?;
        let count = behind.len();
        println!(rt; "{count} bytes behind them are in {path}.torn")?;
    }
    println!(rt; "{records} records")?;
    Ok(KeptLog::open(device, &bytes))
}

// What is answered to a line.
fn keep(alloc: Global, log: &mut Log, line: &[u8]) -> &'static str {
    if !is_plain(line) {
        return "a tab can't be kept";
    }
    match log.append(alloc, &[line]) {
        Ok(()) => "kept",
        Err(KeepFault::NoMemory) => "out of memory",
        Err(KeepFault::Full) => "full",
        Err(KeepFault::Failed) => "failed",
        Err(KeepFault::Shut) => "shut",
    }
}

// Keeps each line of the input.
fn keep_all(rt: &HostRuntime, alloc: Global, path: &str) -> io::Result<u8> {
    let mut log = match open(rt, alloc, path) {
        Ok(log) => log,
        Err(error) => {
            println!(rt; "{path}: {error}")?;
            return Ok(NOT_OPENED);
        }
    };
    let mut status = 0;
    for line in rt.lines(alloc) {
        let answer = keep(alloc, &mut log, line?.as_str().as_bytes());
        println!(rt; "{answer}")?;
        if answer != "kept" {
            status = NOT_KEPT;
        }
    }
    Ok(status)
}

fn main(rt: HostRuntime) -> io::Result<ExitCode> {
    let alloc = rt.alloc();
    let words: Vec<String> = env::args(&rt)?.skip(1).collect(alloc)?;
    match words.as_slice() {
        [path] => Ok(ExitCode::from(keep_all(&rt, alloc, path.as_str())?)),
        _ => {
            println!(&rt; "kept_lines FILE")?;
            Ok(ExitCode::from(WRONG_WORDS))
        }
    }
}
