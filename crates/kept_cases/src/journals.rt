// A kept journal that is read, opened on a file in memory, and changed.
ghost use Rattle.std.specs.Prelude.{◌≡◌, []};

use crate::failures::Failure;
use crate::words::{add_bytes, bytes_of, number_in};
use account_steps::RealmFacts;
use journal_lines::read_entry;
use kept_journal::{KeptFault, KeptJournal, Read, next_boot, open_kept, read_kept, torn};
use kept_log::{KeepFault, Memory, Mixing};
use kms_config::read_config;
use std::alloc::Global;
use std::{fs, rt};

// The facts of a configuration.
fn facts_in<R: rt::Runtime<A = Global>>(rt: &R, file: &str) -> Result<RealmFacts, Failure> {
    let text = fs::read_to_string(rt, file)?;
    match read_config(rt.alloc(), text.as_bytes()) {
        Ok(config) => Ok(config.facts),
        Err(_) => Err(Failure::Unfit),
    }
}

fn fault_word(fault: KeepFault) -> &'static str {
    match fault {
        KeepFault::NoMemory => "no memory",
        KeepFault::Full => "full",
        KeepFault::Failed => "failed",
        KeepFault::Shut => "shut",
    }
}

// Keeps changes, of which each is a line of JSON, and adds what is answered to each.
fn keep_all(
    alloc: Global,
    journal: &mut KeptJournal<Memory<Mixing>>,
    word: &mut String,
    changes: &str,
) -> Result<(), Failure> {
    if changes == "none" {
        return Ok(());
    }
    for change in changes.split(" / ") {
        let mut line = bytes_of(alloc, change)?;
        line.push(b'\n')?;
        let entry = read_entry(alloc, line.as_slice())?.ok_or(Failure::Unfit)?;
        match journal.keep_change(alloc, &entry) {
            Ok(()) => word.push_str(" kept")?,
            Err(fault) => {
                let fault = fault_word(fault);
                write!(word, " {fault}")?;
            }
        }
    }
    Ok(())
}

// Opens what was read, keeps changes, and adds what is answered and the file.
fn add_run(
    alloc: Global,
    word: &mut String,
    disk: Memory<Mixing>,
    file: &[u8],
    read: &Read,
    changes: &str,
) -> Result<(), Failure>
    // These bytes are on the disk, and nothing was done yet.
    requires bytes { disk.bytes.items ≡ file.now }
    requires start { disk.start.items ≡ file.now }
    requires steps { disk.steps.items ≡ [] }
{
    match open_kept(alloc, disk, file, read) {
        Ok(mut journal) => {
            word.push_str("; open")?;
            keep_all(alloc, &mut journal, word, changes)?;
            word.push_str("; ")?;
            add_bytes(word, journal.log.device.bytes.as_slice())
        }
        Err((fault, log)) => {
            let fault = fault_word(fault);
            write!(word, "; {fault}; ")?;
            add_bytes(word, log.device.bytes.as_slice())
        }
    }
}

// What reading the file answers under a boot number that is right for it, and the run that follows.
fn answer_at(
    alloc: Global,
    facts: RealmFacts,
    calls: u64,
    file: &[u8],
    changes: &str,
) -> Result<String, Failure> {
    let boot = facts.boot;
    let read = match read_kept(alloc, facts, file) {
        Ok(read) => read,
        Err(KeptFault::At(line)) => return Ok(format!(in alloc; "at {line}")?),
        Err(KeptFault::OldBoot) => return Ok(String::from_str(alloc, "old boot")?),
        Err(KeptFault::NoMemory) => return Err(Failure::NoMemory),
    };
    let entries = read.account.entries();
    let left = torn(file).len();
    let mut word = format!(in alloc; "boot {boot}, {entries} entries, {left} torn")?;
    let disk: Memory<Mixing> = Memory::new(alloc, file.to_vec(alloc)?, calls)?;
    add_run(alloc, &mut word, disk, file, &read, changes)?;
    Ok(word)
}

/// What a kept journal answers: the configuration, the seconds since 1970, how many calls don't fail,
/// the file and the changes are columns. With `-` in place of the seconds the boot number is the
/// configuration's own.
pub fn journal_answer<R: rt::Runtime<A = Global>>(
    rt: &R,
    columns: &str,
) -> Result<String, Failure> {
    let alloc = rt.alloc();
    let (config, rest) = columns.split_once(" | ").ok_or(Failure::Unfit)?;
    let (seconds, rest) = rest.split_once(" | ").ok_or(Failure::Unfit)?;
    let (calls, rest) = rest.split_once(" | ").ok_or(Failure::Unfit)?;
    let (file, changes) = rest.split_once(" | ").ok_or(Failure::Unfit)?;
    let mut facts = facts_in(rt, config)?;
    let file = bytes_of(alloc, file)?;
    if seconds != "-" {
        match next_boot(file.as_slice(), facts.boot, number_in(seconds)?) {
            Some(boot) => facts.boot = boot,
            None => return Ok(String::from_str(alloc, "no boot")?),
        }
    }
    answer_at(alloc, facts, number_in(calls)?, file.as_slice(), changes)
}
