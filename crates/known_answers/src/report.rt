//! What is written of a file of cases.

use crate::cases::Case;
use crate::parts::Part;
use std::alloc::Global;
use std::rt::Files;
use std::{fs, io};

/// How far a file was gone through.
#[derive(Clone, Copy)]
struct Tally {
    lines: u64,
    cases: u64,
    as_wanted: u64,
}

/// What became of a case.
#[derive(Drop)]
enum Outcome {
    AsWanted,
    Other(String),
    NotRead,
}

/// What becomes of the case that a line is: its last column is the answer that is wanted.
fn outcome_of(alloc: Global, part: Part, line: &str) -> Outcome {
    let Some((front, wanted)) = line.rsplit_once(" | ") else {
        return Outcome::NotRead;
    };
    let mut case = Case::new(alloc, front);
    part.answer(&mut case);
    match case.into_answer() {
        None => Outcome::NotRead,
        Some(answer) if answer.as_str() == wanted => Outcome::AsWanted,
        Some(answer) => Outcome::Other(answer),
    }
}

/// Goes through a line, and writes what is wrong with it. A comment and an empty line are no case.
fn check_line(
    rt: &(impl Print + AllocGlobal),
    part: Part,
    tally: &mut Tally,
    line: &str,
) -> io::Result<()> {
    tally.lines = tally.lines.saturating_add(1);
    if line.is_empty() || line.starts_with('#') {
        return Ok(());
    }
    tally.cases = tally.cases.saturating_add(1);
    let file = part.file();
    let place = tally.lines;
    match outcome_of(rt.alloc(), part, line) {
        Outcome::AsWanted => {
            tally.as_wanted = tally.as_wanted.saturating_add(1);
            Ok(())
        }
        Outcome::Other(answer) => println!(rt; "{file}:{place}: answered {answer}"),
        Outcome::NotRead => println!(rt; "{file}:{place}: not read"),
    }
}

/// Goes through the file of a part, and writes a line for each case that isn't answered as wanted, and
/// then one for the file.
pub fn report<R: Files + Print + AllocGlobal>(rt: &R, part: Part) -> io::Result<()> {
    let file = part.file();
    let text = fs::read_to_string(rt, file)?;
    let mut tally = Tally {
        lines: 0,
        cases: 0,
        as_wanted: 0,
    };
    for line in text.lines() {
        check_line(rt, part, &mut tally, line)?;
    }
    let cases = tally.cases;
    let as_wanted = tally.as_wanted;
    println!(rt; "{file}: {cases} cases, {as_wanted} answered as wanted")
}
