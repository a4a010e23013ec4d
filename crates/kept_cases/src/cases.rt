// The cases of a file: a line each, whose last column is the answer that is wanted.
use crate::failures::Failure;
use crate::journals::journal_answer;
use crate::logs::{log_answer, torn_answer, whole_answer};
use std::alloc::Global;
use std::{fs, rt};

// How far the cases were gone through.
#[derive(Clone, Copy)]
struct Tally {
    lines: u64,
    cases: u64,
    as_wanted: u64,
}

// What the call of a case answers.
fn answer_to<R: rt::Runtime<A = Global>>(rt: &R, case: &str) -> Result<String, Failure> {
    let alloc = rt.alloc();
    let (call, columns) = case.split_once(" | ").ok_or(Failure::Unfit)?;
    match call {
        "journal" => journal_answer(rt, columns),
        "log" => log_answer(alloc, columns),
        "torn" => torn_answer(alloc, columns),
        "whole" => whole_answer(alloc, columns),
        _ => Err(Failure::Unfit),
    }
}

// Goes through a case, and writes what is wrong with it.
fn show<R: rt::Runtime<A = Global>>(
    rt: &R,
    tally: &mut Tally,
    file: &str,
    line: &str,
) -> Result<(), Failure> {
    tally.cases = tally.cases.saturating_add(1);
    let (case, wanted) = line.rsplit_once(" | ").ok_or(Failure::Unfit)?;
    let answer = answer_to(rt, case)?;
    if answer.as_str() == wanted {
        tally.as_wanted = tally.as_wanted.saturating_add(1);
    } else {
        let place = tally.lines;
        println!(rt; "{file}:{place}: answered {answer}")?;
    }
    Ok(())
}

/// Goes through all cases of a file, and writes how many there are. An empty line and a comment (`#`)
/// are no case.
pub fn show_all<R: rt::Runtime<A = Global>>(rt: &R, file: &str) -> Result<(), Failure> {
    let all = fs::read_to_string(rt, file)?;
    let mut tally = Tally {
        lines: 0,
        cases: 0,
        as_wanted: 0,
    };
    for line in all.lines() {
        tally.lines = tally.lines.saturating_add(1);
        if !line.is_empty() && !line.starts_with('#') {
            show(rt, &mut tally, file, line)?;
        }
    }
    let cases = tally.cases;
    let as_wanted = tally.as_wanted;
    println!(rt; "{file}: {cases} cases, {as_wanted} answered as wanted")?;
    Ok(())
}
