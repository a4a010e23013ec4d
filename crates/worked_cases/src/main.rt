//! Serves the sessions that the scripts of the folder `data` tell, each over a link in memory, and
//! compares every byte that is written and the end of the session.
#![tactic(auto)]

mod callers;
mod cases;
mod failures;
mod identities;
mod lines;
mod places;
mod replies;
mod scripts;
mod sessions;
mod texts;

use cases::Case;
use failures::Failure;
use lines::Line;
use places::hold_places;
use scripts::{Piece, Reader, read_lines};
use sessions::hold_session;
use std::alloc::Global;
use std::process::ExitCode;
use std::sync::Wait;
use std::{fs, io, rt};
use texts::expanded;

// The scripts, each with the cases that show one thing.
const SCRIPTS: [&str; 25] = [
    "first_path.txt",
    "pieces.txt",
    "faults.txt",
    "heads.txt",
    "entries_asked_for.txt",
    "sealing.txt",
    "forms.txt",
    "draws.txt",
    "refusals_in_order.txt",
    "bodies.txt",
    "sizes.txt",
    "limits.txt",
    "authority.txt",
    "ceilings.txt",
    "signed.txt",
    "key_policies.txt",
    "key_states.txt",
    "rotation.txt",
    "aliases.txt",
    "lists.txt",
    "grants.txt",
    "sessions.txt",
    "macs.txt",
    "tags.txt",
    "tagged_sessions.txt",
];

// How many cases held, and how many didn't.
#[derive(Clone, Copy)]
struct Tally {
    passed: u64,
    failed: u64,
}

// Holds a case: how many replies it has, or why it doesn't hold.
fn hold<W: Wait>(rt: &W, alloc: Global, case: &Case<'_>) -> Result<usize, &'static str> {
    let held = match case.spent {
        Some(spent) => hold_places(alloc, case, spent),
        None => hold_session(rt, alloc, case),
    };
    match held {
        Ok(()) => Ok(case.replies),
        Err(Failure::Unfit) if case.spent.is_some() => Err("can't be asked"),
        Err(failure) => Err(failure.words()),
    }
}

// Shows what came of a piece of a script, which the line of this number ends.
fn show<R: rt::Runtime<A = Global> + Wait>(
    rt: &R,
    script: &str,
    line: usize,
    piece: &Piece<'_>,
    tally: &mut Tally,
) -> io::Result<()> {
    let (what, held) = match piece {
        Piece::Case(case) => (case.what, hold(rt, rt.alloc(), case)),
        Piece::Unreadable => ("the line", Err("can't be read")),
        Piece::Empty => ("the script", Err("has no case")),
    };
    match held {
        Ok(replies) => {
            tally.passed = tally.passed.saturating_add(1);
            println!(rt; "{script}: {what} ({replies})")
        }
        Err(why) => {
            tally.failed = tally.failed.saturating_add(1);
            println!(rt; "{script}:{line}: FAILED: {what} {why}")
        }
    }
}

fn run_lines<R: rt::Runtime<A = Global> + Wait>(
    rt: &R,
    script: &str,
    lines: &[Line<'_>],
    tally: &mut Tally,
) -> io::Result<()> {
    let mut reader = Reader::new(lines);
    for line in lines {
        if let Some(piece) = reader.take(line) {
            show(rt, script, reader.number(), &piece, tally)?;
        }
    }
    match reader.end() {
        Some(piece) => show(rt, script, reader.number(), &piece, tally),
        None => Ok(()),
    }
}

fn run_script<R: rt::Runtime<A = Global> + Wait>(
    rt: &R,
    script: &str,
    tally: &mut Tally,
) -> io::Result<()> {
    let text = fs::read_to_string(rt, script)?;
    let texts = expanded(rt.alloc(), text.as_str())?;
    let lines = read_lines(rt.alloc(), &texts)?;
    run_lines(rt, script, &lines, tally)
}

fn main(rt: HostRuntime) -> io::Result<ExitCode> {
    let mut tally = Tally {
        passed: 0,
        failed: 0,
    };
    for script in SCRIPTS {
        run_script(&rt, script, &mut tally)?;
    }
    let Tally { passed, failed } = tally;
    println!(rt; "{passed} passed, {failed} failed")?;
    Ok(if failed == 0 {
        ExitCode::SUCCESS
    } else {
        ExitCode::FAILURE
    })
}
