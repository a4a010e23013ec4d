// A journal that is cut, or of which lines are moved or bits are turned.
use crate::answers::answer_to;
use crate::failures::Failure;
use crate::tallies::Tally;
use account_steps::RealmFacts;
use kms_names::NoMemory;
use std::alloc::Global;
use std::rt;

// What is done to a line.
#[derive(Clone, Copy)]
enum Move {
    Drop,
    Double,
    PutBehindNext,
}

const MOVES: [Move; 3] = [Move::Drop, Move::Double, Move::PutBehindNext];

// The bits of a byte.
const BITS: [u8; 8] = [1, 2, 4, 8, 16, 32, 64, 128];

impl Move {
    // It in a word.
    fn name(self) -> &'static str {
        match self {
            Move::Drop => "dropped",
            Move::Double => "doubled",
            Move::PutBehindNext => "put behind the next",
        }
    }
}

fn add_line(text: &mut Vec<u8>, line: &str) -> Result<(), NoMemory> {
    text.extend_from_slice(line.as_bytes())?;
    text.push(b'\n')?;
    Ok(())
}

// The text of lines without the one at a place.
fn dropped(alloc: Global, lines: &[&str], place: usize) -> Result<Vec<u8>, NoMemory> {
    let mut text = Vec::new(alloc);
    for (number, line) in lines.iter().enumerate() {
        if number != place {
            add_line(&mut text, *line)?;
        }
    }
    Ok(text)
}

// The text of lines of which the one at a place stands twice.
fn doubled(alloc: Global, lines: &[&str], place: usize) -> Result<Vec<u8>, NoMemory> {
    let mut text = Vec::new(alloc);
    for (number, line) in lines.iter().enumerate() {
        add_line(&mut text, *line)?;
        if number == place {
            add_line(&mut text, *line)?;
        }
    }
    Ok(text)
}

// The text of lines of which the one at a place stands behind the next.
fn put_behind_next(alloc: Global, lines: &[&str], place: usize) -> Result<Vec<u8>, NoMemory> {
    let mut text = Vec::new(alloc);
    let mut held = None;
    for (number, line) in lines.iter().enumerate() {
        if number == place {
            held = Some(*line);
            continue;
        }
        add_line(&mut text, *line)?;
        if let Some(line) = held.take() {
            add_line(&mut text, line)?;
        }
    }
    Ok(text)
}

fn moved(alloc: Global, lines: &[&str], place: usize, how: Move) -> Result<Vec<u8>, NoMemory> {
    match how {
        Move::Drop => dropped(alloc, lines, place),
        Move::Double => doubled(alloc, lines, place),
        Move::PutBehindNext => put_behind_next(alloc, lines, place),
    }
}

// Shows what is answered where each line in turn is moved.
fn show_moves<R: rt::Runtime<A = Global>>(
    rt: &R,
    facts: &RealmFacts,
    lines: &[&str],
    how: Move,
) -> Result<(), Failure> {
    let alloc = rt.alloc();
    let last = match how {
        Move::Drop | Move::Double => lines.len(),
        Move::PutBehindNext => lines.len().saturating_sub(1),
    };
    let mut answers = String::new(alloc);
    for place in 0..last {
        let text = moved(alloc, lines, place, how)?;
        let answer = answer_to(alloc, facts, text.as_slice())?.text(alloc)?;
        let comma = if answers.is_empty() { "" } else { ", " };
        answers.push_str(comma)?;
        answers.push_str(answer.as_str())?;
    }
    let name = how.name();
    println!(rt; "each line {name}: {answers}")?;
    Ok(())
}

// Shows what is answered where the journal ends before each of its bytes in turn.
fn show_cuts<R: rt::Runtime<A = Global>>(
    rt: &R,
    facts: &RealmFacts,
    journal: &[u8],
    lines: usize,
) -> Result<(), Failure> {
    let alloc = rt.alloc();
    let mut tally = Tally::new(alloc, lines)?;
    for size in 0..journal.len() {
        tally.count(answer_to(alloc, facts, &journal[..size])?);
    }
    let answers = tally.text(alloc)?;
    println!(rt; "a cut at each byte: {answers}")?;
    Ok(())
}

// Turns a bit of the byte at a place.
fn turn(bytes: &mut [u8], place: usize, bit: u8) {
    if let Some(byte) = bytes.get_mut(place) {
        *byte ^= bit;
    }
}

// Counts what is answered where each bit of the byte at a place in turn is turned. The journal is left as it was.
fn count_turns(
    alloc: Global,
    facts: &RealmFacts,
    journal: &mut [u8],
    place: usize,
    tally: &mut Tally,
) -> Result<(), Failure> {
    for bit in BITS {
        turn(journal, place, bit);
        tally.count(answer_to(alloc, facts, journal)?);
        turn(journal, place, bit);
    }
    Ok(())
}

// Shows what is answered where each bit in turn is turned, line by line.
fn show_turns<R: rt::Runtime<A = Global>>(
    rt: &R,
    facts: &RealmFacts,
    journal: &[u8],
    lines: usize,
) -> Result<(), Failure> {
    let alloc = rt.alloc();
    let mut turned = Vec::from_slice(alloc, journal)?;
    let mut tally = Tally::new(alloc, lines)?;
    let mut line: u64 = 1;
    for (place, byte) in journal.iter().enumerate() {
        count_turns(alloc, facts, turned.as_mut_slice(), place, &mut tally)?;
        if *byte == b'\n' {
            let answers = tally.text(alloc)?;
            println!(rt; "each bit of line {line} turned: {answers}")?;
            tally = Tally::new(alloc, lines)?;
            line = line.saturating_add(1);
        }
    }
    Ok(())
}

/// Shows what is answered where the journal is cut, where its lines are moved, and where its bits are turned.
pub fn show_all<R: rt::Runtime<A = Global>>(
    rt: &R,
    facts: &RealmFacts,
    journal: &str,
) -> Result<(), Failure> {
    let mut lines = Vec::new(rt.alloc());
    for line in journal.lines() {
        lines.push(line)?;
    }
    show_cuts(rt, facts, journal.as_bytes(), lines.len())?;
    for how in MOVES {
        show_moves(rt, facts, lines.as_slice(), how)?;
    }
    show_turns(rt, facts, journal.as_bytes(), lines.len())
}
