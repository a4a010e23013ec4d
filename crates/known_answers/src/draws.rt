//! The cases of lines of draws.

use crate::cases::Case;
use draw_lines::{DrawLine, Drawn};

/// How many words, and how many vectors, a line gives.
const LIMIT: u64 = 1 << 48;

/// How many bytes a draw has at most.
const MAX_DRAW: usize = 1024;

/// What a call of a line answers.
pub fn draws(case: &mut Case<'_>) {
    let call = case.word();
    let seed = case.array();
    match call {
        "draws" => drawn(case, &seed),
        "vectors" => vectors(case, &seed),
        "new" => new_line(case, &seed),
        _ => case.lose(),
    }
}

/// The next column as how many words or vectors a line has given.
fn read_given(case: &mut Case<'_>) -> u64 {
    let given = case.number();
    case.require(given <= LIMIT);
    given
}

/// Puts what a draw of a size gives behind other words.
fn put_draw(case: &mut Case<'_>, line: &mut DrawLine, size: &str) {
    let size: usize = case.number_of(size);
    case.require(size <= MAX_DRAW);
    let mut room = [0xee; MAX_DRAW];
    let out = &mut room[..size.min(MAX_DRAW)];
    match line.draw(out) {
        Drawn::Done => case.put_bytes(out),
        Drawn::Spent if out.iter().all(|byte| *byte == 0xee) => case.put("spent"),
        Drawn::Spent => case.put("changed"),
    }
}

/// Puts the next vector behind other words.
fn put_vector(case: &mut Case<'_>, line: &mut DrawLine) {
    match line.next_iv() {
        Some(iv) => case.put_bytes(&iv),
        None => case.put("none"),
    }
}

fn drawn(case: &mut Case<'_>, seed: &[u8; 32]) {
    let given = read_given(case).min(LIMIT);
    let mut line = DrawLine::resume(seed, 7, 9, given, 0);
    for size in case.word().split(' ') {
        put_draw(case, &mut line, size);
    }
    case.put_number(line.words());
}

fn vectors(case: &mut Case<'_>, seed: &[u8; 32]) {
    let boot = case.number();
    let pass_number = case.number();
    let given = read_given(case).min(LIMIT);
    let mut line = DrawLine::resume(seed, boot, pass_number, 0, given);
    for _ in 0..case.number::<u32>() {
        put_vector(case, &mut line);
    }
    case.put_number(line.ivs());
}

fn new_line(case: &mut Case<'_>, seed: &[u8; 32]) {
    let boot = case.number();
    let pass_number = case.number();
    let mut line = DrawLine::new(seed, boot, pass_number);
    let size = case.word();
    put_draw(case, &mut line, size);
    put_vector(case, &mut line);
    case.put_number(line.words());
    case.put_number(line.ivs());
}
