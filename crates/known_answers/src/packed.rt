//! The cases of packed texts.

use crate::cases::Case;
use packed_texts::{PackedTexts, TextSlice};

/// What a call of packed texts answers.
pub fn packed(case: &mut Case<'_>) {
    match case.word() {
        "of" => of(case),
        "pushed" => pushed(case),
        "is_empty" => is_empty(case),
        "first" => first(case),
        "behind" => behind(case),
        "split_at" => split_at(case),
        _ => case.lose(),
    }
}

// The texts that the next column lists, packed.
fn listed(case: &mut Case<'_>) -> PackedTexts {
    let texts = case.texts();
    let none = PackedTexts::new(case.alloc);
    let made = PackedTexts::of(case.alloc, texts.as_slice());
    case.kept_or(made, none)
}

// Puts the texts of a run, each the first of what is left.
fn put_run(case: &mut Case<'_>, run: &TextSlice<'_>) {
    let mut left = run.copy();
    for _ in 0..run.len() {
        if let Some((text, others)) = left.split_first() {
            case.put_text(", ", text);
            left = others;
        }
    }
    case.require(left.is_empty());
    case.end_list();
}

fn of(case: &mut Case<'_>) {
    let packed = listed(case);
    let copied = case.kept_or(packed.copy(), packed);
    put_run(case, &copied.all());
}

// Puts the texts of a list, then those of another, and then one.
fn pushed(case: &mut Case<'_>) {
    let room = PackedTexts::with_capacity(case.alloc, 2, 16);
    let none = PackedTexts::new(case.alloc);
    let mut packed = case.kept_or(room, none);
    for _ in 0..2 {
        let texts = case.texts();
        let done = packed.push_all(texts.as_slice());
        case.require(done.is_ok());
    }
    let done = packed.push(case.text());
    case.require(done.is_ok());
    put_run(case, &packed.all());
}

fn is_empty(case: &mut Case<'_>) {
    let packed = listed(case);
    case.put_truth(packed.all().is_empty());
}

fn first(case: &mut Case<'_>) {
    let count = case.number();
    let packed = listed(case);
    put_run(case, &packed.all().first(count));
}

fn behind(case: &mut Case<'_>) {
    let count = case.number();
    let packed = listed(case);
    put_run(case, &packed.all().behind(count));
}

// Puts how many texts stand in front of a place, and how many behind it.
fn split_at(case: &mut Case<'_>) {
    let count = case.number();
    let packed = listed(case);
    let (front, back) = packed.all().split_at(count);
    case.put_number(front.len() as u64);
    case.put_number(back.len() as u64);
}
