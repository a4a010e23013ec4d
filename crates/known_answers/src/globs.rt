//! The cases of patterns with `*` and `?`.

ghost use Rattle.std.specs.Prelude.{◌≡◌, ◌<◌};

use crate::cases::Case;
use glob_patterns::{Letters, Pattern as CompiledPattern, matches_nocase};
use kms_names::{Pattern, Steps, glob, glob_nocase};
use std::alloc::Global;
use std::marker::Brand;
use std::sync::ledger::{Blank, Ledger};

/// What a call of patterns answers.
pub fn globs(case: &mut Case<'_>) {
    let call = case.word();
    if call == "size_of_steps" {
        case.put_number(size_of::<Steps<Brand>>() as u64);
    } else {
        let question = Question {
            pattern: case.text(),
            text: case.text(),
            ignores_case: call == "glob_nocase",
        };
        match call {
            "glob" | "glob_nocase" => case.put_truth(matches(&question)),
            "pattern" => prepared(case, &question),
            "compiled" => compiled(case, &question),
            "compiled_nocase" => case.put_truth(like_nocase(case.alloc, &question)),
            _ => case.lose(),
        }
    }
}

/// A pattern and a text, and whether they are compared without ASCII case.
#[derive(Clone, Copy)]
struct Question<'a> {
    pattern: &'a str,
    text: &'a str,
    ignores_case: bool,
}

/// What a copy of a pattern that is made ready answers.
fn prepared(case: &mut Case<'_>, question: &Question<'_>) {
    let made = Pattern::new(case.alloc, question.pattern);
    if let Some(pattern) = case.kept(made) {
        let copied = case.kept_or(pattern.copy(), pattern);
        case.put_truth(copied.matches(question.text));
    }
}

/// What a copy of a compiled pattern answers, of the text and of its characters read once.
fn compiled(case: &mut Case<'_>, question: &Question<'_>) {
    let made = CompiledPattern::new(case.alloc, question.pattern);
    if let Some(pattern) = case.kept(made) {
        let copied = case.kept_or(pattern.copy(), pattern);
        match answer(case.alloc, &copied, question) {
            Some(answer) => case.put_truth(answer),
            None => case.lose(),
        }
    }
}

fn answer_from<L: Ledger>(
    alloc: Global,
    pattern: &CompiledPattern,
    question: &Question<'_>,
    blank: Blank,
) -> Option<bool>
    requires name { blank.name ≡ L.name }
    requires parts { blank.parts ≡ L.parts }
    requires some { 0 < blank.parts }
{
    let (book, share) = blank.open::<L>();
    let mut steps = Steps::new(book, share);
    let answer = pattern.matches(question.text, &mut steps);
    let read = Letters::of(alloc, question.text);
    if answer == pattern.matches_read(question.text, &read, &mut steps) {
        Some(answer)
    } else {
        None
    }
}

/// What a pattern answers of a question's text and of its characters read once, or None where the two differ.
fn answer(alloc: Global, pattern: &CompiledPattern, question: &Question<'_>) -> Option<bool> {
    answer_from::<Brand>(alloc, pattern, question, Blank::new(1))
}

fn like_nocase_from<L: Ledger>(alloc: Global, question: &Question<'_>, blank: Blank) -> bool
    requires name { blank.name ≡ L.name }
    requires parts { blank.parts ≡ L.parts }
    requires some { 0 < blank.parts }
{
    let (book, share) = blank.open::<L>();
    let mut steps = Steps::new(book, share);
    matches_nocase(alloc, question.pattern, question.text, &mut steps)
}

fn like_nocase(alloc: Global, question: &Question<'_>) -> bool {
    like_nocase_from::<Brand>(alloc, question, Blank::new(1))
}

fn matches_from<L: Ledger>(question: &Question<'_>, blank: Blank) -> bool
    requires name { blank.name ≡ L.name }
    requires parts { blank.parts ≡ L.parts }
    requires some { 0 < blank.parts }
{
    let (book, share) = blank.open::<L>();
    let mut steps = Steps::new(book, share);
    if question.ignores_case {
        steps.tick();
        glob_nocase(question.pattern, question.text, &mut steps)
    } else {
        glob(question.pattern, question.text, &mut steps)
    }
}

fn matches(question: &Question<'_>) -> bool {
    matches_from::<Brand>(question, Blank::new(1))
}
