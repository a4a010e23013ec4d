// The cases of a file: what is between two empty lines is a case, a text that several cases have, or a comment.
use crate::answers::answer_to;
use crate::failures::Failure;
use crate::parts::{Named, text_of};
use account_steps::RealmFacts;
use kms_config::read_config;
use std::alloc::Global;
use std::{fs, rt};

/// The facts of a configuration.
pub fn facts_in<R: rt::Runtime<A = Global>>(rt: &R, file: &str) -> Result<RealmFacts, Failure> {
    let text = fs::read_to_string(rt, file)?;
    match read_config(rt.alloc(), text.as_bytes()) {
        Ok(config) => Ok(config.facts),
        Err(_) => Err(Failure::Unfit),
    }
}

// Shows the answer to a case. Where its first line names a configuration, that one's facts read it.
fn show<R: rt::Runtime<A = Global>>(
    rt: &R,
    facts: &RealmFacts,
    texts: &[Named<'_>],
    name: &str,
    lines: &str,
) -> Result<(), Failure> {
    let alloc = rt.alloc();
    let answer = if let Some(rest) = lines.strip_prefix("by ") {
        let (file, lines) = rest.split_once('\n').ok_or(Failure::Unfit)?;
        let others = facts_in(rt, file)?;
        answer_to(alloc, &others, text_of(alloc, texts, lines)?.as_slice())?
    } else {
        answer_to(alloc, facts, text_of(alloc, texts, lines)?.as_slice())?
    };
    let answer = answer.text(alloc)?;
    println!(rt; "{name}: {answer}")?;
    Ok(())
}

/// Shows the answers to all cases of a file's text.
pub fn show_all<R: rt::Runtime<A = Global>>(
    rt: &R,
    facts: &RealmFacts,
    all: &str,
) -> Result<(), Failure> {
    let alloc = rt.alloc();
    let mut texts = Vec::new(alloc);
    for part in all.split("\n\n") {
        let (head, lines) = part.split_once('\n').unwrap_or((part, ""));
        if let Some(name) = head.strip_prefix("case ") {
            show(rt, facts, texts.as_slice(), name, lines)?;
        } else if let Some(name) = head.strip_prefix("text ") {
            let text = text_of(alloc, texts.as_slice(), lines)?;
            texts.push(Named { name, text })?;
        } else if !head.starts_with('#') {
            return Err(Failure::Unfit);
        }
    }
    Ok(())
}
