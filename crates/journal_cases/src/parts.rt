// The texts of cases, part by part.
use crate::failures::Failure;
use base64::engine::general_purpose::STANDARD;
use std::alloc::Global;

/// A text that several cases have.
#[derive(Drop)]
pub struct Named<'a> {
    pub name: &'a str,
    pub text: Vec<u8>,
}

fn number_in(text: &str) -> Result<u64, Failure> {
    match text.parse::<u64>() {
        Ok(number) => Ok(number),
        Err(_) => Err(Failure::Unfit),
    }
}

// Adds the text of this name.
fn add_named(all: &mut Vec<u8>, texts: &[Named<'_>], name: &str) -> Result<(), Failure> {
    for text in texts {
        if text.name == name {
            all.extend_from_slice(text.text.as_slice())?;
            return Ok(());
        }
    }
    Err(Failure::Unfit)
}

// Adds bytes in hex.
fn add_hex(alloc: Global, all: &mut Vec<u8>, digits: &str) -> Result<(), Failure> {
    match hex::decode(alloc, digits) {
        Ok(bytes) => Ok(all.extend_from_slice(bytes.as_slice())?),
        Err(_) => Err(Failure::Unfit),
    }
}

// Adds a text so many times.
fn add_run(all: &mut Vec<u8>, run: &str) -> Result<(), Failure> {
    let (count, text) = run.split_once(' ').ok_or(Failure::Unfit)?;
    for _ in 0..number_in(count)? {
        all.extend_from_slice(text.as_bytes())?;
    }
    Ok(())
}

// Adds a line in which `@` stands for a place in 12 digits of hex, and `~` for the base64 of an alias of these digits.
fn add_line_at(alloc: Global, all: &mut Vec<u8>, line: &str, place: u64) -> Result<(), Failure> {
    let digits = format!(in alloc; "{place:012x}")?;
    let alias = format!(in alloc; "alias/{digits}")?;
    let alias = STANDARD.encode(alloc, alias.as_bytes())?;
    for letter in line.as_bytes() {
        match *letter {
            b'@' => all.extend_from_slice(digits.as_bytes())?,
            b'~' => all.extend_from_slice(alias.as_bytes())?,
            letter => all.push(letter)?,
        }
    }
    all.push(b'\n')?;
    Ok(())
}

// Adds a line for each of so many places.
fn add_lines(alloc: Global, all: &mut Vec<u8>, run: &str) -> Result<(), Failure> {
    let (count, run) = run.split_once(' ').ok_or(Failure::Unfit)?;
    let (first, line) = run.split_once(' ').ok_or(Failure::Unfit)?;
    let first = number_in(first)?;
    for number in 0..number_in(count)? {
        add_line_at(alloc, all, line, first.saturating_add(number))?;
    }
    Ok(())
}

// Adds the part that a line says.
fn add_part(
    alloc: Global,
    all: &mut Vec<u8>,
    texts: &[Named<'_>],
    line: &str,
) -> Result<(), Failure> {
    if let Some(text) = line.strip_prefix('|') {
        all.extend_from_slice(text.as_bytes())?;
        all.push(b'\n')?;
        Ok(())
    } else if let Some(text) = line.strip_prefix('>') {
        Ok(all.extend_from_slice(text.as_bytes())?)
    } else if let Some(digits) = line.strip_prefix(':') {
        add_hex(alloc, all, digits)
    } else if let Some(name) = line.strip_prefix('+') {
        add_named(all, texts, name)
    } else if let Some(run) = line.strip_prefix('^') {
        add_run(all, run)
    } else if let Some(run) = line.strip_prefix('*') {
        add_lines(alloc, all, run)
    } else {
        Err(Failure::Unfit)
    }
}

/// The text whose parts these lines say.
pub fn text_of(alloc: Global, texts: &[Named<'_>], lines: &str) -> Result<Vec<u8>, Failure> {
    let mut all = Vec::new(alloc);
    for line in lines.lines() {
        add_part(alloc, &mut all, texts, line)?;
    }
    Ok(all)
}
