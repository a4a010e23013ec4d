// Places in a JSON document (RFC 6901). A place borrows those above it, and becomes a text only
// where a fault is answered.
ghost use Rattle.std.specs.Prelude.{◌≡◌, ◌++◌, ◌∷◌, IfOk, IfErr, OnOk, string_bytes};
ghost use Rattle.policy_doc.specs.Paths.{escaped, escaped_char, path_text, fault_at, IsFault};

use crate::faults::{Departure, PolicyFault};
use kms_names::{NoMemory, Text};
use std::alloc::Global;

/// A place in a JSON document: the whole document, a member of an object, or an item of a list.
#[derive(Clone, Copy)]
pub enum Path<'a> {
    Root,
    Member(&'a Path<'a>, &'a str),
    Item(&'a Path<'a>, usize),
}

fn push_escaped_char(text: &mut String, character: char) -> Result<(), NoMemory>
    ensures { OnOk result (string_bytes text.new ≡ string_bytes text.old ++ escaped_char character) }
{
    match character {
        '~' => text.push_str("~0")?,
        '/' => text.push_str("~1")?,
        _ => text.push(character)?,
    }
    Ok(())
}

// Appends a name with `~` and `/` escaped.
fn push_escaped(text: &mut String, name: &str) -> Result<(), NoMemory>
    ensures { OnOk result (string_bytes text.new ≡ string_bytes text.old ++ escaped name.now) }
{
    for character in name.chars() {
        push_escaped_char(text, character)?;
    }
    Ok(())
}

// Appends the pointer of a place.
fn push_path(text: &mut String, path: &Path<'_>) -> Result<(), NoMemory>
    ensures { OnOk result (string_bytes text.new ≡ string_bytes text.old ++ path_text path.now) }
{
    match path {
        Path::Root => Ok(()),
        Path::Member(parent, name) => {
            push_path(text, parent)?;
            text.push_str("/")?;
            push_escaped(text, name)
        }
        Path::Item(parent, index) => {
            push_path(text, parent)?;
            write!(text, "/{index}")?;
            Ok(())
        }
    }
}

/// The JSON pointer of a place (RFC 6901), which is empty at the root, or want of memory.
pub fn pointer(alloc: Global, path: &Path<'_>) -> Result<Text, NoMemory>
    ensures { IfOk result (λ text. text ≡ path_text path.now) }
{
    let mut text = String::new(alloc);
    push_path(&mut text, path)?;
    Ok(Text::from_string(text))
}

/// The fault that a departure at a place is, or want of memory.
pub fn fault(alloc: Global, departure: Departure, path: &Path<'_>) -> PolicyFault
    ensures { IsFault (fault_at departure (path_text path.now)) result }
{
    match pointer(alloc, path) {
        Ok(text) => match departure {
            Departure::BadShape => PolicyFault::BadShape(text),
            Departure::Unsupported => PolicyFault::Unsupported(text),
        },
        Err(NoMemory) => PolicyFault::NoMemory,
    }
}
