// Entries, from their lines.
ghost use Rattle.std.specs.Prelude.{◌≡◌, IfOk, option_map};
ghost use Rattle.serde_json.specs.View.{view};
ghost use Rattle.journal_lines.specs.LineReading.{value_of, if_line_of, before_last, entry_of};

use crate::entries::entry_in;
use crate::lines::entry_line;
use account_rows::Entry;
use kms_names::NoMemory;
use serde_json::Value;
use std::alloc::Global;

// The JSON value of a text.
fn value_of(alloc: Global, text: &[u8]) -> Result<Option<Value>, NoMemory>
    ensures { IfOk result (λ value. option_map (λ v. view v) value ≡ value_of text.now) }
{
    match Value::from_slice(alloc, text) {
        Ok(value) => Ok(Some(value)),
        Err(fault) if fault.is_memory() => Err(NoMemory),
        Err(_) => Ok(None),
    }
}

// What stands before the last byte.
fn before_last(line: &[u8]) -> &[u8]
    ensures { result.now ≡ before_last line.now }
{
    &line[..line.len().saturating_sub(1)]
}

// The entry, where the line is its line.
fn if_line_of(alloc: Global, line: &[u8], entry: Entry) -> Result<Option<Entry>, NoMemory>
    ensures { IfOk result (λ read. read ≡ if_line_of line.now entry) }
{
    let written = entry_line(alloc, &entry)?;
    if written.as_slice() == line {
        Ok(Some(entry))
    } else {
        Ok(None)
    }
}

/// The entry whose line, with its line feed, this is: of the spelling that `entry_line` gives it,
/// and no other.
#[tactic(auto, unfolding(crate::specs::LineReading::entry_of))]
pub fn read_entry(alloc: Global, line: &[u8]) -> Result<Option<Entry>, NoMemory>
    ensures { IfOk result (λ entry. entry ≡ entry_of line.now) }
{
    let Some(value) = value_of(alloc, before_last(line))? else {
        return Ok(None);
    };
    match entry_in(alloc, &value)? {
        Some(entry) => if_line_of(alloc, line, entry),
        None => Ok(None),
    }
}
