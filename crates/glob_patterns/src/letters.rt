//! The characters of a text, read once.

ghost use Rattle.std.specs.Prelude.{◌≡◌, IfOk};
ghost use Rattle.std.specs.Str.{chars, IsAscii};
ghost use Rattle.glob_patterns.specs.Letters.{AreLettersOf};

use std::alloc::{AllocError, Global};

/// The characters of a text, read once for all patterns that it is matched with.
#[derive(Drop)]
pub enum Letters {
    /// Of an ASCII text: its bytes.
    Ascii,
    /// Of another text.
    Read(Vec<char>),
    /// There was no memory for them.
    Unread,
}

// The characters of a text.
fn characters(alloc: Global, text: &str) -> Result<Vec<char>, AllocError>
    ensures { IfOk result (λ characters. characters.items ≡ chars text.now) }
{
    text.chars().collect(alloc)
}

impl Letters {
    /// Those of a text. An ASCII text takes no memory, and another four bytes a character.
    pub fn of(alloc: Global, text: &str) -> Letters
        ensures letters { AreLettersOf text.now result }
        ensures ascii { IsAscii text.now → result ≡ Letters.Ascii }
    {
        if text.is_ascii() {
            return Letters::Ascii;
        }
        match characters(alloc, text) {
            Ok(characters) => Letters::Read(characters),
            Err(_) => Letters::Unread,
        }
    }
}
