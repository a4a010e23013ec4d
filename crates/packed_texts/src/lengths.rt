//! Lengths of texts.

ghost use Rattle.std.specs.Prelude.{◌≡◌, IfOk, length};

use kms_names::{NoMemory, Text};

/// The length of a text in four bytes; refused where it has no room there.
pub fn length_of(text: &str) -> Result<u32, NoMemory>
    ensures { IfOk result (λ n. n ≡ length text.now) }
{
    let length = text.len();
    if length <= u32::MAX as usize {
        Ok(length as u32)
    } else {
        Err(NoMemory)
    }
}

/// The bytes of all texts together, or more than there can be.
pub fn total(texts: &[Text]) -> usize {
    let mut bytes: usize = 0;
    for text in texts {
        bytes = bytes.saturating_add(text.as_str().len());
    }
    bytes
}
