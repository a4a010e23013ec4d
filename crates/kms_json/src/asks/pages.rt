// Which part of a list is asked.
ghost use Rattle.std.specs.Prelude.{◌≡◌, IfOk};

use kms_names::{NoMemory, Text};

/// A part of a list: at most so many rows behind a marker (AWS KMS API Reference, ListKeys).
#[derive(Drop)]
pub struct Page {
    /// How many rows it has at most, from 1 on.
    pub limit: u64,
    /// What the part before it ended with, where it is given: a text of 1 to 1,024 bytes.
    pub marker: Option<Text>,
}

impl Page {
    /// A copy that equals its source.
    pub fn copy(&self) -> Result<Page, NoMemory>
        ensures { IfOk result (λ page. page ≡ self.now) }
    {
        Ok(Page {
            limit: self.limit,
            marker: copied(&self.marker)?,
        })
    }
}

/// A copy of a text that may be left out. It equals its source.
pub fn copied(text: &Option<Text>) -> Result<Option<Text>, NoMemory>
    ensures { IfOk result (λ copy. copy ≡ text.now) }
{
    match text {
        Some(text) => Ok(Some(text.copy()?)),
        None => Ok(None),
    }
}
