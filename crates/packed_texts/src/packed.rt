//! Texts one behind another.

ghost use Rattle.std.specs.Prelude.{◌≡◌, ◌∷◌, ◌++◌, [], OnOk, OnErr, length, string_bytes};

use crate::lengths::{length_of, total};
use crate::slices::TextSlice;
use kms_names::{NoMemory, Text};
use std::alloc::Global;
use std::marker::Model;

/// Texts one behind another in one piece of memory, with a length of four bytes for each in another. Contracts see the
/// list of the texts.
#[derive(Drop)]
pub struct PackedTexts {
    joined: String,
    lengths: Vec<u32>,
}

impl Model for PackedTexts {
    ghost use Rattle.std.specs.Prelude.{List, ℕ, string_bytes};
    ghost use Rattle.packed_texts.specs.Cut.{AreWhole, cut};

    ghost Value = { List (List ℕ) };

    ghost view = { λ p. cut p.lengths.items (string_bytes p.joined) };

    ghost invariant = { λ p. AreWhole p.lengths.items (string_bytes p.joined) };
}

// One more text, and its length.
fn push_parts(joined: &mut String, lengths: &mut Vec<u32>, text: &str) -> Result<(), NoMemory>
    ensures bytes { OnOk result (string_bytes joined.new ≡ string_bytes joined.old ++ text.now) }
    ensures lengths { OnOk result (lengths.new.items ≡ lengths.old.items ++ length text.now ∷ []) }
    ensures bytes_stay { OnErr result (string_bytes joined.new ≡ string_bytes joined.old) }
    ensures lengths_stay { OnErr result (lengths.new.items ≡ lengths.old.items) }
{
    let count = lengths.len();
    lengths.push(length_of(text)?)?;
    let pushed = joined.push_str(text);
    if pushed.is_err() {
        lengths.truncate(count);
        return Err(NoMemory);
    }
    Ok(())
}

impl PackedTexts {
    ghost use Rattle.std.specs.Prelude.{IfOk};
    ghost use Rattle.packed_texts.specs.Cut.{HasFrontOf};

    /// No texts; no memory is taken.
    pub fn new(alloc: Global) -> PackedTexts
        ensures { result ≡ [] }
    {
        PackedTexts {
            joined: String::new(alloc),
            lengths: Vec::new(alloc),
        }
    }

    /// No texts, with room for exactly so many of so many bytes together.
    pub fn with_capacity(alloc: Global, count: usize, bytes: usize) -> Result<PackedTexts, NoMemory>
        ensures { IfOk result (λ texts. texts ≡ []) }
    {
        Ok(PackedTexts {
            joined: String::with_capacity(alloc, bytes)?,
            lengths: Vec::with_capacity(alloc, count)?,
        })
    }

    /// The texts of a list, with no room for more.
    pub fn of(alloc: Global, texts: &[Text]) -> Result<PackedTexts, NoMemory>
        ensures { IfOk result (λ packed. packed ≡ texts.now) }
    {
        let mut packed = PackedTexts::with_capacity(alloc, texts.len(), total(texts))?;
        packed.push_all(texts)?;
        Ok(packed)
    }

    /// One more text. Refused, with nothing changed, where memory is, or to a text of 2^32 bytes or more.
    pub fn push(&mut self, text: &str) -> Result<(), NoMemory>
        ensures ok { OnOk result (self.new ≡ self.old ++ text.now ∷ []) }
        ensures refused { OnErr result (self.new ≡ self.old) }
    {
        push_parts(&mut self.joined, &mut self.lengths, text)
    }

    /// All texts of a list one after another. Where one is refused as by `push`, what stood there stays, with those
    /// of the list that come before it.
    pub fn push_all(&mut self, texts: &[Text]) -> Result<(), NoMemory>
        ensures ok { OnOk result (self.new ≡ self.old ++ texts.now) }
        ensures refused { OnErr result (HasFrontOf texts.now self.old self.new) }
    {
        for text in texts {
            self.push(text.as_str())?;
        }
        Ok(())
    }

    /// The run of all of them; no memory is taken.
    pub fn all(&self) -> TextSlice<'_>
        ensures { result ≡ self.now }
    {
        TextSlice::new(self.joined.as_str(), self.lengths.as_slice())
    }

    /// A copy that equals its source, with no room for more.
    pub fn copy(&self) -> Result<PackedTexts, NoMemory>
        ensures { IfOk result (λ packed. packed ≡ self.now) }
    {
        let alloc = *self.lengths.allocator();
        Ok(PackedTexts {
            joined: String::from_str(alloc, self.joined.as_str())?,
            lengths: Vec::from_slice(alloc, self.lengths.as_slice())?,
        })
    }
}
