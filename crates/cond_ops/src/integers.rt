//! Texts of policies that are read as integers, once for several values of a request.

ghost use Rattle.std.specs.Prelude.{◌≡◌, ◌↔◌, Any, IfOk, IsTrue, MatchOption, ℤ};
ghost use Rattle.cond_ops.specs.Integers.{AreReadOf, IsReadAs};
ghost use Rattle.cond_ops.specs.Relation.{Compares, RelatesAs};

use crate::asked::some_packed;
use crate::moments::read_moment;
use crate::numbers::read_number;
use crate::operators::{Kind, Order};
use crate::read_values::ReadValue;
use kms_names::NoMemory;
use packed_texts::TextSlice;
use std::alloc::Global;
use std::marker::Model;

/// What texts are read as.
#[derive(Clone, Copy)]
pub enum Reading {
    /// A decimal integer of 64 bits.
    Number,
    /// The second of a date.
    Date,
}

/// What an operator reads texts as, where that is an integer.
pub fn reading_of(compared: Kind) -> Option<Reading> {
    match compared {
        Kind::Number(_) => Some(Reading::Number),
        Kind::Date(_) => Some(Reading::Date),
        _ => None,
    }
}

fn read_integer(reading: Reading, text: &str) -> Option<i64>
    ensures { MatchOption result ((z : ℤ) → ¬ (IsReadAs reading text.now z)) (IsReadAs reading text.now) }
{
    match reading {
        Reading::Number => read_number(text),
        Reading::Date => read_moment(text),
    }
}

fn integers_of(alloc: Global, reading: Reading, texts: &TextSlice<'_>) -> Result<Vec<i64>, NoMemory>
    ensures { IfOk result (λ integers. AreReadOf reading texts.now integers.items) }
{
    let mut integers = Vec::with_capacity(alloc, texts.len())?;
    let mut rest = texts.copy();
    while let Some((text, others)) = rest.split_first() {
        if let Some(integer) = read_integer(reading, text) {
            integers.push(integer)?;
        }
        rest = others;
    }
    Ok(integers)
}

// Whether an integer is so to some of these.
fn some_compares(order: Order, left: i64, integers: &[i64]) -> bool
    ensures { IsTrue result ↔ Any (Compares order left) integers.now }
{
    integers.iter().any(|right| order.compares(left, *right))
}

/// Texts of a policy, with the integers that they are read as. Contracts see the texts.
#[derive(Drop)]
pub struct ReadTexts<'a> {
    texts: TextSlice<'a>,
    reading: Reading,
    integers: Vec<i64>,
}

impl<'a> Model for ReadTexts<'a> {
    ghost use Rattle.std.specs.Prelude.{List, ℕ};
    ghost use Rattle.cond_ops.specs.Integers.{AreReadOf};

    ghost Value = { List (List ℕ) };

    ghost view = { λ r. r.texts };

    ghost invariant = { λ r. AreReadOf r.reading r.texts r.integers.items };
}

impl<'a> ReadTexts<'a> {
    /// These texts, each read.
    pub fn of(
        alloc: Global,
        reading: Reading,
        texts: &TextSlice<'a>,
    ) -> Result<ReadTexts<'a>, NoMemory>
        ensures { IfOk result (λ read. read ≡ texts.now) }
    {
        let integers = integers_of(alloc, reading, texts)?;
        Ok(ReadTexts {
            texts: texts.copy(),
            reading,
            integers,
        })
    }

    /// The texts.
    pub fn texts(&self) -> &TextSlice<'a>
        ensures { result.now ≡ self.now }
    {
        &self.texts
    }

    /// Whether a value of a request is related to some of them.
    pub fn some_relates(&self, read: &ReadValue<'_>) -> bool
        ensures { IsTrue result ↔ Any (RelatesAs read.now.0 read.now.1) self.now }
    {
        match read.integer(self.reading) {
            Some((order, left)) => some_compares(order, left, self.integers.as_slice()),
            None => some_packed(read, &self.texts),
        }
    }
}
