// The contexts of constraints, from their encodings.
ghost use Rattle.std.specs.Prelude.{◌≡◌, IfOk, option_map};
ghost use Rattle.std.specs.Cmp.Lexicographic.{slice_cmp};
ghost use Rattle.std.specs.Ordering.{nat_cmp, is_lt};
ghost use Rattle.std.specs.Str.{is_utf8};
ghost use Rattle.kms_names.specs.Reading.{some_if};
ghost use Rattle.journal_lines.specs.Contexts.{cut_by, cut_text, cut_pair, pairs_within, pairs_of, ascend, context_of};

use enc_context::{Context, ContextFault, Pair};
use kms_names::{NoMemory, Text};
use std::alloc::Global;
use std::cmp::Ordering;

/// The text that bytes are, where they are UTF-8.
pub fn text_in_utf8(bytes: &[u8]) -> Option<&str>
    ensures { option_map (λ text. text.now) result ≡ some_if (is_utf8 bytes.now) bytes.now }
{
    str::from_utf8(bytes).ok()
}

// So many bytes, where there are, which are UTF-8, and what follows them.
fn cut_by(size: usize, bytes: &[u8]) -> Option<(&str, &[u8])>
    ensures { option_map (λ cut. (cut.0.now, cut.1.now)) result ≡ cut_by size bytes.now }
{
    if bytes.len() < size {
        return None;
    }
    let (text, rest) = bytes.split_at(size);
    Some((text_in_utf8(text)?, rest))
}

// A text behind its length in 4 bytes, high byte first, and what follows it.
fn cut_text(bytes: &[u8]) -> Option<(&str, &[u8])>
    ensures { option_map (λ cut. (cut.0.now, cut.1.now)) result ≡ cut_text bytes.now }
{
    let (size, rest) = bytes.split_first_chunk::<4>()?;
    cut_by(u32::from_be_bytes(*size) as usize, rest)
}

// A pair and what follows it.
#[tactic(auto, unfolding(crate::specs::Contexts::cut_pair))]
fn cut_pair(alloc: Global, bytes: &[u8]) -> Result<Option<(Pair, &[u8])>, NoMemory>
    ensures { IfOk result (λ cut. option_map (λ p. (p.0, p.1.now)) cut ≡ cut_pair bytes.now) }
{
    let Some((key, behind)) = cut_text(bytes) else {
        return Ok(None);
    };
    let Some((value, rest)) = cut_text(behind) else {
        return Ok(None);
    };
    let pair = Pair {
        key: Text::from_str(alloc, key)?,
        value: Text::from_str(alloc, value)?,
    };
    Ok(Some((pair, rest)))
}

// The pairs that bytes encode.
fn pairs_of(alloc: Global, bytes: &[u8]) -> Result<Option<Vec<Pair>>, NoMemory>
    ensures { IfOk result (λ pairs. option_map (λ p. p.items) pairs ≡ pairs_of bytes.now) }
{
    let mut pairs = Vec::new(alloc);
    let mut rest = bytes;
    while !rest.is_empty() {
        let Some((pair, behind)) = cut_pair(alloc, rest)? else {
            return Ok(None);
        };
        pairs.push(pair)?;
        rest = behind;
    }
    Ok(Some(pairs))
}

fn is_before(key: &Text, next: &Text) -> bool
    ensures { result ≡ is_lt (slice_cmp nat_cmp key.now next.now) }
{
    match key.cmp(next) {
        Ordering::Less => true,
        Ordering::Equal | Ordering::Greater => false,
    }
}

// Whether each key comes before the next.
fn ascend(pairs: &[Pair]) -> bool
    ensures { result ≡ ascend pairs.now }
{
    let Some((first, others)) = pairs.split_first() else {
        return true;
    };
    let mut last = &first.key;
    for pair in others {
        if !is_before(last, &pair.key) {
            return false;
        }
        last = &pair.key;
    }
    true
}

/// The context whose encoding bytes are: pairs in order of the key's bytes, of at most 8,192 bytes.
pub fn context_of(alloc: Global, bytes: &[u8]) -> Result<Option<Context>, NoMemory>
    ensures { IfOk result (λ context. context ≡ context_of bytes.now) }
{
    let Some(pairs) = pairs_of(alloc, bytes)? else {
        return Ok(None);
    };
    if !ascend(pairs.as_slice()) {
        return Ok(None);
    }
    match Context::from_pairs(alloc, pairs) {
        Ok(context) => Ok(Some(context)),
        Err(ContextFault::TooLong) => Ok(None),
        Err(ContextFault::NoMemory) => Err(NoMemory),
    }
}
