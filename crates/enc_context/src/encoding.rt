//! The parts of an encoding.

ghost use Rattle.std.specs.Prelude.{◌≡◌, ◌+◌, ◌<◌, ◌≤◌, ◌++◌, length, vec_len, vec_capacity, SomeIff, OnOk, IsOk};
ghost use Rattle.enc_context.specs.Encoding.{text_encoding, pair_encoding, encoding_of};

use crate::pairs::Pair;
use kms_names::{NoMemory, Text};

/// The most bytes that an encoding has.
pub const LIMIT: usize = 8192;

/// The size of a length in an encoding, in bytes.
const LENGTH_SIZE: usize = 4;

/// The size of the encoding of some pairs, where it keeps to the limit.
pub fn size_within_limit(pairs: &[Pair]) -> Option<usize>
    ensures { SomeIff result (length (encoding_of pairs.now) ≤ LIMIT) (length (encoding_of pairs.now)) }
{
    let mut size = 0;
    for pair in pairs {
        size = size_with(size, &pair.key)?;
        size = size_with(size, &pair.value)?;
    }
    Some(size)
}

/// The size of an encoding of that size and one more text, where it keeps to the limit.
#[tactic(auto, using(crate::proofs::EncodingFacts::text_encoding_size))]
fn size_with(size: usize, text: &Text) -> Option<usize>
    requires { size ≤ LIMIT }
    ensures { SomeIff result (size + length (text_encoding text.now) ≤ LIMIT) (size + length (text_encoding text.now)) }
{
    let text_size = text.as_str().len();
    if text_size > LIMIT {
        return None;
    }
    let sum = size + LENGTH_SIZE + text_size;
    if sum > LIMIT { None } else { Some(sum) }
}

/// Writes a pair behind what stands in a buffer. It is refused only where the buffer has no room for it.
#[tactic(auto, using(crate::proofs::EncodingFacts::pair_encoding_size, crate::proofs::EncodingFacts::text_encoding_size))]
pub fn append_pair(pair: &Pair, out: &mut Vec<u8>) -> Result<(), NoMemory>
    requires { length (pair_encoding pair.now) ≤ LIMIT }
    ensures written { OnOk result (out.new.items ≡ out.old.items ++ pair_encoding pair.now) }
    ensures room { vec_len out.old + length (pair_encoding pair.now) ≤ vec_capacity out.old → IsOk result }
    ensures capacity { vec_capacity out.old ≤ vec_capacity out.new }
{
    append_text(&pair.key, out)?;
    append_text(&pair.value, out)
}

/// Writes a text behind its length.
#[tactic(auto, unfolding(crate::specs::Encoding::text_encoding))]
fn append_text(text: &Text, out: &mut Vec<u8>) -> Result<(), NoMemory>
    requires { length text.now ≤ LIMIT }
    ensures written { OnOk result (out.new.items ≡ out.old.items ++ text_encoding text.now) }
    ensures room { vec_len out.old + length (text_encoding text.now) ≤ vec_capacity out.old → IsOk result }
    ensures capacity { vec_capacity out.old ≤ vec_capacity out.new }
{
    let bytes = text.as_str().as_bytes();
    out.extend_from_slice(&(bytes.len() as u32).to_be_bytes())?;
    out.extend_from_slice(bytes)?;
    Ok(())
}
