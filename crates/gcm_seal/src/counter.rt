//! Counter blocks and the mode GCTR, SP 800-38D, 6.2 and 6.5.

ghost use Rattle.std.specs.Prelude.{◌≡◌, ◌≤◌, length, take};
ghost use Rattle.gcm_seal.specs.Counter.{inc32, xor_bytes, gctr};

use aes_block::AesKey;
use std::simd::prelude::*;

/// The block with its last 4 bytes, as a number, raised by one modulo 2^32 (6.2).
pub(crate) fn inc32(block: &[u8; 16]) -> [u8; 16]
    ensures { result ≡ inc32 block.now }
{
    let count = u32::from_be_bytes([block[12], block[13], block[14], block[15]]);
    let mut next = *block;
    next[12..].copy_from_slice(&count.wrapping_add(1).to_be_bytes());
    next
}

/// Adds the mask to a text of a whole block.
#[inline(always)]
fn xor_block(text: &mut [u8], mask: &[u8; 16])
    requires { length text.old ≡ 16 }
    ensures { text.new ≡ xor_bytes text.old mask.now }
{
    let sum = u8x16::from_slice(text) ^ u8x16::from_array(*mask);
    sum.copy_to_slice(text);
}

/// Adds to a text of at most a block the first bytes of the mask.
fn xor_into(text: &mut [u8], mask: &[u8; 16])
    requires { length text.old ≤ 16 }
    ensures { text.new ≡ xor_bytes text.old (take (length text.old) mask.now) }
{
    for (i, byte) in text.iter_mut().enumerate() {
        *byte ^= mask[i];
    }
}

/// GCTR of a text, in place, from an initial counter block (6.5): whole blocks, and then the rest.
pub(crate) fn gctr(key: &AesKey, initial: [u8; 16], text: &mut [u8])
    ensures { text.new ≡ gctr key.now initial text.old }
{
    let mut counter = initial;
    let whole = text.len() / 16;
    for i in 0..whole {
        let start = 16 * i;
        xor_block(&mut text[start..start + 16], &key.encrypt(counter));
        counter = inc32(&counter);
    }
    let end = 16 * whole;
    if end < text.len() {
        xor_into(&mut text[end..], &key.encrypt(counter));
    }
}
