//! The hash of additional data and a ciphertext, and the tag made of it, SP 800-38D, 7.1.

ghost use Rattle.std.specs.Prelude.{◌≡◌, ℕ, ◌+◌, ◌*◌, ◌<◌, ◌≤◌, ◌^◌, ◌++◌, List, length};
ghost use Rattle.ghash_field.specs.Running.{IsGhash};
ghost use Rattle.gcm_seal.specs.Blocks.{block_at, blocks_of, padded};
ghost use Rattle.gcm_seal.specs.Gcm.{lengths_block, pre_counter_block, tag_of};

use crate::counter::gctr;
use aes_block::AesKey;
use ghash_field::Ghash;

/// Block `i` of a text, which is whole.
#[inline(always)]
fn whole_block(text: &[u8], i: usize) -> [u8; 16]
    requires { 16 * i + 16 ≤ length text.now }
    ensures { result ≡ block_at (padded text.now) i }
{
    let start = 16 * i;
    let mut block = [0; 16];
    block.copy_from_slice(&text[start..start + 16]);
    block
}

/// Block `i` of a text, which is its last and not whole, filled up with zeros.
fn padded_block(text: &[u8], i: usize) -> [u8; 16]
    requires some { 16 * i < length text.now }
    requires rest { length text.now < 16 * i + 16 }
    ensures { result ≡ block_at (padded text.now) i }
{
    let rest = &text[16 * i..];
    let mut block = [0; 16];
    block[..rest.len()].copy_from_slice(rest);
    block
}

/// Takes in the blocks of a text, its last block filled up with zeros.
fn update_padded(hash: &mut Ghash, text: &[u8])
    ensures { (h : List ℕ) (blocks : List (List ℕ)) → IsGhash hash.old h blocks
        → IsGhash hash.new h (blocks ++ blocks_of (padded text.now)) }
{
    let whole = text.len() / 16;
    for i in 0..whole {
        hash.update_block(whole_block(text, i));
    }
    if 16 * whole < text.len() {
        hash.update_block(padded_block(text, whole));
    }
}

/// The lengths of the two texts in bits, in 8 bytes each.
fn lengths_block(aad: &[u8], ciphertext: &[u8]) -> [u8; 16]
    requires aad { length aad.now ≤ 2 ^ 20 }
    requires ciphertext { length ciphertext.now ≤ 2 ^ 20 }
    ensures { result ≡ lengths_block aad.now ciphertext.now }
{
    let mut block = [0; 16];
    block[..8].copy_from_slice(&(8 * aad.len() as u64).to_be_bytes());
    block[8..].copy_from_slice(&(8 * ciphertext.len() as u64).to_be_bytes());
    block
}

/// The tag of additional data and a ciphertext (7.1, steps 1 and 4 to 6).
pub(crate) fn tag_of(key: &AesKey, iv: &[u8; 12], aad: &[u8], ciphertext: &[u8]) -> [u8; 16]
    requires aad { length aad.now ≤ 2 ^ 20 }
    requires ciphertext { length ciphertext.now ≤ 2 ^ 20 }
    ensures { result ≡ tag_of key.now iv.now aad.now ciphertext.now }
{
    let mut hash = Ghash::new(key.encrypt([0; 16]));
    update_padded(&mut hash, aad);
    update_padded(&mut hash, ciphertext);
    hash.update_block(lengths_block(aad, ciphertext));
    let mut tag = hash.value();
    gctr(key, pre_counter_block(iv), &mut tag);
    tag
}

/// The IV and the number 1 in 4 bytes (7.1, step 2).
pub(crate) fn pre_counter_block(iv: &[u8; 12]) -> [u8; 16]
    ensures { result ≡ pre_counter_block iv.now }
{
    let mut block = [0; 16];
    block[..12].copy_from_slice(iv);
    block[15] = 1;
    block
}
