//! Authenticated encryption and decryption, SP 800-38D, 7.1 and 7.2.

ghost use Rattle.std.specs.Prelude.{◌≡◌, ◌≤◌, ◌^◌, ◌↔◌, length, IsTrue, Some, None, if◌then◌else◌};
ghost use Rattle.std.specs.Bool.{OnTrue, OnFalse};
ghost use Rattle.gcm_seal.specs.Gcm.{sealed_text, tag_of, opened_text, open_of};

use crate::counter::{gctr, inc32};
use crate::hash::{pre_counter_block, tag_of};
use aes_block::AesKey;

/// Seals a text in place: leaves its ciphertext in the buffer, and answers the tag of the additional
/// data and the ciphertext (7.1). The text and the additional data have at most 2^20 bytes each.
pub fn seal(key: &[u8; 32], iv: &[u8; 12], aad: &[u8], text: &mut [u8]) -> [u8; 16]
    requires aad { length aad.now ≤ 2 ^ 20 }
    requires text { length text.old ≤ 2 ^ 20 }
    ensures ciphertext { text.new ≡ sealed_text key.now iv.now text.old }
    ensures tag { result ≡ tag_of key.now iv.now aad.now text.new }
{
    let key = AesKey::new(key);
    add_key_stream(&key, iv, text);
    tag_of(&key, iv, aad, text)
}

/// Opens a ciphertext in place: true exactly where the tag is the one of the additional data and the
/// ciphertext, and then the plaintext stands in the buffer (7.2). At false the buffer is as it was.
/// The ciphertext and the additional data have at most 2^20 bytes each.
pub fn open(key: &[u8; 32], iv: &[u8; 12], aad: &[u8], text: &mut [u8], tag: &[u8; 16]) -> bool
    requires aad { length aad.now ≤ 2 ^ 20 }
    requires text { length text.old ≤ 2 ^ 20 }
    ensures authentic { IsTrue result ↔ (tag.now ≡ tag_of key.now iv.now aad.now text.old) }
    ensures plaintext { OnTrue result (text.new ≡ opened_text key.now iv.now text.old) }
    ensures refused { OnFalse result (text.new ≡ text.old) }

    // Authenticated decryption as one function, of which the laws speak.
    ensures answer { open_of key.now iv.now aad.now text.old tag.now
        ≡ (if result then Some text.new else None) }
{
    let key = AesKey::new(key);
    let authentic = are_equal(&tag_of(&key, iv, aad, text), tag);
    if authentic {
        add_key_stream(&key, iv, text);
    }
    authentic
}

/// Seals a plaintext or opens a ciphertext, in place, which are one step (7.1, step 3; 7.2, step 4).
fn add_key_stream(key: &AesKey, iv: &[u8; 12], text: &mut [u8])
    ensures sealed { text.new ≡ sealed_text key.now iv.now text.old }
    ensures opened { text.new ≡ opened_text key.now iv.now text.old }
{
    let pre_counter = pre_counter_block(iv);
    let first = inc32(&pre_counter);
    gctr(key, first, text);
}

/// Compares two tags, all their bytes in any case.
fn are_equal(left: &[u8; 16], right: &[u8; 16]) -> bool
    ensures { IsTrue result ↔ (left.now ≡ right.now) }
{
    let mut difference = 0;
    for i in 0..16 {
        difference |= left[i] ^ right[i];
    }
    difference == 0
}
