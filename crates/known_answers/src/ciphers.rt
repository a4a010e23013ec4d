//! The cases of AES-256, of GHASH and of AES-256-GCM.

use crate::cases::Case;
use aes_block::AesKey;
use gcm_seal::{open, seal};
use ghash_field::Ghash;

/// How many bytes the texts and the additional data of GCM have at most.
const LIMIT: usize = 1 << 20;

/// What a call of the cipher answers.
pub fn aes256(case: &mut Case<'_>) {
    match case.word() {
        "encrypt" => {
            let key = AesKey::new(&case.array());
            let block = key.encrypt(case.array());
            case.put_bytes(&block);
        }
        _ => case.lose(),
    }
}

/// What a call of GHASH answers.
pub fn ghash(case: &mut Case<'_>) {
    match case.word() {
        "hash" => {
            let mut hash = Ghash::new(case.array());
            let blocks = case.bytes();
            for block in blocks.chunks(16) {
                let block = <[u8; 16]>::try_from(block);
                hash.update_block(case.kept_or(block, [0; 16]));
            }
            case.put_bytes(&hash.value());
        }
        _ => case.lose(),
    }
}

/// What a call of GCM answers.
pub fn gcm(case: &mut Case<'_>) {
    let call = case.word();
    let mut message = Message {
        key: case.array(),
        iv: case.array(),
        aad: case.bytes(),
        text: case.bytes(),
    };
    case.require(message.aad.len() <= LIMIT && message.text.len() <= LIMIT);
    let given = case.kept_or(message.text.clone(), Vec::new(case.alloc));
    match call {
        "seal" => sealed(case, &mut message, &given),
        "open" => opened(case, &mut message, &given),
        "open_bits" => refused(case, &mut message, &given),
        _ => case.lose(),
    }
}

/// What is sealed or opened.
#[derive(Drop)]
struct Message {
    key: [u8; 32],
    iv: [u8; 12],
    aad: Vec<u8>,
    text: Vec<u8>,
}

impl Message {
    /// Seals the text in place and gives its tag, where neither it nor the additional data is too long.
    fn seal(&mut self) -> Option<[u8; 16]> {
        if self.aad.len() > LIMIT || self.text.len() > LIMIT {
            return None;
        }
        Some(seal(&self.key, &self.iv, &self.aad, &mut self.text))
    }

    /// Opens the text in place, where the tag is its own and neither it nor the additional data is too long.
    fn open(&mut self, tag: &[u8; 16]) -> bool {
        if self.aad.len() > LIMIT || self.text.len() > LIMIT {
            return false;
        }
        open(&self.key, &self.iv, &self.aad, &mut self.text, tag)
    }
}

/// The ciphertext and the tag of a text, and `not opened again` where the tag doesn't open the one to the other.
fn sealed(case: &mut Case<'_>, message: &mut Message, given: &[u8]) {
    if let Some(tag) = case.found(message.seal()) {
        case.put_bytes(&message.text);
        case.put_bytes(&tag);
        if !message.open(&tag) || message.text.as_slice() != given {
            case.put("not opened again");
        }
    }
}

/// The text that a tag opens a ciphertext to, or `refused`.
fn opened(case: &mut Case<'_>, message: &mut Message, given: &[u8]) {
    if message.open(&case.array()) {
        case.put_bytes(&message.text);
    } else if message.text.as_slice() == given {
        case.put("refused");
    } else {
        case.put("changed");
    }
}

/// How many of the tags that differ from this one in one bit are refused, with the ciphertext as it was.
fn refused(case: &mut Case<'_>, message: &mut Message, given: &[u8]) {
    let tag = case.array();
    let mut refused = 0u64;
    for bit in 0..128usize {
        let mut other: [u8; 16] = tag;
        other[bit / 8] ^= 1 << (bit % 8);
        if !message.open(&other) && message.text.as_slice() == given {
            refused = refused.saturating_add(1);
        }
    }
    case.put_number(refused);
    case.put("refused");
}
