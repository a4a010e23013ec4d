//! HMAC with SHA-256, as FIPS 198-1 defines it, of a message at once or of its parts in turn.
//!
//! No call takes memory and none is refused. FIPS 180-4 defines SHA-256 for messages of fewer than
//! 2^61 bytes. Beyond that, where no standard speaks, the length in SHA-256's padding is taken
//! modulo 2^64 bits.
#![tactic(auto)]

ghost use Rattle.std.specs.Prelude.{◌≡◌, ◌≤◌, ◌++◌, [], ℕ, List, length};
ghost use Rattle.sha2.specs.Hashers.{Holds256};
ghost use Rattle.mac_sha.specs.Hmac.{hmac_sha256};
ghost use Rattle.mac_sha.specs.Hmac as spec;
ghost use Rattle.mac_sha.specs.Running.{IsMac};

use sha2::{Digest, Sha256};

/// The size in bytes of the blocks that SHA-256 takes, which FIPS 198-1 calls B.
const BLOCK_SIZE: usize = 64;

/// The byte that FIPS 198-1's section 3 repeats in ipad.
const INNER_PAD: u8 = 0x36;

/// The byte that FIPS 198-1's section 3 repeats in opad.
const OUTER_PAD: u8 = 0x5c;

/// The HMAC of a message under a key (FIPS 198-1, section 4), in 32 bytes.
///
/// The key may have any length, 0 too. One of more than 64 bytes counts as its SHA-256.
pub fn hmac256(key: &[u8], message: &[u8]) -> [u8; 32]
    ensures { result ≡ hmac_sha256 key.now message.now }
{
    let mut mac = Mac::new(key);
    mac.add(message);
    mac.end()
}

/// An HMAC in the making, of a message that is given in parts (FIPS 198-1, section 4).
///
/// It keeps two running hashes and none of the parts. One of no parts so far may be kept beside its
/// key and copied for each message under that key (FIPS 198-1, section 6): a copy hashes nothing,
/// where `new` hashes two blocks. Who holds such a one can make the key's HMACs, as who holds the
/// key.
#[derive(Drop)]
pub struct Mac {
    inner: Sha256,
    outer: Sha256,
}

impl Mac {
    /// An HMAC under this key, of no parts so far.
    #[tactic(auto, unfolding(crate::specs::Running::IsMac))]
    pub fn new(key: &[u8]) -> Mac
        ensures { IsMac result key.now [] }
    {
        let block = key_block(key);
        Mac {
            inner: hasher_after(&xor_each(block, INNER_PAD)),
            outer: hasher_after(&xor_each(block, OUTER_PAD)),
        }
    }

    /// The same HMAC once more, under the same key and of the same parts so far.
    pub fn copy(&self) -> Mac
        ensures { result ≡ self.now }
    {
        Mac {
            inner: copy_of(&self.inner),
            outer: copy_of(&self.outer),
        }
    }

    /// Takes in the message's next part.
    #[tactic(auto, unfolding(crate::specs::Running::IsMac))]
    pub fn add(&mut self, part: &[u8])
        ensures { (key message : List ℕ) → IsMac self.old key message
            → IsMac self.new key (message ++ part.now) }
    {
        self.inner.update(part);
    }

    /// The HMAC of the parts joined, in 32 bytes.
    #[tactic(auto, unfolding(crate::specs::Running::IsMac, crate::specs::Hmac::hmac_sha256))]
    pub fn end(self) -> [u8; 32]
        ensures { (key message : List ℕ) → IsMac self key message
            → result ≡ hmac_sha256 key message }
    {
        let Mac { inner, mut outer } = self;
        let digest: [u8; 32] = inner.finalize();
        outer.update(digest.as_slice());
        outer.finalize()
    }
}

/// A hash in the same state. Its `clone` takes no memory and never fails.
fn copy_of(hasher: &Sha256) -> Sha256
    ensures { result ≡ hasher.now }
{
    match hasher.clone() {
        Ok(copy) => copy,
        Err(_) => unreachable!(),
    }
}

/// The hash that has taken in one block.
fn hasher_after(block: &[u8; 64]) -> Sha256
    ensures { Holds256 result block.now }
{
    let mut hasher = Sha256::new();
    hasher.update(block.as_slice());
    hasher
}

/// The key as one block: hashed where it is longer than a block, then padded with zeros.
#[tactic(auto, unfolding(crate::specs::Hmac::key_block))]
fn key_block(key: &[u8]) -> [u8; 64]
    ensures { result ≡ spec.key_block key.now }
{
    if key.len() <= BLOCK_SIZE {
        zero_padded(key)
    } else {
        let digest: [u8; 32] = Sha256::digest(key);
        zero_padded(digest.as_slice())
    }
}

/// The text with zeros after it, up to one block.
fn zero_padded(text: &[u8]) -> [u8; 64]
    requires { length text.now ≤ BLOCK_SIZE }
    ensures { result ≡ spec.zero_padded text.now }
{
    let mut block = [0; BLOCK_SIZE];
    block[..text.len()].copy_from_slice(text);
    block
}

/// The block with each byte xor the pad's byte.
fn xor_each(mut block: [u8; 64], pad: u8) -> [u8; 64]
    ensures { result ≡ spec.xor_each block pad }
{
    for byte in block.iter_mut() {
        *byte ^= pad;
    }
    block
}
