//! A key with its schedule, and the cipher, FIPS 197, 5.1.

ghost use Rattle.std.specs.Prelude.{◌≡◌};
ghost use Rattle.aes_block.specs.Cipher.{cipher};

use crate::rounds::{first_state, four_rounds, last_block, round};
use crate::schedule::{key_expansion, packed};
use std::marker::Model;

/// A key of AES-256, ready to encrypt. It is seen as the key's 32 bytes.
#[derive(Drop)]
pub struct AesKey {
    words: [u32; 60],
}

impl Model for AesKey {
    ghost use Rattle.std.specs.Prelude.{List, ℕ};

    ghost Value = { List ℕ };

    ghost use Rattle.aes_block.specs.Key.{key_of, IsSchedule};

    ghost view = { key_of };

    ghost invariant = { IsSchedule };
}

impl AesKey {
    /// The key of these 32 bytes, with the round keys that it expands to (FIPS 197, 5.2).
    pub fn new(key: &[u8; 32]) -> AesKey
        ensures { result ≡ key.now }
    {
        AesKey {
            words: packed(&key_expansion(key)),
        }
    }

    /// The cipher of AES-256 at a block of 16 bytes (FIPS 197, 5.1).
    pub fn encrypt(&self, block: [u8; 16]) -> [u8; 16]
        ensures { result ≡ cipher self.now block }
    {
        let start = first_state(&self.words, &block);
        let after_four = four_rounds(&self.words, &start, 1);
        let after_eight = four_rounds(&self.words, &after_four, 5);
        let after_twelve = four_rounds(&self.words, &after_eight, 9);
        let after_thirteen = round(&self.words, &after_twelve, 13);
        last_block(&self.words, &after_thirteen)
    }
}
