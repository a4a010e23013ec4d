// The words that choose the messages.
ghost use Rattle.std.specs.Prelude.{◌≡◌, ◌≤◌};
ghost use Rattle.kms_workload.specs.Words.{key_of_seed, words_of};

use rand_chacha::ChaCha20Rng;
use rand_core::SeedableRng;
use rand_core::utils::NextWord;
use sha2::{Digest, Sha256};

/// The three words of a message.
#[derive(Clone, Copy)]
pub struct Words {
    /// It chooses the key.
    pub first: u32,
    /// It chooses the operation.
    pub second: u32,
    /// It chooses between EnableKey and DisableKey.
    pub third: u32,
}

// The ChaCha20 key of a seed: the digest (FIPS 180-4) of its eight bytes, the greatest first.
fn key_of(seed: u64) -> [u8; 32]
    ensures { result ≡ key_of_seed seed }
{
    Sha256::digest(seed.to_be_bytes().as_slice())
}

/// The words of the message of this number, which are three words of ChaCha20's key stream (RFC 8439,
/// section 2.4) for each message from number 8 on. It takes no memory.
pub fn words_of(seed: u64, number: u32) -> Words
    requires { 8 ≤ number }
    ensures { result ≡ words_of seed number }
{
    let mut generator = ChaCha20Rng::from_seed(key_of(seed));
    generator.set_word_pos(3 * (u128::from(number) - 8));
    let first = generator.next_word();
    let second = generator.next_word();
    let third = generator.next_word();
    Words {
        first,
        second,
        third,
    }
}
