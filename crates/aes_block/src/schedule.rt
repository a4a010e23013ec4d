//! The key expansion of FIPS 197, 5.2, for a key of 8 words.

ghost use Rattle.std.specs.Prelude.{◌≡◌, ◌+◌, ◌*◌, ◌<◌, ◌≤◌, take};
ghost use Rattle.std.specs.Int.{w32, to_be_bytes};
ghost use Rattle.aes_block.specs.Words.{words_of};
ghost use Rattle.aes_block.specs.Schedule.{xor_words, rot_word, sub_word, rcon, key_term, key_word, first_words, key_expansion};

use crate::sbox::sub_byte;

// The words of a key.
const KEY_WORDS: usize = 8;

// The words of a schedule: 4 for each of the 14 rounds and 4 before the first.
const SCHEDULE_WORDS: usize = 60;

// The sum of two words.
#[tactic(auto, unfolding(crate::specs::Schedule::xor_words))]
fn xor_words(a: [u8; 4], b: [u8; 4]) -> [u8; 4]
    ensures { result ≡ xor_words a b }
{
    [a[0] ^ b[0], a[1] ^ b[1], a[2] ^ b[2], a[3] ^ b[3]]
}

// RotWord.
#[tactic(auto, unfolding(crate::specs::Schedule::rot_word))]
fn rot_word(a: [u8; 4]) -> [u8; 4]
    ensures { result ≡ rot_word a }
{
    [a[1], a[2], a[3], a[0]]
}

// SubWord.
#[tactic(auto, unfolding(crate::specs::Schedule::sub_word))]
pub(crate) fn sub_word(a: [u8; 4]) -> [u8; 4]
    ensures { result ≡ sub_word a }
{
    [
        sub_byte(a[0]),
        sub_byte(a[1]),
        sub_byte(a[2]),
        sub_byte(a[3]),
    ]
}

// Rcon. A power of x below the eighth has one bit.
fn rcon(j: usize) -> [u8; 4]
    requires low { 1 ≤ j }
    requires high { j ≤ 8 }
    ensures { result ≡ rcon j }
{
    [1 << (j - 1), 0, 0, 0]
}

// What is added to word `i - 8` to make word `i`; `previous` is word `i - 1`.
fn key_term(previous: [u8; 4], i: usize) -> [u8; 4]
    requires low { 8 ≤ i }
    requires high { i < 60 }
    ensures { result ≡ key_term previous i }
{
    match i % KEY_WORDS {
        0 => xor_words(sub_word(rot_word(previous)), rcon(i / KEY_WORDS)),
        4 => sub_word(previous),
        _ => previous,
    }
}

// Word `i` of a key.
#[tactic(auto, unfolding(crate::specs::Schedule::key_word))]
fn key_word(key: &[u8; 32], i: usize) -> [u8; 4]
    requires { i < 8 }
    ensures { result ≡ key_word key.now i }
{
    [key[4 * i], key[4 * i + 1], key[4 * i + 2], key[4 * i + 3]]
}

// The words of a key, then zeros.
fn key_words(key: &[u8; 32]) -> [[u8; 4]; 60]
    ensures { take 8 result ≡ first_words key.now 0 }
{
    let mut words = [[0; 4]; SCHEDULE_WORDS];
    for i in 0..KEY_WORDS {
        words[i] = key_word(key, i);
    }
    words
}

// KeyExpansion.
pub(crate) fn key_expansion(key: &[u8; 32]) -> [[u8; 4]; 60]
    ensures { result ≡ key_expansion key.now }
{
    let mut words = key_words(key);
    for i in KEY_WORDS..SCHEDULE_WORDS {
        words[i] = xor_words(words[i - KEY_WORDS], key_term(words[i - 1], i));
    }
    words
}

// A word as a number, the first byte highest.
#[inline(always)]
pub(crate) fn packed_word(word: [u8; 4]) -> u32
    ensures { to_be_bytes w32 result ≡ word }
{
    u32::from_be_bytes(word)
}

// The words of a schedule as numbers.
pub(crate) fn packed(words: &[[u8; 4]; 60]) -> [u32; 60]
    ensures { words_of result ≡ words.now }
{
    let mut out = [0; SCHEDULE_WORDS];
    for i in 0..SCHEDULE_WORDS {
        out[i] = packed_word(words[i]);
    }
    out
}
