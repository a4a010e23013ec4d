ghost use Rattle.std.specs.Prelude.{◌≡◌, ◌+◌, ◌≤◌, ◌<◌, ◌^◌, length, SomeIff, OnSome, IfNone};
ghost use Rattle.draw_lines.specs.Draw.{draw_at, words_for};
ghost use Rattle.draw_lines.specs.Answers.{OnDone, OnSpent};
ghost use Rattle.draw_lines.specs.Iv.{iv_at};

use rand_chacha::ChaCha20Rng;
use rand_core::SeedableRng;
use rand_core::utils::fill_bytes_via_u32;
use std::marker::Model;

/// How many words, and how many vectors, a line gives: 2^48 of each.
const LIMIT: u64 = 0x1_0000_0000_0000;

/// The size of a ChaCha20 word in bytes (RFC 8439, section 2.1).
const WORD_SIZE: usize = 4;

/// What became of a draw.
#[derive(Clone, Copy)]
pub enum Drawn {
    /// The room was filled.
    Done,
    /// The line has fewer words left than the draw needs.
    Spent,
}

/// A line of draws: the words of one ChaCha20 key, and the initialization vectors of one pass of one
/// boot. Contracts see it as its seed, boot and pass number, and how many words and vectors it gave.
#[derive(Drop)]
pub struct DrawLine {
    seed: [u8; 32],
    boot: u32,
    pass_number: u16,
    words: u64,
    ivs: u64,
}

impl Model for DrawLine {
    ghost use Rattle.std.specs.Prelude.{◌≤◌, ◌^◌};
    ghost use Rattle.draw_lines.specs.Line.{Line};

    ghost Value = { Line };

    ghost view = { λ line. record { seed = line.seed; boot = line.boot; pass_number = line.pass_number; words = line.words; ivs = line.ivs } };

    ghost invariant = { λ line. (line.words ≤ 2 ^ 48) × (line.ivs ≤ 2 ^ 48) };
}

impl DrawLine {
    /// A line that has given nothing. The seed is the ChaCha20 key.
    pub fn new(seed: &[u8; 32], boot: u32, pass_number: u16) -> DrawLine
        ensures { result ≡ record { seed = seed.now; boot = boot; pass_number = pass_number; words = 0; ivs = 0 } }
    {
        DrawLine::resume(seed, boot, pass_number, 0, 0)
    }

    /// A line that has given so many words and so many vectors, each at most 2^48.
    pub fn resume(seed: &[u8; 32], boot: u32, pass_number: u16, words: u64, ivs: u64) -> DrawLine
        requires words { words ≤ 2 ^ 48 }
        requires ivs { ivs ≤ 2 ^ 48 }
        ensures { result ≡ record { seed = seed.now; boot = boot; pass_number = pass_number; words = words; ivs = ivs } }
    {
        DrawLine {
            seed: *seed,
            boot,
            pass_number,
            words,
            ivs,
        }
    }

    /// Fills a room of at most 1,024 bytes with the next whole words that hold so many bytes, each word
    /// low byte first (RFC 8439, section 2.3). What is left of the last word is dropped.
    ///
    /// `Spent` comes exactly where the words given and the words needed are together more than 2^48.
    /// The room and the line then stay as they were.
    pub fn draw(&mut self, out: &mut [u8]) -> Drawn
        requires { length out.old ≤ 1024 }
        ensures done { OnDone result (self.old.words + words_for (length out.old) ≤ 2 ^ 48) }
        ensures bytes { OnDone result (out.new ≡ draw_at self.old.seed self.old.words (length out.old)) }
        ensures counted { OnDone result (self.new ≡ record self.old { words = self.old.words + words_for (length out.old) }) }
        ensures spent { OnSpent result (2 ^ 48 < self.old.words + words_for (length out.old)) }
        ensures room_kept { OnSpent result (out.new ≡ out.old) }
        ensures line_kept { OnSpent result (self.new ≡ self.old) }
    {
        let words = self.words + out.len().div_ceil(WORD_SIZE) as u64;
        if words > LIMIT {
            return Drawn::Spent;
        }
        let mut generator = ChaCha20Rng::from_seed(self.seed);
        generator.set_word_pos(u128::from(self.words));
        fill_bytes_via_u32(&mut generator, out);
        self.words = words;
        Drawn::Done
    }

    /// The next initialization vector: the boot, the pass number and the count of the vectors given,
    /// high byte first (SP 800-38D, section 8.2.1). `None` comes exactly where 2^48 were given, and the
    /// line then stays as it was.
    pub fn next_iv(&mut self) -> Option<[u8; 12]>
        ensures iv { SomeIff result (self.old.ivs < 2 ^ 48) (iv_at self.old.boot self.old.pass_number self.old.ivs) }
        ensures counted { OnSome result (self.new ≡ record self.old { ivs = self.old.ivs + 1 }) }
        ensures kept { IfNone result (self.new ≡ self.old) }
    {
        if self.ivs == LIMIT {
            return None;
        }
        let iv = iv_of(self.boot, self.pass_number, self.ivs);
        self.ivs += 1;
        Some(iv)
    }

    /// The number of the pass.
    pub fn pass_number(&self) -> u16
        ensures { result ≡ self.now.pass_number }
    {
        self.pass_number
    }

    /// How many words were given, at most 2^48.
    pub fn words(&self) -> u64
        ensures value { result ≡ self.now.words }
        ensures bound { self.now.words ≤ 2 ^ 48 }
    {
        self.words
    }

    /// How many initialization vectors were given, at most 2^48.
    pub fn ivs(&self) -> u64
        ensures value { result ≡ self.now.ivs }
        ensures bound { self.now.ivs ≤ 2 ^ 48 }
    {
        self.ivs
    }
}

/// The vector of this count, which is below 2^48.
#[tactic(auto, unfolding(crate::specs::Iv::iv_at))]
fn iv_of(boot: u32, pass_number: u16, count: u64) -> [u8; 12]
    ensures { result ≡ iv_at boot pass_number count }
{
    let [b0, b1, b2, b3] = boot.to_be_bytes();
    let [p0, p1] = pass_number.to_be_bytes();
    let [_, _, c0, c1, c2, c3, c4, c5] = count.to_be_bytes();
    [b0, b1, b2, b3, p0, p1, c0, c1, c2, c3, c4, c5]
}
