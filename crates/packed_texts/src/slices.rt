//! Runs of packed texts.

use std::marker::Model;

/// A run of packed texts. It is two references, and takes no memory. Contracts see the list of the texts.
#[derive(Drop)]
pub struct TextSlice<'a> {
    joined: &'a str,
    lengths: &'a [u32],
}

impl<'a> Model for TextSlice<'a> {
    ghost use Rattle.std.specs.Prelude.{List, ℕ};
    ghost use Rattle.packed_texts.specs.Cut.{AreCut, cut};

    ghost Value = { List (List ℕ) };

    ghost view = { λ s. cut s.lengths.now s.joined.now };

    ghost invariant = { λ s. AreCut s.lengths.now s.joined.now };
}

impl<'a> TextSlice<'a> {
    ghost use Rattle.std.specs.Prelude.{◌≡◌, ◌∷◌, ◌==◌, [], length, take, drop, MatchOption};
    ghost use Rattle.packed_texts.specs.Cut.{AreCut, cut};

    /// The texts that so many lengths cut off a text, one behind another.
    pub(crate) fn new(joined: &'a str, lengths: &'a [u32]) -> TextSlice<'a>
        requires { AreCut lengths.now joined.now }
        ensures { result ≡ cut lengths.now joined.now }
    {
        TextSlice { joined, lengths }
    }

    /// How many there are.
    pub fn len(&self) -> usize
        ensures { result ≡ length self.now }
    {
        self.lengths.len()
    }

    /// Whether there is none.
    pub fn is_empty(&self) -> bool
        ensures { result ≡ (length self.now == 0) }
    {
        self.lengths.is_empty()
    }

    /// The same run.
    pub fn copy(&self) -> TextSlice<'a>
        ensures { result ≡ self.now }
    {
        TextSlice {
            joined: self.joined,
            lengths: self.lengths,
        }
    }

    /// The first text, and the run of those behind it.
    pub fn split_first(&self) -> Option<(&'a str, TextSlice<'a>)>
        ensures { MatchOption result (self.now ≡ []) (λ x. self.now ≡ x.0.now ∷ x.1) }
    {
        if self.lengths.is_empty() {
            return None;
        }
        let (text, joined) = self.joined.split_at(self.lengths[0] as usize);
        let rest = TextSlice {
            joined,
            lengths: &self.lengths[1..],
        };
        Some((text, rest))
    }

    /// The run of the first so many texts, or of all where there are fewer.
    pub fn first(&self, count: usize) -> TextSlice<'a>
        ensures { result ≡ take count self.now }
    {
        let count = count.min(self.lengths.len());
        TextSlice {
            joined: self.joined,
            lengths: &self.lengths[..count],
        }
    }

    /// The run of the texts behind the first so many, of none where there are no more.
    pub fn behind(&self, count: usize) -> TextSlice<'a>
        ensures { result ≡ drop count self.now }
    {
        let mut rest = self.copy();
        for _step in 0..count {
            let Some((_, others)) = rest.split_first() else {
                break;
            };
            rest = others;
        }
        rest
    }

    /// The run of the first so many texts, and the run of those behind them; all and none where there are fewer.
    pub fn split_at(&self, count: usize) -> (TextSlice<'a>, TextSlice<'a>)
        ensures first { result.0 ≡ take count self.now }
        ensures behind { result.1 ≡ drop count self.now }
    {
        (self.first(count), self.behind(count))
    }
}
