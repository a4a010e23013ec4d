//! A law on the definitions.

ghost use Rattle.std.specs.Prelude.{◌≡◌, ℕ, ◌<◌};
ghost use Rattle.aes_block.specs.Laws.{InverseIsPinned};
ghost use Rattle.aes_block.specs.Field.{inverse};

/// The inverse in GF(2^8), on which the S-box rests, is what FIPS 197, 4.4 calls the inverse: of a
/// byte other than 0 it is the only byte whose product with it is 1, and of 0 it is 0 (5.1.1).
pub fn inverse_is_pinned()
    ensures pinned { (x : ℕ) → 0 < x → x < 256 → InverseIsPinned x }
    ensures at_zero { inverse 0 ≡ 0 }
{}
