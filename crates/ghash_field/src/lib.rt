//! GHASH, the hash of Galois/Counter Mode, as SP 800-38D's sections 6.3 and 6.4 define it.
//!
//! No call takes memory and none is refused. Products are looked up in tables, at places that depend
//! on the hash subkey and on the blocks: the time that a call takes is no part of any claim.
#![tactic(auto)]

ghost use Rattle.std.specs.Prelude.{◌≡◌, ◌++◌, ◌∷◌, [], ℕ, List, ◌≤◌, ◌*◌, ◌^◌};
ghost use Rattle.ghash_field.specs.Ghash.{ghash};
ghost use Rattle.ghash_field.specs.Ghash as spec;
ghost use Rattle.ghash_field.specs.Products.{HasProducts};

/// The block R = 11100001 ‖ 0^120 (SP 800-38D, section 6.3), its leftmost bit the highest.
const REDUCTION: u128 = 0xe100_0000_0000_0000_0000_0000_0000_0000;

/// What eight shifts make of the block that ends in each byte and is 0 before it: its leftmost 16
/// bits, after which there are zeros.
const REMAINDERS: [u16; 256] = [
    0x0000, 0x01c2, 0x0384, 0x0246, 0x0708, 0x06ca, 0x048c, 0x054e, 0x0e10, 0x0fd2, 0x0d94, 0x0c56,
    0x0918, 0x08da, 0x0a9c, 0x0b5e, 0x1c20, 0x1de2, 0x1fa4, 0x1e66, 0x1b28, 0x1aea, 0x18ac, 0x196e,
    0x1230, 0x13f2, 0x11b4, 0x1076, 0x1538, 0x14fa, 0x16bc, 0x177e, 0x3840, 0x3982, 0x3bc4, 0x3a06,
    0x3f48, 0x3e8a, 0x3ccc, 0x3d0e, 0x3650, 0x3792, 0x35d4, 0x3416, 0x3158, 0x309a, 0x32dc, 0x331e,
    0x2460, 0x25a2, 0x27e4, 0x2626, 0x2368, 0x22aa, 0x20ec, 0x212e, 0x2a70, 0x2bb2, 0x29f4, 0x2836,
    0x2d78, 0x2cba, 0x2efc, 0x2f3e, 0x7080, 0x7142, 0x7304, 0x72c6, 0x7788, 0x764a, 0x740c, 0x75ce,
    0x7e90, 0x7f52, 0x7d14, 0x7cd6, 0x7998, 0x785a, 0x7a1c, 0x7bde, 0x6ca0, 0x6d62, 0x6f24, 0x6ee6,
    0x6ba8, 0x6a6a, 0x682c, 0x69ee, 0x62b0, 0x6372, 0x6134, 0x60f6, 0x65b8, 0x647a, 0x663c, 0x67fe,
    0x48c0, 0x4902, 0x4b44, 0x4a86, 0x4fc8, 0x4e0a, 0x4c4c, 0x4d8e, 0x46d0, 0x4712, 0x4554, 0x4496,
    0x41d8, 0x401a, 0x425c, 0x439e, 0x54e0, 0x5522, 0x5764, 0x56a6, 0x53e8, 0x522a, 0x506c, 0x51ae,
    0x5af0, 0x5b32, 0x5974, 0x58b6, 0x5df8, 0x5c3a, 0x5e7c, 0x5fbe, 0xe100, 0xe0c2, 0xe284, 0xe346,
    0xe608, 0xe7ca, 0xe58c, 0xe44e, 0xef10, 0xeed2, 0xec94, 0xed56, 0xe818, 0xe9da, 0xeb9c, 0xea5e,
    0xfd20, 0xfce2, 0xfea4, 0xff66, 0xfa28, 0xfbea, 0xf9ac, 0xf86e, 0xf330, 0xf2f2, 0xf0b4, 0xf176,
    0xf438, 0xf5fa, 0xf7bc, 0xf67e, 0xd940, 0xd882, 0xdac4, 0xdb06, 0xde48, 0xdf8a, 0xddcc, 0xdc0e,
    0xd750, 0xd692, 0xd4d4, 0xd516, 0xd058, 0xd19a, 0xd3dc, 0xd21e, 0xc560, 0xc4a2, 0xc6e4, 0xc726,
    0xc268, 0xc3aa, 0xc1ec, 0xc02e, 0xcb70, 0xcab2, 0xc8f4, 0xc936, 0xcc78, 0xcdba, 0xcffc, 0xce3e,
    0x9180, 0x9042, 0x9204, 0x93c6, 0x9688, 0x974a, 0x950c, 0x94ce, 0x9f90, 0x9e52, 0x9c14, 0x9dd6,
    0x9898, 0x995a, 0x9b1c, 0x9ade, 0x8da0, 0x8c62, 0x8e24, 0x8fe6, 0x8aa8, 0x8b6a, 0x892c, 0x88ee,
    0x83b0, 0x8272, 0x8034, 0x81f6, 0x84b8, 0x857a, 0x873c, 0x86fe, 0xa9c0, 0xa802, 0xaa44, 0xab86,
    0xaec8, 0xaf0a, 0xad4c, 0xac8e, 0xa7d0, 0xa612, 0xa454, 0xa596, 0xa0d8, 0xa11a, 0xa35c, 0xa29e,
    0xb5e0, 0xb422, 0xb664, 0xb7a6, 0xb2e8, 0xb32a, 0xb16c, 0xb0ae, 0xbbf0, 0xba32, 0xb874, 0xb9b6,
    0xbcf8, 0xbd3a, 0xbf7c, 0xbebe,
];

/// GHASH under one hash subkey, of the blocks given so far (SP 800-38D, section 6.4).
///
/// It keeps the hash subkey with a table of its products and the hash so far, and none of the blocks.
#[derive(Drop)]
pub struct Ghash {
    key: u128,
    sum: u128,
    // The products of the hash subkey and the blocks that are 0 after their first four bits, by those
    // bits.
    first_half: [u128; 16],
    // The same of the blocks that are 0 but for the four bits after the first four.
    second_half: [u128; 16],
    ghost first_products: { HasProducts first_half key 124 },
    ghost second_products: { HasProducts second_half key 120 },
}

impl Ghash {
    ghost use Rattle.ghash_field.specs.Running.{IsGhash};

    /// GHASH of no blocks under the hash subkey `h`.
    #[tactic(auto, using(crate::proofs::GhashFacts::hash_number_none), unfolding(crate::specs::Running::IsGhash))]
    pub fn new(h: [u8; 16]) -> Ghash
        ensures { IsGhash result h [] }
    {
        let key = number_of(h);
        let first_half = products(key);
        let second_half = products(next_shifted(first_half[1]));
        Ghash {
            key,
            sum: 0,
            first_half,
            second_half,
        }
    }

    /// Takes in the next block, of 16 bytes.
    #[tactic(auto, using(crate::proofs::GhashFacts::hash_number_more), unfolding(crate::specs::Running::IsGhash))]
    pub fn update_block(&mut self, block: [u8; 16])
        ensures { (h : List ℕ) (blocks : List (List ℕ)) → IsGhash self.old h blocks
            → IsGhash self.new h (blocks ++ block ∷ []) }
    {
        self.sum = self.product(self.sum ^ number_of(block));
    }

    /// GHASH of the blocks given so far, in 16 bytes.
    #[tactic(auto, unfolding(crate::specs::Running::IsGhash, crate::specs::Ghash::ghash))]
    pub fn value(&self) -> [u8; 16]
        ensures { (h : List ℕ) (blocks : List (List ℕ)) → IsGhash self.now h blocks
            → result ≡ ghash h blocks }
    {
        block_of(self.sum)
    }

    /// The product of a block and the hash subkey (SP 800-38D, section 6.3), a byte at a time from the
    /// right: what the bytes so far make is shifted by eight bits, and a byte's product is added.
    fn product(&self, block: u128) -> u128
        ensures { result ≡ spec.product block self.now.key }
    {
        let mut sum = 0;
        for i in 0..16u32 {
            let byte = block >> (8 * i) & 0xff;
            sum = shifted_by_a_byte(sum)
                ^ self.first_half[(byte >> 4) as usize]
                ^ self.second_half[(byte & 0xf) as usize];
        }
        sum
    }
}

/// The block as a number, its leftmost bit the highest.
#[tactic(auto, unfolding(crate::specs::Ghash::number_of))]
fn number_of(block: [u8; 16]) -> u128
    ensures { result ≡ spec.number_of block }
{
    u128::from_be_bytes(block)
}

/// The block that is this number.
#[tactic(auto, unfolding(crate::specs::Ghash::block_of))]
fn block_of(number: u128) -> [u8; 16]
    ensures { result ≡ spec.block_of number }
{
    number.to_be_bytes()
}

/// The products of a block and the sixteen half bytes that can stand in one place of the other block,
/// from the product with the half byte 1000: a 1 further to the right is one shift more, and what has
/// several is their sum.
fn products(highest: u128) -> [u128; 16]
    ensures { (key n : ℕ) → n ≤ 124 → highest ≡ spec.product (8 * 2 ^ n) key → HasProducts result key n }
{
    let (a, b) = (highest, next_shifted(highest));
    let c = next_shifted(b);
    let d = next_shifted(c);
    [
        0,
        d,
        c,
        c ^ d,
        b,
        b ^ d,
        b ^ c,
        b ^ c ^ d,
        a,
        a ^ d,
        a ^ c,
        a ^ c ^ d,
        a ^ b,
        a ^ b ^ d,
        a ^ b ^ c,
        a ^ b ^ c ^ d,
    ]
}

/// The block shifted to the right by eight bits, as by eight single shifts.
fn shifted_by_a_byte(block: u128) -> u128
    ensures { result ≡ spec.shifted block 8 }
{
    block >> 8 ^ u128::from(REMAINDERS[(block & 0xff) as usize]) << 112
}

/// The block shifted to the right by one bit, and xor R where the bit that falls out is 1.
fn next_shifted(block: u128) -> u128
    ensures { result ≡ spec.next_shifted block }
{
    if block & 1 == 0 {
        block >> 1
    } else {
        block >> 1 ^ REDUCTION
    }
}
