ghost use Rattle.std.specs.Prelude.{◌≡◌, ◌↔◌, ◌<◌, ◌≤◌, ◌++◌, [], length, IsTrue, IfOk, OnOk, OnErr, IsPermutation};
ghost use Rattle.enc_context.specs.Pairs.{HasDistinctKeys, IsInOrder, Includes, includes, has_pair, same_pairs};
ghost use Rattle.enc_context.specs.Encoding.{encoding_of, IsContext};
ghost use Rattle.enc_context.specs.declared.faults.ContextFault.TheVariants.{TooLong};

use crate::encoding::{append_pair, size_within_limit};
use crate::faults::ContextFault;
use crate::pairs::Pair;
use kms_names::NoMemory;
use std::alloc::Global;
use std::marker::Model;

/// An encryption context. Contracts see it as the list of its pairs in order of the key's bytes, in
/// which no key comes twice.
#[derive(Drop)]
pub struct Context {
    pairs: Vec<Pair>,
    encoded_len: usize,
}

impl Model for Context {
    ghost use Rattle.std.specs.Prelude.{◌≡◌, List, length};
    ghost use Rattle.enc_context.specs.declared.pairs.Pair.{Pair};
    ghost use Rattle.enc_context.specs.Encoding.{encoding_of, IsContext};

    ghost Value = { List Pair };

    ghost view = { λ context. context.pairs.items };

    ghost invariant = { λ context. IsContext context.pairs.items × (context.encoded_len ≡ length (encoding_of context.pairs.items)) };
}

impl Context {
    /// The context without pairs; no memory is taken.
    pub fn new(alloc: Global) -> Context
        ensures { result ≡ [] }
    {
        Context {
            pairs: Vec::new(alloc),
            encoded_len: 0,
        }
    }

    /// The context of some pairs, of which no two have one key; they are put in order.
    ///
    /// `TooLong` comes exactly where the encoding has more than 8,192 bytes.
    pub fn from_pairs(alloc: Global, mut pairs: Vec<Pair>) -> Result<Context, ContextFault>
        requires { HasDistinctKeys pairs.items }
        ensures pairs { IfOk result (λ context. IsPermutation pairs.items context) }
        ensures context { IfOk result IsContext }
        ensures fits { IfOk result (λ _. length (encoding_of pairs.items) ≤ 8192) }
        ensures kept { IsInOrder pairs.items → IfOk result (λ context. context ≡ pairs.items) }
        ensures too_long { result ≡ Err TooLong → 8192 < length (encoding_of pairs.items) }
    {
        let encoded_len = size_within_limit(&pairs).ok_or(ContextFault::TooLong)?;
        pairs.as_mut_slice().sort(alloc)?;
        Ok(Context { pairs, encoded_len })
    }

    /// The pairs in order of the key's bytes; no memory is taken.
    pub fn pairs(&self) -> &[Pair]
        ensures value { result.now ≡ self.now }
        ensures context { IsContext self.now }
    {
        self.pairs.as_slice()
    }

    /// The size of the encoding in bytes, at most 8,192; no memory is taken.
    pub fn encoded_len(&self) -> usize
        ensures value { result ≡ length (encoding_of self.now) }
        ensures context { IsContext self.now }
    {
        self.encoded_len
    }

    /// Writes the encoding behind what stands in a buffer. A refused call leaves the buffer as it was.
    pub fn encode_into(&self, out: &mut Vec<u8>) -> Result<(), NoMemory>
        ensures written { OnOk result (out.new.items ≡ out.old.items ++ encoding_of self.now) }
        ensures kept { OnErr result (out.new.items ≡ out.old.items) }
    {
        out.reserve(self.encoded_len)?;
        for pair in &self.pairs {
            append_pair(pair, out)?;
        }
        Ok(())
    }

    /// Whether each pair of the other context is here, with the same value; no memory is taken.
    pub fn includes(&self, other: &Context) -> bool
        ensures told { IsTrue result ↔ Includes self.now other.now }
        ensures test { result ≡ includes self.now other.now }
    {
        self.has_all(&other.pairs)
    }

    /// Whether each of some pairs is here.
    fn has_all(&self, pairs: &[Pair]) -> bool
        ensures { result ≡ includes self.now pairs.now }
    {
        pairs.iter().all(|pair| self.has(pair))
    }

    /// Whether a pair is here.
    fn has(&self, pair: &Pair) -> bool
        ensures { result ≡ has_pair self.now pair.now }
    {
        self.pairs.binary_search(pair).is_ok()
    }

    /// Whether both contexts have the same keys with the same values; no memory is taken.
    pub fn equal(&self, other: &Context) -> bool
        ensures told { IsTrue result ↔ (self.now ≡ other.now) }
        ensures test { result ≡ same_pairs self.now other.now }
    {
        self.pairs == other.pairs
    }

    /// A copy that equals its source.
    pub fn copy(&self) -> Result<Context, NoMemory>
        ensures { IfOk result (λ context. context ≡ self.now) }
    {
        let mut pairs = Vec::with_capacity(*self.pairs.allocator(), self.pairs.len())?;
        for pair in &self.pairs {
            pairs.push(pair.copy()?)?;
        }
        Ok(Context {
            pairs,
            encoded_len: self.encoded_len,
        })
    }
}
