ghost use Rattle.std.specs.Prelude.{◌≡◌, IfOk};

use kms_names::{NoMemory, Text};

/// A key of a context and its value. Pairs are ordered by the key's bytes, and then by the value's.
#[derive(PartialEq, Eq, PartialOrd, Ord, Drop)]
pub struct Pair {
    /// The key.
    pub key: Text,
    /// The key's value.
    pub value: Text,
}

impl Pair {
    /// A copy that equals its source.
    pub fn copy(&self) -> Result<Pair, NoMemory>
        ensures { IfOk result (λ pair. pair ≡ self.now) }
    {
        let key = self.key.copy()?;
        let value = self.value.copy()?;
        Ok(Pair { key, value })
    }
}
