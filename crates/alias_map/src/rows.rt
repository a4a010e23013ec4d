//! Aliases as an account keeps them.

ghost use Rattle.std.specs.Prelude.{◌≡◌, IfOk};
ghost use Rattle.std.specs.Str.{bytes_eq};
ghost use Rattle.alias_map.specs.Aliases.{has_name, names_key};

use kms_names::{AliasName, KeyId, NoMemory};

/// An alias of an account.
#[derive(Drop)]
pub struct AliasRow {
    /// Its name, from `alias/` on.
    pub name: AliasName,
    /// The place of the entry that made it, counted from 0.
    pub born: u64,
    /// When it was made, in seconds since 1970.
    pub made: u64,
    /// When it was last put, in seconds since 1970.
    pub updated: u64,
    /// The key that it names.
    pub key: KeyId,
}

impl AliasRow {
    /// A copy that equals its source.
    pub fn copy(&self) -> Result<AliasRow, NoMemory>
        ensures { IfOk result (λ row. row ≡ self.now) }
    {
        Ok(AliasRow {
            name: self.name.copy()?,
            born: self.born,
            made: self.made,
            updated: self.updated,
            key: self.key,
        })
    }

    /// Whether this is its name. No memory is taken.
    pub fn has_name(&self, name: &AliasName) -> bool
        ensures { result ≡ has_name name.now self.now }
    {
        self.name == *name
    }

    /// Whether it names this key. No memory is taken.
    pub fn names_key(&self, key: &KeyId) -> bool
        ensures { result ≡ names_key key.now self.now }
    {
        self.key == *key
    }
}
