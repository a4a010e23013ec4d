//! The versions of a key's material.

ghost use Rattle.std.specs.Prelude.{◌≡◌, IfOk};

use kms_names::NoMemory;
use std::marker::Model;

/// A version of a key's material (AWS KMS Developer Guide, "Rotate AWS KMS keys").
#[derive(Clone, Copy)]
pub struct Version {
    /// When it was made, in seconds since 1970.
    pub time: u64,
    /// Whether RotateKeyOnDemand made it; the first version and automatic ones were not.
    pub on_demand: bool,
}

impl Version {
    /// A copy that equals its source; no memory is taken.
    pub fn copy(&self) -> Result<Version, NoMemory>
        ensures { IfOk result (λ version. version ≡ self.now) }
    {
        Ok(*self)
    }
}

/// The versions of a key, the first one at the front. Contracts see it as the list of them.
#[derive(Drop)]
pub struct VersionList {
    items: Vec<Version>,
}

impl Model for VersionList {
    ghost use Rattle.std.specs.Prelude.{List};
    ghost use Rattle.key_states.specs.declared.versions.Version.{Version};

    ghost Value = { List Version };

    ghost view = { λ l. l.items.items };
}

impl VersionList {
    ghost use Rattle.std.specs.Prelude.{◌≡◌, IfOk};

    /// The list of a vector's versions; no memory is taken.
    pub fn new(items: Vec<Version>) -> VersionList
        ensures { result ≡ items.items }
    {
        VersionList { items }
    }

    /// The versions in order.
    pub fn as_slice(&self) -> &[Version]
        ensures { result.now ≡ self.now }
    {
        self.items.as_slice()
    }

    /// A copy that equals its source.
    pub fn copy(&self) -> Result<VersionList, NoMemory>
        ensures { IfOk result (λ l. l ≡ self.now) }
    {
        let mut items = Vec::with_capacity(*self.items.allocator(), self.items.len())?;
        for version in &self.items {
            items.push(*version)?;
        }
        Ok(VersionList { items })
    }
}
