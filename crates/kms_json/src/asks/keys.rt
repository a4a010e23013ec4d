// What the operations on keys are asked.
ghost use Rattle.std.specs.Prelude.{◌≡◌, IfOk};

use super::pages::copied;
use kms_names::{NoMemory, Text};
use resource_tags::TagList;

/// What CreateKey takes (AWS KMS API Reference, CreateKey).
#[derive(Drop)]
pub struct CreateKey {
    /// The key's policy, where it is given: a text of 1 byte or more.
    pub policy: Option<Text>,
    /// The key's description, at most 8,192 bytes; one that isn't given is the empty text.
    pub description: Text,
    /// What the key is to be used for, where it is given.
    pub key_usage: Option<Text>,
    /// The kind of key under its former name, where it is given.
    pub customer_master_key_spec: Option<Text>,
    /// The kind of key, where it is given.
    pub key_spec: Option<Text>,
    /// Where the key's material is to come from, where it is given.
    pub origin: Option<Text>,
    /// Whether a custom key store is given.
    pub custom_key_store_id: bool,
    /// Whether the caller may lock itself out by the policy (BypassPolicyLockoutSafetyCheck).
    pub bypass_lockout_check: bool,
    /// Its tags, at most 50, with keys of 1 to 128 characters and values of at most 256; there are none
    /// where they aren't given.
    pub tags: TagList,
    /// Whether the key is to be one of several regions.
    pub multi_region: bool,
    /// Whether a key of an external key store is given.
    pub xks_key_id: bool,
}

impl CreateKey {
    /// A copy that equals its source.
    pub fn copy(&self) -> Result<CreateKey, NoMemory>
        ensures { IfOk result (λ fields. fields ≡ self.now) }
    {
        Ok(CreateKey {
            policy: copied(&self.policy)?,
            description: self.description.copy()?,
            key_usage: copied(&self.key_usage)?,
            customer_master_key_spec: copied(&self.customer_master_key_spec)?,
            key_spec: copied(&self.key_spec)?,
            origin: copied(&self.origin)?,
            custom_key_store_id: self.custom_key_store_id,
            bypass_lockout_check: self.bypass_lockout_check,
            tags: self.tags.copy()?,
            multi_region: self.multi_region,
            xks_key_id: self.xks_key_id,
        })
    }
}
