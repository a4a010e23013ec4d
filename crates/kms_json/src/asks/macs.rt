// What the operations on MACs are asked.
ghost use Rattle.std.specs.Prelude.{◌≡◌, IfOk};

use kms_names::{Bytes, NoMemory, Text, TextList};

/// What GenerateMac takes (AWS KMS API Reference, GenerateMac).
#[derive(Drop)]
pub struct GenerateMac {
    /// The bytes to be authenticated, 1 to 4,096.
    pub message: Bytes,
    /// The reference to the key, a text of 1 to 2,048 bytes.
    pub key_id: Text,
    /// The algorithm.
    pub algorithm: Text,
    /// The tokens of grants, at most 10.
    pub grant_tokens: TextList,
    /// Whether the call is only to say what it would answer.
    pub dry_run: bool,
}

/// What VerifyMac takes (AWS KMS API Reference, VerifyMac).
#[derive(Drop)]
pub struct VerifyMac {
    /// The bytes that are to have the MAC, 1 to 4,096.
    pub message: Bytes,
    /// The reference to the key, a text of 1 to 2,048 bytes.
    pub key_id: Text,
    /// The algorithm.
    pub algorithm: Text,
    /// The MAC, 1 to 6,144 bytes.
    pub mac: Bytes,
    /// The tokens of grants, at most 10.
    pub grant_tokens: TextList,
    /// Whether the call is only to say what it would answer.
    pub dry_run: bool,
}

impl GenerateMac {
    /// A copy that equals its source.
    pub fn copy(&self) -> Result<GenerateMac, NoMemory>
        ensures { IfOk result (λ fields. fields ≡ self.now) }
    {
        Ok(GenerateMac {
            message: self.message.copy()?,
            key_id: self.key_id.copy()?,
            algorithm: self.algorithm.copy()?,
            grant_tokens: self.grant_tokens.copy()?,
            dry_run: self.dry_run,
        })
    }
}

impl VerifyMac {
    /// A copy that equals its source.
    pub fn copy(&self) -> Result<VerifyMac, NoMemory>
        ensures { IfOk result (λ fields. fields ≡ self.now) }
    {
        Ok(VerifyMac {
            message: self.message.copy()?,
            key_id: self.key_id.copy()?,
            algorithm: self.algorithm.copy()?,
            mac: self.mac.copy()?,
            grant_tokens: self.grant_tokens.copy()?,
            dry_run: self.dry_run,
        })
    }
}
