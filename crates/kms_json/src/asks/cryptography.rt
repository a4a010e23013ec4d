// What the operations that use keys are asked.
ghost use Rattle.std.specs.Prelude.{◌≡◌, IfOk};

use super::pages::copied;
use enc_context::Context;
use kms_names::{Bytes, NoMemory, Text, TextList};

/// What Encrypt takes (AWS KMS API Reference, Encrypt).
#[derive(Drop)]
pub struct Encrypt {
    /// The reference to the key, a text of 1 to 2,048 bytes.
    pub key_id: Text,
    /// The bytes to be sealed, 1 to 4,096.
    pub plaintext: Bytes,
    /// The encryption context; one that isn't given has no pairs.
    pub context: Context,
    /// The tokens of grants, at most 10.
    pub grant_tokens: TextList,
    /// The algorithm, where it is given.
    pub algorithm: Option<Text>,
    /// Whether the call is only to say what it would answer.
    pub dry_run: bool,
}

/// What Decrypt takes (AWS KMS API Reference, Decrypt).
#[derive(Drop)]
pub struct Decrypt {
    /// The sealed text, 1 to 6,144 bytes.
    pub blob: Bytes,
    /// The encryption context; one that isn't given has no pairs.
    pub context: Context,
    /// The tokens of grants, at most 10.
    pub grant_tokens: TextList,
    /// The reference to the key, where it is given: a text of 1 to 2,048 bytes.
    pub key_id: Option<Text>,
    /// The algorithm, where it is given.
    pub algorithm: Option<Text>,
    /// Whether a recipient is given.
    pub recipient: bool,
    /// Whether the call is only to say what it would answer.
    pub dry_run: bool,
}

/// What ReEncrypt takes (AWS KMS API Reference, ReEncrypt).
#[derive(Drop)]
pub struct ReEncrypt {
    /// The sealed text, 1 to 6,144 bytes.
    pub blob: Bytes,
    /// The encryption context that it was sealed under.
    pub source_context: Context,
    /// The reference to the key that it was sealed under, where it is given: a text of 1 to 2,048 bytes.
    pub source_key_id: Option<Text>,
    /// The reference to the key to seal it under, a text of 1 to 2,048 bytes.
    pub key_id: Text,
    /// The encryption context to seal it under.
    pub context: Context,
    /// The algorithm that it was sealed by, where it is given.
    pub source_algorithm: Option<Text>,
    /// The algorithm to seal it by, where it is given.
    pub algorithm: Option<Text>,
    /// The tokens of grants, at most 10.
    pub grant_tokens: TextList,
    /// Whether the call is only to say what it would answer.
    pub dry_run: bool,
}

/// What a request for a data key takes (AWS KMS API Reference, GenerateDataKey).
#[derive(Drop)]
pub struct DataKey {
    /// The reference to the key that the data key is sealed under, a text of 1 to 2,048 bytes.
    pub key_id: Text,
    /// The encryption context; one that isn't given has no pairs.
    pub context: Context,
    /// How many bytes the data key has, 1 to 1,024.
    pub size: u64,
    /// The tokens of grants, at most 10.
    pub grant_tokens: TextList,
    /// Whether the call is only to say what it would answer.
    pub dry_run: bool,
}

impl Encrypt {
    /// A copy that equals its source.
    pub fn copy(&self) -> Result<Encrypt, NoMemory>
        ensures { IfOk result (λ fields. fields ≡ self.now) }
    {
        Ok(Encrypt {
            key_id: self.key_id.copy()?,
            plaintext: self.plaintext.copy()?,
            context: self.context.copy()?,
            grant_tokens: self.grant_tokens.copy()?,
            algorithm: copied(&self.algorithm)?,
            dry_run: self.dry_run,
        })
    }
}

impl Decrypt {
    /// A copy that equals its source.
    pub fn copy(&self) -> Result<Decrypt, NoMemory>
        ensures { IfOk result (λ fields. fields ≡ self.now) }
    {
        Ok(Decrypt {
            blob: self.blob.copy()?,
            context: self.context.copy()?,
            grant_tokens: self.grant_tokens.copy()?,
            key_id: copied(&self.key_id)?,
            algorithm: copied(&self.algorithm)?,
            recipient: self.recipient,
            dry_run: self.dry_run,
        })
    }
}

impl ReEncrypt {
    /// A copy that equals its source.
    pub fn copy(&self) -> Result<ReEncrypt, NoMemory>
        ensures { IfOk result (λ fields. fields ≡ self.now) }
    {
        Ok(ReEncrypt {
            blob: self.blob.copy()?,
            source_context: self.source_context.copy()?,
            source_key_id: copied(&self.source_key_id)?,
            key_id: self.key_id.copy()?,
            context: self.context.copy()?,
            source_algorithm: copied(&self.source_algorithm)?,
            algorithm: copied(&self.algorithm)?,
            grant_tokens: self.grant_tokens.copy()?,
            dry_run: self.dry_run,
        })
    }
}

impl DataKey {
    /// A copy that equals its source.
    pub fn copy(&self) -> Result<DataKey, NoMemory>
        ensures { IfOk result (λ fields. fields ≡ self.now) }
    {
        Ok(DataKey {
            key_id: self.key_id.copy()?,
            context: self.context.copy()?,
            size: self.size,
            grant_tokens: self.grant_tokens.copy()?,
            dry_run: self.dry_run,
        })
    }
}
