// What the operations on grants are asked.
ghost use Rattle.std.specs.Prelude.{◌≡◌, IfOk};

use super::pages::{Page, copied};
use enc_context::Context;
use kms_names::{GrantOps, NoMemory, Text, TextList};

/// What a grant is to ask of the encryption context of a request (AWS KMS API Reference,
/// GrantConstraints). A context has at most 4,096 encoded bytes here.
#[derive(Drop)]
pub enum GrantConstraint {
    /// Nothing.
    Free,
    /// That it is equal to this one (`EncryptionContextEquals`).
    Equals(Context),
    /// That it has all pairs of this one (`EncryptionContextSubset`).
    Subset(Context),
}

/// What CreateGrant takes (AWS KMS API Reference, CreateGrant).
#[derive(Drop)]
pub struct CreateGrant {
    /// The reference to the key, a text of 1 to 2,048 bytes.
    pub key_id: Text,
    /// Whom the grant is to permit its operations, a text of 1 to 256 bytes.
    pub grantee: Text,
    /// Who may retire it, where that is given: a text of 1 to 256 bytes.
    pub retiring: Option<Text>,
    /// What it is to permit: one operation or more.
    pub operations: GrantOps,
    /// What it is to ask of encryption contexts.
    pub constraint: GrantConstraint,
    /// The tokens of grants, at most 10.
    pub grant_tokens: TextList,
    /// Its name, where it is given: 1 to 256 letters, digits and characters of `:/_-`.
    pub name: Option<Text>,
    /// Whether the call is only to say what it would answer.
    pub dry_run: bool,
}

/// Which grant RetireGrant retires (AWS KMS API Reference, RetireGrant).
#[derive(Drop)]
pub enum RetiredGrant {
    /// The one of this token.
    OfToken(Text),
    /// The one of this id, of the key that `key_id` refers to, a text of 1 to 2,048 bytes.
    OfKey { key_id: Text, grant_id: Text },
}

/// What ListGrants takes (AWS KMS API Reference, ListGrants).
#[derive(Drop)]
pub struct ListGrants {
    /// The reference to the key, a text of 1 to 2,048 bytes.
    pub key_id: Text,
    /// At most 100 grants, 50 where no limit is given.
    pub page: Page,
    /// The id of the one grant that is asked for, where it is given.
    pub grant_id: Option<Text>,
    /// Whose grants are asked for, where it is given: a text of 1 to 256 bytes.
    pub grantee: Option<Text>,
}

impl GrantConstraint {
    /// A copy that equals its source.
    pub fn copy(&self) -> Result<GrantConstraint, NoMemory>
        ensures { IfOk result (λ constraint. constraint ≡ self.now) }
    {
        match self {
            GrantConstraint::Free => Ok(GrantConstraint::Free),
            GrantConstraint::Equals(pairs) => Ok(GrantConstraint::Equals(pairs.copy()?)),
            GrantConstraint::Subset(pairs) => Ok(GrantConstraint::Subset(pairs.copy()?)),
        }
    }
}

impl CreateGrant {
    /// A copy that equals its source.
    pub fn copy(&self) -> Result<CreateGrant, NoMemory>
        ensures { IfOk result (λ fields. fields ≡ self.now) }
    {
        Ok(CreateGrant {
            key_id: self.key_id.copy()?,
            grantee: self.grantee.copy()?,
            retiring: copied(&self.retiring)?,
            operations: self.operations,
            constraint: self.constraint.copy()?,
            grant_tokens: self.grant_tokens.copy()?,
            name: copied(&self.name)?,
            dry_run: self.dry_run,
        })
    }
}

impl RetiredGrant {
    /// A copy that equals its source.
    pub fn copy(&self) -> Result<RetiredGrant, NoMemory>
        ensures { IfOk result (λ grant. grant ≡ self.now) }
    {
        match self {
            RetiredGrant::OfToken(token) => Ok(RetiredGrant::OfToken(token.copy()?)),
            RetiredGrant::OfKey { key_id, grant_id } => Ok(RetiredGrant::OfKey {
                key_id: key_id.copy()?,
                grant_id: grant_id.copy()?,
            }),
        }
    }
}

impl ListGrants {
    /// A copy that equals its source.
    pub fn copy(&self) -> Result<ListGrants, NoMemory>
        ensures { IfOk result (λ fields. fields ≡ self.now) }
    {
        Ok(ListGrants {
            key_id: self.key_id.copy()?,
            page: self.page.copy()?,
            grant_id: copied(&self.grant_id)?,
            grantee: copied(&self.grantee)?,
        })
    }
}
