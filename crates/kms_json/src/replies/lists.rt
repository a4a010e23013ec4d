// The lists in replies.
ghost use Rattle.std.specs.Prelude.{◌≡◌, ℕ, List};
ghost use Rattle.kms_json.specs.declared.replies.lists.ListedAlias.{ListedAlias};
ghost use Rattle.kms_json.specs.declared.replies.lists.ListedGrant.{ListedGrant};
ghost use Rattle.kms_json.specs.declared.replies.lists.Rotation.{Rotation};

use crate::asks::GrantConstraint;
use kms_names::{AccountNumber, AliasName, GrantId, GrantOps, KeyId, Principal, Text};
use resource_tags::TagList;
use std::marker::Model;

/// An alias as lists show it (AWS KMS API Reference, AliasListEntry).
#[derive(Drop)]
pub struct ListedAlias {
    /// Its name.
    pub name: AliasName,
    /// The key that it names.
    pub key: KeyId,
    /// When it was made, in seconds since 1970.
    pub created: u64,
    /// When it was made or last changed, in seconds since 1970.
    pub updated: u64,
}

/// A grant as lists show it (AWS KMS API Reference, GrantListEntry).
#[derive(Drop)]
pub struct ListedGrant {
    /// Its id.
    pub grant: GrantId,
    /// The key that it is of.
    pub key: KeyId,
    /// When it was made, in seconds since 1970.
    pub created: u64,
    /// Whom it permits its operations.
    pub grantee: Principal,
    /// Who may retire it, where that was given.
    pub retiring: Option<Principal>,
    /// What it permits.
    pub operations: GrantOps,
    /// What it asks of encryption contexts.
    pub constraint: GrantConstraint,
    /// Its name, where it has one.
    pub name: Option<Text>,
}

/// A rotation of a key as lists show it (AWS KMS API Reference, RotationsListEntry).
#[derive(Clone, Copy)]
pub struct Rotation {
    /// When it was, in seconds since 1970.
    pub date: u64,
    /// Whether RotateKeyOnDemand made it, and not its period.
    pub on_demand: bool,
}

/// A list of keys, by their ids. Contracts see it as the list of them.
#[derive(Drop)]
pub struct KeyIdList {
    items: Vec<KeyId>,
}

impl Model for KeyIdList {
    ghost Value = { List (List ℕ) };

    ghost view = { λ l. l.items.items };
}

impl KeyIdList {
    /// The list of a vector's ids; no memory is taken.
    pub fn new(items: Vec<KeyId>) -> KeyIdList
        ensures { result ≡ items.items }
    {
        KeyIdList { items }
    }

    /// The ids in order; no memory is taken.
    pub fn as_slice(&self) -> &[KeyId]
        ensures { result.now ≡ self.now }
    {
        self.items.as_slice()
    }
}

/// A list of aliases. Contracts see it as the list of them.
#[derive(Drop)]
pub struct AliasList {
    items: Vec<ListedAlias>,
}

impl Model for AliasList {
    ghost Value = { List ListedAlias };

    ghost view = { λ l. l.items.items };
}

impl AliasList {
    /// The list of a vector's aliases; no memory is taken.
    pub fn new(items: Vec<ListedAlias>) -> AliasList
        ensures { result ≡ items.items }
    {
        AliasList { items }
    }

    /// The aliases in order; no memory is taken.
    pub fn as_slice(&self) -> &[ListedAlias]
        ensures { result.now ≡ self.now }
    {
        self.items.as_slice()
    }
}

/// A list of grants. Contracts see it as the list of them.
#[derive(Drop)]
pub struct GrantList {
    items: Vec<ListedGrant>,
}

impl Model for GrantList {
    ghost Value = { List ListedGrant };

    ghost view = { λ l. l.items.items };
}

impl GrantList {
    /// The list of a vector's grants; no memory is taken.
    pub fn new(items: Vec<ListedGrant>) -> GrantList
        ensures { result ≡ items.items }
    {
        GrantList { items }
    }

    /// The grants in order; no memory is taken.
    pub fn as_slice(&self) -> &[ListedGrant]
        ensures { result.now ≡ self.now }
    {
        self.items.as_slice()
    }
}

/// A list of rotations. Contracts see it as the list of them.
#[derive(Drop)]
pub struct RotationList {
    items: Vec<Rotation>,
}

impl Model for RotationList {
    ghost Value = { List Rotation };

    ghost view = { λ l. l.items.items };
}

impl RotationList {
    /// The list of a vector's rotations; no memory is taken.
    pub fn new(items: Vec<Rotation>) -> RotationList
        ensures { result ≡ items.items }
    {
        RotationList { items }
    }

    /// The rotations in order; no memory is taken.
    pub fn as_slice(&self) -> &[Rotation]
        ensures { result.now ≡ self.now }
    {
        self.items.as_slice()
    }
}

/// A part of the list of keys of an account (AWS KMS API Reference, ListKeys).
#[derive(Drop)]
pub struct KeyPage {
    /// The account of the service.
    pub account: AccountNumber,
    /// The region of the service.
    pub region: Text,
    /// The keys, in order of making.
    pub keys: KeyIdList,
    /// The marker behind which the next part begins, where more rows remain.
    pub next: Option<u64>,
}

/// A part of the list of aliases of an account (AWS KMS API Reference, ListAliases).
#[derive(Drop)]
pub struct AliasPage {
    /// The account of the service.
    pub account: AccountNumber,
    /// The region of the service.
    pub region: Text,
    /// The aliases, in order of making.
    pub aliases: AliasList,
    /// The marker behind which the next part begins, where more rows remain.
    pub next: Option<u64>,
}

/// A part of the list of grants of an account (AWS KMS API Reference, ListGrants).
#[derive(Drop)]
pub struct GrantPage {
    /// The account of the service.
    pub account: AccountNumber,
    /// The region of the service.
    pub region: Text,
    /// The grants, in order of making.
    pub grants: GrantList,
    /// The marker behind which the next part begins, where more rows remain.
    pub next: Option<u64>,
}

/// A part of the list of a key's rotations (AWS KMS API Reference, ListKeyRotations).
#[derive(Drop)]
pub struct RotationPage {
    /// The key.
    pub key: KeyId,
    /// The rotations, in order.
    pub rotations: RotationList,
    /// The marker behind which the next part begins, where more rows remain.
    pub next: Option<u64>,
}

/// A part of the list of a key's tags (AWS KMS API Reference, ListResourceTags).
#[derive(Drop)]
pub struct TagPage {
    /// The tags, in order.
    pub tags: TagList,
    /// The marker behind which the next part begins, where more rows remain.
    pub next: Option<Text>,
}
