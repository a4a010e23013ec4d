// The credentials of callers.
ghost use Rattle.std.specs.Prelude.{◌≡◌, [], false, IfSome, OnOk, OnErr, option_copied};
ghost use Rattle.std.specs.List.{position_or_len};
ghost use Rattle.sigv4_check.specs.Credentials.{has_id, are_distinct, placed, stands_behind, credential_of, AreDistinct, IsAmong};

use crate::signed_names::is_before;
use kms_names::{NoMemory, Principal, Text};
use std::alloc::Global;
use std::marker::Model;

/// A secret that a caller signs requests with (AWS: an access key).
#[derive(Drop)]
pub struct Credential {
    /// The access key id, by which a request names the secret.
    pub id: Text,
    /// The secret access key.
    pub secret: Text,
    /// Who signs with it.
    pub principal: Principal,
}

/// Credentials of which no two have the same id. Contracts see the list of them.
///
/// A list that was built by `insert` alone is in the order of the ids' bytes, in which `check` finds a
/// credential by halving.
#[derive(Drop)]
pub struct CredentialList {
    items: Vec<Credential>,
}

impl Model for CredentialList {
    ghost use Rattle.std.specs.Prelude.{List};
    ghost use Rattle.sigv4_check.specs.Credentials.{AreDistinct};
    ghost use Rattle.sigv4_check.specs.declared.credentials.Credential.{Credential};

    ghost Value = { List Credential };

    ghost view = { λ l. l.items.items };

    ghost invariant = { λ l. AreDistinct l.items.items };
}

impl CredentialList {
    /// A list of none; no memory is taken.
    pub fn empty(alloc: Global) -> CredentialList
        ensures { result ≡ [] }
    {
        CredentialList {
            items: Vec::new(alloc),
        }
    }

    /// The list of a vector's credentials; no memory is taken.
    pub fn new(items: Vec<Credential>) -> CredentialList
        requires { AreDistinct items.items }
        ensures { result ≡ items.items }
    {
        CredentialList { items }
    }

    /// The credentials in order.
    pub fn as_slice(&self) -> &[Credential]
        ensures value { result.now ≡ self.now }
        ensures distinct { AreDistinct self.now }
    {
        self.items.as_slice()
    }

    /// Whether one of them has this id.
    pub fn has_id(&self, id: &str) -> bool
        ensures { result ≡ has_id id.now self.now }
    {
        has_id(&self.items, id.as_bytes())
    }

    /// Puts a credential before the first whose id stands behind its own, in the order of bytes. It
    /// compares its id with each one before that.
    pub fn insert(&mut self, credential: Credential) -> Result<(), NoMemory>
        requires { has_id credential.id self.old ≡ false }
        ensures ok { OnOk result (self.new ≡ placed credential self.old) }
        ensures err { OnErr result (self.new ≡ self.old) }
    {
        let place = place_of(&self.items, credential.id.as_str().as_bytes());
        self.items.insert(place, credential)?;
        Ok(())
    }
}

// Whether one of them has this id.
fn has_id(creds: &[Credential], id: &[u8]) -> bool
    ensures { result ≡ has_id id.now creds.now }
{
    for credential in creds {
        if credential.id.as_str().as_bytes() == id {
            return true;
        }
    }
    false
}

// The place of the first whose id stands behind this one, or the end.
fn place_of(creds: &[Credential], id: &[u8]) -> usize
    ensures { result ≡ position_or_len (stands_behind id.now) creds.now }
{
    for (place, credential) in creds.iter().enumerate() {
        if is_before(id, credential.id.as_str().as_bytes()) {
            return place;
        }
    }
    creds.len()
}

/// Whether no two credentials have the same id: what `check` and `CredentialList::new` ask. It
/// compares each two of them.
pub fn are_distinct(creds: &[Credential]) -> bool
    ensures { result ≡ are_distinct creds.now }
{
    let mut rest = creds;
    while let Some((credential, others)) = rest.split_first() {
        if has_id(others, credential.id.as_str().as_bytes()) {
            return false;
        }
        rest = others;
    }
    true
}

// The first credential of an id.
fn first_of<'a>(creds: &'a [Credential], id: &[u8]) -> Option<&'a Credential>
    ensures { option_copied result ≡ credential_of id.now creds.now }
{
    for credential in creds {
        if credential.id.as_str().as_bytes() == id {
            return Some(credential);
        }
    }
    None
}

// A credential of an id, which halving finds in a list that is in the order of ids.
fn found_by_halving<'a>(creds: &'a [Credential], id: &[u8]) -> Option<&'a Credential>
    ensures { IfSome result (λ c. IsAmong creds.now id.now c.now) }
{
    let place = creds
        .binary_search_by(|credential| credential.id.as_str().as_bytes().cmp(id))
        .ok()?;
    let credential = &creds[place];
    if credential.id.as_str().as_bytes() == id {
        Some(credential)
    } else {
        None
    }
}

/// The credential of an id. Where the list is in the order of the ids' bytes it is found by halving;
/// else, and where no credential has the id, each one's id is compared.
pub fn find<'a>(creds: &'a [Credential], id: &[u8]) -> Option<&'a Credential>
    requires { AreDistinct creds.now }
    ensures { option_copied result ≡ credential_of id.now creds.now }
{
    match found_by_halving(creds, id) {
        Some(credential) => Some(credential),
        None => first_of(creds, id),
    }
}
