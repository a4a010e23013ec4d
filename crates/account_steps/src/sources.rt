// The key of a sealed text.
ghost use Rattle.std.specs.Prelude.{◌≡◌, ◌≤◌, length, IfOk};
ghost use Rattle.blob_format.specs.Reading.{IsBlobOf};
ghost use Rattle.blob_format.specs.Names.{name_of};
ghost use Rattle.account_steps.specs.Steps.{Gives, GivesAs, alias_of, blob_name, held_key, source_of, opens};

use crate::checks::{Named, key_if_given, other_key};
use crate::parts::refuse;
use crate::stops::Stop;
use crate::view::View;
use account_rows::Lent;
use blob_format::{Blob, read_blob};
use crypto_ops::{OpenFault, open_blob};
use enc_context::Context;
use kms_json::Refusal;
use kms_names::{Action, AliasName, Bytes, KeyId, Text};
use std::alloc::Global;
use std::marker::Model;

/// A sealed text with its key, lent. Contracts see the key's row, the alias that the request names it by, the version and
/// the bytes.
#[derive(Drop)]
pub struct Sealed<'a> {
    lent: Lent<'a>,
    alias: Option<AliasName>,
    blob: Blob,
    bytes: &'a [u8],
}

impl<'a> Model for Sealed<'a> {
    ghost use Rattle.account_steps.specs.Source as source;
    ghost use Rattle.blob_format.specs.Reading.{IsBlobOf};

    ghost Value = { source.Source };

    ghost view = { λ s. record { row = s.lent; alias = s.alias; version = s.blob.version; bytes = s.bytes.now } };

    ghost invariant = { λ s. IsBlobOf s.bytes.now s.blob };
}

// What a sealed text says.
fn read(bytes: &[u8]) -> Result<Blob, Stop>
    ensures gives { GivesAs name_of (blob_name bytes.now) result }
    ensures form { IfOk result (λ blob. IsBlobOf bytes.now blob) }
{
    match read_blob(bytes) {
        Some(blob) => Ok(blob),
        None => Err(Stop::Refused(Refusal::InvalidCiphertext)),
    }
}

// The key of a sealed text, which a caller who finds none may not use.
fn held<'a>(alloc: Global, view: &View<'a>, action: Action, key: &KeyId) -> Result<Lent<'a>, Stop>
    ensures { Gives (held_key view.now action key.now) result }
{
    match view.key(key) {
        Some(lent) => Ok(lent),
        None => Err(Stop::Refused(Refusal::AccessDenied {
            caller: view.caller().copy()?,
            action,
            resource: view.arn(alloc, key)?,
        })),
    }
}

// The alias that the request names a key by.
fn alias_of(named: Option<Named<'_>>) -> Option<AliasName>
    ensures { result ≡ alias_of named.entry }
{
    match named {
        Some(named) => named.alias,
        None => None,
    }
}

/// The sealed text with its key: the reference is looked up, then the bytes are read, then the two are
/// compared, and then the key is looked up.
pub fn find_source<'a>(
    alloc: Global,
    view: &View<'a>,
    action: Action,
    reference: &Option<Text>,
    bytes: &'a [u8],
) -> Result<Sealed<'a>, Stop>
    ensures { Gives (source_of view.now action reference.now bytes.now) result }
{
    let named = key_if_given(alloc, view, reference)?;
    let blob = read(bytes)?;
    refuse(other_key(&named, &blob.key))?;
    let lent = held(alloc, view, action, &blob.key)?;
    let alias = alias_of(named);
    Ok(Sealed {
        lent,
        alias,
        blob,
        bytes,
    })
}

impl<'a> Sealed<'a> {
    ghost use Rattle.std.specs.Prelude.{◌≡◌, ◌≤◌, length, IfOk};
    ghost use Rattle.account_steps.specs.Steps.{Gives, opens};

    /// Its key's row, lent.
    pub fn lent(&self) -> &Lent<'a>
        ensures { result.now ≡ self.now.row }
    {
        &self.lent
    }

    /// The alias that the request names its key by, if any.
    pub fn alias(&self) -> &Option<AliasName>
        ensures { result.now ≡ self.now.alias }
    {
        &self.alias
    }

    /// Its key.
    pub fn key(&self) -> &KeyId
        ensures { result.now ≡ self.now.row.key }
    {
        &self.lent.row().key
    }

    /// The text that it opens to under a context: 1 to 4,096 bytes.
    pub fn open(&self, alloc: Global, view: &View<'_>, context: &Context) -> Result<Bytes, Stop>
        ensures gives { Gives (opens view.now.facts self.now context.now) result }
        ensures some { IfOk result (λ text. 1 ≤ length text) }
        ensures short { IfOk result (λ text. length text ≤ 4096) }
    {
        if self.blob.version > self.lent.newest_version() {
            return Err(Stop::Refused(Refusal::InvalidCiphertext));
        }
        match open_blob(alloc, &view.facts().root, self.bytes, &self.blob, context) {
            Ok(text) => Ok(text),
            Err(OpenFault::BadBlob) => Err(Stop::Refused(Refusal::InvalidCiphertext)),
            Err(OpenFault::NoMemory) => Err(Stop::NoMemory),
        }
    }
}
