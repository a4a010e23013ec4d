// What requests say of themselves.
ghost use Rattle.std.specs.Prelude.{◌≡◌, Some};
ghost use Rattle.account_steps.specs.Authority.{kind_said, said_key, of_none, of_new_key, of_said, of_key, of_named};
ghost use Rattle.account_steps.specs.Authority.{of_context, of_mac};

use crate::view::View;
use authority::{KeyAliases, KindSaid, Particulars};
use enc_context::Context;
use hmac_keys::KeyKind;
use key_states::KeyRow;
use kms_names::{AliasName, KeyId, Text};
use resource_tags::TagMap;
use std::marker::Model;

/// A key as requests are about it, lent.
#[derive(Drop)]
pub struct KeySaid<'a> {
    /// Its id.
    pub key: &'a KeyId,
    /// Its kind.
    pub kind: KeyKind,
    /// Its tags.
    pub tags: &'a TagMap,
}

impl<'a> Model for KeySaid<'a> {
    ghost use Rattle.account_steps.specs.Authority as seen;

    ghost Value = { seen.KeySaid };

    ghost view = { λ s. record {
      key = s.key.now;
      kind = s.kind;
      tags = s.tags.now;
    } };
}

impl<'a> KeySaid<'a> {
    /// A key of the account.
    pub fn of(row: &'a KeyRow) -> KeySaid<'a>
        ensures { result ≡ said_key row.now }
    {
        KeySaid {
            key: &row.key,
            kind: row.kind,
            tags: &row.tags,
        }
    }
}

// The kind of a key, by the texts that say so.
fn kind_said<'a>(kind: KeyKind) -> KindSaid<'a>
    ensures { result ≡ kind_said kind }
{
    KindSaid {
        spec: kind.spec_text(),
        usage: kind.usage_text(),
    }
}

/// A request about no key.
pub fn of_none<'a>() -> Particulars<'a>
    ensures { result ≡ of_none }
{
    Particulars {
        kind: None,
        tags: None,
        request_tags: None,
        untagged: None,
        context: None,
        mac_algorithm: None,
        aliases: None,
        request_alias: None,
        grant: None,
        same_key: None,
        bypass: None,
        window: None,
        period: None,
    }
}

/// A request about a key that it makes, of this kind.
pub fn of_new_key<'a>(kind: KindSaid<'a>) -> Particulars<'a>
    ensures { result ≡ of_new_key kind.entry }
{
    Particulars {
        kind: Some(kind),
        ..of_none()
    }
}

/// A request about a key with these tags.
pub fn of_said<'a>(view: &View<'a>, said: &KeySaid<'a>) -> Particulars<'a>
    ensures { result ≡ of_said view.now said.now }
{
    Particulars {
        kind: Some(kind_said(said.kind)),
        tags: Some(said.tags),
        aliases: Some(KeyAliases {
            aliases: view.aliases(),
            key: said.key,
        }),
        ..of_none()
    }
}

/// A request about a key of the account.
pub fn of_key<'a>(view: &View<'a>, row: &'a KeyRow) -> Particulars<'a>
    ensures { result ≡ of_key view.now row.now }
{
    of_said(view, &KeySaid::of(row))
}

/// A request about a key that it may name by an alias.
pub fn of_named<'a>(
    view: &View<'a>,
    row: &'a KeyRow,
    alias: &'a Option<AliasName>,
) -> Particulars<'a>
    ensures { result ≡ of_named view.now row.now alias.now }
{
    Particulars {
        request_alias: alias.as_ref(),
        ..of_key(view, row)
    }
}

/// A request about a key, under an encryption context.
pub fn of_context<'a>(
    view: &View<'a>,
    row: &'a KeyRow,
    alias: &'a Option<AliasName>,
    context: &'a Context,
) -> Particulars<'a>
    ensures { result ≡ of_context view.now row.now alias.now context.now }
{
    Particulars {
        context: Some(context),
        ..of_named(view, row, alias)
    }
}

/// A request that makes a MAC by an algorithm, or verifies one.
pub fn of_mac<'a>(
    view: &View<'a>,
    row: &'a KeyRow,
    alias: &'a Option<AliasName>,
    algorithm: &'a Text,
) -> Particulars<'a>
    ensures { result ≡ of_mac view.now row.now alias.now algorithm.now }
{
    Particulars {
        mac_algorithm: Some(algorithm),
        ..of_named(view, row, alias)
    }
}
