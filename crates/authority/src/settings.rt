//! Who asks, when and where, and what a request says of itself.
ghost use Rattle.std.specs.Prelude.{◌≡◌, [], IfOk, option_map};
ghost use Rattle.authority.specs.Setting.{names_of};
ghost use Rattle.authority.specs.Questions.{names_if};

use alias_map::AliasMap;
use enc_context::{Context, Pair};
use grant_table::Constraint;
use kms_names::{AliasName, GrantOps, KeyId, NoMemory, Principal, Text, TextList};
use policy_eval::Compiled;
use resource_tags::{Tag, TagList, TagMap};
use std::alloc::Global;
use std::marker::Model;

/// Who asks, when and where, the caller's policies and the account's ceiling, lent.
#[derive(Drop)]
pub struct Setting<'a> {
    /// Who asks.
    pub caller: &'a Principal,
    /// The moment, in seconds since 1970.
    pub moment: u64,
    /// The region of the service.
    pub region: &'a str,
    /// The caller's own policies; the root, which may do everything, has none.
    pub policies: &'a [Compiled],
    /// The documents of the account's ceiling, which bound every caller, the root included; none where it has none.
    pub ceiling: &'a [Compiled],
}

impl<'a> Model for Setting<'a> {
    ghost use Rattle.authority.specs.Setting as seen;

    ghost Value = { seen.Setting };

    ghost view = { λ s. record {
      caller = s.caller.now;
      moment = s.moment;
      region = s.region.now;
      policies = s.policies.now;
      ceiling = s.ceiling.now;
    } };
}

// The names of the aliases that name a key.
fn names_of(alloc: Global, aliases: &AliasMap, key: &KeyId) -> Result<TextList, NoMemory>
    ensures { IfOk result (λ names. names ≡ names_of key.now aliases.now) }
{
    let mut names = Vec::new(alloc);
    for row in aliases.rows_of_key(key) {
        names.push(Text::from_str(alloc, row.name.as_str())?)?;
    }
    Ok(TextList::new(names))
}

/// A key among the aliases of its account, lent. Contracts see it as the names of the key's aliases in order of making.
#[derive(Drop)]
pub struct KeyAliases<'a> {
    /// The aliases of the account.
    pub aliases: &'a AliasMap,
    /// The key.
    pub key: &'a KeyId,
}

impl<'a> Model for KeyAliases<'a> {
    ghost use Rattle.std.specs.Prelude.{ℕ, List};
    ghost use Rattle.authority.specs.Setting.{names_of};

    ghost Value = { List (List ℕ) };

    ghost view = { λ k. names_of k.key.now k.aliases.now };
}

impl KeyAliases<'_> {
    /// Copies of the names of the key's aliases, in order of making. The time grows with their number.
    pub fn names(&self, alloc: Global) -> Result<TextList, NoMemory>
        ensures { IfOk result (λ names. names ≡ self.now) }
    {
        names_of(alloc, self.aliases, self.key)
    }
}

/// What a request asks that a new grant be (AWS KMS API Reference, CreateGrant), lent.
#[derive(Drop)]
pub struct GrantSaid<'a> {
    /// The operations that it permits.
    pub operations: GrantOps,
    /// Whom it permits them to.
    pub grantee: &'a Principal,
    /// Who may retire it, where someone is named.
    pub retiring: Option<&'a Principal>,
    /// What it asks of the encryption contexts of requests.
    pub constraint: &'a Constraint,
}

impl<'a> Model for GrantSaid<'a> {
    ghost use Rattle.std.specs.Prelude.{option_map};
    ghost use Rattle.authority.specs.Setting as seen;

    ghost Value = { seen.GrantSaid };

    ghost view = { λ g. record {
      operations = g.operations;
      grantee = g.grantee.now;
      retiring = option_map (λ p. p.now) g.retiring;
      constraint = g.constraint.now;
    } };
}

/// What kind of key it is, by the texts that say so (AWS KMS API Reference, CreateKey), lent.
#[derive(Drop)]
pub struct KindSaid<'a> {
    /// Its spec.
    pub spec: &'a str,
    /// What it is used for.
    pub usage: &'a str,
}

impl<'a> Model for KindSaid<'a> {
    ghost use Rattle.authority.specs.Setting as seen;

    ghost Value = { seen.KindSaid };

    ghost view = { λ k. record {
      spec = k.spec.now;
      usage = k.usage.now;
    } };
}

/// What a request says of itself beside its action, lent.
#[derive(Drop)]
pub struct Particulars<'a> {
    /// The kind of the key that it is about, where it is about one; of a key that it makes, what it asks for.
    pub kind: Option<KindSaid<'a>>,
    /// The tags of the key, where it is about one that there is already.
    pub tags: Option<&'a TagMap>,
    /// The tags that it gives to the key, where it gives some.
    pub request_tags: Option<&'a TagList>,
    /// The keys of the tags that it takes from the key, where it takes some.
    pub untagged: Option<&'a TextList>,
    /// Its encryption context, where it takes one.
    pub context: Option<&'a Context>,
    /// The algorithm of a MAC, where it makes or verifies one.
    pub mac_algorithm: Option<&'a Text>,
    /// The aliases of the key, where it is about one that there is already.
    pub aliases: Option<KeyAliases<'a>>,
    /// The alias name by which it names the key, where it does.
    pub request_alias: Option<&'a AliasName>,
    /// The grant that it asks for, where it makes one.
    pub grant: Option<GrantSaid<'a>>,
    /// Whether it encrypts anew under the key that sealed the text, where it encrypts anew.
    pub same_key: Option<bool>,
    /// Whether it passes over the lockout check, where it takes a policy.
    pub bypass: Option<bool>,
    /// The waiting period in days, where it schedules a key's deletion.
    pub window: Option<u32>,
    /// The period in days, where it turns automatic rotation on.
    pub period: Option<u32>,
}

impl<'a> Model for Particulars<'a> {
    ghost use Rattle.std.specs.Prelude.{[], option_map, unwrap_or};
    ghost use Rattle.authority.specs.Setting as seen;

    ghost Value = { seen.Particulars };

    ghost view = { λ p. record {
      kind = p.kind;
      tags = unwrap_or (option_map (λ t. t.now) p.tags) [];
      request_tags = unwrap_or (option_map (λ t. t.now) p.request_tags) [];
      untagged = unwrap_or (option_map (λ k. k.now) p.untagged) [];
      context = unwrap_or (option_map (λ c. c.now) p.context) [];
      mac_algorithm = option_map (λ a. a.now) p.mac_algorithm;
      aliases = unwrap_or p.aliases [];
      request_alias = option_map (λ name. name.now) p.request_alias;
      grant = p.grant;
      same_key = p.same_key;
      bypass = p.bypass;
      window = p.window;
      period = p.period;
    } };
}

impl<'a> Particulars<'a> {
    /// The pairs of the encryption context, none where there is none.
    pub fn pairs(&self) -> &'a [Pair]
        ensures { result.now ≡ self.now.context }
    {
        match self.context {
            Some(context) => context.pairs(),
            None => &[],
        }
    }

    // The tags that are given to the key, none where none are.
    pub(crate) fn given_tags(&self) -> &'a [Tag]
        ensures { result.now ≡ self.now.request_tags }
    {
        match self.request_tags {
            Some(tags) => tags.as_slice(),
            None => &[],
        }
    }

    // The keys of the tags that are taken from the key, none where none are.
    pub(crate) fn taken_keys(&self) -> &'a [Text]
        ensures { result.now ≡ self.now.untagged }
    {
        match self.untagged {
            Some(keys) => keys.as_slice(),
            None => &[],
        }
    }

    // The algorithm of a MAC.
    pub(crate) fn algorithm(&self) -> Option<&str>
        ensures { option_map (λ name. name.now) result ≡ self.now.mac_algorithm }
    {
        match self.mac_algorithm {
            Some(name) => Some(name.as_str()),
            None => None,
        }
    }

    // Copies of the names of the key's aliases, where they are wanted; none where no key is given. The time grows with
    // their number.
    pub(crate) fn alias_names(&self, alloc: Global, wanted: bool) -> Result<TextList, NoMemory>
        ensures { IfOk result (λ names. names ≡ names_if wanted self.now.aliases) }
    {
        match &self.aliases {
            Some(aliases) if wanted => aliases.names(alloc),
            _ => Ok(TextList::new(Vec::new(alloc))),
        }
    }

    // The alias name by which the request names the key.
    pub(crate) fn request_name(&self) -> Option<&str>
        ensures { option_map (λ name. name.now) result ≡ self.now.request_alias }
    {
        match self.request_alias {
            Some(name) => Some(name.as_str()),
            None => None,
        }
    }
}
