// The configuration.
ghost use Rattle.std.specs.Prelude.{◌≡◌, IfOk, IfErr, MatchOption, codes};
ghost use Rattle.serde_json.specs.View.{view, members_view};
ghost use Rattle.kms_names.specs.declared.principals.Principal.{Principal};
ghost use Rattle.policy_doc.specs.Reading.{Reads, ReadsNothing};
ghost use Rattle.authority.specs.Setting.{callers_policies};
ghost use Rattle.authority.specs.Allowed.{AreIdentityPolicies};
ghost use Rattle.kms_config.specs.Answers.{Answers};
ghost use Rattle.kms_config.specs.Config.{basics_in, credentials_at, identities_at, ceiling_at, lists_in, config_in, IsConfigOf, IsFaultOf};
ghost use Rattle.kms_config.specs.Configurations.{IsConfiguration, IsFaultyBy, IsTaken, IsRefused};

use crate::credentials::credentials_in;
use crate::faults::ConfigFault;
use crate::forms::{account_in, boot_in, region_in, root_in};
use crate::identities::{ceiling_in, identities_in};
use crate::places::{refused, refused_behind};
use account_steps::RealmFacts;
use authority::{IdentityList, PolicyList};
use kms_names::{AccountNumber, NoMemory, Text};
use policy_doc::{Path, first_unknown, member};
use serde_json::{Map, Value};
use sigv4_check::CredentialList;
use std::alloc::Global;

// The longest file, in bytes.
const LONGEST: usize = 4_194_304;

// The names of a configuration's members.
const NAMES: [&str; 7] = [
    "account",
    "region",
    "root",
    "boot",
    "credentials",
    "policies",
    "ceiling",
];

/// What a service is configured with.
#[derive(Drop)]
pub struct Config {
    /// What is constant for a run of the service.
    pub facts: RealmFacts,
    /// The credentials of its callers, in the order of their ids.
    pub credentials: CredentialList,
}

/// The account, the region, the root secret and the boot number of a configuration.
#[derive(Drop)]
pub struct Basics {
    pub account: AccountNumber,
    pub region: Text,
    pub root: [u8; 32],
    pub boot: u32,
}

// The members of one value each.
fn basics_in(alloc: Global, value: &Value) -> Result<Basics, ConfigFault>
    ensures { Answers (basics_in (view value.now)) result }
{
    let top = Path::Root;
    let Some(account) = account_in(member(value, "account")) else {
        return refused(alloc, &Path::Member(&top, "account"));
    };
    let Some(region) = region_in(alloc, member(value, "region"))? else {
        return refused(alloc, &Path::Member(&top, "region"));
    };
    let Some(root) = root_in(member(value, "root")) else {
        return refused(alloc, &Path::Member(&top, "root"));
    };
    let Some(boot) = boot_in(member(value, "boot")) else {
        return refused(alloc, &Path::Member(&top, "boot"));
    };
    Ok(Basics {
        account,
        region,
        root,
        boot,
    })
}

fn credentials_at(
    alloc: Global,
    account: &AccountNumber,
    value: &Value,
) -> Result<CredentialList, ConfigFault>
    ensures { Answers (credentials_at account.now (view value.now)) result }
{
    let top = Path::Root;
    let place = Path::Member(&top, "credentials");
    credentials_in(alloc, account, &place, member(value, "credentials"))
}

fn identities_at(
    alloc: Global,
    account: &AccountNumber,
    value: &Value,
) -> Result<IdentityList, ConfigFault>
    ensures { Answers (identities_at account.now (view value.now)) result }
{
    let top = Path::Root;
    let place = Path::Member(&top, "policies");
    identities_in(alloc, account, &place, member(value, "policies"))
}

fn ceiling_at(alloc: Global, value: &Value) -> Result<PolicyList, ConfigFault>
    ensures { Answers (ceiling_at (view value.now)) result }
{
    let top = Path::Root;
    let place = Path::Member(&top, "ceiling");
    ceiling_in(alloc, &place, member(value, "ceiling"))
}

// The lists of an object with these members.
fn lists_in(
    alloc: Global,
    value: &Value,
    members: &Map<String, Value>,
    basics: Basics,
) -> Result<Config, ConfigFault>
    ensures { Answers (lists_in (view value.now) (members_view members.now.entries) basics) result }
{
    let top = Path::Root;
    let Basics {
        account,
        region,
        root,
        boot,
    } = basics;
    let credentials = match credentials_at(alloc, &account, value) {
        Ok(credentials) => credentials,
        Err(why) => return Err(why),
    };
    let identities = match identities_at(alloc, &account, value) {
        Ok(identities) => identities,
        Err(why) => return Err(why),
    };
    let ceiling = match ceiling_at(alloc, value) {
        Ok(ceiling) => ceiling,
        Err(why) => return Err(why),
    };
    if let Some(name) = first_unknown(&NAMES, members) {
        return refused(alloc, &Path::Member(&top, name));
    }
    Ok(Config {
        facts: RealmFacts {
            account,
            region,
            root,
            boot,
            identities,
            ceiling,
        },
        credentials,
    })
}

// What a value configures.
fn config_in(alloc: Global, value: &Value) -> Result<Config, ConfigFault>
    ensures { Answers (config_in (view value.now)) result }
{
    let Value::Object(members) = value else {
        return refused_behind(alloc, &Path::Root, "/");
    };
    match basics_in(alloc, value) {
        Ok(basics) => lists_in(alloc, value, members, basics),
        Err(why) => Err(why),
    }
}

// The JSON value of some bytes.
fn read_json(alloc: Global, bytes: &[u8]) -> Result<Option<Value>, NoMemory>
    ensures { IfOk result (λ value. MatchOption value (ReadsNothing bytes.now) (λ v. Reads bytes.now (view v))) }
{
    match Value::from_slice(alloc, bytes) {
        Ok(value) => Ok(Some(value)),
        Err(fault) if fault.is_memory() => Err(NoMemory),
        Err(_) => Ok(None),
    }
}

/// The configuration that the bytes of a file are: a JSON object (RFC 8259) of at most 4,194,304 bytes
/// with exactly these members; `ceiling` may be left out.
///
/// | Member | Value |
/// |---|---|
/// | `account` | 12 decimal digits |
/// | `region` | 1 to 32 lower-case letters, digits and `-` |
/// | `root` | 64 hexadecimal digits of either case |
/// | `boot` | a whole number from 1 to 4294967295 |
/// | `credentials` | a list of at most 1,000 objects of `accessKeyId` (1 to 128 letters and digits, distinct), `secret` (1 to 128 visible ASCII characters) and `principal` |
/// | `policies` | a list of at most 1,000 objects of `principal` (distinct, and not the root) and `documents` (a list of at most 10 identity policies) |
/// | `ceiling` | a list of 1 to 10 identity policies |
///
/// A principal is the ARN of the account's root, of a user or of a role of the account. Whoever calls, the
/// policies that the configuration's facts hold for the caller are then all of the kind `Identity`, and so are the documents of
/// the ceiling.
///
/// Else the answer is the JSON pointer of the first fault: of the members in this order, of a list's
/// length before its items, of the items in theirs, and of an object's members of other names last, in
/// byte order. A file that is no JSON object or too long is refused at `/`. Of equal names in an object
/// the last one counts. Want of memory may replace each answer.
pub fn read_config(alloc: Global, bytes: &[u8]) -> Result<Config, ConfigFault>
    ensures ok { IfOk result (IsConfigOf bytes.now) }
    ensures fault { IfErr result (IsFaultOf bytes.now) }
    ensures identity_policies { IfOk result (λ config. (caller : Principal) → AreIdentityPolicies (callers_policies config.facts.identities caller)) }
    ensures ceiling_policies { IfOk result (λ config. AreIdentityPolicies config.facts.ceiling) }
    // The same by the grammar: what it answers is so, and what is so it answers where there is memory.
    ensures configuration { IfOk result (IsConfiguration bytes.now) }
    ensures first_fault { IfErr result (IsFaultyBy bytes.now) }
    ensures taken { IsTaken bytes.now result }
    ensures refused { IsRefused bytes.now result }
{
    if bytes.len() > LONGEST {
        return refused_behind(alloc, &Path::Root, "/");
    }
    match read_json(alloc, bytes)? {
        Some(value) => config_in(alloc, &value),
        None => refused_behind(alloc, &Path::Root, "/"),
    }
}
