//! What a request says to conditions of policies.
ghost use Rattle.std.specs.Prelude.{◌≡◌, ◌≢◌, ◌++◌, ◌∷◌, [], All, IfOk, OnOk, MatchOption, map, codes};
ghost use Rattle.kms_names.specs.Action.{is_among};
ghost use Rattle.authority.specs.Facts.{behind_slash, caller_facts, user_facts, time_facts, service_facts, kind_facts, key_facts, pair_fact, context_facts, several_facts, sealing, algorithm_facts, setting_facts, named_facts, sealing_facts, changing_facts, facts_of};
ghost use Rattle.authority.specs.Questions.{names_if, gathered};

use crate::grants::put_granting;
use crate::puts::{put, put_all, put_given, put_number, put_some, put_text, put_truth};
use crate::settings::{KindSaid, Particulars, Setting};
use crate::tags::put_tags;
use crate::times::write_moment;
use cond_ops::{Fact, FactList};
use enc_context::Pair;
use kms_names::{Action, NoMemory, Principal, Text, TextList, write_principal};
use std::alloc::Global;

// What stands before and behind the first `/`.
fn at_slash(text: &str) -> Option<(&str, &str)>
    ensures { MatchOption result (All (λ c. c ≢ 47) text.now) (λ parts. All (λ c. c ≢ 47) parts.0.now × (text.now ≡ parts.0.now ++ 47 ∷ parts.1.now)) }
{
    text.split_once('/')
}

// What stands behind the last `/` of a name.
fn behind_slash(name: &str) -> &str
    ensures { result.now ≡ behind_slash name.now }
{
    let mut rest = name;
    while let Some((_, behind)) = at_slash(rest) {
        rest = behind;
    }
    rest
}

fn put_user(facts: &mut Vec<Fact>, caller: &Principal) -> Result<(), NoMemory>
    ensures { OnOk result (facts.new.items ≡ facts.old.items ++ user_facts caller.now) }
{
    match caller {
        Principal::User(_, name) => {
            put_text(facts, "aws:username", behind_slash(name.as_str()))?;
        }
        Principal::Root(_) | Principal::Role(_, _) => {}
    }
    Ok(())
}

fn put_caller(facts: &mut Vec<Fact>, caller: &Principal) -> Result<(), NoMemory>
    ensures { OnOk result (facts.new.items ≡ facts.old.items ++ caller_facts caller.now) }
{
    let arn = write_principal(*facts.allocator(), caller)?;
    let account = caller.account();
    let pairs = [
        ("aws:PrincipalArn", arn.as_str()),
        ("aws:PrincipalAccount", account.as_str()),
        ("kms:CallerAccount", account.as_str()),
    ];
    put_all(facts, &pairs)?;
    put_user(facts, caller)?;
    Ok(())
}

fn put_times(facts: &mut Vec<Fact>, moment: u64) -> Result<(), NoMemory>
    ensures { OnOk result (facts.new.items ≡ facts.old.items ++ time_facts moment) }
{
    let alloc = *facts.allocator();
    let current = write_moment(alloc, moment)?;
    let seconds = format!(in alloc; "{moment}")?;
    let pairs = [
        ("aws:CurrentTime", current.as_str()),
        ("aws:EpochTime", seconds.as_str()),
    ];
    put_all(facts, &pairs)?;
    Ok(())
}

fn put_service(facts: &mut Vec<Fact>, region: &str) -> Result<(), NoMemory>
    ensures { OnOk result (facts.new.items ≡ facts.old.items ++ service_facts region.now) }
{
    let pairs = [
        ("aws:RequestedRegion", region),
        ("aws:SecureTransport", "false"),
    ];
    put_all(facts, &pairs)?;
    Ok(())
}

fn put_kind(facts: &mut Vec<Fact>, kind: &KindSaid<'_>) -> Result<(), NoMemory>
    ensures { OnOk result (facts.new.items ≡ facts.old.items ++ kind_facts kind.now) }
{
    let pairs = [
        ("kms:KeySpec", kind.spec),
        ("kms:KeyUsage", kind.usage),
        ("kms:KeyOrigin", "AWS_KMS"),
        ("kms:MultiRegion", "false"),
    ];
    put_all(facts, &pairs)?;
    Ok(())
}

fn put_key(facts: &mut Vec<Fact>, kind: &Option<KindSaid<'_>>) -> Result<(), NoMemory>
    ensures { OnOk result (facts.new.items ≡ facts.old.items ++ key_facts kind.now) }
{
    match kind {
        Some(kind) => put_kind(facts, kind),
        None => Ok(()),
    }
}

// Adds a pair of an encryption context.
fn put_pair(facts: &mut Vec<Fact>, pair: &Pair) -> Result<(), NoMemory>
    ensures { OnOk result (facts.new.items ≡ facts.old.items ++ pair_fact pair.now ∷ []) }
{
    let alloc = *facts.allocator();
    let name = pair.key.as_str();
    let key = Text::from_string(format!(in alloc; "kms:EncryptionContext:{name}")?);
    let value = pair.value.copy()?;
    put(facts, key, value)?;
    Ok(())
}

// Adds the pairs of an encryption context.
fn put_pairs(facts: &mut Vec<Fact>, pairs: &[Pair]) -> Result<(), NoMemory>
    ensures { OnOk result (facts.new.items ≡ facts.old.items ++ map pair_fact pairs.now) }
{
    for pair in pairs {
        put_pair(facts, pair)?;
    }
    Ok(())
}

// The keys of an encryption context.
fn keys_of(alloc: Global, pairs: &[Pair]) -> Result<TextList, NoMemory>
    ensures { IfOk result (λ keys. keys ≡ map (λ pair. pair.key) pairs.now) }
{
    let mut keys = Vec::new(alloc);
    for pair in pairs {
        keys.push(pair.key.copy()?)?;
    }
    Ok(TextList::new(keys))
}

fn put_context(facts: &mut Vec<Fact>, pairs: &[Pair]) -> Result<(), NoMemory>
    ensures { OnOk result (facts.new.items ≡ facts.old.items ++ context_facts pairs.now) }
{
    put_pairs(facts, pairs)?;
    let keys = keys_of(*facts.allocator(), pairs)?;
    put_some(facts, "kms:EncryptionContextKeys", keys)
}

fn seals_or_opens(op: Action) -> bool
    ensures { result ≡ is_among sealing op }
{
    matches!(
        op,
        Action::Encrypt
            | Action::Decrypt
            | Action::ReEncryptFrom
            | Action::ReEncryptTo
            | Action::GenerateDataKey
            | Action::GenerateDataKeyWithoutPlaintext
    )
}

fn put_algorithm(facts: &mut Vec<Fact>, op: Action) -> Result<(), NoMemory>
    ensures { OnOk result (facts.new.items ≡ facts.old.items ++ algorithm_facts (is_among sealing op)) }
{
    if seals_or_opens(op) {
        put_text(facts, "kms:EncryptionAlgorithm", "SYMMETRIC_DEFAULT")
    } else {
        Ok(())
    }
}

// Who asks, when and where.
fn put_setting(facts: &mut Vec<Fact>, setting: &Setting<'_>) -> Result<(), NoMemory>
    ensures { OnOk result (facts.new.items ≡ facts.old.items ++ setting_facts setting.now) }
{
    put_caller(facts, setting.caller)?;
    put_times(facts, setting.moment)?;
    put_service(facts, setting.region)?;
    Ok(())
}

// The names of the aliases of the key, where they are wanted.
fn put_aliases(
    facts: &mut Vec<Fact>,
    particulars: &Particulars<'_>,
    with_aliases: bool,
) -> Result<(), NoMemory>
    ensures { OnOk result (facts.new.items ≡ facts.old.items ++ several_facts (codes "kms:ResourceAliases") (names_if with_aliases particulars.now.aliases)) }
{
    let names = particulars.alias_names(*facts.allocator(), with_aliases)?;
    put_some(facts, "kms:ResourceAliases", names)
}

// Which key it is about, and by which name.
fn put_named(
    facts: &mut Vec<Fact>,
    particulars: &Particulars<'_>,
    with_aliases: bool,
) -> Result<(), NoMemory>
    ensures { OnOk result (facts.new.items ≡ facts.old.items ++ named_facts (gathered with_aliases particulars.now)) }
{
    put_key(facts, &particulars.kind)?;
    put_aliases(facts, particulars, with_aliases)?;
    put_given(facts, "kms:RequestAlias", particulars.request_name())
}

// What is sealed or opened, and how a MAC is made.
fn put_sealing(
    facts: &mut Vec<Fact>,
    op: Action,
    particulars: &Particulars<'_>,
) -> Result<(), NoMemory>
    ensures { OnOk result (facts.new.items ≡ facts.old.items ++ sealing_facts op particulars.now) }
{
    put_context(facts, particulars.pairs())?;
    put_algorithm(facts, op)?;
    put_given(facts, "kms:MacAlgorithm", particulars.algorithm())?;
    put_truth(facts, "kms:ReEncryptOnSameKey", particulars.same_key)
}

// How the key is changed.
fn put_changing(facts: &mut Vec<Fact>, particulars: &Particulars<'_>) -> Result<(), NoMemory>
    ensures { OnOk result (facts.new.items ≡ facts.old.items ++ changing_facts particulars.now) }
{
    put_truth(
        facts,
        "kms:BypassPolicyLockoutSafetyCheck",
        particulars.bypass,
    )?;
    put_number(
        facts,
        "kms:ScheduleKeyDeletionPendingWindowInDays",
        particulars.window,
    )?;
    put_number(facts, "kms:RotationPeriodInDays", particulars.period)
}

/// What a request says to conditions, with the names of its key's aliases only where they are wanted. Then the time grows
/// with the number of the key's aliases.
pub fn facts_of(
    alloc: Global,
    setting: &Setting<'_>,
    op: Action,
    particulars: &Particulars<'_>,
    with_aliases: bool,
) -> Result<FactList, NoMemory>
    ensures { IfOk result (λ facts. facts ≡ facts_of setting.now op (gathered with_aliases particulars.now)) }
{
    let mut facts = Vec::new(alloc);
    put_setting(&mut facts, setting)?;
    put_named(&mut facts, particulars, with_aliases)?;
    put_sealing(&mut facts, op, particulars)?;
    put_granting(&mut facts, op, particulars)?;
    put_changing(&mut facts, particulars)?;
    put_tags(&mut facts, particulars)?;
    Ok(FactList::new(facts))
}
