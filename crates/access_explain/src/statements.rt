// The marks of statements.
ghost use Rattle.std.specs.Prelude.{◌≡◌, ◌⊎◌, ◌↔◌, ◌<◌, IsTrue, Any, All};
ghost use Rattle.std.specs.Str.{chars};
ghost use Rattle.kms_names.specs.ActionSet.{IsActionLike};
ghost use Rattle.kms_names.specs.Glob.{Globs};
ghost use Rattle.cond_ops.specs.Holds.{Holds};
ghost use Rattle.cond_ops.specs.Relation.{IsLike};
ghost use Rattle.policy_doc.specs.declared.policies.Named.TheVariants.{Everyone, One};
ghost use Rattle.policy_eval.specs.Matching.{ElementMatches, ActionMatches, ResourceMatches, ConditionsHold};
ghost use Rattle.policy_eval.specs.Naming.{root_of, NamesCaller, NamesAccount};
ghost use Rattle.access_explain.specs.Marks.{IsMark, IsKeyMark};

use crate::marks::Mark;
use cond_ops::{Condition, RequestFacts, holds};
use kms_names::{Action, Principal, Steps, Text, glob};
use policy_doc::{Named, Statement};
use std::marker::Brand;
use std::sync::ledger::{Blank, Ledger};

// ---- globs

// Whether some of these globs is the action's.
fn some_is_like(globs: &[Text], action: Action) -> bool
    ensures { IsTrue result ↔ Any (λ pattern. IsActionLike pattern action) globs.now }
{
    globs.iter().any(|pattern| action.is_like(pattern.as_str()))
}

// A glob and a text.
#[derive(Clone, Copy)]
struct Pair<'a> {
    pattern: &'a str,
    text: &'a str,
}

fn globs_from<L: Ledger>(pair: &Pair, blank: Blank) -> bool
    requires name { blank.name ≡ L.name }
    requires parts { blank.parts ≡ L.parts }
    requires some { 0 < blank.parts }
    ensures { IsTrue result ↔ Globs (chars pair.now.pattern.now) (chars pair.now.text.now) }
{
    let (book, share) = blank.open::<L>();
    glob(pair.pattern, pair.text, &mut Steps::new(book, share))
}

fn globs(pattern: &str, text: &str) -> bool
    ensures { IsTrue result ↔ IsLike text.now pattern.now }
{
    globs_from::<Brand>(&Pair { pattern, text }, Blank::new(1))
}

// Whether some of these globs is the resource's.
fn some_globs(patterns: &[Text], resource: &str) -> bool
    ensures { IsTrue result ↔ Any (IsLike resource.now) patterns.now }
{
    patterns
        .iter()
        .any(|pattern| globs(pattern.as_str(), resource))
}

// ---- the parts of a statement

// Whether an Action of these globs, or a NotAction of the others where some are given, matches.
fn is_about(globs: &[Text], others: &[Text], action: Action) -> bool
    ensures { IsTrue result ↔ ElementMatches (λ pattern. IsActionLike pattern action) globs.now others.now }
{
    if others.is_empty() {
        some_is_like(globs, action)
    } else {
        !some_is_like(others, action)
    }
}

// Whether a Resource of these globs, or a NotResource of the others where some are given, matches.
fn is_on(globs: &[Text], others: &[Text], resource: &str) -> bool
    ensures { IsTrue result ↔ ElementMatches (IsLike resource.now) globs.now others.now }
{
    if others.is_empty() {
        some_globs(globs, resource)
    } else {
        !some_globs(others, resource)
    }
}

// Whether its Action or NotAction matches.
fn action_matches(statement: &Statement, action: Action) -> bool
    ensures { IsTrue result ↔ ActionMatches statement.now action }
{
    is_about(
        statement.actions.as_slice(),
        statement.not_actions.as_slice(),
        action,
    )
}

// Whether its Resource or NotResource matches.
fn resource_matches(statement: &Statement, resource: &str) -> bool
    ensures { IsTrue result ↔ ResourceMatches statement.now resource.now }
{
    is_on(
        statement.resources.as_slice(),
        statement.not_resources.as_slice(),
        resource,
    )
}

fn all_hold(conditions: &[Condition], facts: &RequestFacts) -> bool
    ensures { IsTrue result ↔ All (λ condition. Holds condition facts.now) conditions.now }
{
    conditions.iter().all(|condition| holds(condition, facts))
}

// Whether all its conditions hold.
fn conditions_hold(statement: &Statement, facts: &RequestFacts) -> bool
    ensures { IsTrue result ↔ ConditionsHold statement.now facts.now }
{
    all_hold(statement.conditions.as_slice(), facts)
}

// ---- whom it names

fn is_caller(named: &Named, caller: &Principal) -> bool
    ensures { IsTrue result ↔ ((named.now ≡ Everyone) ⊎ (named.now ≡ One caller.now)) }
{
    match named {
        Named::Everyone => true,
        Named::One(principal) => principal == caller,
    }
}

fn is_account(named: &Named, caller: &Principal) -> bool
    ensures { IsTrue result ↔ (named.now ≡ One (root_of caller.now)) }
{
    match named {
        Named::One(Principal::Root(account)) => *account == caller.account(),
        _ => false,
    }
}

// Whether everyone is named, or the caller.
fn names_caller(names: &[Named], caller: &Principal) -> bool
    ensures { IsTrue result ↔ NamesCaller names.now caller.now }
{
    names.iter().any(|named| is_caller(named, caller))
}

// Whether the root of the caller's account is named.
fn names_account(names: &[Named], caller: &Principal) -> bool
    ensures { IsTrue result ↔ NamesAccount names.now caller.now }
{
    names.iter().any(|named| is_account(named, caller))
}

// ---- marks

/// The mark of a statement of a caller's own policies, or of the ceiling: `Hit` where it matches,
/// else the first that fails of its action, its resource and its conditions.
pub fn mark_of(statement: &Statement, facts: &RequestFacts) -> Mark
    ensures { IsMark statement.now facts.now result }
{
    if !action_matches(statement, facts.action) {
        return Mark::Action;
    }
    if !resource_matches(statement, facts.resource.as_str()) {
        return Mark::Resource;
    }
    if conditions_hold(statement, facts) {
        Mark::Hit
    } else {
        Mark::Condition
    }
}

/// The mark of a statement of the policy of a key.
pub fn key_mark_of(statement: &Statement, facts: &RequestFacts) -> Mark
    ensures { IsKeyMark statement.now facts.now result }
{
    let names = statement.principals.as_slice();
    let for_caller = names_caller(names, &facts.caller);
    if !for_caller && !names_account(names, &facts.caller) {
        return Mark::Principal;
    }
    match mark_of(statement, facts) {
        Mark::Hit if statement.allow && !for_caller => Mark::RootHit,
        mark => mark,
    }
}
