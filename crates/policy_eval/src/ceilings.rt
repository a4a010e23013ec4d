//! Documents that bound a whole account.

ghost use Rattle.std.specs.Prelude.{◌≡◌, ◌↔◌, IsTrue, Any, false, codes};
ghost use Rattle.policy_eval.specs.Verdict.{HasConditions};
ghost use Rattle.policy_eval.specs.Ceiling.{SomeDocumentDenies, SomeDocumentAllows, Under};
ghost use Rattle.policy_eval.specs.CeilingOf.{ceiling_of, CeilingGoesByQuestion};
ghost use Rattle.policy_eval.specs.Asking.{AsksFor, CeilingGoesWithout};
ghost use Rattle.policy_eval.specs.declared.ceilings.CeilingVerdict.TheVariants.{Passes};

use crate::compiled::Compiled;
use cond_ops::RequestFacts;

/// Whether the documents that bound an account let a request pass.
#[derive(Clone, Copy)]
pub enum CeilingVerdict {
    /// There are no documents, or no Deny statement of theirs matches and an Allow statement of one does.
    Passes,
    /// A Deny statement of a document matches, or there are documents and no Allow statement of theirs matches.
    Stops,
}

// Whether a statement of some document denies it.
fn some_denies(documents: &[Compiled], facts: &RequestFacts) -> bool
    ensures { IsTrue result ↔ SomeDocumentDenies documents.now facts.now }
{
    documents
        .iter()
        .any(|document| document.some_denies_anyone(facts))
}

// Whether a statement of some document allows it.
fn some_allows(documents: &[Compiled], facts: &RequestFacts) -> bool
    ensures { IsTrue result ↔ SomeDocumentAllows documents.now facts.now }
{
    documents
        .iter()
        .any(|document| document.some_allows_anyone(facts))
}

fn is_under(documents: &[Compiled], facts: &RequestFacts) -> bool
    ensures { IsTrue result ↔ Under documents.now facts.now }
{
    documents.is_empty() || (!some_denies(documents, facts) && some_allows(documents, facts))
}

/// Whether the documents that bound an account let a request pass: where there are none, or where no Deny statement of
/// theirs matches and an Allow statement of one does (AWS Organizations User Guide, "SCP evaluation"). They bound every
/// principal of the account, and allow nothing by themselves. Whom a statement names doesn't count, nor of which kind a
/// document is. Memory is taken as by `Compiled::verdict`.
pub fn ceiling(documents: &[Compiled], facts: &RequestFacts) -> CeilingVerdict
    ensures passes { (result ≡ Passes) ↔ Under documents.now facts.now }
    ensures one { result ≡ ceiling_of documents.now facts.now }
{
    if is_under(documents, facts) {
        CeilingVerdict::Passes
    } else {
        CeilingVerdict::Stops
    }
}

// Whether some statement of these documents has a condition.
fn some_has_conditions(documents: &[Compiled]) -> bool
    ensures { IsTrue result ↔ Any HasConditions documents.now }
{
    documents.iter().any(|document| document.asks_facts())
}

/// Whether some statement of these documents has a condition. Where none has, requests with the same caller, action and
/// resource pass or stop alike, whatever their condition keys.
pub fn ceiling_asks_facts(documents: &[Compiled]) -> bool
    ensures conditions { IsTrue result ↔ Any HasConditions documents.now }
    ensures unasked { result ≡ false → CeilingGoesByQuestion documents.now }
{
    some_has_conditions(documents)
}

// Whether some condition of these documents is about `kms:ResourceAliases`.
fn some_asks_aliases(documents: &[Compiled]) -> bool
    ensures { IsTrue result ↔ Any (AsksFor (codes "kms:ResourceAliases")) documents.now }
{
    documents.iter().any(|document| document.asks_aliases())
}

/// Whether some condition of these documents is about `kms:ResourceAliases`, in whatever ASCII case. Where none is,
/// requests pass or stop alike that differ in what they say of this condition key alone.
pub fn ceiling_asks_aliases(documents: &[Compiled]) -> bool
    ensures conditions { IsTrue result ↔ Any (AsksFor (codes "kms:ResourceAliases")) documents.now }
    ensures unasked { result ≡ false → CeilingGoesWithout (codes "kms:ResourceAliases") documents.now }
{
    some_asks_aliases(documents)
}
