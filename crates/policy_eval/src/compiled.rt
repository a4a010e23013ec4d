//! Policies made ready to be asked.

ghost use Rattle.std.specs.Prelude.{◌≡◌, ◌↔◌, IsTrue, Any, IfOk, false, codes};
ghost use Rattle.policy_eval.specs.Verdict.{IsAllow, IsDeny, SomeDenies, IsKeyVerdict, IsIdentityVerdict, IsVerdict, SomeHasConditions, HasConditions, GoesByQuestion};
ghost use Rattle.policy_eval.specs.Allowed.{AllowsWhom};
ghost use Rattle.policy_eval.specs.Laws.{HasOneVerdictByQuestion};
ghost use Rattle.policy_eval.specs.VerdictOf.{verdict_of};
ghost use Rattle.policy_eval.specs.Asking.{AsksFor, GoesWithout, HasOneVerdictWithout};

use crate::allowed::Allowed;
use crate::asking::some_ask_for;
use crate::groups::Group;
use crate::naming::Naming;
use crate::statements::CompiledStatement;
use crate::verdicts::Verdict;
use cond_ops::RequestFacts;
use kms_names::NoMemory;
use policy_doc::{Policy, PolicyKind};
use std::alloc::Global;
use std::marker::Model;

/// A policy made ready to be asked about many requests. Contracts see it as the policy that it was made of.
pub struct Compiled {
    kind: PolicyKind,
    statements: Group,
    asks_aliases: bool,
}

// Each crate that lets a compiled policy go calls this one drop, and doesn't take it apart itself.
impl Drop for Compiled {
    fn drop(self) {
        let Compiled {
            kind: _,
            statements: _,
            asks_aliases: _,
        } = self;
    }
}

impl Model for Compiled {
    ghost use Rattle.policy_doc.specs.declared.policies.Policy.{Policy as PolicyValue};
    ghost use Rattle.std.specs.Prelude.{◌↔◌, IsTrue, codes};
    ghost use Rattle.policy_eval.specs.Asking.{SomeAskFor};

    ghost Value = { PolicyValue };

    ghost view = { λ c. record { kind = c.kind; statements = c.statements } };

    ghost invariant = { λ c. IsTrue c.asks_aliases ↔ SomeAskFor (codes "kms:ResourceAliases") c.statements };
}

impl Compiled {
    /// A policy made ready to be asked.
    pub fn new(alloc: Global, policy: &Policy) -> Result<Compiled, NoMemory>
        ensures { IfOk result (λ compiled. compiled ≡ policy.now) }
    {
        let statements = policy.statements.as_slice();
        let mut group = Group::with_capacity(alloc, statements.len())?;
        for statement in statements {
            group.push(CompiledStatement::new(alloc, statement)?)?;
        }
        Ok(Compiled {
            kind: policy.kind,
            statements: group,
            asks_aliases: some_ask_for(statements, "kms:ResourceAliases"),
        })
    }

    fn some_denies(&self, facts: &RequestFacts) -> bool
        ensures { IsTrue result ↔ SomeDenies self.now.statements facts.now }
    {
        self.statements.hits(false, Naming::CallerOrAccount, facts)
    }

    // Whom the Allow statements allow. Each is asked once.
    fn allowed(&self, facts: &RequestFacts) -> Allowed
        ensures { AllowsWhom self.now.statements facts.now result }
    {
        self.statements.allowed(facts)
    }

    // Whether some Deny statement matches, whomever it names.
    pub(crate) fn some_denies_anyone(&self, facts: &RequestFacts) -> bool
        ensures { IsTrue result ↔ Any (λ s. IsDeny s facts.now) self.now.statements }
    {
        self.statements.hits(false, Naming::Anyone, facts)
    }

    // Whether some Allow statement matches, whomever it names.
    pub(crate) fn some_allows_anyone(&self, facts: &RequestFacts) -> bool
        ensures { IsTrue result ↔ Any (λ s. IsAllow s facts.now) self.now.statements }
    {
        self.statements.hits(true, Naming::Anyone, facts)
    }

    /// The verdict of a key policy.
    fn key_verdict(&self, facts: &RequestFacts) -> Verdict
        ensures { IsKeyVerdict self.now.statements facts.now result }
    {
        if self.some_denies(facts) {
            return Verdict::Deny;
        }
        match self.allowed(facts) {
            Allowed::TheCaller => Verdict::Direct,
            Allowed::TheAccount => Verdict::ByRoot,
            Allowed::Nobody => Verdict::Silent,
        }
    }

    /// The verdict of an identity policy.
    fn identity_verdict(&self, facts: &RequestFacts) -> Verdict
        ensures { IsIdentityVerdict self.now.statements facts.now result }
    {
        if self.some_denies_anyone(facts) {
            Verdict::Deny
        } else if self.some_allows_anyone(facts) {
            Verdict::Direct
        } else {
            Verdict::Silent
        }
    }

    /// The verdict, by the kind of the policy.
    fn judged(&self, facts: &RequestFacts) -> Verdict
        ensures { IsVerdict self.now facts.now result }
    {
        match self.kind {
            PolicyKind::Key => self.key_verdict(facts),
            PolicyKind::Identity => self.identity_verdict(facts),
        }
    }

    /// What the policy says of a request. In a key policy a Deny statement that matches and names the caller,
    /// everyone or the root of the caller's account gives `Deny`; else an Allow statement that matches and names the
    /// caller or everyone gives `Direct`; else one that matches and names the root of the caller's account gives
    /// `ByRoot`; else the verdict is `Silent`. In an identity policy, whose statements are about the caller, a Deny
    /// statement that matches gives `Deny`; else an Allow statement that matches gives `Direct`; else it is `Silent`.
    /// A statement matches where its action part, its resource part and all its conditions do. Each Allow statement is
    /// asked once. Texts of the request that are matched with patterns and aren't ASCII are read into memory for the time
    /// of the match, and so are a condition's numbers and dates that several values of the request are compared with;
    /// where there is none, the answer is the same.
    /// (IAM User Guide, "Policy evaluation logic"; AWS KMS Developer Guide, "Key policies".)
    pub fn verdict(&self, facts: &RequestFacts) -> Verdict
        ensures is { IsVerdict self.now facts.now result }
        ensures one { result ≡ verdict_of self.now facts.now }
    {
        self.judged(facts)
    }

    fn has_conditions(&self) -> bool
        ensures { IsTrue result ↔ SomeHasConditions self.now.statements }
    {
        self.statements.has_conditions()
    }

    /// Whether some statement has a condition. Where none has, requests with the same caller, action and resource
    /// have the same verdict, whatever their condition keys.
    pub fn asks_facts(&self) -> bool
        ensures conditions { IsTrue result ↔ HasConditions self.now }
        ensures unasked { result ≡ false → GoesByQuestion self.now }
        ensures one { result ≡ false → HasOneVerdictByQuestion self.now }
    {
        self.has_conditions()
    }

    fn names_aliases(&self) -> bool
        ensures { IsTrue result ↔ AsksFor (codes "kms:ResourceAliases") self.now }
    {
        self.asks_aliases
    }

    /// Whether some condition is about `kms:ResourceAliases`, in whatever ASCII case. Where none is, requests have the
    /// same verdict that differ in what they say of this condition key alone. It is found once, when the policy is
    /// made ready.
    pub fn asks_aliases(&self) -> bool
        ensures conditions { IsTrue result ↔ AsksFor (codes "kms:ResourceAliases") self.now }
        ensures unasked { result ≡ false → GoesWithout (codes "kms:ResourceAliases") self.now }
        ensures one { result ≡ false → HasOneVerdictWithout (codes "kms:ResourceAliases") self.now }
    {
        self.names_aliases()
    }

    /// A copy that equals its source.
    pub fn copy(&self) -> Result<Compiled, NoMemory>
        ensures { IfOk result (λ compiled. compiled ≡ self.now) }
    {
        Ok(Compiled {
            kind: self.kind,
            statements: self.statements.copy()?,
            asks_aliases: self.asks_aliases,
        })
    }
}
