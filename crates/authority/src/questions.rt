//! Whether a request may do what it asks.
ghost use Rattle.std.specs.Prelude.{◌≡◌, IfOk, option_map, true, false};
ghost use Rattle.policy_eval.specs.VerdictOf.{verdict_of};
ghost use Rattle.policy_eval.specs.CeilingOf.{CeilingGoesByQuestion};
ghost use Rattle.authority.specs.Facts.{facts_of, request_of};
ghost use Rattle.authority.specs.Allowed.{is_deny, is_direct, some_deny, some_allow, own_allow, identity_allows, key_standing, own_standing, standing, bounded_standing, standing_of};
ghost use Rattle.policy_eval.specs.Asking.{CeilingGoesWithout};
ghost use Rattle.authority.specs.Questions.{GoByQuestions, KeyGoesByQuestion, GoWithoutAliases, KeyGoesWithoutAliases, resource_aliases, gathered, SaysWhatIsAsked};

use crate::facts::facts_of;
use crate::settings::{Particulars, Setting};
use crate::standings::Standing;
use cond_ops::{FactList, RequestFacts};
use key_policies::KeyPolicy;
use kms_names::{Action, NoMemory, Principal, Text};
use policy_eval::{
    CeilingVerdict, Compiled, Verdict, ceiling, ceiling_asks_aliases, ceiling_asks_facts,
};
use std::alloc::Global;

fn denies(policy: &Compiled, request: &RequestFacts) -> bool
    ensures { result ≡ is_deny (verdict_of policy.now request.now) }
{
    matches!(policy.verdict(request), Verdict::Deny)
}

fn allows_directly(policy: &Compiled, request: &RequestFacts) -> bool
    ensures { result ≡ is_direct (verdict_of policy.now request.now) }
{
    matches!(policy.verdict(request), Verdict::Direct)
}

// Whether some of these policies denies it.
fn some_deny(policies: &[Compiled], request: &RequestFacts) -> bool
    ensures { result ≡ some_deny policies.now request.now }
{
    policies.iter().any(|policy| denies(policy, request))
}

// Whether some of these policies allows it.
fn some_allow(policies: &[Compiled], request: &RequestFacts) -> bool
    ensures { result ≡ some_allow policies.now request.now }
{
    policies
        .iter()
        .any(|policy| allows_directly(policy, request))
}

// Whether the caller is the root, which may do everything, or one of its own policies allows it.
fn own_allow(caller: &Principal, policies: &[Compiled], request: &RequestFacts) -> bool
    ensures { result ≡ own_allow caller.now policies.now request.now }
{
    match caller {
        Principal::Root(_) => true,
        Principal::User(_, _) | Principal::Role(_, _) => some_allow(policies, request),
    }
}

// On a key whose policy gives this verdict. Where that policy denies it, no other is asked.
fn standing_on_key(
    caller: &Principal,
    policies: &[Compiled],
    verdict: Verdict,
    request: &RequestFacts,
) -> Standing
    ensures { result ≡ key_standing verdict (some_deny policies.now request.now) (identity_allows caller.now policies.now request.now) }
{
    match verdict {
        Verdict::Deny => Standing::Denied,
        _ if some_deny(policies, request) => Standing::Denied,
        Verdict::Direct => Standing::Allowed,
        Verdict::ByRoot if own_allow(caller, policies, request) => Standing::Allowed,
        Verdict::ByRoot | Verdict::Silent => Standing::IfGranted,
    }
}

// Without a key.
fn standing_without_key(
    caller: &Principal,
    policies: &[Compiled],
    request: &RequestFacts,
) -> Standing
    ensures { result ≡ own_standing (identity_allows caller.now policies.now request.now) }
{
    if !some_deny(policies, request) && own_allow(caller, policies, request) {
        Standing::Allowed
    } else {
        Standing::Denied
    }
}

// What policies say of the request.
fn standing(
    caller: &Principal,
    policies: &[Compiled],
    policy: Option<&Compiled>,
    request: &RequestFacts,
) -> Standing
    ensures { result ≡ standing caller.now policies.now (option_map (λ p. p.now) policy.entry) request.now }
{
    match policy {
        Some(policy) => standing_on_key(caller, policies, policy.verdict(request), request),
        None => standing_without_key(caller, policies, request),
    }
}

// Whether some of these policies has conditions.
fn some_ask(policies: &[Compiled]) -> bool
    ensures { result ≡ false → GoByQuestions policies.now }
{
    for policy in policies {
        if policy.asks_facts() {
            return true;
        }
    }
    false
}

// Whether the policy of a key has conditions, where there is one.
fn key_asks(policy: Option<&Compiled>) -> bool
    ensures { result ≡ false → KeyGoesByQuestion (option_map (λ p. p.now) policy.entry) }
{
    match policy {
        Some(policy) => policy.asks_facts(),
        None => false,
    }
}

// Whether some policy that is asked has conditions.
fn some_wants(policy: Option<&Compiled>, policies: &[Compiled], ceiling: &[Compiled]) -> bool
    ensures key { result ≡ false → KeyGoesByQuestion (option_map (λ p. p.now) policy.entry) }
    ensures own { result ≡ false → GoByQuestions policies.now }
    ensures bound { result ≡ false → CeilingGoesByQuestion ceiling.now }
{
    key_asks(policy) || some_ask(policies) || ceiling_asks_facts(ceiling)
}

// Whether some of these policies asks for the names of the key's aliases.
fn some_ask_aliases(policies: &[Compiled]) -> bool
    ensures { result ≡ false → GoWithoutAliases policies.now }
{
    for policy in policies {
        if policy.asks_aliases() {
            return true;
        }
    }
    false
}

// Whether the policy of a key does, where there is one.
fn key_asks_aliases(policy: Option<&Compiled>) -> bool
    ensures { result ≡ false → KeyGoesWithoutAliases (option_map (λ p. p.now) policy.entry) }
{
    match policy {
        Some(policy) => policy.asks_aliases(),
        None => false,
    }
}

// Whether some policy that is asked does.
fn some_wants_aliases(
    policy: Option<&Compiled>,
    policies: &[Compiled],
    ceiling: &[Compiled],
) -> bool
    ensures key { result ≡ false → KeyGoesWithoutAliases (option_map (λ p. p.now) policy.entry) }
    ensures own { result ≡ false → GoWithoutAliases policies.now }
    ensures bound { result ≡ false → CeilingGoesWithout resource_aliases ceiling.now }
{
    key_asks_aliases(policy) || some_ask_aliases(policies) || ceiling_asks_aliases(ceiling)
}

fn compiled(policy: Option<&KeyPolicy>) -> Option<&Compiled>
    ensures { option_map (λ p. p.now) result ≡ option_map (λ p. p.now) policy.entry }
{
    match policy {
        Some(policy) => Some(policy.compiled()),
        None => None,
    }
}

impl Setting<'_> {
    // What a request says to conditions, where that is wanted, with the names of its key's aliases only where these are.
    fn facts_if(
        &self,
        alloc: Global,
        wanted: bool,
        with_aliases: bool,
        action: Action,
        particulars: &Particulars<'_>,
    ) -> Result<FactList, NoMemory>
        ensures { IfOk result (λ facts. wanted ≡ true → facts ≡ facts_of self.now action (gathered with_aliases particulars.now)) }
    {
        if wanted {
            facts_of(alloc, self, action, particulars, with_aliases)
        } else {
            Ok(FactList::new(Vec::new(alloc)))
        }
    }

    // What policies are asked about a request; what it says to conditions, and of its key's aliases, only where that is
    // wanted.
    fn request(
        &self,
        alloc: Global,
        wanted: bool,
        with_aliases: bool,
        action: Action,
        resource: &str,
        particulars: &Particulars<'_>,
    ) -> Result<RequestFacts, NoMemory>
        ensures { IfOk result (SaysWhatIsAsked self.now (record { action = action; resource = resource.now; particulars = particulars.now }) wanted with_aliases) }
    {
        let facts = self.facts_if(alloc, wanted, with_aliases, action, particulars)?;
        let caller = self.caller.copy()?;
        let resource = Text::from_str(alloc, resource)?;
        Ok(RequestFacts {
            caller,
            action,
            resource,
            facts,
        })
    }

    /// All that policies can be asked about a request: who calls, the action, the resource, and every condition key. The time
    /// grows with the number of the key's aliases.
    pub fn whole_request(
        &self,
        alloc: Global,
        action: Action,
        resource: &str,
        particulars: &Particulars<'_>,
    ) -> Result<RequestFacts, NoMemory>
        ensures { IfOk result (λ request. request ≡ request_of self.now (record { action = action; resource = resource.now; particulars = particulars.now })) }
    {
        self.request(alloc, true, true, action, resource, particulars)
    }

    // What policies say of the request. Where the ceiling stops it, no other is asked.
    fn bounded_standing(&self, policy: Option<&Compiled>, request: &RequestFacts) -> Standing
        ensures { result ≡ bounded_standing self.now (option_map (λ p. p.now) policy.entry) request.now }
    {
        match ceiling(self.ceiling, request) {
            CeilingVerdict::Passes => standing(self.caller, self.policies, policy, request),
            CeilingVerdict::Stops => Standing::Denied,
        }
    }

    /// What policies say of this on a resource: the documents of the account's ceiling, then the policy of a key, where the
    /// question is about one, and the caller's own. Where a condition of a policy that is asked names `kms:ResourceAliases`, the
    /// time grows with the number of the key's aliases.
    pub fn standing(
        &self,
        alloc: Global,
        policy: Option<&KeyPolicy>,
        action: Action,
        resource: &str,
        particulars: &Particulars<'_>,
    ) -> Result<Standing, NoMemory>
        ensures { IfOk result (λ s. s ≡ standing_of self.now (option_map (λ p. p.now) policy.entry) (record { action = action; resource = resource.now; particulars = particulars.now })) }
    {
        let policy = compiled(policy);
        let wanted = some_wants(policy, self.policies, self.ceiling);
        let with_aliases = some_wants_aliases(policy, self.policies, self.ceiling);
        let request = self.request(alloc, wanted, with_aliases, action, resource, particulars)?;
        Ok(self.bounded_standing(policy, &request))
    }
}
