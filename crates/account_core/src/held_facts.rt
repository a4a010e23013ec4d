// What is constant for a run, with what was read of it.
ghost use Rattle.std.specs.Prelude.{◌≡◌, [], IfOk, IfErr, unwrap_or, option_map, true, false};
ghost use Rattle.std.specs.Arc.{arc_value};
ghost use Rattle.authority.specs.Callers.{ArePoliciesOf, policies_at};
ghost use Rattle.authority.specs.Setting.{callers_policies};

use account_steps::RealmFacts;
use authority::Callers;
use kms_names::{NoMemory, Principal, write_principal};
use policy_eval::Compiled;
use std::alloc::Global;
use std::marker::Model;
use std::sync::Arc;

// The facts, with what was read of them: the policies of callers and the documents of the ceiling, ready to be asked.
#[derive(Drop)]
struct Kept {
    facts: RealmFacts,
    callers: Callers,
    ceiling: Vec<Compiled>,
}

/// What is constant for a run: beside the facts the policies of callers and the ceiling, ready to be asked. The accounts of a run
/// share it. Contracts see the facts.
#[derive(Drop)]
pub struct HeldFacts {
    kept: Arc<Kept>,
}

impl Model for HeldFacts {
    ghost use Rattle.std.specs.Prelude.{◌≡◌};
    ghost use Rattle.std.specs.Arc.{arc_value};
    ghost use Rattle.authority.specs.Callers.{ArePoliciesOf};
    ghost use Rattle.account_steps.specs.declared.facts.RealmFacts.{RealmFacts as FactsValue};

    ghost Value = { FactsValue };

    ghost view = { λ r. (arc_value r.kept).facts };

    ghost invariant = { λ r. record {
      callers : ArePoliciesOf (arc_value r.kept).callers (arc_value r.kept).facts.identities;
      ceiling : (arc_value r.kept).ceiling.items ≡ (arc_value r.kept).facts.ceiling;
    } };
}

fn shared<T: Drop>(alloc: Global, value: T) -> Result<Arc<T>, NoMemory>
    ensures { IfOk result (λ s. arc_value s ≡ value) }
{
    match Arc::new(alloc, value) {
        Ok(shared) => Ok(shared),
        Err(_) => Err(NoMemory),
    }
}

fn once_more<T: Drop>(value: &Arc<T>) -> Result<Arc<T>, NoMemory>
    ensures { IfOk result (λ s. arc_value s ≡ arc_value value.now) }
{
    match Arc::try_clone(value) {
        Ok(shared) => Ok(shared),
        Err(_) => Err(NoMemory),
    }
}

// The policies at an ARN, none where nothing stands there.
fn policies_at<'a>(callers: &'a Callers, arn: &str) -> &'a [Compiled]
    ensures { result.now ≡ unwrap_or (policies_at callers.now arn.now) [] }
{
    match callers.at(arn) {
        Some(policies) => policies,
        None => &[],
    }
}

impl HeldFacts {
    /// What is constant for a run, with the policies of callers and the ceiling compiled once. The time and the memory grow with their texts.
    pub fn new(alloc: Global, facts: RealmFacts) -> Result<HeldFacts, NoMemory>
        ensures { IfOk result (λ r. r ≡ facts) }
    {
        let callers = Callers::new(alloc, &facts.identities)?;
        let ceiling = facts.ceiling.compile(alloc)?;
        let kept = Kept {
            facts,
            callers,
            ceiling,
        };
        Ok(HeldFacts {
            kept: shared(alloc, kept)?,
        })
    }

    /// The same once more.
    pub fn share(&self) -> Result<HeldFacts, NoMemory>
        ensures { IfOk result (λ r. r ≡ self.now) }
    {
        Ok(HeldFacts {
            kept: once_more(&self.kept)?,
        })
    }

    /// The facts.
    pub fn facts(&self) -> &RealmFacts
        ensures { result.now ≡ self.now }
    {
        &self.kept.facts
    }

    /// A caller's own policies, none of the account's root. They are found by a hash of the caller's ARN.
    pub fn policies_of(&self, alloc: Global, caller: &Principal) -> Result<&[Compiled], NoMemory>
        ensures { IfOk result (λ policies. policies.now ≡ callers_policies self.now.identities caller.now) }
    {
        match caller {
            Principal::Root(_) => Ok(&[]),
            Principal::User(_, _) | Principal::Role(_, _) => {
                let arn = write_principal(alloc, caller)?;
                Ok(policies_at(&self.kept.callers, arn.as_str()))
            }
        }
    }

    /// The documents of the account's ceiling, ready to be asked.
    pub fn ceiling(&self) -> &[Compiled]
        ensures { result.now ≡ self.now.ceiling }
    {
        self.kept.ceiling.as_slice()
    }
}
