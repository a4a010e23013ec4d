// The operations on the policies of keys: PutKeyPolicy and GetKeyPolicy.
ghost use Rattle.std.specs.Prelude.{◌≡◌, IfOk, IfErr, None, Some};
ghost use Rattle.account_steps.specs.Authority.{of_said};
ghost use Rattle.key_policies.specs.KeyPolicy.{fault_in, policy_in};
ghost use Rattle.kms_json.specs.declared.refusals.Refusal.TheVariants as refusal;
ghost use Rattle.account_steps.specs.declared.stops.Stop.TheVariants as stop;
ghost use Rattle.account_steps.specs.Steps.{Passes};
ghost use Rattle.account_keys.specs.Policies.{StopsAt, IsStopAt, may_put_again, locked_out, policy_refused, puts_policy, gets_policy};

use account_rows::{Lent, What};
use account_steps::{
    Changes, KeySaid, Made, Questions, Reads, Request, Stop, Uses, View, of_key, of_said,
    only_key_of,
};
use authority::Particulars;
use draw_lines::DrawLine;
use key_policies::KeyPolicy;
use kms_json::{PolicyFlaw, Refusal, Reply};
use kms_names::{Action, NoMemory, Text};
use policy_doc::PolicyFault;
use std::alloc::Global;

// The stop at a flaw.
fn malformed(flaw: PolicyFlaw) -> Stop
    ensures { result ≡ stop.Refused (refusal.MalformedPolicy flaw) }
{
    Stop::Refused(Refusal::MalformedPolicy(flaw))
}

// The stop at a fault of a document.
fn stop_at(fault: PolicyFault) -> Stop
    ensures { StopsAt fault result }
{
    match fault {
        PolicyFault::TooLong => malformed(PolicyFlaw::TooLong),
        PolicyFault::NotJson => malformed(PolicyFlaw::NotJson),
        PolicyFault::BadShape(path) => malformed(PolicyFlaw::BadShape(path)),
        PolicyFault::Unsupported(path) => malformed(PolicyFlaw::Unsupported(path)),
        PolicyFault::NoMemory => Stop::NoMemory,
    }
}

// The policy that a text is.
fn read(alloc: Global, text: &Text) -> Result<KeyPolicy, Stop>
    ensures ok { IfOk result (λ p. (fault_in text.now ≡ None) × (p ≡ policy_in text.now)) }
    ensures fault { IfErr result (IsStopAt (fault_in text.now)) }
{
    match KeyPolicy::read(alloc, text) {
        Ok(policy) => Ok(policy),
        Err(fault) => Err(stop_at(fault)),
    }
}

// A request with a policy of a key, and whether it passes over the lockout check.
fn of_policy<'a>(view: &View<'a>, key: &KeySaid<'a>, bypass: bool) -> Particulars<'a>
    ensures { result ≡ record (of_said view.now key.now) { bypass = Some bypass } }
{
    Particulars {
        bypass: Some(bypass),
        ..of_said(view, key)
    }
}

// Whether with this policy in place the caller may put the key's policy again.
fn may_put_again(
    alloc: Global,
    view: &View<'_>,
    policy: &KeyPolicy,
    key: &KeySaid<'_>,
) -> Result<bool, NoMemory>
    ensures { IfOk result (λ b. b ≡ may_put_again view.now policy.now key.now) }
{
    let arn = view.arn(alloc, key.key)?;
    let said = of_policy(view, key, false);
    view.may_on_key(
        alloc,
        policy,
        Action::PutKeyPolicy,
        key.key,
        arn.as_str(),
        &said,
    )
}

// Stops where the caller is locked out by a policy, unless this is passed over.
fn keep_in(
    alloc: Global,
    view: &View<'_>,
    policy: &KeyPolicy,
    key: &KeySaid<'_>,
    bypass: bool,
) -> Result<(), Stop>
    ensures { Passes (locked_out view.now policy.now key.now bypass) result }
{
    if bypass {
        return Ok(());
    }
    if may_put_again(alloc, view, policy, key)? {
        return Ok(());
    }
    Err(malformed(PolicyFlaw::Lockout))
}

/// Stops at what is wrong with a new policy of a key: its first fault, and then, unless this is passed over, that it
/// locks the caller out.
pub fn accept(
    alloc: Global,
    view: &View<'_>,
    key: &KeySaid<'_>,
    text: &Text,
    bypass: bool,
) -> Result<(), Stop>
    ensures { Passes (policy_refused view.now key.now text.now bypass) result }
{
    match read(alloc, text) {
        Ok(policy) => keep_in(alloc, view, &policy, key, bypass),
        Err(stop) => Err(stop),
    }
}

/// PutKeyPolicy.
#[derive(Drop)]
pub struct PuttingPolicy<'a> {
    /// What its steps go by.
    pub view: &'a View<'a>,
    /// The reference to the key.
    pub key_id: &'a Text,
    /// The key's new policy.
    pub policy: &'a Text,
    /// Whether the caller may lock itself out.
    pub bypass: bool,
}

impl<'a> Request for PuttingPolicy<'a> {
    type Found = Lent<'a>;

    type Ready = ();

    ghost seen = { λ op. op.view.now };

    ghost parts = { λ op. (puts_policy op.view.now op.key_id.now op.policy.now op.bypass).parts };

    fn view(&self) -> &View<'_> {
        self.view
    }

    fn find(&self, alloc: Global) -> Result<Lent<'a>, Stop> {
        only_key_of(alloc, self.view, self.key_id)
    }

    fn questions<'q>(&'q self, found: &'q Lent<'a>) -> Questions<'q> {
        let said = of_policy(self.view, &KeySaid::of(found.row()), self.bypass);
        Questions::on_key(Action::PutKeyPolicy, found, said)
    }

    fn tokens(&self) -> &[Text] {
        &[]
    }

    fn fit(&self, alloc: Global, found: &Lent<'a>) -> Result<(), Stop> {
        self.view.fit(alloc, Action::PutKeyPolicy, found)
    }

    fn own(&self, alloc: Global, found: &Lent<'a>) -> Result<(), Stop> {
        let key = KeySaid::of(found.row());
        accept(alloc, self.view, &key, self.policy, self.bypass)
    }

    fn dry_run(&self) -> bool {
        false
    }
}

impl<'a> Changes for PuttingPolicy<'a> {
    ghost does = { λ op. (puts_policy op.view.now op.key_id.now op.policy.now op.bypass).does };

    fn make(&self, _alloc: Global, found: Lent<'a>, _ready: ()) -> Result<Made, NoMemory> {
        let text = self.policy.copy()?;
        Ok(Made {
            reply: Reply::Done,
            what: Some(What::Policy {
                key: found.row().key,
                text,
            }),
        })
    }
}

/// GetKeyPolicy.
#[derive(Drop)]
pub struct GettingPolicy<'a> {
    /// What its steps go by.
    pub view: &'a View<'a>,
    /// The reference to the key.
    pub key_id: &'a Text,
}

impl<'a> Request for GettingPolicy<'a> {
    type Found = Lent<'a>;

    type Ready = ();

    ghost seen = { λ op. op.view.now };

    ghost parts = { λ op. (gets_policy op.view.now op.key_id.now).parts };

    fn view(&self) -> &View<'_> {
        self.view
    }

    fn find(&self, alloc: Global) -> Result<Lent<'a>, Stop> {
        only_key_of(alloc, self.view, self.key_id)
    }

    fn questions<'q>(&'q self, found: &'q Lent<'a>) -> Questions<'q> {
        let said = of_key(self.view, found.row());
        Questions::on_key(Action::GetKeyPolicy, found, said)
    }

    fn tokens(&self) -> &[Text] {
        &[]
    }

    fn fit(&self, alloc: Global, found: &Lent<'a>) -> Result<(), Stop> {
        self.view.fit(alloc, Action::GetKeyPolicy, found)
    }

    fn own(&self, _alloc: Global, _found: &Lent<'a>) -> Result<(), Stop> {
        Ok(())
    }

    fn dry_run(&self) -> bool {
        false
    }
}

impl<'a> Reads for GettingPolicy<'a> {
    ghost takes = { λ op. (gets_policy op.view.now op.key_id.now).takes };

    fn uses(&self) -> Uses {
        Uses::NOTHING
    }

    fn serve(
        &self,
        _alloc: Global,
        found: Lent<'a>,
        _ready: (),
        _line: &mut DrawLine,
    ) -> Result<Reply, NoMemory> {
        let policy = found.row().policy.copy()?;
        Ok(Reply::KeyPolicy { policy })
    }
}
