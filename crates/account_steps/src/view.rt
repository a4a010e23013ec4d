// What every step of a decision goes by.
ghost use Rattle.std.specs.Prelude.{◌≡◌, [], IfOk};
ghost use Rattle.kms_names.specs.Moment.{year_10000};
ghost use Rattle.account_steps.specs.Parts.{told_state};
ghost use Rattle.account_steps.specs.Authority.{grant_op_of, may_retire};
ghost use Rattle.key_states.specs.Permissions.{refusal_of, need_of};
ghost use Rattle.key_states.specs.States.{state_of};

use crate::facts::RealmFacts;
use crate::particulars::of_none;
use crate::places::Places;
use crate::questions::{Asking, OfGrants, Question, of_grants};
use crate::stops::Stop;
use account_rows::{Lent, Rows, is_gone};
use alias_map::AliasMap;
use authority::{Particulars, Setting, Standing};
use enc_context::Context;
use grant_table::{GrantRow, GrantTable, same_principal};
use key_policies::KeyPolicy;
use key_states::{KeyRow, State, StateFault, Stored, permits};
use kms_json::{KeyState, Refusal};
use kms_names::{
    Action, AliasName, GrantId, GrantOp, KeyId, NoMemory, Principal, Text, alias_arn, key_arn,
};
use policy_eval::Compiled;
use std::alloc::Global;
use std::marker::Model;

/// What every step of a decision goes by, lent: the facts, the entries with the rows that they make, the moment, who
/// asks, and the places of the pass that asks. Beside them stand the caller's own policies and the documents of the
/// account's ceiling, ready to be asked.
#[derive(Drop)]
pub struct View<'a> {
    facts: &'a RealmFacts,
    rows: &'a Rows,
    moment: u64,
    caller: &'a Principal,
    policies: &'a [Compiled],
    ceiling: &'a [Compiled],
    places: Places,
}

impl<'a> Model for View<'a> {
    ghost use Rattle.std.specs.Prelude.{◌≡◌, ◌<◌, length};
    ghost use Rattle.kms_names.specs.Moment.{year_10000};
    ghost use Rattle.authority.specs.Setting.{callers_policies};
    ghost use Rattle.account_rows.specs.History.{replay};
    ghost use Rattle.account_rows.specs.Sizes.{bytes_in};
    ghost use Rattle.account_steps.specs.View as seen;

    ghost Value = { seen.View };

    ghost view = { λ v. record {
      facts = v.facts.now;
      keys = (replay v.rows.now).keys;
      aliases = (replay v.rows.now).aliases;
      grants = (replay v.rows.now).grants;
      place = length v.rows.now;
      bytes = bytes_in v.rows.now;
      moment = v.moment;
      caller = v.caller.now;
      places = v.places;
    } };

    ghost invariant = { λ v. record {
      policies : v.policies.now ≡ callers_policies v.facts.now.identities v.caller.now;
      ceiling : v.ceiling.now ≡ v.facts.now.ceiling;
      moment : v.moment < year_10000;
    } };
}

impl<'a> View<'a> {
    ghost use Rattle.std.specs.Prelude.{◌≡◌, ◌<◌, ◌≤◌, IfOk, None, Some, AllPairs, length, option_map};
    ghost use Rattle.authority.specs.Setting.{callers_policies};
    ghost use Rattle.key_states.specs.declared.rows.KeyRow.{KeyRow};
    ghost use Rattle.account_rows.specs.History.{replay, key_with, key_behind, most_bytes};
    ghost use Rattle.account_rows.specs.Sizes.{bytes_in};
    ghost use Rattle.account_steps.specs.Parts.{unfit_one};
    ghost use Rattle.grant_table.specs.Grants.{grant_of_key, grant_retirable};
    ghost use Rattle.account_steps.specs.View.{key_held, aliased, is_live, grant_held};
    ghost use Rattle.account_steps.specs.Steps.{Passes, arn_of, alias_arn_of};
    ghost use Rattle.account_steps.specs.Authority.{setting_of, granted, may_on_key, may_on_other, denied_at, denied_one, on_key, on_other, retiring, asked_one, posed, posed_on_key, of_none};

    /// The view of these.
    pub fn new(
        facts: &'a RealmFacts,
        rows: &'a Rows,
        moment: u64,
        caller: &'a Principal,
        policies: &'a [Compiled],
        ceiling: &'a [Compiled],
        places: Places,
    ) -> View<'a>
        requires policies { policies.now ≡ callers_policies facts.now.identities caller.now }
        requires ceiling { ceiling.now ≡ facts.now.ceiling }
        requires moment { moment < year_10000 }
        ensures { result ≡ record { facts = facts.now; keys = (replay rows.now).keys; aliases = (replay rows.now).aliases; grants = (replay rows.now).grants; place = length rows.now; bytes = bytes_in rows.now; moment = moment; caller = caller.now; places = places } }
    {
        View {
            facts,
            rows,
            moment,
            caller,
            policies,
            ceiling,
            places,
        }
    }

    /// What is constant for the run.
    pub fn facts(&self) -> &'a RealmFacts
        ensures { result.now ≡ self.now.facts }
    {
        self.facts
    }

    /// The number of keys, with those that are gone. Each was made before those behind it.
    pub fn number_of_keys(&self) -> usize
        ensures number { result ≡ length self.now.keys }
        ensures rise { AllPairs (λ (p q : KeyRow). p.born < q.born) self.now.keys }
    {
        self.rows.number_of_keys()
    }

    /// The first key, in order of making, that was made behind a place, or the first of all, with those that are gone.
    pub fn key_after(&self, after: Option<u64>) -> Option<Lent<'a>>
        ensures { result ≡ key_behind self.now.keys after }
    {
        Some(Lent::new(self.rows.key_after(after)?))
    }

    /// The key of an id; one that is gone counts as absent. It takes no memory.
    pub fn key(&self, key: &KeyId) -> Option<Lent<'a>>
        ensures { result ≡ key_held self.now key.now }
    {
        match self.rows.key(key) {
            Some(held) if !is_gone(held.row(), self.moment) => Some(Lent::new(held)),
            _ => None,
        }
    }

    /// The aliases of the account.
    pub fn aliases(&self) -> &'a AliasMap
        ensures { result.now ≡ self.now.aliases }
    {
        self.rows.aliases()
    }

    /// The grants of the account, with those of keys that are gone.
    pub fn grants(&self) -> &'a GrantTable
        ensures { result.now ≡ self.now.grants }
    {
        self.rows.grants()
    }

    /// The key that an alias names; an alias of a key that is gone counts as absent. It takes no memory.
    pub fn aliased(&self, name: &AliasName) -> Option<Lent<'a>>
        ensures { result ≡ aliased self.now name.now }
    {
        match self.aliases().resolve(name) {
            Some(row) => self.key(&row.key),
            None => None,
        }
    }

    /// Whether the key of a grant is there.
    pub fn is_live(&self, grant: &GrantRow) -> bool
        ensures { result ≡ is_live self.now grant.now }
    {
        self.key(&grant.key).is_some()
    }

    /// The live grant of an id. It takes no memory.
    pub fn grant(&self, id: &GrantId) -> Option<LentGrant<'a>>
        ensures { result ≡ grant_held self.now id.now }
    {
        match self.grants().get(id) {
            Some(grant) if self.is_live(grant) => Some(LentGrant::new(grant)),
            _ => None,
        }
    }

    /// The first grant of a key, in order of making, that was made behind a place, or the first of all.
    pub fn grant_of_key(&self, key: &KeyId, after: Option<u64>) -> Option<LentGrant<'a>>
        ensures { result ≡ grant_of_key self.now.grants key.now after }
    {
        Some(LentGrant::new(self.grants().of_key(key, after)?))
    }

    /// The same of the grants that a principal may retire.
    pub fn retirable_grant(&self, retiring: &Principal, after: Option<u64>) -> Option<LentGrant<'a>>
        ensures { result ≡ grant_retirable self.now.grants retiring.now after }
    {
        Some(LentGrant::new(self.grants().retirable(retiring, after)?))
    }

    /// The place of the next entry.
    pub fn place(&self) -> u64
        ensures { result ≡ self.now.place }
    {
        self.rows.entries()
    }

    /// How many rotations on demand the key of an id has had, where it is there.
    pub fn rotations(&self, key: &KeyId) -> Option<u32>
        ensures { result ≡ option_map (λ (row : KeyRow). row.on_demand) (key_with self.now.keys key.now) }
    {
        match self.rows.key(key) {
            Some(held) => Some(held.row().on_demand),
            None => None,
        }
    }

    /// How many bytes the entries count.
    pub fn bytes(&self) -> u64
        ensures bytes { result ≡ self.now.bytes }
        ensures fits { result ≤ most_bytes }
    {
        self.rows.bytes()
    }

    /// The moment, in seconds since 1970: before the year 10000.
    pub fn moment(&self) -> u64
        ensures moment { result ≡ self.now.moment }
        ensures bound { result < year_10000 }
    {
        self.moment
    }

    /// Who asks.
    pub fn caller(&self) -> &'a Principal
        ensures { result.now ≡ self.now.caller }
    {
        self.caller
    }

    /// The places of the pass that asks.
    pub fn places(&self) -> Places
        ensures { result ≡ self.now.places }
    {
        self.places
    }

    /// The ARN of a key of the account.
    pub fn arn(&self, alloc: Global, key: &KeyId) -> Result<Text, NoMemory>
        ensures { IfOk result (λ t. t ≡ arn_of self.now.facts key.now) }
    {
        key_arn(alloc, &self.facts.account, self.facts.region.as_str(), key)
    }

    /// Who asks, when and where, with the caller's own policies and the account's ceiling.
    pub fn setting(&self) -> Setting<'a>
        ensures { result ≡ setting_of self.now }
    {
        Setting {
            caller: self.caller,
            moment: self.moment,
            region: self.facts.region.as_str(),
            policies: self.policies,
            ceiling: self.ceiling,
        }
    }

    // Whether some grant of the key permits the caller this.
    fn granted(
        &self,
        alloc: Global,
        action: Action,
        key: &KeyId,
        said: &Particulars<'_>,
    ) -> Result<bool, NoMemory>
        ensures { IfOk result (λ b. b ≡ granted self.now action key.now said.now) }
    {
        let Some(op) = grant_op_of(action) else {
            return Ok(false);
        };
        let grants = self.grants();
        if let Some(made) = &said.grant {
            let parent = grants.parent_of(key, self.caller, &made.operations, made.constraint);
            return Ok(parent.is_some());
        }
        let permitting = match said.context {
            Some(context) => grants.permitting(key, self.caller, op, context),
            None => grants.permitting(key, self.caller, op, &Context::new(alloc)),
        };
        Ok(permitting.is_some())
    }

    /// Whether the caller may do this on a key of this ARN, by the account's ceiling, a policy of the key, the caller's own
    /// policies and the grants of the key, which are asked only where policies leave it to them.
    pub fn may_on_key(
        &self,
        alloc: Global,
        policy: &KeyPolicy,
        action: Action,
        key: &KeyId,
        arn: &str,
        said: &Particulars<'_>,
    ) -> Result<bool, NoMemory>
        requires { arn.now ≡ arn_of self.now.facts key.now }
        ensures { IfOk result (λ b. b ≡ may_on_key self.now policy.now action key.now said.now) }
    {
        let setting = self.setting();
        let standing = setting.standing(alloc, Some(policy), action, arn, said)?;
        match standing {
            Standing::Denied => Ok(false),
            Standing::Allowed => Ok(true),
            Standing::IfGranted => self.granted(alloc, action, key, said),
        }
    }

    // Whether the caller may do this on a resource that is no key, by the account's ceiling and the caller's own policies.
    fn may_on_other(
        &self,
        alloc: Global,
        action: Action,
        resource: &str,
        said: &Particulars<'_>,
    ) -> Result<bool, NoMemory>
        ensures { IfOk result (λ b. b ≡ may_on_other self.now action resource.now said.now) }
    {
        let setting = self.setting();
        let standing = setting.standing(alloc, None, action, resource, said)?;
        Ok(standing.settled(false))
    }

    // Goes on where this is allowed, and else is denied.
    fn pass(&self, allowed: bool, action: Action, resource: Text) -> Result<(), Stop>
        ensures { Passes (denied_at self.now.caller action resource allowed) result }
    {
        if allowed {
            return Ok(());
        }
        let caller = self.caller.copy()?;
        Err(Stop::Refused(Refusal::AccessDenied {
            caller,
            action,
            resource,
        }))
    }

    // Goes on where the caller may do this on a key.
    fn authorize_on(
        &self,
        alloc: Global,
        action: Action,
        lent: &Lent<'_>,
        said: &Particulars<'_>,
    ) -> Result<(), Stop>
        ensures { Passes (denied_one self.now (on_key action lent.now said.now)) result }
    {
        let key = &lent.row().key;
        let arn = self.arn(alloc, key)?;
        let allowed = self.may_on_key(alloc, lent.policy(), action, key, arn.as_str(), said)?;
        self.pass(allowed, action, arn)
    }

    // Goes on where the caller may do this on a resource that is no key.
    fn authorize(
        &self,
        alloc: Global,
        action: Action,
        resource: &str,
        said: &Particulars<'_>,
    ) -> Result<(), Stop>
        ensures { Passes (denied_one self.now (on_other action resource.now said.now)) result }
    {
        let allowed = self.may_on_other(alloc, action, resource, said)?;
        self.pass(allowed, action, Text::from_str(alloc, resource)?)
    }

    // Goes on where the caller may retire a grant: the root, its retiring principal, and its grantee where RetireGrant is
    // among its operations.
    fn authorize_retiring(&self, alloc: Global, grant: &GrantRow) -> Result<(), Stop>
        ensures { Passes (denied_one self.now (retiring grant.now)) result }
    {
        let allowed = may_retire(self.caller, grant);
        self.pass(allowed, Action::RetireGrant, self.arn(alloc, &grant.key)?)
    }

    // The ARN of an alias of the account.
    fn alias_arn(&self, alloc: Global, name: &AliasName) -> Result<Text, NoMemory>
        ensures { IfOk result (λ t. t ≡ alias_arn_of self.now.facts name.now) }
    {
        alias_arn(alloc, &self.facts.account, self.facts.region.as_str(), name)
    }

    // Goes on where the caller may do this to an alias.
    fn authorize_on_alias(
        &self,
        alloc: Global,
        action: Action,
        name: &AliasName,
    ) -> Result<(), Stop>
        ensures { Passes (denied_one self.now (on_other action (alias_arn_of self.now.facts name.now) of_none)) result }
    {
        let arn = self.alias_arn(alloc, name)?;
        self.authorize(alloc, action, arn.as_str(), &of_none())
    }

    // Goes on where the caller may do what a question asks.
    pub(crate) fn pass_asked(&self, alloc: Global, asking: &Asking<'_>) -> Result<(), Stop>
        ensures { Passes (denied_one self.now (asked_one self.now asking.now)) result }
    {
        match asking {
            Asking::OnKey { action, key, said } => self.authorize_on(alloc, *action, key, said),
            Asking::OnAll { action, said } => self.authorize(alloc, *action, "*", said),
            Asking::OnAlias { action, alias } => {
                self.authorize_on_alias(alloc, *action, alias.name())
            }
            Asking::Retiring { grant } => self.authorize_retiring(alloc, grant.row()),
        }
    }

    // A question about a key, as it is asked.
    fn pose_on_key(
        &self,
        alloc: Global,
        action: Action,
        key: &KeyId,
        said: &Particulars<'_>,
    ) -> Result<Question, NoMemory>
        ensures { IfOk result (λ q. q ≡ posed_on_key self.now action key.now said.now) }
    {
        let arn = self.arn(alloc, key)?;
        let facts = self
            .setting()
            .whole_request(alloc, action, arn.as_str(), said)?;
        let op = grant_op_of(action);
        Ok(Question {
            key: Some(*key),
            facts,
            op,
            grants: of_grants(alloc, op, said)?,
        })
    }

    // A question about a resource that is no key, as it is asked.
    fn pose_on_other(
        &self,
        alloc: Global,
        action: Action,
        resource: &str,
        said: &Particulars<'_>,
    ) -> Result<Question, NoMemory>
        ensures { IfOk result (λ q. q ≡ posed self.now (on_other action resource.now said.now)) }
    {
        let facts = self.setting().whole_request(alloc, action, resource, said)?;
        Ok(Question {
            key: None,
            facts,
            op: None,
            grants: OfGrants::Nothing,
        })
    }

    // The question whether the caller may retire a grant, as it is asked.
    fn pose_retiring(&self, alloc: Global, grant: &GrantRow) -> Result<Question, NoMemory>
        ensures { IfOk result (λ q. q ≡ posed self.now (retiring grant.now)) }
    {
        let arn = self.arn(alloc, &grant.key)?;
        let facts = self
            .setting()
            .whole_request(alloc, Action::RetireGrant, arn.as_str(), &of_none())?;
        Ok(Question {
            key: Some(grant.key),
            facts,
            op: Some(GrantOp::RetireGrant),
            grants: OfGrants::Retire(grant.grant),
        })
    }

    // A question, as policies and grants are asked it.
    pub(crate) fn pose(&self, alloc: Global, asking: &Asking<'_>) -> Result<Question, NoMemory>
        ensures { IfOk result (λ q. q ≡ posed self.now (asked_one self.now asking.now)) }
    {
        match asking {
            Asking::OnKey { action, key, said } => {
                self.pose_on_key(alloc, *action, &key.row().key, said)
            }
            Asking::OnAll { action, said } => self.pose_on_other(alloc, *action, "*", said),
            Asking::OnAlias { action, alias } => {
                let arn = self.alias_arn(alloc, alias.name())?;
                self.pose_on_other(alloc, *action, arn.as_str(), &of_none())
            }
            Asking::Retiring { grant } => self.pose_retiring(alloc, grant.row()),
        }
    }

    /// Goes on where the state of a key lets it be used for this.
    pub fn fit(&self, alloc: Global, action: Action, lent: &Lent<'_>) -> Result<(), Stop>
        ensures { Passes (unfit_one self.now (record { action = action; key = lent.now })) result }
    {
        let row = lent.row();
        match fault_of(row, action, self.moment()) {
            Some(StateFault::Disabled) => {
                let arn = self.arn(alloc, &row.key)?;
                Err(Stop::Refused(Refusal::Disabled(arn)))
            }
            Some(StateFault::InvalidState) => {
                let arn = self.arn(alloc, &row.key)?;
                let state = told_state(row.stored);
                Err(Stop::Refused(Refusal::InvalidState { arn, state }))
            }
            None => Ok(()),
        }
    }
}

// The operation that a grant permits by an action, if any.
fn grant_op_of(action: Action) -> Option<GrantOp>
    ensures { result ≡ grant_op_of action }
{
    match action {
        Action::Encrypt => Some(GrantOp::Encrypt),
        Action::Decrypt => Some(GrantOp::Decrypt),
        Action::ReEncryptFrom => Some(GrantOp::ReEncryptFrom),
        Action::ReEncryptTo => Some(GrantOp::ReEncryptTo),
        Action::GenerateDataKey => Some(GrantOp::GenerateDataKey),
        Action::GenerateDataKeyWithoutPlaintext => Some(GrantOp::GenerateDataKeyWithoutPlaintext),
        Action::DescribeKey => Some(GrantOp::DescribeKey),
        Action::CreateGrant => Some(GrantOp::CreateGrant),
        Action::GenerateMac => Some(GrantOp::GenerateMac),
        Action::VerifyMac => Some(GrantOp::VerifyMac),
        _ => None,
    }
}

// Whether the caller may retire a grant.
fn may_retire(caller: &Principal, grant: &GrantRow) -> bool
    ensures { result ≡ may_retire caller.now grant.now }
{
    matches!(caller, Principal::Root(_))
        || grant.has_retiring(caller)
        || (same_principal(&grant.grantee, caller)
            && grant.operations.contains(GrantOp::RetireGrant))
}

/// A grant that is lent. Contracts see its row.
#[derive(Drop)]
pub struct LentGrant<'a> {
    row: &'a GrantRow,
}

impl<'a> Model for LentGrant<'a> {
    ghost use Rattle.grant_table.specs.declared.rows.GrantRow.{GrantRow as GrantValue};

    ghost Value = { GrantValue };

    ghost view = { λ lent. lent.row.now };
}

impl<'a> LentGrant<'a> {
    /// The grant, lent.
    pub fn new(row: &'a GrantRow) -> LentGrant<'a>
        ensures { result ≡ row.now }
    {
        LentGrant { row }
    }

    /// The grant's row.
    pub fn row(&self) -> &'a GrantRow
        ensures { result.now ≡ self.now }
    {
        self.row
    }
}

// How the state of a key refuses an action. A key that is gone isn't looked up.
fn fault_of(row: &KeyRow, action: Action, moment: u64) -> Option<StateFault>
    ensures { result ≡ refusal_of (need_of action) (state_of row.now.stored moment) }
{
    match row.state_at(moment) {
        State::Gone => None,
        state => permits(action, state),
    }
}

/// The state of a key, as replies tell it.
pub fn told_state(stored: Stored) -> KeyState
    ensures { result ≡ told_state stored }
{
    match stored {
        Stored::Enabled => KeyState::Enabled,
        Stored::Disabled => KeyState::Disabled,
        Stored::Pending { date, .. } => KeyState::PendingDeletion {
            deletion_date: date,
        },
    }
}
