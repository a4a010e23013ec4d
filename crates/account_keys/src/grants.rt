// The operations on grants: CreateGrant, RetireGrant and RevokeGrant.
ghost use Rattle.std.specs.Prelude.{◌≡◌, [], Some, IfOk, option_map, unwrap_or};
ghost use Rattle.kms_json.specs.declared.replies.Reply.TheVariants as reply;
ghost use Rattle.account_rows.specs.declared.entries.What.TheVariants as what;
ghost use Rattle.account_steps.specs.Steps.{Gives};
ghost use Rattle.account_keys.specs.Grants.{constraint_of, pairs_of, grant_of, creates_grant, retires_grant, revokes_grant};

use account_rows::{Lent, What, same_key};
use account_steps::{
    Asking, Changes, LentGrant, Made, Questions, Request, Stop, View, grant_id, grant_id_in,
    grant_of_token, of_key, only_key_of, principal_if_given, principal_in,
};
use authority::{GrantSaid, Particulars};
use enc_context::Context;
use grant_table::{Constraint, GrantRow};
use kms_json::{CreateGrant, GrantConstraint, Missing, Refusal, Reply, RetiredGrant};
use kms_names::{Action, GrantId, NameFault, NoMemory, Principal, Text, read_principal};
use std::alloc::Global;

// The constraint that a request gives.
fn constraint_of(given: &GrantConstraint) -> Result<Constraint, NoMemory>
    ensures { IfOk result (λ constraint. constraint ≡ constraint_of given.now) }
{
    Ok(match given {
        GrantConstraint::Free => Constraint::Free,
        GrantConstraint::Equals(context) => Constraint::Equals(context.copy()?),
        GrantConstraint::Subset(context) => Constraint::Subset(context.copy()?),
    })
}

// The encryption context that a constraint says to conditions.
fn context_of(constraint: &Constraint) -> Option<&Context>
    ensures { unwrap_or (option_map (λ context. context.now) result) [] ≡ pairs_of constraint.now }
{
    match constraint {
        Constraint::Free => None,
        Constraint::Equals(context) | Constraint::Subset(context) => Some(context),
    }
}

// The live grant of an id, where it is of this key.
fn grant_of<'a>(view: &View<'a>, lent: &Lent<'_>, id: &GrantId) -> Result<LentGrant<'a>, Stop>
    ensures { Gives (grant_of view.now lent.now id.now) result }
{
    match view.grant(id) {
        Some(grant) if same_key(&grant.row().key, &lent.row().key) => Ok(grant),
        _ => Err(Stop::Refused(Refusal::NotFound(Missing::Grant))),
    }
}

/// The key of a grant that is to be made, its grantee and its retiring principal.
#[derive(Drop)]
pub struct Granting<'a> {
    /// The key.
    pub row: Lent<'a>,
    /// Whom the grant is to permit its operations.
    pub grantee: Principal,
    /// Who may retire it, if that is given.
    pub retiring: Option<Principal>,
}

/// CreateGrant, with the constraint that it gives.
#[derive(Drop)]
pub struct CreatingGrant<'a> {
    /// What its steps go by.
    pub view: &'a View<'a>,
    /// What it asks.
    pub request: &'a CreateGrant,
    /// What the grant is to ask of encryption contexts.
    pub constraint: Constraint,
    ghost same: { constraint ≡ constraint_of request.now.constraint },
}

/// The request with its constraint.
pub fn creating_grant<'a>(
    view: &'a View<'a>,
    request: &'a CreateGrant,
) -> Result<CreatingGrant<'a>, NoMemory>
    ensures { IfOk result (λ op. (op.view.now ≡ view.now) × (op.request.now ≡ request.now)) }
{
    let constraint = constraint_of(&request.constraint)?;
    Ok(CreatingGrant {
        view,
        request,
        constraint,
    })
}

impl<'a> CreatingGrant<'a> {
    ghost use Rattle.std.specs.Prelude.{◌≡◌, IfOk, None, option_map};
    ghost use Rattle.account_steps.specs.Ids.{grant_id_at};
    ghost use Rattle.account_keys.specs.Grants.{same_grant, of_grant, made_unless};

    // What the request says of itself.
    fn said<'b>(&'b self, found: &'b Granting<'a>) -> Particulars<'b>
        ensures { result ≡ of_grant self.now.view.now self.now.request.now found.now }
    {
        Particulars {
            context: context_of(&self.constraint),
            grant: Some(GrantSaid {
                operations: self.request.operations,
                grantee: &found.grantee,
                retiring: found.retiring.as_ref(),
                constraint: &self.constraint,
            }),
            ..of_key(self.view, found.row.row())
        }
    }

    // The grant of the key that is the same, where the request names it.
    fn same_grant(&self, found: &Granting<'a>) -> Option<&'a GrantRow>
        ensures { option_map (λ grant. grant.now) result ≡ same_grant self.now.view.now self.now.request.now found.now }
    {
        match &self.request.name {
            Some(name) => self.view.grants().same_as(
                &found.row.row().key,
                name,
                &found.grantee,
                &found.retiring,
                &self.request.operations,
                &self.constraint,
            ),
            None => None,
        }
    }

    // The grant that is made.
    fn added(&self, found: Granting<'a>, grant: GrantId) -> Result<What, NoMemory>
        requires { grant ≡ grant_id_at self.now.view.now.facts self.now.view.now.place }
        ensures { IfOk result (λ what. Some what ≡ made_unless None self.now.view.now self.now.request.now found.entry) }
    {
        let name = match &self.request.name {
            Some(name) => Some(name.copy()?),
            None => None,
        };
        Ok(What::GrantAdd {
            grant,
            key: found.row.row().key,
            grantee: found.grantee,
            retiring: found.retiring,
            operations: self.request.operations,
            constraint: self.constraint.copy()?,
            name,
        })
    }
}

impl<'a> Request for CreatingGrant<'a> {
    type Found = Granting<'a>;

    type Ready = ();

    ghost seen = { λ op. op.view.now };

    ghost parts = { λ op. (creates_grant op.view.now op.request.now).parts };

    fn view(&self) -> &View<'_> {
        self.view
    }

    fn find(&self, alloc: Global) -> Result<Granting<'a>, Stop> {
        let row = only_key_of(alloc, self.view, &self.request.key_id)?;
        let grantee = principal_in(alloc, &self.request.grantee)?;
        let retiring = principal_if_given(alloc, &self.request.retiring)?;
        Ok(Granting {
            row,
            grantee,
            retiring,
        })
    }

    fn questions<'q>(&'q self, found: &'q Granting<'a>) -> Questions<'q> {
        Questions::on_key(Action::CreateGrant, &found.row, self.said(found))
    }

    fn tokens(&self) -> &[Text] {
        self.request.grant_tokens.as_slice()
    }

    fn fit(&self, alloc: Global, found: &Granting<'a>) -> Result<(), Stop> {
        self.view.fit(alloc, Action::CreateGrant, &found.row)
    }

    fn own(&self, _alloc: Global, _found: &Granting<'a>) -> Result<(), Stop> {
        Ok(())
    }

    fn dry_run(&self) -> bool {
        self.request.dry_run
    }
}

impl<'a> Changes for CreatingGrant<'a> {
    ghost does = { λ op. (creates_grant op.view.now op.request.now).does };

    fn make(&self, _alloc: Global, found: Granting<'a>, _ready: ()) -> Result<Made, NoMemory> {
        if let Some(same) = self.same_grant(&found) {
            return Ok(Made {
                reply: Reply::Granted { grant: same.grant },
                what: None,
            });
        }
        let grant = grant_id(self.view.facts(), self.view.place());
        Ok(Made {
            reply: Reply::Granted { grant },
            what: Some(self.added(found, grant)?),
        })
    }
}

/// RetireGrant.
#[derive(Drop)]
pub struct RetiringGrant<'a> {
    /// What its steps go by.
    pub view: &'a View<'a>,
    /// Which grant.
    pub grant: &'a RetiredGrant,
    /// Whether the call is only to say what it would answer.
    pub dry_run: bool,
}

impl<'a> Request for RetiringGrant<'a> {
    type Found = LentGrant<'a>;

    type Ready = ();

    ghost seen = { λ op. op.view.now };

    ghost parts = { λ op. (retires_grant op.view.now op.grant.now op.dry_run).parts };

    fn view(&self) -> &View<'_> {
        self.view
    }

    fn find(&self, alloc: Global) -> Result<LentGrant<'a>, Stop> {
        match self.grant {
            RetiredGrant::OfToken(token) => match grant_of_token(self.view, token) {
                Some(grant) => Ok(grant),
                None => Err(Stop::Refused(Refusal::InvalidGrantToken)),
            },
            RetiredGrant::OfKey { key_id, grant_id } => {
                let row = only_key_of(alloc, self.view, key_id)?;
                let id = grant_id_in(grant_id)?;
                grant_of(self.view, &row, &id)
            }
        }
    }

    fn questions<'q>(&'q self, found: &'q LentGrant<'a>) -> Questions<'q> {
        let asking = Asking::Retiring {
            grant: LentGrant::new(found.row()),
        };
        asking.alone()
    }

    fn tokens(&self) -> &[Text] {
        &[]
    }

    fn fit(&self, _alloc: Global, _found: &LentGrant<'a>) -> Result<(), Stop> {
        Ok(())
    }

    fn own(&self, _alloc: Global, _found: &LentGrant<'a>) -> Result<(), Stop> {
        Ok(())
    }

    fn dry_run(&self) -> bool {
        self.dry_run
    }
}

// A grant is dropped.
fn dropped(grant: &LentGrant<'_>) -> Made
    ensures { result ≡ record { reply = reply.Done; what = Some (what.GrantDrop grant.now.grant) } }
{
    Made {
        reply: Reply::Done,
        what: Some(What::GrantDrop {
            grant: grant.row().grant,
        }),
    }
}

impl<'a> Changes for RetiringGrant<'a> {
    ghost does = { λ op. (retires_grant op.view.now op.grant.now op.dry_run).does };

    fn make(&self, _alloc: Global, found: LentGrant<'a>, _ready: ()) -> Result<Made, NoMemory> {
        Ok(dropped(&found))
    }
}

/// A key, and the id of a grant.
#[derive(Drop)]
pub struct Revoking<'a> {
    /// The key.
    pub row: Lent<'a>,
    /// The id.
    pub grant: GrantId,
}

/// RevokeGrant.
#[derive(Drop)]
pub struct RevokingGrant<'a> {
    /// What its steps go by.
    pub view: &'a View<'a>,
    /// The reference to the key.
    pub key_id: &'a Text,
    /// The grant's id.
    pub grant_id: &'a Text,
    /// Whether the call is only to say what it would answer.
    pub dry_run: bool,
}

impl<'a> Request for RevokingGrant<'a> {
    type Found = Revoking<'a>;

    type Ready = LentGrant<'a>;

    ghost seen = { λ op. op.view.now };

    ghost parts = { λ op. (revokes_grant op.view.now op.key_id.now op.grant_id.now op.dry_run).parts };

    fn view(&self) -> &View<'_> {
        self.view
    }

    fn find(&self, alloc: Global) -> Result<Revoking<'a>, Stop> {
        let row = only_key_of(alloc, self.view, self.key_id)?;
        let grant = grant_id_in(self.grant_id)?;
        Ok(Revoking { row, grant })
    }

    fn questions<'q>(&'q self, found: &'q Revoking<'a>) -> Questions<'q> {
        let said = of_key(self.view, found.row.row());
        Questions::on_key(Action::RevokeGrant, &found.row, said)
    }

    fn tokens(&self) -> &[Text] {
        &[]
    }

    fn fit(&self, alloc: Global, found: &Revoking<'a>) -> Result<(), Stop> {
        self.view.fit(alloc, Action::RevokeGrant, &found.row)
    }

    fn own(&self, _alloc: Global, found: &Revoking<'a>) -> Result<LentGrant<'a>, Stop> {
        grant_of(self.view, &found.row, &found.grant)
    }

    fn dry_run(&self) -> bool {
        self.dry_run
    }
}

impl<'a> Changes for RevokingGrant<'a> {
    ghost does = { λ op. (revokes_grant op.view.now op.key_id.now op.grant_id.now op.dry_run).does };

    fn make(
        &self,
        _alloc: Global,
        _found: Revoking<'a>,
        ready: LentGrant<'a>,
    ) -> Result<Made, NoMemory> {
        Ok(dropped(&ready))
    }
}
