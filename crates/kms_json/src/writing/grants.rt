// What the operations on grants answer.
ghost use Rattle.std.specs.Prelude.{◌≡◌, ◌++◌, OnOk, IfOk, codes, filter, option_map, Some};
ghost use Rattle.serde_json.specs.Data.{string, object, member, no_members};
ghost use Rattle.kms_names.specs.GrantOps.{contains, grant_op_name};
ghost use Rattle.kms_names.specs.Principal.{principal_text};
ghost use Rattle.kms_names.specs.declared.principals.Principal.TheVariants.{Root};
ghost use Rattle.kms_json.specs.Objects.{list_data};
ghost use Rattle.kms_json.specs.GrantReplies as answered;
ghost use Rattle.kms_json.specs.Texts.{Writes, member_tokens};

use super::keys::put_key_arn;
use super::pages::write_page;
use crate::asks::GrantConstraint;
use crate::objects::{Item, Member, RowWriter, write_members, write_object, write_text_if};
use crate::replies::{GrantPage, ListedGrant};
use crate::texts::JsonText;
use enc_context::Context;
use kms_names::{
    AccountNumber, GrantId, GrantOp, GrantOps, NoMemory, Principal, Text, grant_text_into,
    key_text_into, write_principal,
};
use std::alloc::Global;

/// What CreateGrant answers.
pub fn granted(alloc: Global, text: &mut JsonText, grant: &GrantId) -> Result<(), NoMemory>
    ensures { Writes result text.old text.new (answered.granted_data grant.now) }
{
    let mut digits = [0; 64];
    let id = grant_text_into(grant, &mut digits);
    let members = [
        Member("GrantId", Item::Text(id)),
        Member("GrantToken", Item::Text(id)),
    ];
    write_object(alloc, text, &members)
}

fn context(text: &mut JsonText, context: &Context) -> Result<(), NoMemory>
    ensures { Writes result text.old text.new (answered.context_data context.now) }
{
    text.begin_object()?;
    for pair in context.pairs() {
        text.key(pair.key.as_str())?;
        text.string(pair.value.as_str())?;
    }
    text.end_object()
}

// What a grant asks of contexts by pairs, under the name of how it does.
fn constraint_by(text: &mut JsonText, name: &str, pairs: &Context) -> Result<(), NoMemory>
    ensures { OnOk result (text.new ≡ text.old ++ member_tokens (codes "Constraints") (Some (object (member name.now (answered.context_data pairs.now) no_members)))) }
{
    text.key("Constraints")?;
    text.begin_object()?;
    text.key(name)?;
    context(text, pairs)?;
    text.end_object()
}

// What a grant asks of contexts, if it is anything.
fn constraint(text: &mut JsonText, constraint: &GrantConstraint) -> Result<(), NoMemory>
    ensures { OnOk result (text.new ≡ text.old ++ member_tokens (codes "Constraints") (answered.constraint_data constraint.now)) }
{
    match constraint {
        GrantConstraint::Free => Ok(()),
        GrantConstraint::Equals(pairs) => constraint_by(text, "EncryptionContextEquals", pairs),
        GrantConstraint::Subset(pairs) => constraint_by(text, "EncryptionContextSubset", pairs),
    }
}

// The names of those of these operations that are in a set.
fn names_in(text: &mut JsonText, operations: &GrantOps, all: &[GrantOp]) -> Result<(), NoMemory>
    ensures { Writes result text.old text.new (list_data (λ op. string (grant_op_name op)) (filter (contains operations.now) all.now)) }
{
    text.begin_array()?;
    for op in all {
        if operations.contains(*op) {
            text.string(op.name())?;
        }
    }
    text.end_array()
}

// The names of a set of operations, in their order.
fn operations(text: &mut JsonText, operations: &GrantOps) -> Result<(), NoMemory>
    ensures { OnOk result (text.new ≡ text.old ++ member_tokens (codes "Operations") (Some (answered.operations_data operations.now))) }
{
    text.key("Operations")?;
    names_in(text, operations, &GrantOp::ALL)
}

// The ARN of a principal, if there is one.
fn principal_if(alloc: Global, principal: &Option<Principal>) -> Result<Option<Text>, NoMemory>
    ensures { IfOk result (λ text. text ≡ option_map principal_text principal.now) }
{
    match principal {
        Some(principal) => Ok(Some(write_principal(alloc, principal)?)),
        None => Ok(None),
    }
}

fn str_if(text: &Option<Text>) -> Option<&str>
    ensures { option_map (λ t. t.now) result ≡ text.now }
{
    match text {
        Some(text) => Some(text.as_str()),
        None => None,
    }
}

// The ARNs of those whom a grant names.
#[derive(Drop)]
struct GrantParties {
    grantee: Text,
    issuer: Text,
    retiring: Option<Text>,
}

impl GrantParties {
    // Those of a grant that the root of an account issued.
    fn new(
        alloc: Global,
        account: &AccountNumber,
        grant: &ListedGrant,
    ) -> Result<GrantParties, NoMemory>
        ensures grantee { IfOk result (λ parties. parties.grantee ≡ principal_text grant.now.grantee) }
        ensures issuer { IfOk result (λ parties. parties.issuer ≡ principal_text (Root account.now)) }
        ensures retiring { IfOk result (λ parties. parties.retiring ≡ option_map principal_text grant.now.retiring) }
    {
        Ok(GrantParties {
            grantee: write_principal(alloc, &grant.grantee)?,
            issuer: write_principal(alloc, &Principal::Root(*account))?,
            retiring: principal_if(alloc, &grant.retiring)?,
        })
    }
}

fn grant_by<'a>(
    alloc: Global,
    text: &mut JsonText,
    grant: &'a ListedGrant,
    id: &'a str,
    arn: &'a str,
    parties: &'a GrantParties,
) -> Result<(), NoMemory>
    ensures { Writes result text.old text.new (answered.grant_by grant.now.created id.now parties.now.grantee parties.now.issuer arn.now grant.now.name parties.now.retiring (answered.constraint_data grant.now.constraint) (answered.operations_data grant.now.operations)) }
{
    let members = [
        Member("CreationDate", Item::Number(grant.created)),
        Member("GrantId", Item::Text(id)),
        Member("GranteePrincipal", Item::Text(parties.grantee.as_str())),
        Member("IssuingAccount", Item::Text(parties.issuer.as_str())),
        Member("KeyId", Item::Text(arn)),
        Member("Name", Item::TextIfAny(str_if(&grant.name))),
    ];
    text.begin_object()?;
    constraint(text, &grant.constraint)?;
    write_members(alloc, text, &members)?;
    operations(text, &grant.operations)?;
    write_text_if(text, "RetiringPrincipal", &parties.retiring)?;
    text.end_object()
}

// The grants of an account and a region.
#[derive(Clone, Copy)]
struct GrantRows<'a> {
    account: &'a AccountNumber,
    region: &'a str,
}

impl RowWriter for GrantRows<'_> {
    type Row = ListedGrant;

    ghost row_data = { λ rows grant. answered.grant_data rows.account.now rows.region.now grant };

    fn write_row(
        &self,
        alloc: Global,
        room: &mut String,
        text: &mut JsonText,
        grant: &ListedGrant,
    ) -> Result<(), NoMemory> {
        let mut key_digits = [0; 36];
        let key = key_text_into(&grant.key, &mut key_digits);
        put_key_arn(room, self.account, self.region, key)?;
        let mut digits = [0; 64];
        let id = grant_text_into(&grant.grant, &mut digits);
        let parties = GrantParties::new(alloc, self.account, grant)?;
        grant_by(alloc, text, grant, id, room.as_str(), &parties)
    }
}

/// What ListGrants and ListRetirableGrants answer.
pub fn grant_list(alloc: Global, text: &mut JsonText, list: &GrantPage) -> Result<(), NoMemory>
    ensures { Writes result text.old text.new (answered.grants_data list.now) }
{
    let writer = GrantRows {
        account: &list.account,
        region: list.region.as_str(),
    };
    write_page(
        alloc,
        text,
        "Grants",
        &writer,
        list.grants.as_slice(),
        list.next,
    )
}
