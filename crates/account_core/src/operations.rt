// The operations, one arm each: what a request asks for is handed to a visitor as its operation.
ghost use Rattle.std.specs.Prelude.{◌≡◌, ◌≤◌, true, IfOk};
ghost use Rattle.kms_names.specs.Reading.{is_alias_text};
ghost use Rattle.account_crypto.specs.Crypto.{generates_data_key};
ghost use Rattle.account_keys.specs.Aliases.{changes_alias};
ghost use Rattle.account_keys.specs.Grants.{creates_grant};
ghost use Rattle.account_lists.specs.Lists.{lists_in, lists_on};
ghost use Rattle.kms_json.specs.Asks.{IsSizedReading, IsSizedChanging};
ghost use Rattle.account_keys.specs.KeyChanges.{changes_key};
ghost use Rattle.account_steps.specs.Places.{places_of, IsLineOf};
ghost use Rattle.account_steps.specs.Parts.{decided_read};
ghost use Rattle.account_steps.specs.Settling.{Settles, Makes};
ghost use Rattle.account_core.specs.Operations.{Says, change_parts, read_parts, change_outcome, read_outcome};

use crate::visiting::{ChangeVisitor, Making, ReadVisitor};
use account_crypto::{
    DataKeyForm, Decrypting, Encrypting, GeneratingDataKey, GeneratingMac, GeneratingRandom,
    ReEncrypting, VerifyingMac,
};
use account_keys::{
    AliasChange, ChangingAlias, ChangingKey, CreatingKey, DescribingKey, GettingPolicy,
    GettingRotationStatus, KeyChange, PuttingPolicy, RetiringGrant, RevokingGrant, creating_grant,
};
use account_lists::{AccountList, KeyList, ListingAccount, ListingKey};
use account_steps::{LentText, Made, Stop, View, lent_if_given};
use account_tags::{ListingTags, TaggingKey, UntaggingKey};
use draw_lines::DrawLine;
use kms_json::{Changing, CreateGrant, DataKey, Page, Reading, Reply};
use kms_names::{AliasName, NoMemory, Text, read_alias};
use std::alloc::Global;

// A change of a key's state or rotation.
fn change_key<V: ChangeVisitor>(
    alloc: Global,
    view: &View<'_>,
    key_id: &Text,
    how: KeyChange<'_>,
    to: &V,
) -> Result<V::Answer, Stop>
    ensures { Says (V.answers to.now view.now (changes_key view.now key_id.now how.entry)) result }
{
    let changing = ChangingKey {
        view,
        key_id,
        change: how,
    };
    to.visit(alloc, &changing)
}

// The alias name that a request gives.
fn alias_name(alloc: Global, text: &Text) -> Result<AliasName, NoMemory>
    requires { is_alias_text text.now ≡ true }
    ensures { IfOk result (λ name. name ≡ text.now) }
{
    match read_alias(alloc, text.as_str()) {
        Ok(name) => Ok(name),
        Err(_) => Err(NoMemory),
    }
}

// A change of an alias.
fn change_alias<V: ChangeVisitor>(
    alloc: Global,
    view: &View<'_>,
    alias: &Text,
    change: AliasChange<'_>,
    to: &V,
) -> Result<V::Answer, Stop>
    requires { is_alias_text alias.now ≡ true }
    ensures { Says (V.answers to.now view.now (changes_alias view.now alias.now change.entry)) result }
{
    let name = alias_name(alloc, alias)?;
    let changing = ChangingAlias {
        view,
        name: &name,
        change,
    };
    to.visit(alloc, &changing)
}

// A new grant.
fn create_grant<V: ChangeVisitor>(
    alloc: Global,
    view: &View<'_>,
    request: &CreateGrant,
    to: &V,
) -> Result<V::Answer, Stop>
    ensures { Says (V.answers to.now view.now (creates_grant view.now request.now)) result }
{
    let creating = creating_grant(view, request)?;
    to.visit(alloc, &creating)
}

// A part of a list of the account.
fn list<V: ReadVisitor>(
    alloc: Global,
    view: &View<'_>,
    what: AccountList<'_>,
    page: &Page,
    to: &mut V,
) -> Result<V::Answer, Stop>
    requires { V.may_visit to.old view.now }
    ensures { V.answers to.old view.now (lists_in view.now what.entry page.now) result to.new }
{
    to.visit(alloc, &ListingAccount { view, what, page })
}

// A part of a list of a key.
fn list_of_key<V: ReadVisitor>(
    alloc: Global,
    view: &View<'_>,
    key_id: &Text,
    what: KeyList<'_>,
    page: &Page,
    to: &mut V,
) -> Result<V::Answer, Stop>
    requires { V.may_visit to.old view.now }
    ensures { V.answers to.old view.now (lists_on view.now key_id.now what.entry page.now) result to.new }
{
    let listing = ListingKey {
        view,
        key_id,
        what,
        page,
    };
    to.visit(alloc, &listing)
}

// A data key.
fn generate<V: ReadVisitor>(
    alloc: Global,
    view: &View<'_>,
    request: &DataKey,
    form: DataKeyForm,
    to: &mut V,
) -> Result<V::Answer, Stop>
    requires visits { V.may_visit to.old view.now }
    requires some { 1 ≤ request.now.size }
    requires short { request.now.size ≤ 1024 }
    ensures { V.answers to.old view.now (generates_data_key view.now request.now form) result to.new }
{
    let generating = GeneratingDataKey {
        view,
        request,
        form,
    };
    to.visit(alloc, &generating)
}

/// Hands over the operation of a request that changes the account.
pub fn visit_change<V: ChangeVisitor>(
    alloc: Global,
    view: &View<'_>,
    body: &Changing,
    to: &V,
) -> Result<V::Answer, Stop>
    requires sized { IsSizedChanging body.now }
    ensures { Says (V.answers to.now view.now (change_parts view.now body.now).parts) result }
{
    match body {
        Changing::CreateKey(request) => to.visit(alloc, &CreatingKey { view, request }),
        Changing::PutKeyPolicy {
            key_id,
            policy,
            bypass_lockout_check,
        } => {
            let bypass = *bypass_lockout_check;
            let putting = PuttingPolicy {
                view,
                key_id,
                policy,
                bypass,
            };
            to.visit(alloc, &putting)
        }
        Changing::UpdateKeyDescription {
            key_id,
            description,
        } => {
            let text = LentText::new(description);
            change_key(alloc, view, key_id, KeyChange::Describe { text }, to)
        }
        Changing::EnableKey { key_id } => change_key(alloc, view, key_id, KeyChange::Enable, to),
        Changing::DisableKey { key_id } => change_key(alloc, view, key_id, KeyChange::Disable, to),
        Changing::ScheduleKeyDeletion { key_id, days } => {
            let days = *days as u32;
            let how = KeyChange::ScheduleDeletion { days };
            change_key(alloc, view, key_id, how, to)
        }
        Changing::CancelKeyDeletion { key_id } => {
            change_key(alloc, view, key_id, KeyChange::CancelDeletion, to)
        }
        Changing::EnableKeyRotation { key_id, period } => {
            let period = *period as u32;
            change_key(alloc, view, key_id, KeyChange::RotateEvery { period }, to)
        }
        Changing::DisableKeyRotation { key_id } => {
            change_key(alloc, view, key_id, KeyChange::RotateNoMore, to)
        }
        Changing::RotateKeyOnDemand { key_id } => {
            change_key(alloc, view, key_id, KeyChange::RotateNow, to)
        }
        Changing::CreateAlias { alias, key_id } => {
            let key_id = LentText::new(key_id);
            change_alias(alloc, view, alias, AliasChange::Create { key_id }, to)
        }
        Changing::UpdateAlias { alias, key_id } => {
            let key_id = LentText::new(key_id);
            change_alias(alloc, view, alias, AliasChange::Update { key_id }, to)
        }
        Changing::DeleteAlias { alias } => {
            change_alias(alloc, view, alias, AliasChange::Delete, to)
        }
        Changing::CreateGrant(x) => create_grant(alloc, view, x, to),
        Changing::RetireGrant { grant, dry_run } => {
            let retiring = RetiringGrant {
                view,
                grant,
                dry_run: *dry_run,
            };
            to.visit(alloc, &retiring)
        }
        Changing::RevokeGrant {
            key_id,
            grant_id,
            dry_run,
        } => {
            let revoking = RevokingGrant {
                view,
                key_id,
                grant_id,
                dry_run: *dry_run,
            };
            to.visit(alloc, &revoking)
        }
        Changing::TagResource { key_id, tags } => {
            to.visit(alloc, &TaggingKey { view, key_id, tags })
        }
        Changing::UntagResource { key_id, keys } => {
            to.visit(alloc, &UntaggingKey { view, key_id, keys })
        }
    }
}

/// Hands over the operation of a request that doesn't change the account.
pub fn visit_read<V: ReadVisitor>(
    alloc: Global,
    view: &View<'_>,
    body: &Reading,
    to: &mut V,
) -> Result<V::Answer, Stop>
    requires sized { IsSizedReading body.now }
    requires visits { V.may_visit to.old view.now }
    ensures { V.answers to.old view.now (read_parts view.now body.now).parts result to.new }
{
    match body {
        Reading::DescribeKey {
            key_id,
            grant_tokens,
        } => {
            let describing = DescribingKey {
                view,
                key_id,
                grant_tokens,
            };
            to.visit(alloc, &describing)
        }
        Reading::ListKeys { page } => list(alloc, view, AccountList::Keys, page, to),
        Reading::ListAliases { key_id, page } => {
            let key_id = lent_if_given(key_id);
            list(alloc, view, AccountList::Aliases { key_id }, page, to)
        }
        Reading::ListRetirableGrants { retiring, page } => {
            let retiring = LentText::new(retiring);
            let what = AccountList::RetirableGrants { retiring };
            list(alloc, view, what, page, to)
        }
        Reading::ListKeyPolicies { key_id, page } => {
            list_of_key(alloc, view, key_id, KeyList::Policies, page, to)
        }
        Reading::ListKeyRotations { key_id, page } => {
            list_of_key(alloc, view, key_id, KeyList::Rotations, page, to)
        }
        Reading::ListGrants(x) => {
            let what = KeyList::Grants {
                grant_id: lent_if_given(&x.grant_id),
                grantee: lent_if_given(&x.grantee),
            };
            list_of_key(alloc, view, &x.key_id, what, &x.page, to)
        }
        Reading::GetKeyPolicy { key_id } => to.visit(alloc, &GettingPolicy { view, key_id }),
        Reading::GetKeyRotationStatus { key_id } => {
            to.visit(alloc, &GettingRotationStatus { view, key_id })
        }
        Reading::Encrypt(request) => to.visit(alloc, &Encrypting { view, request }),
        Reading::Decrypt(request) => to.visit(alloc, &Decrypting { view, request }),
        Reading::ReEncrypt(request) => to.visit(alloc, &ReEncrypting { view, request }),
        Reading::GenerateDataKey { key, recipient } => {
            let recipient = *recipient;
            generate(alloc, view, key, DataKeyForm::Plaintext { recipient }, to)
        }
        Reading::GenerateDataKeyWithoutPlaintext(key) => {
            generate(alloc, view, key, DataKeyForm::Sealed, to)
        }
        Reading::GenerateRandom {
            size,
            custom_key_store,
            recipient,
        } => {
            let random = GeneratingRandom {
                view,
                size: *size,
                custom_key_store: *custom_key_store,
                recipient: *recipient,
            };
            to.visit(alloc, &random)
        }
        Reading::GenerateMac(request) => to.visit(alloc, &GeneratingMac { view, request }),
        Reading::VerifyMac(request) => to.visit(alloc, &VerifyingMac { view, request }),
        Reading::ListResourceTags { key_id, page } => {
            let listing = ListingTags { view, key_id, page };
            to.visit(alloc, &listing)
        }
    }
}

/// What a request that changes the account comes to.
pub fn change_body(alloc: Global, view: &View<'_>, body: &Changing) -> Result<Made, Stop>
    requires sized { IsSizedChanging body.now }
    ensures { Makes (change_outcome view.now body.now) result }
{
    visit_change(alloc, view, body, &Making)
}

/// The answer to a request that doesn't change the account.
pub fn read_body(
    alloc: Global,
    view: &View<'_>,
    body: &Reading,
    line: &mut DrawLine,
) -> Result<Reply, Stop>
    requires sized { IsSizedReading body.now }
    requires line { IsLineOf view.now.facts line.old }
    requires places { view.now.places ≡ places_of line.old }
    ensures { Settles (decided_read (read_outcome view.now body.now) (places_of line.old)) line.old result line.new }
{
    visit_read(alloc, view, body, line)
}
