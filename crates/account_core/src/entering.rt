//! Which entries fit a history, whoever made them.
ghost use Rattle.std.specs.Prelude.{◌≡◌, ◌<◌, IfOk, is_none, length, nat_le};
ghost use Rattle.kms_names.specs.Moment.{year_10000};
ghost use Rattle.resource_tags.specs.Tags.{with_tags};
ghost use Rattle.key_policies.specs.KeyPolicy.{fault_in};
ghost use Rattle.account_rows.specs.Changes.{wants_house};
ghost use Rattle.account_rows.specs.History.{most_tags};
ghost use Rattle.account_rows.specs.Sizes.{constraint_size};
ghost use Rattle.account_steps.specs.Parts.{overfull};
ghost use Rattle.account_core.specs.Fitting.{is_there, are_formed, is_name, is_short, is_short_if_given, is_formed, is_dated};
ghost use Rattle.account_core.specs.declared.entering.FitFault.TheVariants.{NoMemory as OutOfMemory};

use account_rows::{Entry, What, days_after};
use account_steps::{View, overfull};
use grant_table::Constraint;
use key_policies::KeyPolicy;
use kms_json::{are_tag_keys, are_tags, is_grant_name};
use kms_names::{NoMemory, Principal, Text, principal_len};
use policy_doc::PolicyFault;
use resource_tags::{TagFault, TagList, TagMap, are_proper};
use std::alloc::Global;
use tag_order::are_in_order;

/// Why an entry isn't appended.
#[derive(Clone, Copy)]
pub enum FitFault {
    /// It doesn't fit the entries before it.
    Unfit,
    /// There isn't memory enough.
    NoMemory,
}

impl From<NoMemory> for FitFault {
    ghost from_gives = { λ _ e. e ≡ OutOfMemory };

    fn from(_e: NoMemory) -> FitFault {
        FitFault::NoMemory
    }
}

// The most bytes of a description, and of the encoded context of a grant's constraint.
const DESCRIPTION: usize = 8_192;

const CONSTRAINT: usize = 4_096;

// The most bytes of the ARN of a grant's principal.
const PRINCIPAL: usize = 256;

/// Whether what an entry names is there, and housekeeping has something to do.
pub fn is_there(view: &View<'_>, house: bool, what: &What) -> bool
    requires { house ≡ wants_house view.now.moment view.now.keys }
    ensures { result ≡ is_there view.now what.now }
{
    match what {
        What::CreateKey { .. } => true,
        What::Enable { key }
        | What::Disable { key }
        | What::Schedule { key, .. }
        | What::Cancel { key }
        | What::RotationOn { key, .. }
        | What::RotationOff { key }
        | What::RotateNow { key }
        | What::Policy { key, .. }
        | What::Description { key, .. }
        | What::Tag { key, .. }
        | What::Untag { key, .. }
        | What::AliasPut { key, .. }
        | What::GrantAdd { key, .. } => view.key(key).is_some(),
        What::AliasDrop { name } => view.aliased(name).is_some(),
        What::GrantDrop { grant } => view.grant(grant).is_some(),
        What::House => house,
    }
}

/// Whether the limits leave room for an entry.
pub fn leaves_room(view: &View<'_>, what: &What) -> bool
    ensures { result ≡ is_none (overfull view.now what.now) }
{
    overfull(view, what).is_none()
}

// Whether a text is the policy of a key.
fn is_policy(alloc: Global, text: &Text) -> Result<bool, NoMemory>
    ensures { IfOk result (λ b. b ≡ is_none (fault_in text.now)) }
{
    match KeyPolicy::read(alloc, text) {
        Ok(_) => Ok(true),
        Err(PolicyFault::NoMemory) => Err(NoMemory),
        Err(_) => Ok(false),
    }
}

fn are_formed(tags: &TagList) -> bool
    ensures { result ≡ are_formed tags.now }
{
    let tags = tags.as_slice();
    are_tags(Some(tags)) && are_proper(tags) && are_in_order(tags)
}

fn is_name(name: &Option<Text>) -> bool
    ensures { result ≡ is_name name.now }
{
    match name {
        Some(name) => is_grant_name(name.as_str()),
        None => true,
    }
}

fn is_small(constraint: &Constraint) -> bool
    ensures { result ≡ nat_le (constraint_size constraint.now) 4096 }
{
    match constraint {
        Constraint::Free => true,
        Constraint::Equals(context) | Constraint::Subset(context) => {
            context.encoded_len() <= CONSTRAINT
        }
    }
}

fn is_short(principal: &Principal) -> bool
    ensures { result ≡ is_short principal.now }
{
    principal_len(principal) <= PRINCIPAL
}

fn is_short_if_given(principal: &Option<Principal>) -> bool
    ensures { result ≡ is_short_if_given principal.now }
{
    match principal {
        Some(principal) => is_short(principal),
        None => true,
    }
}

/// Whether the texts and numbers of an entry have their forms.
pub fn is_formed(alloc: Global, what: &What) -> Result<bool, NoMemory>
    ensures { IfOk result (λ b. b ≡ is_formed what.now) }
{
    Ok(match what {
        What::CreateKey {
            description,
            policy,
            tags,
            ..
        } => {
            description.as_str().len() <= DESCRIPTION
                && are_formed(tags)
                && is_policy(alloc, policy)?
        }
        What::Schedule { days, .. } => 7 <= *days && *days <= 30,
        What::RotationOn { period, .. } => 90 <= *period && *period <= 2_560,
        What::Policy { text, .. } => is_policy(alloc, text)?,
        What::Description { text, .. } => text.as_str().len() <= DESCRIPTION,
        What::Tag { tags, .. } => are_formed(tags),
        What::Untag { keys, .. } => are_tag_keys(keys.as_slice()),
        What::GrantAdd {
            grantee,
            retiring,
            operations,
            constraint,
            name,
            ..
        } => {
            !operations.is_empty()
                && is_small(constraint)
                && is_name(name)
                && is_short(grantee)
                && is_short_if_given(retiring)
        }
        _ => true,
    })
}

/// Whether a deletion is scheduled for the date that its waiting period comes to.
pub fn is_dated(time: u64, what: &What) -> bool
    requires { time < year_10000 }
    ensures { result ≡ is_dated time what.now }
{
    match what {
        What::Schedule { date, days, .. } => *date == days_after(time, *days),
        _ => true,
    }
}

/// Whether so few tags stand on a key once these were put.
pub fn tags_fit_on(tags: &TagMap, more: &TagList) -> Result<bool, NoMemory>
    ensures { IfOk result (λ b. b ≡ nat_le (length (with_tags tags.now more.now)) most_tags) }
{
    match tags.put_all(more.as_slice()) {
        Ok(_) => Ok(true),
        Err(TagFault::TooMany) => Ok(false),
        Err(TagFault::NoMemory) => Err(NoMemory),
    }
}
