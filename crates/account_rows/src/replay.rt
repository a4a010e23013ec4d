//! What entries do to the row of a key.

ghost use Rattle.std.specs.Prelude.{◌≡◌, ◌<◌, ◌≤◌, ◌++◌, ◌∷◌, [], Some, length, IfOk};
ghost use Rattle.kms_names.specs.Moment.{year_10000};
ghost use Rattle.std.specs.Str.{bytes_eq};
ghost use Rattle.account_rows.specs.Changes.{days_after, is_gone, new_key, rotated_if_due, with_version};
ghost use Rattle.account_rows.specs.History.{place_in, place_in_grant, is_made_here, most_tags};
ghost use Rattle.account_rows.specs.Replaying.{CanTurn, MayChange, change_by};
ghost use Rattle.resource_tags.specs.Tags.{with_tags};

use crate::entries::What;
use crate::held::{DefaultPolicy, HeldKey};
use hmac_keys::KeyKind;
use key_states::{KeyRow, State, Stored, Version, VersionList};
use kms_names::{GrantId, KeyId, NoMemory, Text, TextList};
use resource_tags::{TagFault, TagList, TagMap};
use std::alloc::Global;

// How many seconds a day has.
const DAY: u64 = 86_400;

// What an entry does to the row of its key.
#[derive(Drop)]
pub(crate) enum Change<'a> {
    Stored(Stored),
    Period { days: u32, next: u64 },
    NoPeriod,
    Version { time: u64 },
    Policy(&'a Text),
    Description(&'a Text),
    Tag(&'a TagList),
    Untag(&'a TextList),
}

/// Whether two ids are the same. It takes no memory.
pub fn same_key(key: &KeyId, other: &KeyId) -> bool
    ensures { result ≡ bytes_eq key.now other.now }
{
    key.as_bytes().as_slice() == other.as_bytes().as_slice()
}

// The place that a key's id ends with.
pub(crate) fn place_in(key: &KeyId) -> u64
    ensures { result ≡ place_in key.now }
{
    let mut bytes = [0; 8];
    bytes[2..].copy_from_slice(&key.as_bytes()[10..]);
    u64::from_be_bytes(bytes)
}

// The place that a grant's id ends with.
fn place_in_grant(grant: &GrantId) -> u64
    ensures { result ≡ place_in_grant grant.now }
{
    let mut bytes = [0; 8];
    bytes[2..].copy_from_slice(&grant.as_bytes()[26..]);
    u64::from_be_bytes(bytes)
}

/// Whether the id of a key or grant that an entry makes ends with this place. It takes no memory.
pub fn is_made_here(place: u64, what: &What) -> bool
    ensures { result ≡ is_made_here place what.now }
{
    match what {
        What::CreateKey { key, .. } => place_in(key) == place,
        What::GrantAdd { grant, .. } => place_in_grant(grant) == place,
        _ => true,
    }
}

/// Some days after a time, both in seconds since 1970. It takes no memory.
pub fn days_after(time: u64, days: u32) -> u64
    requires { time < year_10000 }
    ensures { result ≡ days_after time days }
{
    time + u64::from(days) * DAY
}

// The tags once these were put, which are not too many.
fn with_tags(tags: &TagMap, more: &TagList) -> Result<TagMap, NoMemory>
    requires { length (with_tags tags.now more.now) ≤ most_tags }
    ensures { IfOk result (λ all. all ≡ with_tags tags.now more.now) }
{
    match tags.put_all(more.as_slice()) {
        Ok(all) => Ok(all),
        Err(TagFault::NoMemory) => Err(NoMemory),
        Err(TagFault::TooMany) => unreachable!(),
    }
}

// A key as it is made.
pub(crate) fn new_key(
    alloc: Global,
    place: u64,
    time: u64,
    key: &KeyId,
    kind: KeyKind,
    description: &Text,
    policy: &Text,
    tags: &TagList,
) -> Result<KeyRow, NoMemory>
    requires { length (with_tags [] tags.now) ≤ most_tags }
    ensures { IfOk result (λ row. row ≡ new_key place time key.now kind description.now policy.now tags.now) }
{
    let mut versions = Vec::with_capacity(alloc, 1)?;
    versions.push(Version {
        time,
        on_demand: false,
    })?;
    Ok(KeyRow {
        key: *key,
        born: place,
        made: time,
        kind,
        description: description.copy()?,
        policy: policy.copy()?,
        stored: Stored::Enabled,
        versions: VersionList::new(versions),
        period: None,
        next: 0,
        on_demand: 0,
        tags: with_tags(&TagMap::new(alloc), tags)?,
    })
}

// The versions with one more.
fn one_more(
    alloc: Global,
    versions: &VersionList,
    version: Version,
) -> Result<VersionList, NoMemory>
    ensures { IfOk result (λ all. all ≡ versions.now ++ version ∷ []) }
{
    let versions = versions.as_slice();
    let mut all = Vec::with_capacity(alloc, versions.len() + 1)?;
    for old in versions {
        all.push(*old)?;
    }
    all.push(version)?;
    Ok(VersionList::new(all))
}

// The row with one version more, and this next date.
fn with_version(
    alloc: Global,
    row: &KeyRow,
    time: u64,
    on_demand: bool,
    next: u64,
) -> Result<KeyRow, NoMemory>
    requires { row.now.on_demand < 4294967295 }
    ensures { IfOk result (λ new. new ≡ with_version time on_demand next row.now) }
{
    let versions = one_more(alloc, &row.versions, Version { time, on_demand })?;
    Ok(KeyRow {
        key: row.key,
        born: row.born,
        made: row.made,
        kind: row.kind,
        description: row.description.copy()?,
        policy: row.policy.copy()?,
        stored: row.stored,
        versions,
        period: row.period,
        next,
        on_demand: if on_demand {
            row.on_demand + 1
        } else {
            row.on_demand
        },
        tags: row.tags.share()?,
    })
}

impl<'a> Change<'a> {
    // The row with the change.
    pub(crate) fn of(
        &self,
        alloc: Global,
        held: &HeldKey,
        default: &DefaultPolicy,
    ) -> Result<HeldKey, NoMemory>
        requires turns { CanTurn held.now }
        requires may { MayChange self.now (Some held.now) }
        ensures { IfOk result (λ row. row ≡ change_by self.now held.now) }
    {
        if let Change::Policy(text) = self {
            return held.with_policy(alloc, text, default);
        }
        if let Change::Version { time } = self {
            let row = held.row();
            return held.with_row(alloc, with_version(alloc, row, *time, true, row.next)?);
        }
        let mut row = held.row().copy()?;
        match self {
            Change::Stored(stored) => row.stored = *stored,
            Change::Period { days, next } => {
                row.period = Some(*days);
                row.next = *next;
            }
            Change::NoPeriod => row.period = None,
            Change::Description(text) => row.description = text.copy()?,
            Change::Tag(tags) => row.tags = with_tags(&row.tags, tags)?,
            Change::Untag(keys) => row.tags = row.tags.drop_keys(keys.as_slice())?,
            Change::Version { .. } | Change::Policy(_) => {}
        }
        held.with_row(alloc, row)
    }
}

/// Whether the key's date of deletion is not after the moment. It takes no memory.
pub fn is_gone(row: &KeyRow, moment: u64) -> bool
    ensures { result ≡ is_gone moment row.now }
{
    row.state_at(moment) == State::Gone
}

// The row, rotated where it is due.
pub(crate) fn rotated_if_due(alloc: Global, held: &HeldKey, time: u64) -> Result<HeldKey, NoMemory>
    requires time { time < year_10000 }
    requires turns { CanTurn held.now }
    ensures { IfOk result (λ row. row ≡ rotated_if_due time held.now) }
{
    let row = held.row();
    if !row.due(time) {
        return held.share();
    }
    let next = match row.period {
        Some(days) => days_after(time, days),
        None => row.next,
    };
    held.with_row(alloc, with_version(alloc, row, time, false, next)?)
}
