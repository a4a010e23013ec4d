//! Values in groups, and values that are shared.

use crate::cases::Case;
use crate::maps::{Digest, Order, counted, put_digest, read_order, value_of};
use kms_names::{NoMemory, Text};
use persist_map::{PFrom, PGroups, PMap, Shared};
use std::alloc::Global;

/// What groups of numbers answer.
pub fn groups(case: &mut Case<'_>) {
    match case.word() {
        "grouped" => grouped(case),
        "changed" => changed(case),
        "shared" => shared(case),
        _ => case.lose(),
    }
}

/// The places of an order, and how many groups they are in.
#[derive(Clone, Copy)]
struct Rows {
    order: Order,
    groups: u64,
}

/// The rows of the next three columns.
fn read_rows(case: &mut Case<'_>) -> Rows {
    let order = read_order(case);
    let groups = case.number();
    Rows { order, groups }
}

impl Rows {
    /// The key of the group that a place is in: an odd number.
    fn key_of(self, place: u64) -> u64 {
        match (place / 2).checked_rem(self.groups) {
            Some(rest) => rest.wrapping_mul(2).wrapping_add(1),
            None => 0,
        }
    }
}

/// The groups of these rows.
fn groups_of(alloc: Global, rows: Rows) -> Result<PGroups<u64, Shared<u64>>, NoMemory> {
    let mut groups = PGroups::new(alloc);
    for number in 0..rows.order.count {
        let place = rows.order.key(number);
        let value = Shared::new(alloc, value_of(place))?;
        groups = groups.insert(rows.key_of(place), place, value)?;
    }
    Ok(groups)
}

/// The groups without so many places of these rows.
fn groups_without(
    made: PGroups<u64, Shared<u64>>,
    rows: Rows,
    count: u64,
) -> Result<PGroups<u64, Shared<u64>>, NoMemory> {
    let mut groups = made;
    for number in 0..count {
        let place = rows.order.key(number);
        groups = groups.remove(rows.key_of(place), place)?;
    }
    Ok(groups)
}

/// The digest of these pairs, behind another.
fn with_values(digest: Digest, pairs: PFrom<'_, u64, Shared<u64>>) -> Digest {
    let mut digest = digest;
    for (place, value) in pairs {
        digest = digest.with_pair(*place, *value.value());
    }
    digest
}

fn put_values(case: &mut Case<'_>, mark: &str, pairs: PFrom<'_, u64, Shared<u64>>) {
    put_digest(case, mark, with_values(Digest::new(), pairs));
}

/// What groups answer of a key: its pairs, how many they are, and those behind each of the places.
fn put_group(case: &mut Case<'_>, groups: &PGroups<u64, Shared<u64>>, key: u64, places: &str) {
    put_values(case, "; ", groups.group(&key));
    case.put_number(groups.group_len(&key) as u64);
    put_values(case, ", ", groups.group_behind(&key, None));
    for place in places.split(", ") {
        let place = case.number_of(place);
        put_values(case, ", ", groups.group_behind(&key, Some(place)));
    }
}

/// Groups are made, and places are taken out of them.
fn grouped(case: &mut Case<'_>) {
    let rows = read_rows(case);
    let removed = case.number();
    let step = case.number();
    let keys = case.word();
    let places = case.word();
    let alloc = case.alloc;
    let made = case.kept_or(groups_of(alloc, rows), PGroups::new(alloc));
    let count = rows.order.count;
    let others = Rows {
        order: Order { count, step },
        groups: rows.groups,
    };
    let left = groups_without(made, others, removed);
    let groups = case.kept_or(left, PGroups::new(alloc));
    for key in keys.split(", ") {
        let key = case.number_of(key);
        put_group(case, &groups, key, places);
    }
}

/// The digest of the groups of the keys up to one: each key with how many pairs it has, and these.
fn digest_up_to(groups: &PGroups<u64, Shared<u64>>, last: u64) -> Digest {
    let mut digest = Digest::new();
    for key in 0..=last {
        digest = digest.with_pair(key, groups.group_len(&key) as u64);
        digest = with_values(digest, groups.group(&key));
    }
    digest
}

/// The groups with a value of a key at a place.
fn groups_with(
    alloc: Global,
    groups: &PGroups<u64, Shared<u64>>,
    key: u64,
    place: u64,
    value: u64,
) -> Result<PGroups<u64, Shared<u64>>, NoMemory> {
    groups.insert(key, place, Shared::new(alloc, value)?)
}

/// Groups are made, and others are made of them. They stay as they were.
fn changed(case: &mut Case<'_>) {
    let rows = read_rows(case);
    let key = case.number();
    let place = case.number();
    let value = case.number();
    let alloc = case.alloc;
    let groups = case.kept_or(groups_of(alloc, rows), PGroups::new(alloc));
    let with = groups_with(alloc, &groups, key, place, value);
    let with = case.kept_or(with, PGroups::new(alloc));
    let without = case.kept_or(groups.remove(key, place), PGroups::new(alloc));
    let equal = case.kept_or(groups.share(), PGroups::new(alloc));
    let last = rows.groups.saturating_mul(2);
    put_digest(case, "; ", digest_up_to(&groups, last));
    put_digest(case, "; ", digest_up_to(&with, last));
    put_digest(case, "; ", digest_up_to(&without, last));
    put_digest(case, "; ", digest_up_to(&equal, last));
    case.put_number(with.group_len(&key) as u64);
    case.put_number(without.group_len(&key) as u64);
}

/// A map of so many keys, which share one text.
fn holders(alloc: Global, text: Text, count: u64) -> Result<PMap<u64, Shared<Text>>, NoMemory> {
    let value = Shared::new(alloc, text)?;
    let mut map = PMap::new(alloc);
    for key in 0..count {
        map = map.insert(key, value.share()?)?;
    }
    Ok(map)
}

/// The map without the keys below one.
fn holders_from(
    made: &PMap<u64, Shared<Text>>,
    first: u64,
) -> Result<PMap<u64, Shared<Text>>, NoMemory> {
    let mut map = made.share()?;
    for key in 0..first {
        map = map.remove(&key)?;
    }
    Ok(map)
}

/// Writes the text of a key, or that it isn't there.
fn put_held(case: &mut Case<'_>, map: &PMap<u64, Shared<Text>>, key: u64) {
    match counted(map, &key) {
        Some(value) => case.put_text(" ", value.value().as_str()),
        None => case.put("-"),
    }
}

/// A text is shared by keys of a map, and by a map of which some are taken out.
fn shared(case: &mut Case<'_>) {
    let text = case.owned_text();
    let count = case.number();
    let first = case.number();
    let keys = case.word();
    let alloc = case.alloc;
    let all = case.kept_or(holders(alloc, text, count), PMap::new(alloc));
    let some = case.kept_or(holders_from(&all, first), PMap::new(alloc));
    for key in keys.split(", ") {
        let key = case.number_of(key);
        put_held(case, &all, key);
        put_held(case, &some, key);
    }
    case.put_number(all.len() as u64);
    case.put_number(some.len() as u64);
}
