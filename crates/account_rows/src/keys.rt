//! The rows of keys, in order of making, and the dates at which housekeeping has something to do for one.

ghost use Rattle.std.specs.Prelude.{◌≡◌, ℕ, ◌==◌, None, IfOk, if◌then◌else◌};
ghost use Rattle.std.specs.Ordering.{nat_cmp};
ghost use Rattle.account_rows.specs.Keys.{date_found, places_come};
ghost use Rattle.persist_map.specs.Pairs.{value_at};
ghost use Rattle.account_rows.specs.declared.keys.Due.{Due as DueValue};
ghost use Rattle.account_rows.specs.Keys.{date_of, due_at, due_on, AreDatesOf};

use crate::counted::value_in;
use crate::entries::{Entry, What};
use crate::held::{DefaultPolicy, HeldKey};
use crate::replay::{Change, days_after, is_gone, new_key, place_in, rotated_if_due, same_key};
use key_states::{KeyRow, Stored};
use kms_names::{KeyId, NoMemory};
use persist_map::PMap;
use std::alloc::Global;
use std::marker::Model;

/// A date from which on housekeeping has something to do for a key.
#[derive(Clone, Copy, PartialEq, Eq, PartialOrd, Ord)]
pub struct Due {
    /// The date, in seconds since 1970.
    pub date: u64,
    /// The place of the entry that made the key.
    pub place: u64,
}

/// The rows of keys, each with its policy ready to be asked. Contracts see the list of the rows in order of making.
/// Changed keys are new ones, which share what stays with the old ones.
#[derive(Drop)]
pub struct HeldKeys {
    rows: PMap<u64, HeldKey>,
    dates: PMap<Due, ()>,
}

impl Model for HeldKeys {
    ghost use Rattle.std.specs.Prelude.{◌≡◌, List, All};
    ghost use Rattle.key_states.specs.declared.rows.KeyRow.{KeyRow};
    ghost use Rattle.account_rows.specs.Keys.{rows_in, AreDatesOf};

    ghost Value = { List KeyRow };

    ghost view = { λ keys. rows_in keys.rows };

    ghost invariant = { λ keys. record {
      keyed : All (λ pair. pair.0 ≡ pair.1.born) keys.rows;
      dates : AreDatesOf ⟦<Due as Ord>⟧.cmp keys.rows keys.dates;
    } };
}

// The date of a key, where housekeeping has something to do for it from some date on.
fn date_of(row: &KeyRow) -> Option<u64>
    ensures { result ≡ date_of row.now }
{
    match (row.stored, row.period) {
        (Stored::Enabled, Some(_)) => Some(row.next),
        (Stored::Pending { date, .. }, _) => Some(date),
        _ => None,
    }
}

// The date of the key that was made at a place, where it has one.
fn date_at(rows: &PMap<u64, HeldKey>, place: u64) -> Option<u64>
    ensures { result ≡ date_found (value_at nat_cmp rows.now place) }
{
    match value_in(rows, &place) {
        Some(held) => date_of(held.row()),
        None => None,
    }
}

// The places of the keys whose dates have come.
fn places_come(alloc: Global, dates: &PMap<Due, ()>, time: u64) -> Result<Vec<u64>, NoMemory>
    ensures { IfOk result (λ places. places.items ≡ places_come time dates.now) }
{
    let mut places = Vec::new(alloc);
    for (due, _) in dates.iter() {
        if due.date > time {
            return Ok(places);
        }
        places.push(due.place)?;
    }
    Ok(places)
}

// The dates without that of the key that was made at a place.
fn dates_without(
    dates: &PMap<Due, ()>,
    rows: &PMap<u64, HeldKey>,
    place: u64,
) -> Result<PMap<Due, ()>, NoMemory>
    requires { AreDatesOf ⟦<Due as Ord>⟧.cmp rows.now dates.now }
    ensures { (due : DueValue) → IfOk result (λ left. value_at ⟦<Due as Ord>⟧.cmp left due ≡ (if due.place == place then None else due_at rows.now due)) }
{
    match date_at(rows, place) {
        Some(date) => dates.remove(&Due { date, place }),
        None => dates.share(),
    }
}

// The dates with one of the key that was made at a place, where it has one.
fn dates_with(
    dates: PMap<Due, ()>,
    place: u64,
    date: Option<u64>,
) -> Result<PMap<Due, ()>, NoMemory>
    requires { (date : ℕ) → value_at ⟦<Due as Ord>⟧.cmp dates (record { date = date; place = place }) ≡ None }
    ensures { (due : DueValue) → IfOk result (λ all. value_at ⟦<Due as Ord>⟧.cmp all due ≡ (if due.place == place then due_on due.date date else value_at ⟦<Due as Ord>⟧.cmp dates due)) }
{
    match date {
        Some(date) => dates.insert(Due { date, place }, ()),
        None => Ok(dates),
    }
}

impl HeldKeys {
    ghost use Rattle.std.specs.Prelude.{◌≡◌, [], length, IfOk};
    ghost use Rattle.std.specs.Option.{option_map};
    ghost use Rattle.std.specs.Prelude.{All, List, ◌<◌};
    ghost use Rattle.kms_names.specs.Moment.{year_10000};
    ghost use Rattle.account_rows.specs.Changes.{changed, gone_keys, house_kept, keys_after, wants_house};
    ghost use Rattle.account_rows.specs.History.{key_with, key_behind, AreRows, TagsFit};
    ghost use Rattle.account_rows.specs.Replaying.{CanTurn, MayChange, change_by};
    ghost use Rattle.account_rows.specs.Keys.{row_at, placed, unplaced, kept_more, gone_at, items_of, is_id, AreCovered, AreInOrder};

    /// No keys. No memory is taken.
    pub fn new(alloc: Global) -> HeldKeys
        ensures { result ≡ [] }
    {
        HeldKeys {
            rows: PMap::new(alloc),
            dates: PMap::new(alloc),
        }
    }

    /// The same keys.
    pub fn share(&self) -> Result<HeldKeys, NoMemory>
        ensures { IfOk result (λ keys. keys ≡ self.now) }
    {
        Ok(HeldKeys {
            rows: self.rows.share()?,
            dates: self.dates.share()?,
        })
    }

    /// How many keys there are. No memory is taken.
    pub fn len(&self) -> usize
        ensures { result ≡ length self.now }
    {
        self.rows.len()
    }

    // The key that was made at a place.
    fn at(&self, place: u64) -> Option<&HeldKey>
        ensures { option_map (λ held. held.now) result ≡ row_at self.now place }
    {
        value_in(&self.rows, &place)
    }

    /// The key of an id. No memory is taken.
    pub fn get(&self, key: &KeyId) -> Option<&HeldKey>
        requires { AreInOrder self.now }
        ensures { option_map (λ held. held.now) result ≡ key_with self.now key.now }
    {
        let held = self.at(place_in(key))?;
        if same_key(&held.row().key, key) {
            Some(held)
        } else {
            None
        }
    }

    /// The first key that was made behind a place, or the first of all. No memory is taken.
    pub fn behind(&self, after: Option<u64>) -> Option<&HeldKey>
        ensures { option_map (λ held. held.now) result ≡ key_behind self.now after }
    {
        let (_, held) = self.rows.behind(after).next()?;
        Some(held)
    }

    /// Whether housekeeping has something to do at a moment: the first of the dates has come. No memory is taken.
    pub fn wants_house(&self, moment: u64) -> bool
        requires { AreInOrder self.now }
        ensures { result ≡ wants_house moment self.now }
    {
        match self.dates.iter().next() {
            Some((due, _)) => due.date <= moment,
            None => false,
        }
    }

    // The keys with another row in place of the one that was made where it was, or with one more.
    fn with(&self, held: HeldKey) -> Result<HeldKeys, NoMemory>
        ensures { IfOk result (λ keys. keys ≡ placed self.now held) }
    {
        let place = held.row().born;
        let dates = dates_without(&self.dates, &self.rows, place)?;
        let dates = dates_with(dates, place, date_of(held.row()))?;
        let rows = self.rows.insert(place, held)?;
        Ok(HeldKeys { rows, dates })
    }

    // The keys without the one that was made at a place.
    fn without(&self, place: u64) -> Result<HeldKeys, NoMemory>
        ensures { IfOk result (λ keys. keys ≡ unplaced self.now place) }
    {
        Ok(HeldKeys {
            rows: self.rows.remove(&place)?,
            dates: dates_without(&self.dates, &self.rows, place)?,
        })
    }

    // The keys, of which that of this id is changed.
    fn changed(
        &self,
        alloc: Global,
        key: &KeyId,
        change: &Change<'_>,
        default: &DefaultPolicy,
    ) -> Result<HeldKeys, NoMemory>
        requires order { AreInOrder self.now }
        requires turns { All CanTurn self.now }
        requires may { MayChange change.now (key_with self.now key.now) }
        ensures { IfOk result (λ keys. keys ≡ changed key.now (change_by change.now) self.now) }
    {
        match self.get(key) {
            Some(held) => self.with(change.of(alloc, held, default)?),
            None => self.share(),
        }
    }

    // The places of the keys that housekeeping has something to do for at a moment.
    fn places_come(&self, alloc: Global, time: u64) -> Result<Vec<u64>, NoMemory>
        requires { AreInOrder self.now }
        ensures { IfOk result (λ places. AreCovered time places.items self.now) }
    {
        places_come(alloc, &self.dates, time)
    }

    // These keys after housekeeping for the one that was made at a place among others, if any was.
    fn kept_more(
        self,
        alloc: Global,
        all: &HeldKeys,
        place: u64,
        time: u64,
    ) -> Result<HeldKeys, NoMemory>
        requires time { time < year_10000 }
        requires turns { All CanTurn all.now }
        ensures { IfOk result (λ keys. keys ≡ kept_more time place (row_at all.now place) self) }
    {
        match all.at(place) {
            None => Ok(self),
            Some(held) if is_gone(held.row(), time) => self.without(place),
            Some(held) => self.with(rotated_if_due(alloc, held, time)?),
        }
    }

    // The keys after housekeeping.
    fn house_kept(&self, alloc: Global, time: u64) -> Result<HeldKeys, NoMemory>
        requires time { time < year_10000 }
        requires order { AreInOrder self.now }
        requires turns { All CanTurn self.now }
        ensures { IfOk result (λ keys. keys ≡ house_kept time self.now) }
    {
        let places = self.places_come(alloc, time)?;
        let mut keys = self.share()?;
        for place in &places {
            keys = keys.kept_more(alloc, self, *place, time)?;
        }
        Ok(keys)
    }

    // The id of the key that was made at a place, if that is gone.
    fn gone_id(&self, place: u64, time: u64) -> Option<KeyId>
        ensures { items_of result ≡ gone_at time (row_at self.now place) }
    {
        let held = self.at(place)?;
        if is_gone(held.row(), time) {
            Some(held.row().key)
        } else {
            None
        }
    }

    /// The ids of the keys that are gone, in some order. Its time grows with the number of keys that housekeeping has
    /// something to do for.
    pub fn gone(&self, alloc: Global, time: u64) -> Result<Vec<KeyId>, NoMemory>
        requires { AreInOrder self.now }
        ensures { (id : List ℕ) → IfOk result (λ gone. is_id gone.items id ≡ is_id (gone_keys time self.now) id) }
    {
        let places = self.places_come(alloc, time)?;
        let mut gone = Vec::new(alloc);
        for place in &places {
            if let Some(id) = self.gone_id(*place, time) {
                gone.push(id)?;
            }
        }
        Ok(gone)
    }

    /// The keys after an entry at this place.
    pub fn after(
        &self,
        alloc: Global,
        place: u64,
        entry: &Entry,
        default: &DefaultPolicy,
    ) -> Result<HeldKeys, NoMemory>
        requires time { entry.now.time < year_10000 }
        requires are { AreRows place self.now }
        requires turns { All CanTurn self.now }
        requires tagged { TagsFit self.now entry.now.what }
        ensures { IfOk result (λ keys. keys ≡ keys_after place entry.now.time entry.now.what self.now) }
    {
        let time = entry.time;
        match &entry.what {
            What::CreateKey {
                key,
                kind,
                description,
                policy,
                tags,
            } => {
                let row = new_key(alloc, place, time, key, *kind, description, policy, tags)?;
                self.with(HeldKey::new(alloc, row, default)?)
            }
            What::Enable { key } => {
                let change = Change::Stored(Stored::Enabled);
                self.changed(alloc, key, &change, default)
            }
            What::Disable { key } | What::Cancel { key } => {
                let change = Change::Stored(Stored::Disabled);
                self.changed(alloc, key, &change, default)
            }
            What::Schedule { key, date, days } => {
                let change = Change::Stored(Stored::Pending {
                    date: *date,
                    days: *days,
                });
                self.changed(alloc, key, &change, default)
            }
            What::RotationOn { key, period } => {
                let change = Change::Period {
                    days: *period,
                    next: days_after(time, *period),
                };
                self.changed(alloc, key, &change, default)
            }
            What::RotationOff { key } => self.changed(alloc, key, &Change::NoPeriod, default),
            What::RotateNow { key } => {
                self.changed(alloc, key, &Change::Version { time }, default)
            }
            What::Policy { key, text } => {
                self.changed(alloc, key, &Change::Policy(text), default)
            }
            What::Description { key, text } => {
                self.changed(alloc, key, &Change::Description(text), default)
            }
            What::Tag { key, tags } => self.changed(alloc, key, &Change::Tag(tags), default),
            What::Untag { key, keys } => self.changed(alloc, key, &Change::Untag(keys), default),
            What::AliasPut { .. }
            | What::AliasDrop { .. }
            | What::GrantAdd { .. }
            | What::GrantDrop { .. } => self.share(),
            What::House => self.house_kept(alloc, time),
        }
    }
}
