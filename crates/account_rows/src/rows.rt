//! The entries of an account's history, and its rows.

ghost use Rattle.std.specs.Prelude.{◌≡◌, ◌≤◌, ◌++◌, ◌∷◌, [], length, IfOk, slice_get};
ghost use Rattle.std.specs.Option.{option_map};
ghost use Rattle.account_rows.specs.History.{has_room, key_with, key_behind, place_in};
ghost use Rattle.account_rows.specs.Sizes.{bytes_in};
ghost use Rattle.kms_names.specs.Place.{is_behind};
ghost use Rattle.std.specs.Prelude.{filter};
ghost use Rattle.key_states.specs.declared.rows.KeyRow.{KeyRow};

use crate::aliases::{HeldAliases, aliases_after};
use crate::counted::value_in;
use crate::entries::{Entry, What};
use crate::grants::{HeldGrants, grants_after};
use crate::held::{DefaultPolicy, HeldKey};
use crate::keys::HeldKeys;
use alias_map::AliasMap;
use grant_table::GrantTable;
use kms_names::{AccountNumber, KeyId, NoMemory};
use persist_map::PMap;
use std::alloc::Global;
use std::marker::Model;

/// How many entries a history holds at most.
pub const ENTRIES: u64 = 1_000_000;

/// How many bytes the entries of a history count at most.
pub const BYTES: u64 = 268_435_456;

/// The entries of an account's history, and the rows that they make. Contracts see the list of the entries. A changed
/// history is a new one: the old one stays as it was.
pub struct Rows {
    alloc: Global,
    default: DefaultPolicy,
    entries: PMap<u64, Entry>,
    keys: HeldKeys,
    aliases: HeldAliases,
    grants: HeldGrants,
    latest: u64,
    bytes: u64,
}

// Each crate that lets rows go calls this one drop, and doesn't take them apart itself.
impl Drop for Rows {
    fn drop(self) {
        let Rows {
            alloc: _,
            default: _,
            entries: _,
            keys: _,
            aliases: _,
            grants: _,
            latest: _,
            bytes: _,
        } = self;
    }
}

impl Model for Rows {
    ghost use Rattle.std.specs.Prelude.{◌≡◌, ◌≤◌, List, length, All};
    ghost use Rattle.alias_map.specs.Aliases.{AreBefore};
    ghost use Rattle.account_rows.specs.declared.entries.Entry.{Entry};
    ghost use Rattle.account_rows.specs.History.{replay, latest_of, most_entries, most_bytes, AreRows, IsGrantOf};
    ghost use Rattle.account_rows.specs.Numbered.{entries_in, AreCounted};
    ghost use Rattle.account_rows.specs.Sizes.{bytes_in};

    ghost Value = { List Entry };

    ghost view = { λ rows. entries_in rows.entries };

    ghost invariant = { λ rows. record {
      counted : AreCounted 0 rows.entries;
      keys : rows.keys ≡ (replay (entries_in rows.entries)).keys;
      are : AreRows (length rows.entries) rows.keys;
      aliases : rows.aliases ≡ (replay (entries_in rows.entries)).aliases;
      before : AreBefore rows.aliases (length rows.entries);
      grants : rows.grants ≡ (replay (entries_in rows.entries)).grants;
      granted : All (IsGrantOf (length rows.entries)) rows.grants;
      latest : rows.latest ≡ latest_of (entries_in rows.entries);
      bytes : rows.bytes ≡ bytes_in (entries_in rows.entries);
      few : length rows.entries ≤ most_entries;
      fits : bytes_in (entries_in rows.entries) ≤ most_bytes;
    } };
}

impl Rows {
    ghost use Rattle.std.specs.Prelude.{◌≡◌, ◌≤◌, ◌++◌, ◌∷◌, [], length, IfOk, slice_get, AllPairs, ◌<◌};
    ghost use Rattle.std.specs.Option.{option_map};
    ghost use Rattle.account_rows.specs.History.{replay, latest_of, housekeeping_of, most_entries, most_bytes, has_room, key_with, key_behind, IsFitting};
    ghost use Rattle.account_rows.specs.Sizes.{bytes_in};
    ghost use Rattle.account_rows.specs.Changes.{wants_house};

    /// No entries. Keys of this account share its default policy.
    pub fn new(alloc: Global, account: &AccountNumber) -> Result<Rows, NoMemory>
        ensures { IfOk result (λ rows. rows ≡ []) }
    {
        Ok(Rows {
            alloc,
            default: DefaultPolicy::new(alloc, account)?,
            entries: PMap::new(alloc),
            keys: HeldKeys::new(alloc),
            aliases: HeldAliases::new(alloc)?,
            grants: HeldGrants::new(alloc)?,
            latest: 0,
            bytes: 0,
        })
    }

    /// The rows with one more entry. These stay as they are.
    pub fn apply(&self, entry: &Entry) -> Result<Rows, NoMemory>
        requires { IsFitting self.now entry.now }
        ensures { IfOk result (λ rows. rows ≡ self.now ++ entry.now ∷ []) }
    {
        let alloc = self.alloc;
        let place = self.entries();
        Ok(Rows {
            alloc,
            default: self.default.share()?,
            entries: self.entries.insert(place, entry.copy()?)?,
            keys: self.keys.after(alloc, place, entry, &self.default)?,
            aliases: aliases_after(alloc, &self.aliases, &self.keys, place, entry)?,
            grants: grants_after(alloc, &self.grants, &self.keys, place, entry)?,
            latest: entry.time,
            bytes: self.bytes + entry.what.size(),
        })
    }

    /// The same rows once more. They are shared, and no entry is copied.
    pub fn share(&self) -> Result<Rows, NoMemory>
        ensures { IfOk result (λ rows. rows ≡ self.now) }
    {
        Ok(Rows {
            alloc: self.alloc,
            default: self.default.share()?,
            entries: self.entries.share()?,
            keys: self.keys.share()?,
            aliases: self.aliases.share()?,
            grants: self.grants.share()?,
            latest: self.latest,
            bytes: self.bytes,
        })
    }

    /// The entry of housekeeping at the clock's answer, if any: where the date of deletion of some key has come or an
    /// automatic rotation is due, and there is room for one more entry of 64 bytes. It takes no memory; the first of
    /// the dates tells.
    #[tactic(auto, unfolding(crate::specs::History::housekeeping_of))]
    pub fn housekeeping(&self, moment: u64) -> Option<Entry>
        ensures { result ≡ housekeeping_of self.now moment }
    {
        let time = moment.max(self.latest);
        if self.keys.wants_house(time) && self.has_room(What::House.size()) {
            Some(Entry {
                time,
                what: What::House,
            })
        } else {
            None
        }
    }

    /// Whether housekeeping has something to do at a moment: some key is gone then, or due for rotation. It takes no memory; the first of the
    /// dates tells.
    pub fn wants_house(&self, moment: u64) -> bool
        ensures { result ≡ wants_house moment (replay self.now).keys }
    {
        self.keys.wants_house(moment)
    }

    // Whether there is room for one more entry that counts so many bytes.
    fn has_room(&self, size: u64) -> bool
        requires { size ≤ most_bytes }
        ensures { result ≡ has_room self.now size }
    {
        self.entries() < ENTRIES && self.bytes + size <= BYTES
    }

    /// The number of entries, which is at most `ENTRIES`.
    pub fn entries(&self) -> u64
        ensures number { result ≡ length self.now }
        ensures few { result ≤ most_entries }
    {
        self.entries.len() as u64
    }

    /// The time of the last entry, in seconds since 1970, and 0 where there is none.
    pub fn latest(&self) -> u64
        ensures { result ≡ latest_of self.now }
    {
        self.latest
    }

    /// How many bytes the entries count, which is at most `BYTES`.
    pub fn bytes(&self) -> u64
        ensures bytes { result ≡ bytes_in self.now }
        ensures fits { result ≤ most_bytes }
    {
        self.bytes
    }

    /// The entry at a place, counted from 0, and `None` past the last one. No memory is taken.
    pub fn entry(&self, place: u64) -> Option<&Entry>
        ensures { option_map (λ entry. entry.now) result ≡ slice_get self.now place }
    {
        value_in(&self.entries, &place)
    }

    /// The number of keys. Each was made before those behind it.
    pub fn number_of_keys(&self) -> usize
        ensures number { result ≡ length (replay self.now).keys }
        ensures rise { AllPairs (λ (p q : KeyRow). p.born < q.born) (replay self.now).keys }
    {
        self.keys.len()
    }

    /// The key of an id, with its policy. It is found by binary search, by the place that its id ends with; no
    /// memory is taken.
    pub fn key(&self, key: &KeyId) -> Option<&HeldKey>
        ensures { option_map (λ row. row.now) result ≡ key_with (replay self.now).keys key.now }
    {
        self.keys.get(key)
    }

    /// The aliases. No memory is taken.
    pub fn aliases(&self) -> &AliasMap
        ensures { result.now ≡ (replay self.now).aliases }
    {
        self.aliases.map()
    }

    /// The grants. No memory is taken.
    pub fn grants(&self) -> &GrantTable
        ensures { result.now ≡ (replay self.now).grants }
    {
        self.grants.table()
    }

    /// The first key, in order of making, that was made behind a place, or the first of all. It is found by
    /// binary search; no memory is taken.
    pub fn key_after(&self, after: Option<u64>) -> Option<&HeldKey>
        ensures { option_map (λ row. row.now) result ≡ key_behind (replay self.now).keys after }
    {
        self.keys.behind(after)
    }
}
