//! Keys as an account keeps them.

ghost use Rattle.std.specs.Prelude.{◌≡◌, ◌↔◌, IsTrue, IfOk};
ghost use Rattle.key_states.specs.States.{state_of, IsGone, is_due, IsDue};

use crate::states::{State, Stored};
use crate::versions::VersionList;
use hmac_keys::KeyKind;
use kms_names::{KeyId, NoMemory, Text};
use resource_tags::TagMap;

/// A key of an account.
#[derive(Drop)]
pub struct KeyRow {
    /// Its id.
    pub key: KeyId,
    /// The place of the entry that made it, counted from 0.
    pub born: u64,
    /// When it was made, in seconds since 1970.
    pub made: u64,
    /// Its kind.
    pub kind: KeyKind,
    /// Its description.
    pub description: Text,
    /// Its key policy, as it was given.
    pub policy: Text,
    /// What is kept of its state.
    pub stored: Stored,
    /// The versions of its material, from the first on; sealing uses the last.
    pub versions: VersionList,
    /// The period of automatic rotation in days, where it is on.
    pub period: Option<u32>,
    /// When the next automatic rotation is due, in seconds since 1970; 0 where none was ever set.
    pub next: u64,
    /// How many rotations on demand it has had.
    pub on_demand: u32,
    /// Its tags.
    pub tags: TagMap,
}

impl KeyRow {
    /// The state at a moment, in seconds since 1970. A key whose deletion is scheduled is `Gone` from its date on, and
    /// `PendingDeletion` before it. No memory is taken.
    pub fn state_at(&self, moment: u64) -> State
        ensures state { result ≡ state_of self.now.stored moment }
        ensures gone { (result ≡ State.Gone) ↔ IsGone self.now.stored moment }
    {
        match self.stored {
            Stored::Enabled => State::Enabled,
            Stored::Disabled => State::Disabled,
            Stored::Pending { date, .. } if date <= moment => State::Gone,
            Stored::Pending { .. } => State::PendingDeletion,
        }
    }

    /// Whether an automatic rotation is due at a moment, in seconds since 1970: the key is enabled, has a period, and its
    /// next date is not after the moment. No memory is taken.
    pub fn due(&self, moment: u64) -> bool
        ensures test { result ≡ is_due self.now moment }
        ensures due { IsTrue result ↔ IsDue self.now moment }
    {
        self.stored == Stored::Enabled && self.period.is_some() && self.next <= moment
    }

    /// A copy that equals its source, and shares its tags.
    pub fn copy(&self) -> Result<KeyRow, NoMemory>
        ensures { IfOk result (λ row. row ≡ self.now) }
    {
        Ok(KeyRow {
            key: self.key,
            born: self.born,
            made: self.made,
            kind: self.kind,
            description: self.description.copy()?,
            policy: self.policy.copy()?,
            stored: self.stored,
            versions: self.versions.copy()?,
            period: self.period,
            next: self.next,
            on_demand: self.on_demand,
            tags: self.tags.share()?,
        })
    }
}
