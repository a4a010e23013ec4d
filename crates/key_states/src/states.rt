//! The states of keys.

ghost use Rattle.std.specs.Prelude.{◌≡◌, IfOk};

use kms_names::NoMemory;

/// What an account keeps of a key's state.
#[derive(Clone, Copy, PartialEq, Eq)]
pub enum Stored {
    /// The key may be used.
    Enabled,
    /// It may not be used until it is enabled.
    Disabled,
    /// Its deletion is scheduled.
    Pending {
        /// When it is deleted, in seconds since 1970.
        date: u64,
        /// The waiting period that was asked for, in days.
        days: u32,
    },
}

impl Stored {
    /// A copy that equals its source; no memory is taken.
    pub fn copy(&self) -> Result<Stored, NoMemory>
        ensures { IfOk result (λ stored. stored ≡ self.now) }
    {
        Ok(*self)
    }
}

/// The state of a key at a moment.
#[derive(Clone, Copy)]
pub enum State {
    /// The key may be used.
    Enabled,
    /// It may not be used until it is enabled.
    Disabled,
    /// Its deletion is scheduled for a later moment.
    PendingDeletion,
    /// Its date of deletion has come: it is treated as absent.
    Gone,
}
