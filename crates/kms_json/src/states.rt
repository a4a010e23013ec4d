// The states of keys, as replies name them.
ghost use Rattle.std.specs.Prelude.{◌≡◌};
ghost use Rattle.kms_json.specs.States.{state_name, is_enabled, deletion_date};

/// The state of a key (AWS KMS API Reference, KeyMetadata, KeyState).
#[derive(Clone, Copy)]
pub enum KeyState {
    /// It may be used.
    Enabled,
    /// It may not be used until it is enabled.
    Disabled,
    /// It is to be deleted at this time, in seconds since 1970.
    PendingDeletion { deletion_date: u64 },
}

impl KeyState {
    /// Its name.
    pub(crate) fn name(self) -> &'static str
        ensures { result.now ≡ state_name self }
    {
        match self {
            KeyState::Enabled => "Enabled",
            KeyState::Disabled => "Disabled",
            KeyState::PendingDeletion { .. } => "PendingDeletion",
        }
    }

    /// Whether it is that of an enabled key.
    pub(crate) fn is_enabled(self) -> bool
        ensures { result ≡ is_enabled self }
    {
        matches!(self, KeyState::Enabled)
    }

    /// When the key is to be deleted, if it is.
    pub(crate) fn deletion_date(self) -> Option<u64>
        ensures { result ≡ deletion_date self }
    {
        match self {
            KeyState::PendingDeletion { deletion_date } => Some(deletion_date),
            _ => None,
        }
    }
}
