ghost use Rattle.std.specs.Prelude.{◌≡◌, ◌≢◌, ℕ, List, IfOk, MatchOption};
ghost use Rattle.hex.specs.Hex.{encode_lower};
ghost use Rattle.kms_names.specs.Identifier.{IsGrantId};

use crate::faults::NoMemory;
use crate::texts::Text;
use hex::FromHex;
use std::alloc::Global;
use std::marker::Model;

/// The id of a grant: 32 bytes. Contracts see it as the list of its bytes.
#[derive(Clone, Copy, PartialEq, Eq, PartialOrd, Ord)]
pub struct GrantId {
    bytes: [u8; 32],
}

impl Model for GrantId {
    ghost Value = { List ℕ };

    ghost view = { λ g. g.bytes };

    ghost inverse = { λ bytes. record { bytes = bytes } };
}

impl GrantId {
    /// The id of 32 bytes.
    pub fn new(bytes: [u8; 32]) -> GrantId
        ensures { result ≡ bytes }
    {
        GrantId { bytes }
    }

    /// A copy that equals its source; no memory is taken.
    pub fn copy(&self) -> Result<GrantId, NoMemory>
        ensures { IfOk result (λ x. x ≡ self.now) }
    {
        Ok(*self)
    }

    /// The 32 bytes.
    pub fn as_bytes(&self) -> &[u8; 32]
        ensures { result.now ≡ self.now }
    {
        &self.bytes
    }
}

/// The id that a text of 64 lower-case hex digits (RFC 4648, section 8) writes; no memory is taken.
pub fn read_grant_id(text: &str) -> Option<GrantId>
    ensures { MatchOption result ((bytes : List ℕ) → IsGrantId bytes → text.now ≢ encode_lower bytes) (λ g. IsGrantId g × (text.now ≡ encode_lower g)) }
{
    let bytes = <[u8; 32] as FromHex>::from_hex(text).ok()?;
    let grant = GrantId::new(bytes);
    if grant_text_into(&grant, &mut [0; 64]) == text {
        Some(grant)
    } else {
        None
    }
}

/// Writes the 64 lower-case hex digits of an id into a room; no memory is taken.
pub fn grant_text_into<'a>(grant: &GrantId, room: &'a mut [u8; 64]) -> &'a str
    ensures { result.now ≡ encode_lower grant.now }
{
    let _ = hex::encode_to_slice(grant.bytes.as_slice(), room);
    str::from_utf8(room).unwrap()
}

/// The 64 lower-case hex digits of an id.
pub fn grant_text(alloc: Global, grant: &GrantId) -> Result<Text, NoMemory>
    ensures { IfOk result (λ t. t ≡ encode_lower grant.now) }
{
    let mut room = [0u8; 64];
    Text::from_str(alloc, grant_text_into(grant, &mut room))
}
