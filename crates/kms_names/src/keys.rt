ghost use Rattle.std.specs.Prelude.{◌≡◌, ◌↔◌, ℕ, List, IfOk};
ghost use Rattle.uuid.specs.Text.{parsed_hyphenated, hyphenated_text, lower};

use crate::faults::NoMemory;
use crate::texts::Text;
use std::alloc::Global;
use std::marker::Model;
use uuid::Uuid;

/// The id of a key: 16 bytes. Contracts see it as the list of its bytes.
#[derive(Clone, Copy, PartialEq, Eq, PartialOrd, Ord)]
pub struct KeyId {
    bytes: [u8; 16],
}

impl Model for KeyId {
    ghost Value = { List ℕ };

    ghost view = { λ k. k.bytes };

    ghost inverse = { λ bytes. record { bytes = bytes } };
}

impl KeyId {
    /// The id of 16 bytes.
    pub fn new(bytes: [u8; 16]) -> KeyId
        ensures { result ≡ bytes }
    {
        KeyId { bytes }
    }

    /// A copy that equals its source; no memory is taken.
    pub fn copy(&self) -> Result<KeyId, NoMemory>
        ensures { IfOk result (λ x. x ≡ self.now) }
    {
        Ok(*self)
    }

    /// The 16 bytes.
    pub fn as_bytes(&self) -> &[u8; 16]
        ensures { result.now ≡ self.now }
    {
        &self.bytes
    }
}

/// The id that a text of 36 characters writes in the hyphenated form (RFC 9562, section 4), with hex
/// digits of either case; no memory is taken.
pub fn read_key_id(text: &str) -> Option<KeyId>
    ensures { result ≡ parsed_hyphenated text.now }
{
    if text.len() != 36 {
        return None;
    }
    match Uuid::parse_str(text) {
        Ok(id) => Some(KeyId::new(id.into_bytes())),
        Err(_) => None,
    }
}

/// Writes the hyphenated text of an id, with lower-case digits, into a room; no memory is taken.
pub fn key_text_into<'a>(key: &KeyId, room: &'a mut [u8; 36]) -> &'a str
    ensures { result.now ≡ hyphenated_text lower key.now }
{
    Uuid::from_bytes(key.bytes).hyphenated().encode_lower(room)
}

/// The hyphenated text of an id (RFC 9562, section 4), with lower-case digits.
pub fn key_text(alloc: Global, key: &KeyId) -> Result<Text, NoMemory>
    ensures { IfOk result (λ t. t ≡ hyphenated_text lower key.now) }
{
    let mut room = [0u8; 36];
    Text::from_str(alloc, key_text_into(key, &mut room))
}
