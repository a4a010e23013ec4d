ghost use Rattle.std.specs.Prelude.{◌≡◌, ◌+◌, ◌≤◌, length, slice_range, SomeIff};
ghost use Rattle.blob_format.specs.Reading.{Reads, Begins};

use crate::places::{
    COMMITMENT_AT, FORM_ONE, FORM_TWO, IV_AT, KEY_AT, TAG_SIZE, TEXT_AT_ONE, TEXT_AT_TWO,
    VERSION_AT,
};
use kms_names::KeyId;

/// The lowest version of a key.
const FIRST_VERSION: u32 = 1;

/// The sizes in bytes of the shortest and of the longest ciphertext.
const SHORTEST_TEXT: usize = 1;

const LONGEST_TEXT: usize = 4096;

/// What the field `commitment` holds in form 1.
const NO_COMMITMENT: [u8; 32] = [0; 32];

/// What a blob says. The ciphertext stands in the blob's bytes from `text_from` up to `text_to`.
#[derive(Clone, Copy)]
pub struct Blob {
    /// The form: 1 or 2.
    pub form: u8,
    /// The key that the text was sealed under.
    pub key: KeyId,
    /// The key's version, at least 1.
    pub version: u32,
    /// The initialization vector.
    pub iv: [u8; 12],
    /// The commitment to the data key in form 2; zeros in form 1.
    pub commitment: [u8; 32],
    /// The place of the ciphertext's first byte.
    pub text_from: usize,
    /// The place behind the ciphertext's last byte.
    pub text_to: usize,
    /// The authentication tag.
    pub tag: [u8; 16],
}

/// What a blob of either form says; no memory is taken. `None` comes exactly where the bytes are no
/// blob.
pub fn read_blob(bytes: &[u8]) -> Option<Blob>
    ensures { Reads bytes.now result }
{
    match *bytes.first()? {
        FORM_ONE => read_parts(bytes, FORM_ONE, NO_COMMITMENT, TEXT_AT_ONE),
        FORM_TWO => read_parts(bytes, FORM_TWO, commitment_at(bytes)?, TEXT_AT_TWO),
        _ => None,
    }
}

/// The commitment of bytes that begin as form 2, where there are enough of them.
fn commitment_at(bytes: &[u8]) -> Option<[u8; 32]>
    ensures { SomeIff result (TEXT_AT_TWO ≤ length bytes.now) (slice_range bytes.now COMMITMENT_AT TEXT_AT_TWO) }
{
    if bytes.len() < TEXT_AT_TWO {
        None
    } else {
        Some(array_at(bytes, COMMITMENT_AT))
    }
}

/// What bytes say that begin as a form, with its commitment and the place of its ciphertext.
fn read_parts(bytes: &[u8], form: u8, commitment: [u8; 32], text_from: usize) -> Option<Blob>
    requires { Begins bytes.now form commitment text_from }
    ensures { Reads bytes.now result }
{
    let size = bytes.len();
    let least = text_from + SHORTEST_TEXT + TAG_SIZE;
    let most = text_from + LONGEST_TEXT + TAG_SIZE;
    if size < least || most < size {
        return None;
    }
    let version = u32::from_be_bytes(array_at(bytes, VERSION_AT));
    if version < FIRST_VERSION {
        return None;
    }
    let text_to = size - TAG_SIZE;
    Some(Blob {
        form,
        key: KeyId::new(array_at(bytes, KEY_AT)),
        version,
        iv: array_at(bytes, IV_AT),
        commitment,
        text_from,
        text_to,
        tag: array_at(bytes, text_to),
    })
}

/// The bytes from a place on, as an array.
fn array_at<const N: usize>(bytes: &[u8], from: usize) -> [u8; N]
    requires { from + N ≤ length bytes.now }
    ensures { result ≡ slice_range bytes.now from (from + N) }
{
    let mut array = [0; N];
    array.copy_from_slice(&bytes[from..from + N]);
    array
}
