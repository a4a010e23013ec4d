//! The places of a blob's parts in its bytes. Up to the initialization vector they are those of both
//! forms.

/// The first byte of a blob of form 1.
pub const FORM_ONE: u8 = 1;

/// The first byte of a blob of form 2.
pub const FORM_TWO: u8 = 2;

/// Where the key's id begins.
pub const KEY_AT: usize = 1;

/// Where the version begins.
pub const VERSION_AT: usize = 17;

/// Where the initialization vector begins.
pub const IV_AT: usize = 21;

/// Where the commitment of form 2 begins.
pub const COMMITMENT_AT: usize = 33;

/// Where the ciphertext of form 1 begins.
pub const TEXT_AT_ONE: usize = 33;

/// Where the ciphertext of form 2 begins.
pub const TEXT_AT_TWO: usize = 65;

/// The size of a tag in bytes.
pub const TAG_SIZE: usize = 16;

/// The size in bytes of the head of form 1: the form, the key's id and the version.
pub const HEAD_SIZE: usize = IV_AT;

/// The size in bytes of the head of form 2: all that stands before the ciphertext.
pub const HEAD_SIZE_TWO: usize = TEXT_AT_TWO;
