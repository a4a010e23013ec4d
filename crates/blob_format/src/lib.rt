//! The forms in which a sealed text is given out: a blob, which names the key and the version that it
//! was sealed under.
//!
//! A blob of form 1 is the byte 01, the key's id (16 bytes), the version (4 bytes, high byte first, at
//! least 1), the initialization vector (12 bytes), the ciphertext (1 to 4,096 bytes) and the tag (16
//! bytes) of SP 800-38D's GCM. It has 50 to 4,145 bytes.
//!
//! A blob of form 2 is the byte 02, the id, the version and the vector as in form 1, a commitment to the
//! data key (32 bytes), the ciphertext and the tag. It has 82 to 4,177 bytes.
#![tactic(auto)]

mod laws;
mod places;
mod reading;
mod writing;

pub use laws::{blobs_name_their_keys, one_spelling, one_value, written_is_read_again};
pub use places::{FORM_ONE, FORM_TWO, HEAD_SIZE, HEAD_SIZE_TWO};
pub use reading::{Blob, read_blob};
pub use writing::{push_head, push_head_two, write_blob, write_blob_two};
