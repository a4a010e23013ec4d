//! The cases of blobs: their form, the material of keys, and sealing into them and opening.

use crate::cases::Case;
use crate::contexts::read_context;
use blob_format::{Blob, read_blob, write_blob, write_blob_two};
use crypto_ops::{OpenFault, blob_key, commitment, material, open_blob, seal_blob, seal_blob_one};
use kms_names::KeyId;

/// How many bytes a text has at most.
const MAX_TEXT: usize = 4096;

/// What a call of blobs answers.
pub fn blobs(case: &mut Case<'_>) {
    match case.word() {
        "read_blob" => match read_blob(&case.bytes()) {
            Some(blob) => put_blob(case, &blob),
            None => case.put("none"),
        },
        "write_blob" => write(case, false),
        "write_blob_two" => write(case, true),
        "material" => {
            let root = case.array();
            let key = KeyId::new(case.array());
            let version = case.number();
            case.put_bytes(&material(&root, &key, version));
        }
        "blob_key" => {
            let material = case.array();
            let iv = case.array();
            case.put_bytes(&blob_key(&material, &iv));
        }
        "commitment" => {
            let key = case.array();
            case.put_bytes(&commitment(&key));
        }
        "seal_blob" => seal(case, true),
        "seal_blob_one" => seal(case, false),
        "open_blob" => open(case),
        _ => case.lose(),
    }
}

/// A form, a key, a version, an initialization vector, a commitment, the ciphertext's places and the tag.
fn put_blob(case: &mut Case<'_>, blob: &Blob) {
    case.put_number(u64::from(blob.form));
    case.put_bytes(blob.key.as_bytes());
    case.put_number(u64::from(blob.version));
    case.put_bytes(&blob.iv);
    case.put_bytes(&blob.commitment);
    case.put_number(blob.text_from as u64);
    case.put_number(blob.text_to as u64);
    case.put_bytes(&blob.tag);
}

/// Writes a blob, of form 2 or of form 1.
fn write(case: &mut Case<'_>, two: bool) {
    let key = KeyId::new(case.array());
    let version = case.number();
    let iv = case.array();
    let commitment = if two { case.array() } else { [0; 32] };
    let text = case.bytes();
    let tag = case.array();
    if version < 1 || text.is_empty() || text.len() > MAX_TEXT {
        case.lose();
    } else {
        let blob = if two {
            write_blob_two(case.alloc, &key, version, &iv, &commitment, &text, &tag)
        } else {
            write_blob(case.alloc, &key, version, &iv, &text, &tag)
        };
        let blob = case.kept_bytes(blob);
        case.put_bytes(blob.as_slice());
    }
}

/// Seals a text into a blob, of form 2 or of form 1.
fn seal(case: &mut Case<'_>, two: bool) {
    let root = case.array();
    let key = KeyId::new(case.array());
    let version = case.number();
    let iv = case.array();
    let context = read_context(case);
    let text = case.bytes();
    if version < 1 || text.is_empty() || text.len() > MAX_TEXT {
        case.lose();
    } else if let Some(context) = context {
        let blob = if two {
            seal_blob(case.alloc, &root, &key, version, &iv, &context, &text)
        } else {
            seal_blob_one(case.alloc, &root, &key, version, &iv, &context, &text)
        };
        let blob = case.kept_bytes(blob);
        case.put_bytes(blob.as_slice());
    }
}

fn open(case: &mut Case<'_>) {
    let root = case.array();
    let bytes = case.bytes();
    let context = read_context(case);
    match read_blob(&bytes) {
        None => case.put("no blob"),
        Some(blob) => {
            if let Some(context) = context {
                match open_blob(case.alloc, &root, &bytes, &blob, &context) {
                    Ok(text) => case.put_bytes(text.as_slice()),
                    Err(OpenFault::BadBlob) => case.put("BadBlob"),
                    Err(OpenFault::NoMemory) => case.lose(),
                }
            }
        }
    }
}
