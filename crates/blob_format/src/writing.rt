ghost use Rattle.std.specs.Prelude.{◌≡◌, ◌≤◌, ◌++◌, ◌+◌, length, vec_len, vec_capacity, IfOk, IsOk, OnOk, OnErr};
ghost use Rattle.blob_format.specs.Blob.{form_one, form_two, blob_start, blob_head, blob_text, IsBlobText};

use crate::places::{
    FORM_ONE, FORM_TWO, HEAD_SIZE, HEAD_SIZE_TWO, TAG_SIZE, TEXT_AT_ONE, TEXT_AT_TWO,
};
use kms_names::{Bytes, KeyId, NoMemory};
use std::alloc::Global;

/// Writes the head of a blob of form 1 behind what is there: the form, the key's id and the version,
/// which are 21 bytes (`HEAD_SIZE`). A refused call leaves the bytes as they were.
pub fn push_head(bytes: &mut Vec<u8>, key: &KeyId, version: u32) -> Result<(), NoMemory>
    ensures written { OnOk result (bytes.new.items ≡ bytes.old.items ++ blob_start 1 key.now version) }
    ensures kept { OnErr result (bytes.new.items ≡ bytes.old.items) }
    ensures size { OnOk result (length (blob_start 1 key.now version) ≡ HEAD_SIZE) }
{
    bytes.reserve(HEAD_SIZE)?;
    push_start(bytes, FORM_ONE, key, version)
}

/// Writes the head of a blob of form 2 behind what is there: the form, the key's id, the version, the
/// initialization vector and the commitment, which are 65 bytes (`HEAD_SIZE_TWO`). A refused call
/// leaves the bytes as they were.
pub fn push_head_two(
    bytes: &mut Vec<u8>,
    key: &KeyId,
    version: u32,
    iv: &[u8; 12],
    commitment: &[u8; 32],
) -> Result<(), NoMemory>
    ensures written { OnOk result (bytes.new.items ≡ bytes.old.items ++ blob_head (form_two commitment.now) key.now version iv.now) }
    ensures kept { OnErr result (bytes.new.items ≡ bytes.old.items) }
    ensures size { OnOk result (length (blob_head (form_two commitment.now) key.now version iv.now) ≡ HEAD_SIZE_TWO) }
{
    bytes.reserve(HEAD_SIZE_TWO)?;
    push_start(bytes, FORM_TWO, key, version)?;
    bytes.extend_from_slice(iv)?;
    bytes.extend_from_slice(commitment)?;
    Ok(())
}

/// Writes what a blob begins with behind what is there. It is refused only where there is no room.
fn push_start(bytes: &mut Vec<u8>, form: u8, key: &KeyId, version: u32) -> Result<(), NoMemory>
    ensures written { OnOk result (bytes.new.items ≡ bytes.old.items ++ blob_start form key.now version) }
    ensures size { OnOk result (length (blob_start form key.now version) ≡ HEAD_SIZE) }
    ensures room { vec_len bytes.old + HEAD_SIZE ≤ vec_capacity bytes.old → IsOk result }
    ensures capacity { vec_capacity bytes.old ≤ vec_capacity bytes.new }
{
    bytes.push(form)?;
    bytes.extend_from_slice(key.as_bytes())?;
    bytes.extend_from_slice(&version.to_be_bytes())?;
    Ok(())
}

/// The blob of form 1 of a key's id, a version of at least 1, an initialization vector, a ciphertext of
/// 1 to 4,096 bytes and its tag.
#[tactic(auto, unfolding(crate::specs::Blob::blob_text))]
pub fn write_blob(
    alloc: Global,
    key: &KeyId,
    version: u32,
    iv: &[u8; 12],
    text: &[u8],
    tag: &[u8; 16],
) -> Result<Bytes, NoMemory>
    requires version { 1 ≤ version }
    requires text_given { 1 ≤ length text.now }
    requires text_fits { length text.now ≤ 4096 }
    ensures written { IfOk result (λ bytes. bytes ≡ blob_text form_one key.now version iv.now text.now tag.now) }
    ensures form { IfOk result (λ bytes. IsBlobText bytes form_one key.now version iv.now text.now tag.now) }
{
    let mut items = Vec::with_capacity(alloc, TEXT_AT_ONE + text.len() + TAG_SIZE)?;
    push_head(&mut items, key, version)?;
    items.extend_from_slice(iv)?;
    items.extend_from_slice(text)?;
    items.extend_from_slice(tag)?;
    Ok(Bytes::new(items))
}

/// The blob of form 2 of the same and a commitment to the data key.
#[tactic(auto, unfolding(crate::specs::Blob::blob_text))]
pub fn write_blob_two(
    alloc: Global,
    key: &KeyId,
    version: u32,
    iv: &[u8; 12],
    commitment: &[u8; 32],
    text: &[u8],
    tag: &[u8; 16],
) -> Result<Bytes, NoMemory>
    requires version { 1 ≤ version }
    requires text_given { 1 ≤ length text.now }
    requires text_fits { length text.now ≤ 4096 }
    ensures written { IfOk result (λ bytes. bytes ≡ blob_text (form_two commitment.now) key.now version iv.now text.now tag.now) }
    ensures form { IfOk result (λ bytes. IsBlobText bytes (form_two commitment.now) key.now version iv.now text.now tag.now) }
{
    let mut items = Vec::with_capacity(alloc, TEXT_AT_TWO + text.len() + TAG_SIZE)?;
    push_head_two(&mut items, key, version, iv, commitment)?;
    items.extend_from_slice(text)?;
    items.extend_from_slice(tag)?;
    Ok(Bytes::new(items))
}
