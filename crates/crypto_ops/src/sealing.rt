ghost use Rattle.std.specs.Prelude.{◌≡◌, ◌≤◌, length, IfOk};
ghost use Rattle.crypto_ops.specs.Sealed.{sealed, sealed_one};

use crate::materials::{blob_key, commitment, material};
use blob_format::{HEAD_SIZE, HEAD_SIZE_TWO, push_head, push_head_two, write_blob, write_blob_two};
use enc_context::Context;
use gcm_seal::seal;
use kms_names::{Bytes, KeyId, NoMemory};
use std::alloc::Global;

/// Seals a text of 1 to 4,096 bytes into a blob of form 2, under a version of a key, of at least 1, and
/// under a context, with an initialization vector. The data key is the blob's own: the vector is its
/// salt too. One vector may seal one text only: who calls it keeps them apart.
pub fn seal_blob(
    alloc: Global,
    root: &[u8; 32],
    key: &KeyId,
    version: u32,
    iv: &[u8; 12],
    context: &Context,
    text: &[u8],
) -> Result<Bytes, NoMemory>
    requires version { 1 ≤ version }
    requires text_given { 1 ≤ length text.now }
    requires text_fits { length text.now ≤ 4096 }
    ensures { IfOk result (λ bytes. bytes ≡ sealed root.now key.now version iv.now context.now text.now) }
{
    let data_key = blob_key(&material(root, key, version), iv);
    let commitment = commitment(&data_key);
    let mut additional = Vec::with_capacity(alloc, HEAD_SIZE_TWO + context.encoded_len())?;
    push_head_two(&mut additional, key, version, iv, &commitment)?;
    context.encode_into(&mut additional)?;
    let mut text = Vec::from_slice(alloc, text)?;
    let tag = seal(&data_key, iv, &additional, &mut text);
    write_blob_two(alloc, key, version, iv, &commitment, &text, &tag)
}

/// Seals a text into a blob of form 1, as earlier versions of this crate did: the data key is the
/// material of the key's version. Its conditions are those of `seal_blob`.
pub fn seal_blob_one(
    alloc: Global,
    root: &[u8; 32],
    key: &KeyId,
    version: u32,
    iv: &[u8; 12],
    context: &Context,
    text: &[u8],
) -> Result<Bytes, NoMemory>
    requires version { 1 ≤ version }
    requires text_given { 1 ≤ length text.now }
    requires text_fits { length text.now ≤ 4096 }
    ensures { IfOk result (λ bytes. bytes ≡ sealed_one root.now key.now version iv.now context.now text.now) }
{
    let mut additional = Vec::with_capacity(alloc, HEAD_SIZE + context.encoded_len())?;
    push_head(&mut additional, key, version)?;
    context.encode_into(&mut additional)?;
    let mut text = Vec::from_slice(alloc, text)?;
    let tag = seal(&material(root, key, version), iv, &additional, &mut text);
    write_blob(alloc, key, version, iv, &text, &tag)
}
