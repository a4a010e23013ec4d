ghost use Rattle.std.specs.Prelude.{◌≡◌, ◌≤◌, ◌↔◌, length, IsTrue, IfOk, Some, None};
ghost use Rattle.blob_format.specs.Blob as form;
ghost use Rattle.blob_format.specs.Reading.{IsBlobOf, form_of};
ghost use Rattle.crypto_ops.specs.Material.{material_of};
ghost use Rattle.crypto_ops.specs.Material as key;
ghost use Rattle.crypto_ops.specs.Sealed.{opened};
ghost use Rattle.crypto_ops.specs.Sealed as spec;
ghost use Rattle.crypto_ops.specs.declared.opening.OpenFault.TheVariants.{BadBlob, NoMemory as OutOfMemory};

use crate::materials::{blob_key, commitment, material};
use blob_format::{Blob, FORM_ONE, HEAD_SIZE, HEAD_SIZE_TWO};
use enc_context::Context;
use gcm_seal::open;
use kms_names::{Bytes, NoMemory};
use std::alloc::{AllocError, Global};

/// Why a blob isn't opened.
#[derive(Clone, Copy, Debug, PartialEq, Eq)]
pub enum OpenFault {
    /// The commitment of form 2 is not that of the data key, or the tag is not that of the blob and the
    /// context under it.
    BadBlob,
    /// A growth of memory was refused.
    NoMemory,
}

impl From<NoMemory> for OpenFault {
    ghost from_gives = { λ _ e. e ≡ OutOfMemory };

    fn from(_e: NoMemory) -> OpenFault {
        OpenFault::NoMemory
    }
}

impl From<AllocError> for OpenFault {
    ghost from_gives = { λ _ e. e ≡ OutOfMemory };

    fn from(_e: AllocError) -> OpenFault {
        OpenFault::NoMemory
    }
}

/// Opens a blob, given what `read_blob` said of its bytes, under a context and the data key of its form,
/// and of its own key and version: the text that was sealed.
///
/// `BadBlob` comes exactly where opening gives nothing: where the commitment of form 2 is not that of
/// the data key, or the tag doesn't match (SP 800-38D, section 7.2). The commitment is compared first,
/// so that no text comes of a ciphertext that was made for two keys; the tag decides too.
pub fn open_blob(
    alloc: Global,
    root: &[u8; 32],
    bytes: &[u8],
    blob: &Blob,
    context: &Context,
) -> Result<Bytes, OpenFault>
    requires { IsBlobOf bytes.now blob.now }
    ensures opened { IfOk result (λ text. opened root.now bytes.now context.now ≡ Some text) }
    ensures bad_blob { result ≡ Err BadBlob → opened root.now bytes.now context.now ≡ None }
{
    let key = data_key(root, blob);
    if !has_commitment(blob, &key) {
        return Err(OpenFault::BadBlob);
    }
    let additional = additional_data(alloc, &bytes[..head_size(blob)], context)?;
    let mut text = Vec::from_slice(alloc, &bytes[blob.text_from..blob.text_to])?;
    if open(&key, &blob.iv, &additional, &mut text, &blob.tag) {
        Ok(Bytes::new(text))
    } else {
        Err(OpenFault::BadBlob)
    }
}

/// The key that a blob's text is sealed under.
fn data_key(root: &[u8; 32], blob: &Blob) -> [u8; 32]
    ensures { result ≡ key.data_key (form_of blob.now) (material_of root.now blob.now.key blob.now.version) blob.now.iv }
{
    let material = material(root, &blob.key, blob.version);
    if blob.form == FORM_ONE {
        material
    } else {
        blob_key(&material, &blob.iv)
    }
}

/// Whether a blob's commitment, where it has one, is that of the data key.
fn has_commitment(blob: &Blob, key: &[u8; 32]) -> bool
    ensures { result ≡ spec.has_commitment (form_of blob.now) key.now }
{
    blob.form == FORM_ONE || are_equal(&blob.commitment, &commitment(key))
}

/// Compares two commitments, all their bytes in any case.
fn are_equal(left: &[u8; 32], right: &[u8; 32]) -> bool
    ensures { IsTrue result ↔ (left.now ≡ right.now) }
{
    let mut difference = 0;
    for i in 0..32 {
        difference |= left[i] ^ right[i];
    }
    difference == 0
}

/// How many bytes a blob's head has.
fn head_size(blob: &Blob) -> usize
    ensures { result ≡ form.head_size (form_of blob.now) }
{
    if blob.form == FORM_ONE {
        HEAD_SIZE
    } else {
        HEAD_SIZE_TWO
    }
}

/// What is authenticated beside a text: its blob's head, and the context.
#[tactic(auto, unfolding(crate::specs::Sealed::additional_data))]
fn additional_data(alloc: Global, head: &[u8], context: &Context) -> Result<Vec<u8>, NoMemory>
    requires { length head.now ≤ HEAD_SIZE_TWO }
    ensures written { IfOk result (λ bytes. bytes.items ≡ spec.additional_data head.now context.now) }
    ensures size { IfOk result (λ bytes. length bytes.items ≤ 8257) }
{
    let mut bytes = Vec::with_capacity(alloc, head.len() + context.encoded_len())?;
    bytes.extend_from_slice(head)?;
    context.encode_into(&mut bytes)?;
    Ok(bytes)
}
