// What the operations that use keys answer.
ghost use Rattle.kms_json.specs.Objects.{base64_text};
ghost use Rattle.kms_json.specs.Texts.{Writes};
ghost use Rattle.kms_json.specs.CryptographyReplies as answered;

use crate::objects::{Item, Member, write_object};
use crate::replies::SYMMETRIC_DEFAULT;
use crate::texts::JsonText;
use kms_names::{Bytes, NoMemory};
use std::alloc::Global;

/// What Encrypt answers.
pub fn encrypted<'a>(
    alloc: Global,
    text: &mut JsonText,
    blob: &'a Bytes,
    arn: &'a str,
) -> Result<(), NoMemory>
    ensures { Writes result text.old text.new (answered.encrypted_data (base64_text blob.now) arn.now) }
{
    let members = [
        Member("CiphertextBlob", Item::Base64(blob)),
        Member("EncryptionAlgorithm", Item::Text(SYMMETRIC_DEFAULT)),
        Member("KeyId", Item::Text(arn)),
    ];
    write_object(alloc, text, &members)
}

/// What Decrypt answers.
pub fn decrypted<'a>(
    alloc: Global,
    text: &mut JsonText,
    plaintext: &'a Bytes,
    arn: &'a str,
) -> Result<(), NoMemory>
    ensures { Writes result text.old text.new (answered.decrypted_data (base64_text plaintext.now) arn.now) }
{
    let members = [
        Member("EncryptionAlgorithm", Item::Text(SYMMETRIC_DEFAULT)),
        Member("KeyId", Item::Text(arn)),
        Member("Plaintext", Item::Base64(plaintext)),
    ];
    write_object(alloc, text, &members)
}

/// What ReEncrypt answers.
pub fn re_encrypted<'a>(
    alloc: Global,
    text: &mut JsonText,
    blob: &'a Bytes,
    arn: &'a str,
    source_arn: &'a str,
) -> Result<(), NoMemory>
    ensures { Writes result text.old text.new (answered.re_encrypted_data (base64_text blob.now) arn.now source_arn.now) }
{
    let members = [
        Member("CiphertextBlob", Item::Base64(blob)),
        Member(
            "DestinationEncryptionAlgorithm",
            Item::Text(SYMMETRIC_DEFAULT),
        ),
        Member("KeyId", Item::Text(arn)),
        Member("SourceEncryptionAlgorithm", Item::Text(SYMMETRIC_DEFAULT)),
        Member("SourceKeyId", Item::Text(source_arn)),
    ];
    write_object(alloc, text, &members)
}

/// What GenerateDataKey answers.
pub fn data_key<'a>(
    alloc: Global,
    text: &mut JsonText,
    blob: &'a Bytes,
    plaintext: &'a Bytes,
    arn: &'a str,
) -> Result<(), NoMemory>
    ensures { Writes result text.old text.new (answered.data_key_data (base64_text blob.now) (base64_text plaintext.now) arn.now) }
{
    let members = [
        Member("CiphertextBlob", Item::Base64(blob)),
        Member("KeyId", Item::Text(arn)),
        Member("Plaintext", Item::Base64(plaintext)),
    ];
    write_object(alloc, text, &members)
}

/// What GenerateDataKeyWithoutPlaintext answers.
pub fn sealed_data_key<'a>(
    alloc: Global,
    text: &mut JsonText,
    blob: &'a Bytes,
    arn: &'a str,
) -> Result<(), NoMemory>
    ensures { Writes result text.old text.new (answered.sealed_data_key_data (base64_text blob.now) arn.now) }
{
    let members = [
        Member("CiphertextBlob", Item::Base64(blob)),
        Member("KeyId", Item::Text(arn)),
    ];
    write_object(alloc, text, &members)
}

/// What GenerateRandom answers.
pub fn random(alloc: Global, text: &mut JsonText, plaintext: &Bytes) -> Result<(), NoMemory>
    ensures { Writes result text.old text.new (answered.random_data (base64_text plaintext.now)) }
{
    write_object(alloc, text, &[Member("Plaintext", Item::Base64(plaintext))])
}
