// Replies' bodies.
ghost use Rattle.std.specs.Prelude.{◌≡◌, IfOk};
ghost use Rattle.serde_json.specs.Written.{compact_text};
ghost use Rattle.kms_json.specs.Replies.{reply_data};
ghost use Rattle.kms_json.specs.Texts.{Writes};

mod aliases;
mod cryptography;
mod grants;
mod keys;
mod macs;
mod pages;
mod policies;
mod rotation;
mod states;
mod tags;

use crate::exceptions::write_refusal;
use crate::objects::write_object;
use crate::replies::Reply;
use crate::texts::JsonText;
use cryptography::{data_key, decrypted, encrypted, random, re_encrypted, sealed_data_key};
use kms_names::{Bytes, NoMemory};
use std::alloc::Global;

fn write_body(alloc: Global, text: &mut JsonText, reply: &Reply) -> Result<(), NoMemory>
    ensures { Writes result text.old text.new (reply_data reply.now) }
{
    match reply {
        Reply::Metadata(key) => keys::metadata(alloc, text, key),
        Reply::KeyPolicy { policy } => policies::key_policy(alloc, text, policy.as_str()),
        Reply::DeletionScheduled {
            arn,
            deletion_date,
            days,
        } => states::deletion(alloc, text, arn.as_str(), *deletion_date, *days),
        Reply::DeletionCancelled { arn } => states::cancelled(alloc, text, arn.as_str()),
        Reply::Rotated { key } => rotation::rotated(alloc, text, key),
        Reply::RotationStatus {
            key,
            rotation: status,
        } => rotation::rotation(alloc, text, key, *status),
        Reply::Keys(list) => keys::key_list(alloc, text, list),
        Reply::KeyPolicyNames => policies::key_policies(alloc, text),
        Reply::Rotations(list) => rotation::rotation_list(alloc, text, list),
        Reply::Aliases(list) => aliases::alias_list(alloc, text, list),
        Reply::Granted { grant } => grants::granted(alloc, text, grant),
        Reply::Grants(list) => grants::grant_list(alloc, text, list),
        Reply::Encrypted { blob, arn } => encrypted(alloc, text, blob, arn.as_str()),
        Reply::Decrypted { plaintext, arn } => decrypted(alloc, text, plaintext, arn.as_str()),
        Reply::ReEncrypted {
            blob,
            arn,
            source_arn,
        } => re_encrypted(alloc, text, blob, arn.as_str(), source_arn.as_str()),
        Reply::DataKey {
            blob,
            plaintext,
            arn,
        } => data_key(alloc, text, blob, plaintext, arn.as_str()),
        Reply::SealedDataKey { blob, arn } => sealed_data_key(alloc, text, blob, arn.as_str()),
        Reply::Random { plaintext } => random(alloc, text, plaintext),
        Reply::Mac { mac, arn } => macs::mac(alloc, text, mac, arn.as_str()),
        Reply::MacValid { arn } => macs::mac_valid(alloc, text, arn.as_str()),
        Reply::Tags(list) => tags::tag_list(alloc, text, list),
        Reply::Done => write_object(alloc, text, &[]),
        Reply::Refused(refusal) => write_refusal(alloc, text, refusal),
    }
}

/// The body of a reply: the compact text of its JSON value, with members in byte order of their
/// names.
pub fn write_reply(alloc: Global, reply: &Reply) -> Result<Bytes, NoMemory>
    ensures { IfOk result (λ body. body ≡ compact_text (reply_data reply.now)) }
{
    let mut text = JsonText::new(alloc, 128)?;
    write_body(alloc, &mut text, reply)?;
    Ok(Bytes::new(text.into_bytes()))
}
