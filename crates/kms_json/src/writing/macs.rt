// What the operations on MACs answer.
ghost use Rattle.kms_json.specs.Objects.{base64_text};
ghost use Rattle.kms_json.specs.Texts.{Writes};
ghost use Rattle.kms_json.specs.MacReplies as answered;

use crate::objects::{Item, Member, write_object};
use crate::replies::HMAC_SHA_256;
use crate::texts::JsonText;
use kms_names::{Bytes, NoMemory};
use std::alloc::Global;

/// What GenerateMac answers.
pub fn mac<'a>(
    alloc: Global,
    text: &mut JsonText,
    mac: &'a Bytes,
    arn: &'a str,
) -> Result<(), NoMemory>
    ensures { Writes result text.old text.new (answered.mac_data (base64_text mac.now) arn.now) }
{
    let members = [
        Member("KeyId", Item::Text(arn)),
        Member("Mac", Item::Base64(mac)),
        Member("MacAlgorithm", Item::Text(HMAC_SHA_256)),
    ];
    write_object(alloc, text, &members)
}

/// What VerifyMac answers where the MAC is valid.
pub fn mac_valid(alloc: Global, text: &mut JsonText, arn: &str) -> Result<(), NoMemory>
    ensures { Writes result text.old text.new (answered.mac_valid_data arn.now) }
{
    let members = [
        Member("KeyId", Item::Text(arn)),
        Member("MacAlgorithm", Item::Text(HMAC_SHA_256)),
        Member("MacValid", Item::Flag(true)),
    ];
    write_object(alloc, text, &members)
}
