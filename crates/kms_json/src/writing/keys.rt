// What the operations on keys answer.
ghost use Rattle.std.specs.Prelude.{◌≡◌, ◌++◌, OnOk, codes, option_map, string_bytes};
ghost use Rattle.kms_json.specs.KeyReplies as answered;
ghost use Rattle.kms_json.specs.Texts.{Writes};

use super::pages::write_page;
use crate::objects::{Item, Member, RowWriter, write_object};
use crate::replies::{HMAC_SHA_256, KeyMetadata, KeyPage, SYMMETRIC_DEFAULT};
use crate::texts::JsonText;
use hmac_keys::KeyKind;
use kms_names::{AccountNumber, KeyId, NoMemory, key_arn, key_text_into};
use std::alloc::Global;

// The algorithm by which keys of a kind encrypt, where they do.
fn encryption_algorithm(kind: KeyKind) -> Option<&'static str>
    ensures { option_map (λ t. t.now) result ≡ answered.encryption_algorithm kind }
{
    match kind {
        KeyKind::Symmetric => Some(SYMMETRIC_DEFAULT),
        KeyKind::Hmac256 => None,
    }
}

// The one by which they make MACs, where they do.
fn mac_algorithm(kind: KeyKind) -> Option<&'static str>
    ensures { option_map (λ t. t.now) result ≡ answered.mac_algorithm kind }
{
    match kind {
        KeyKind::Symmetric => None,
        KeyKind::Hmac256 => Some(HMAC_SHA_256),
    }
}

// The members of a key's description.
fn described<'a>(
    alloc: Global,
    text: &mut JsonText,
    account: &'a str,
    arn: &'a str,
    key: &'a KeyMetadata,
    id: &'a str,
) -> Result<(), NoMemory>
    ensures { Writes result text.old text.new (answered.described_as account.now arn.now key.now id.now) }
{
    let state = key.state;
    let spec = key.kind.spec_text();
    let members = [
        Member("AWSAccountId", Item::Text(account)),
        Member("Arn", Item::Text(arn)),
        Member("CreationDate", Item::Number(key.created)),
        Member("CustomerMasterKeySpec", Item::Text(spec)),
        Member("DeletionDate", Item::NumberIfAny(state.deletion_date())),
        Member("Description", Item::Text(key.description.as_str())),
        Member("Enabled", Item::Flag(state.is_enabled())),
        Member(
            "EncryptionAlgorithms",
            Item::OneTextIfAny(encryption_algorithm(key.kind)),
        ),
        Member("KeyId", Item::Text(id)),
        Member("KeyManager", Item::Text("CUSTOMER")),
        Member("KeySpec", Item::Text(spec)),
        Member("KeyState", Item::Text(state.name())),
        Member("KeyUsage", Item::Text(key.kind.usage_text())),
        Member("MacAlgorithms", Item::OneTextIfAny(mac_algorithm(key.kind))),
        Member("MultiRegion", Item::Flag(false)),
        Member("Origin", Item::Text("AWS_KMS")),
    ];
    write_object(alloc, text, &members)
}

/// What DescribeKey and CreateKey answer.
pub fn metadata(alloc: Global, text: &mut JsonText, key: &KeyMetadata) -> Result<(), NoMemory>
    ensures { Writes result text.old text.new (answered.metadata_data key.now) }
{
    let mut digits = [0; 36];
    let id = key_text_into(&key.key, &mut digits);
    let arn = key_arn(alloc, &key.account, key.region.as_str(), &key.key)?;
    text.begin_object()?;
    text.key("KeyMetadata")?;
    described(alloc, text, key.account.as_str(), arn.as_str(), key, id)?;
    text.end_object()
}

fn key_by<'a>(alloc: Global, text: &mut JsonText, arn: &'a str, id: &'a str) -> Result<(), NoMemory>
    ensures { Writes result text.old text.new (answered.key_by arn.now id.now) }
{
    let members = [
        Member("KeyArn", Item::Text(arn)),
        Member("KeyId", Item::Text(id)),
    ];
    write_object(alloc, text, &members)
}

/// Puts the ARN of the key of a printed id into a room, in place of what it holds.
pub fn put_key_arn(
    room: &mut String,
    account: &AccountNumber,
    region: &str,
    id: &str,
) -> Result<(), NoMemory>
    ensures { OnOk result (string_bytes room.new ≡ codes "arn:aws:kms:" ++ (region.now ++ (codes ":" ++ (account.now ++ (codes ":key/" ++ id.now))))) }
{
    room.clear();
    room.push_str("arn:aws:kms:")?;
    room.push_str(region)?;
    room.push_str(":")?;
    room.push_str(account.as_str())?;
    room.push_str(":key/")?;
    room.push_str(id)?;
    Ok(())
}

// The keys of an account and a region.
#[derive(Clone, Copy)]
struct KeyRows<'a> {
    account: &'a AccountNumber,
    region: &'a str,
}

impl RowWriter for KeyRows<'_> {
    type Row = KeyId;

    ghost row_data = { λ rows key. answered.key_data rows.account.now rows.region.now key };

    fn write_row(
        &self,
        alloc: Global,
        room: &mut String,
        text: &mut JsonText,
        key: &KeyId,
    ) -> Result<(), NoMemory> {
        let mut digits = [0; 36];
        let id = key_text_into(key, &mut digits);
        put_key_arn(room, self.account, self.region, id)?;
        key_by(alloc, text, room.as_str(), id)
    }
}

/// What ListKeys answers.
pub fn key_list(alloc: Global, text: &mut JsonText, list: &KeyPage) -> Result<(), NoMemory>
    ensures { Writes result text.old text.new (answered.keys_data list.now) }
{
    let writer = KeyRows {
        account: &list.account,
        region: list.region.as_str(),
    };
    write_page(
        alloc,
        text,
        "Keys",
        &writer,
        list.keys.as_slice(),
        list.next,
    )
}
