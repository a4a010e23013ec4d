// What the operations on aliases answer.
ghost use Rattle.std.specs.Prelude.{◌≡◌, OnOk, string_bytes};
ghost use Rattle.kms_names.specs.Reference.{alias_arn_text};
ghost use Rattle.kms_json.specs.AliasReplies as answered;
ghost use Rattle.kms_json.specs.Texts.{Writes};

use super::pages::write_page;
use crate::objects::{Item, Member, RowWriter, write_object};
use crate::replies::{AliasPage, ListedAlias};
use crate::texts::JsonText;
use kms_names::{AccountNumber, AliasName, NoMemory, key_text_into};
use std::alloc::Global;

fn alias_by<'a>(
    alloc: Global,
    text: &mut JsonText,
    arn: &'a str,
    alias: &'a ListedAlias,
    key: &'a str,
) -> Result<(), NoMemory>
    ensures { Writes result text.old text.new (answered.alias_by arn.now alias.now key.now) }
{
    let members = [
        Member("AliasArn", Item::Text(arn)),
        Member("AliasName", Item::Text(alias.name.as_str())),
        Member("CreationDate", Item::Number(alias.created)),
        Member("LastUpdatedDate", Item::Number(alias.updated)),
        Member("TargetKeyId", Item::Text(key)),
    ];
    write_object(alloc, text, &members)
}

// Puts the ARN of an alias into a room, in place of what it holds.
fn put_alias_arn(
    room: &mut String,
    account: &AccountNumber,
    region: &str,
    name: &AliasName,
) -> Result<(), NoMemory>
    ensures { OnOk result (string_bytes room.new ≡ alias_arn_text account.now region.now name.now) }
{
    room.clear();
    room.push_str("arn:aws:kms:")?;
    room.push_str(region)?;
    room.push_str(":")?;
    room.push_str(account.as_str())?;
    room.push_str(":")?;
    room.push_str(name.as_str())?;
    Ok(())
}

// The aliases of an account and a region.
#[derive(Clone, Copy)]
struct AliasRows<'a> {
    account: &'a AccountNumber,
    region: &'a str,
}

impl RowWriter for AliasRows<'_> {
    type Row = ListedAlias;

    ghost row_data = { λ rows alias. answered.alias_data rows.account.now rows.region.now alias };

    fn write_row(
        &self,
        alloc: Global,
        room: &mut String,
        text: &mut JsonText,
        alias: &ListedAlias,
    ) -> Result<(), NoMemory> {
        put_alias_arn(room, self.account, self.region, &alias.name)?;
        let mut digits = [0; 36];
        let key = key_text_into(&alias.key, &mut digits);
        alias_by(alloc, text, room.as_str(), alias, key)
    }
}

/// What ListAliases answers.
pub fn alias_list(alloc: Global, text: &mut JsonText, list: &AliasPage) -> Result<(), NoMemory>
    ensures { Writes result text.old text.new (answered.aliases_data list.now) }
{
    let writer = AliasRows {
        account: &list.account,
        region: list.region.as_str(),
    };
    write_page(
        alloc,
        text,
        "Aliases",
        &writer,
        list.aliases.as_slice(),
        list.next,
    )
}
