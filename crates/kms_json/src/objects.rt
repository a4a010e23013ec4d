// JSON objects and lists, written member by member and row by row.
ghost use Rattle.std.specs.Prelude.{◌≡◌, ◌++◌, OnOk, Some, option_map};
ghost use Rattle.serde_json.specs.Data.{Data, object, no_members, string, boolean};
ghost use Rattle.kms_json.specs.Objects.{base64_text, item_data, number_data, one_text, list_data};
ghost use Rattle.kms_json.specs.Texts.{member_tokens, listed, Adds, Writes};

use crate::texts::JsonText;
use base64::engine::general_purpose::STANDARD;
use kms_names::{Bytes, NoMemory, Text};
use std::alloc::Global;

/// What a member of a reply holds.
#[derive(Clone, Copy)]
pub enum Item<'a> {
    Text(&'a str),
    /// Bytes, as the text of their base64.
    Base64(&'a Bytes),
    Number(u64),
    Flag(bool),
    /// A list of one text.
    OneText(&'a str),
    /// A list of one text, or nothing: then the member is left out.
    OneTextIfAny(Option<&'a str>),
    /// A number, or nothing: then the member is left out.
    NumberIfAny(Option<u64>),
    /// A text, or nothing: then the member is left out.
    TextIfAny(Option<&'a str>),
}

/// A member of a reply: its name, and what it holds.
#[derive(Clone, Copy)]
pub struct Member<'a>(pub &'static str, pub Item<'a>);

/// Writes a member that is a text.
pub fn write_text(text: &mut JsonText, name: &str, value: &str) -> Result<(), NoMemory>
    ensures { OnOk result (text.new ≡ text.old ++ member_tokens name.now (Some (string value.now))) }
{
    text.key(name)?;
    text.string(value)
}

/// Writes a member that is a text, if there is one.
pub fn write_text_if(text: &mut JsonText, name: &str, value: &Option<Text>) -> Result<(), NoMemory>
    ensures { OnOk result (text.new ≡ text.old ++ member_tokens name.now (option_map string value.now)) }
{
    match value {
        Some(value) => write_text(text, name, value.as_str()),
        None => Ok(()),
    }
}

// Bytes as the text of their base64.
#[tactic(auto, unfolding(crate::specs::Objects::base64_text))]
fn write_base64(
    alloc: Global,
    text: &mut JsonText,
    name: &str,
    bytes: &Bytes,
) -> Result<(), NoMemory>
    ensures { OnOk result (text.new ≡ text.old ++ member_tokens name.now (Some (string (base64_text bytes.now)))) }
{
    let encoded = STANDARD.encode(alloc, bytes.as_slice())?;
    write_text(text, name, encoded.as_str())
}

fn write_number(text: &mut JsonText, name: &str, number: u64) -> Result<(), NoMemory>
    ensures { OnOk result (text.new ≡ text.old ++ member_tokens name.now (Some (number_data number))) }
{
    text.key(name)?;
    text.number(number)
}

/// Writes a member that is `true` or `false`.
pub fn write_flag(text: &mut JsonText, name: &str, flag: bool) -> Result<(), NoMemory>
    ensures { OnOk result (text.new ≡ text.old ++ member_tokens name.now (Some (boolean flag))) }
{
    text.key(name)?;
    text.boolean(flag)
}

// A list of one text.
fn write_one_text(text: &mut JsonText, name: &str, value: &str) -> Result<(), NoMemory>
    ensures { OnOk result (text.new ≡ text.old ++ member_tokens name.now (Some (one_text value.now))) }
{
    text.key(name)?;
    text.begin_array()?;
    text.string(value)?;
    text.end_array()
}

fn write_item(
    alloc: Global,
    text: &mut JsonText,
    name: &str,
    item: Item<'_>,
) -> Result<(), NoMemory>
    ensures { OnOk result (text.new ≡ text.old ++ member_tokens name.now (item_data item.entry)) }
{
    match item {
        Item::Text(value) => write_text(text, name, value),
        Item::Base64(bytes) => write_base64(alloc, text, name, bytes),
        Item::Number(number) => write_number(text, name, number),
        Item::Flag(flag) => write_flag(text, name, flag),
        Item::OneText(value) => write_one_text(text, name, value),
        Item::OneTextIfAny(Some(value)) => write_one_text(text, name, value),
        Item::OneTextIfAny(None) => Ok(()),
        Item::NumberIfAny(Some(number)) => write_number(text, name, number),
        Item::NumberIfAny(None) => Ok(()),
        Item::TextIfAny(Some(value)) => write_text(text, name, value),
        Item::TextIfAny(None) => Ok(()),
    }
}

/// Writes these members in their order, but for those that hold nothing.
pub fn write_members(
    alloc: Global,
    text: &mut JsonText,
    members: &[Member<'_>],
) -> Result<(), NoMemory>
    ensures { Adds result text.old text.new (listed members.now) }
{
    for member in members {
        write_item(alloc, text, member.0, member.1)?;
    }
    Ok(())
}

/// Writes the object of these members in their order, but for those that hold nothing.
pub fn write_object(
    alloc: Global,
    text: &mut JsonText,
    members: &[Member<'_>],
) -> Result<(), NoMemory>
    ensures { Writes result text.old text.new (object (listed members.now no_members)) }
{
    text.begin_object()?;
    write_members(alloc, text, members)?;
    text.end_object()
}

/// How the rows of a list are written.
pub trait RowWriter {
    /// A row.
    type Row;

    ghost row_data: { Self → Self.Row → Data };

    /// Writes a row. What the room holds is of no account.
    fn write_row(
        &self,
        alloc: Global,
        room: &mut String,
        text: &mut JsonText,
        row: &Self::Row,
    ) -> Result<(), NoMemory>
        ensures { Writes result text.old text.new (row_data self.now row.now) };
}

/// Writes the list of these rows.
pub fn write_list<R: RowWriter>(
    alloc: Global,
    text: &mut JsonText,
    writer: &R,
    rows: &[R::Row],
) -> Result<(), NoMemory>
    ensures { Writes result text.old text.new (list_data (R.row_data writer.now) rows.now) }
{
    let mut room = String::new(alloc);
    text.begin_array()?;
    for row in rows {
        writer.write_row(alloc, &mut room, text, row)?;
    }
    text.end_array()
}
