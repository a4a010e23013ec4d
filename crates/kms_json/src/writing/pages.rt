// Parts of lists.
ghost use Rattle.std.specs.Prelude.{◌≡◌, ◌++◌, Some, codes, OnOk, option_map, is_some};
ghost use Rattle.json.specs.Token.{end_object};
ghost use Rattle.serde_json.specs.Data.{boolean, member, no_members};
ghost use Rattle.kms_json.specs.Objects.{list_data};
ghost use Rattle.kms_json.specs.PageReplies.{marker_data, page_data};
ghost use Rattle.kms_json.specs.Texts.{ComesBeforeMarkers, member_tokens, closing_tokens, Writes};

use crate::objects::{RowWriter, write_flag, write_list};
use crate::texts::JsonText;
use kms_names::NoMemory;
use std::alloc::Global;

fn write_quoted_number(text: &mut JsonText, name: &str, number: u64) -> Result<(), NoMemory>
    ensures { OnOk result (text.new ≡ text.old ++ member_tokens name.now (Some (marker_data number))) }
{
    text.key(name)?;
    text.quoted_number(number)
}

/// Writes a marker that is a number, if there is one.
pub fn write_marker(text: &mut JsonText, marker: Option<u64>) -> Result<(), NoMemory>
    ensures { OnOk result (text.new ≡ text.old ++ member_tokens (codes "NextMarker") (option_map marker_data marker)) }
{
    match marker {
        Some(number) => write_quoted_number(text, "NextMarker", number),
        None => Ok(()),
    }
}

/// Writes whether more rows remain, and closes the part.
pub fn write_truncated(text: &mut JsonText, truncated: bool) -> Result<(), NoMemory>
    ensures { OnOk result (text.new ≡ text.old ++ closing_tokens (member (codes "Truncated") (boolean truncated) no_members)) }
{
    write_flag(text, "Truncated", truncated)?;
    text.end_object()
}

/// Writes a part of a list whose name comes before that of markers: its rows under their name, and
/// the marker of the next part, where more rows remain.
pub fn write_page<R: RowWriter>(
    alloc: Global,
    text: &mut JsonText,
    name: &'static str,
    writer: &R,
    rows: &[R::Row],
    marker: Option<u64>,
) -> Result<(), NoMemory>
    requires { ComesBeforeMarkers name.now }
    ensures { Writes result text.old text.new (page_data name.now (list_data (R.row_data writer.now) rows.now) marker) }
{
    let truncated = marker.is_some();
    text.begin_object()?;
    text.key(name)?;
    write_list(alloc, text, writer, rows)?;
    write_marker(text, marker)?;
    write_truncated(text, truncated)
}
