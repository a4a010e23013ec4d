// What the operations on the rotation of keys answer.
ghost use Rattle.std.specs.Prelude.{◌≡◌};
ghost use Rattle.kms_json.specs.RotationReplies as answered;
ghost use Rattle.kms_json.specs.Texts.{Writes};

use super::pages::{write_marker, write_truncated};
use crate::objects::{Item, Member, RowWriter, write_list, write_object};
use crate::replies::{AutomaticRotation, Rotation, RotationPage};
use crate::texts::JsonText;
use kms_names::{KeyId, NoMemory, key_text_into};
use std::alloc::Global;

/// What RotateKeyOnDemand answers.
pub fn rotated(alloc: Global, text: &mut JsonText, key: &KeyId) -> Result<(), NoMemory>
    ensures { Writes result text.old text.new (answered.rotated_data key.now) }
{
    let mut digits = [0; 36];
    let id = key_text_into(key, &mut digits);
    write_object(alloc, text, &[Member("KeyId", Item::Text(id))])
}

/// What GetKeyRotationStatus answers.
pub fn rotation(
    alloc: Global,
    text: &mut JsonText,
    key: &KeyId,
    rotation: Option<AutomaticRotation>,
) -> Result<(), NoMemory>
    ensures { Writes result text.old text.new (answered.rotation_data key.now rotation) }
{
    let mut digits = [0; 36];
    let id = Member("KeyId", Item::Text(key_text_into(key, &mut digits)));
    match rotation {
        Some(AutomaticRotation { next, period }) => {
            let members = [
                id,
                Member("KeyRotationEnabled", Item::Flag(true)),
                Member("NextRotationDate", Item::Number(next)),
                Member("RotationPeriodInDays", Item::Number(u64::from(period))),
            ];
            write_object(alloc, text, &members)
        }
        None => {
            let members = [id, Member("KeyRotationEnabled", Item::Flag(false))];
            write_object(alloc, text, &members)
        }
    }
}

fn rotation_type(on_demand: bool) -> &'static str
    ensures { result.now ≡ answered.rotation_type on_demand }
{
    if on_demand { "ON_DEMAND" } else { "AUTOMATIC" }
}

// The rotations of the key of a printed id.
#[derive(Clone, Copy)]
struct RotationRows<'a> {
    id: &'a str,
}

impl RowWriter for RotationRows<'_> {
    type Row = Rotation;

    ghost row_data = { λ rows rotation. answered.one_rotation_data rows.id.now rotation };

    fn write_row(
        &self,
        alloc: Global,
        _room: &mut String,
        text: &mut JsonText,
        rotation: &Rotation,
    ) -> Result<(), NoMemory> {
        let members = [
            Member("KeyId", Item::Text(self.id)),
            Member("RotationDate", Item::Number(rotation.date)),
            Member(
                "RotationType",
                Item::Text(rotation_type(rotation.on_demand)),
            ),
        ];
        write_object(alloc, text, &members)
    }
}

/// What ListKeyRotations answers.
pub fn rotation_list(
    alloc: Global,
    text: &mut JsonText,
    list: &RotationPage,
) -> Result<(), NoMemory>
    ensures { Writes result text.old text.new (answered.rotations_data list.now) }
{
    let mut digits = [0; 36];
    let writer = RotationRows {
        id: key_text_into(&list.key, &mut digits),
    };
    text.begin_object()?;
    write_marker(text, list.next)?;
    text.key("Rotations")?;
    write_list(alloc, text, &writer, list.rotations.as_slice())?;
    write_truncated(text, list.next.is_some())
}
