// What the operations on the states of keys answer.
ghost use Rattle.kms_json.specs.Texts.{Writes};
ghost use Rattle.kms_json.specs.StateReplies as answered;

use crate::objects::{Item, Member, write_object};
use crate::texts::JsonText;
use kms_names::NoMemory;
use std::alloc::Global;

/// What ScheduleKeyDeletion answers.
pub fn deletion(
    alloc: Global,
    text: &mut JsonText,
    arn: &str,
    deletion_date: u64,
    days: u64,
) -> Result<(), NoMemory>
    ensures { Writes result text.old text.new (answered.deletion_data arn.now deletion_date days) }
{
    let members = [
        Member("DeletionDate", Item::Number(deletion_date)),
        Member("KeyId", Item::Text(arn)),
        Member("KeyState", Item::Text("PendingDeletion")),
        Member("PendingWindowInDays", Item::Number(days)),
    ];
    write_object(alloc, text, &members)
}

/// What CancelKeyDeletion answers.
pub fn cancelled(alloc: Global, text: &mut JsonText, arn: &str) -> Result<(), NoMemory>
    ensures { Writes result text.old text.new (answered.cancelled_data arn.now) }
{
    write_object(alloc, text, &[Member("KeyId", Item::Text(arn))])
}
