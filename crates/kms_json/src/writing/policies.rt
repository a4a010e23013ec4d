// What the operations on key policies answer.
ghost use Rattle.kms_json.specs.Texts.{Writes};
ghost use Rattle.kms_json.specs.PolicyReplies as answered;

use crate::objects::{Item, Member, write_object};
use crate::texts::JsonText;
use kms_names::NoMemory;
use std::alloc::Global;

/// What GetKeyPolicy answers.
pub fn key_policy(alloc: Global, text: &mut JsonText, policy: &str) -> Result<(), NoMemory>
    ensures { Writes result text.old text.new (answered.key_policy_data policy.now) }
{
    let members = [
        Member("Policy", Item::Text(policy)),
        Member("PolicyName", Item::Text("default")),
    ];
    write_object(alloc, text, &members)
}

/// What ListKeyPolicies answers.
pub fn key_policies(alloc: Global, text: &mut JsonText) -> Result<(), NoMemory>
    ensures { Writes result text.old text.new answered.key_policies_data }
{
    let members = [
        Member("PolicyNames", Item::OneText("default")),
        Member("Truncated", Item::Flag(false)),
    ];
    write_object(alloc, text, &members)
}
