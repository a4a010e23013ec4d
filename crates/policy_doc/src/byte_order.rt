// The order of an object's members.
ghost use Rattle.serde_json.specs.View.{view, items_view, members_view};
ghost use Rattle.policy_doc.specs.ByteOrder.{IsInByteOrder, AreItemsInByteOrder, AreMembersInByteOrder};

use serde_json::{Map, Value};

/// The members of each object in a value stand in byte order of their names.
///
/// It holds of every value: the function only goes through the value, and changes and answers nothing.
#[cycle(order)]
pub fn members_in_byte_order(value: &Value)
    ensures { IsInByteOrder (view value.now) }
{
    match value {
        Value::Null | Value::Bool(_) | Value::Number(_) | Value::String(_) => {}
        Value::Array(items) => items_in_byte_order(items),
        Value::Object(members) => object_in_byte_order(members),
    }
}

#[cycle(order)]
fn items_in_byte_order(items: &[Value])
    ensures { AreItemsInByteOrder (items_view items.now) }
{
    for item in items {
        members_in_byte_order(item);
    }
}

#[cycle(order)]
fn object_in_byte_order(members: &Map<String, Value>)
    ensures { AreMembersInByteOrder (members_view members.now.entries) }
{
    for (_name, member) in members.iter() {
        members_in_byte_order(member);
    }
}
