// Requests' bodies, read in the order in which they are judged.
ghost use Rattle.std.specs.Prelude.{◌≡◌, IfOk, Err};
ghost use Rattle.std.specs.Option.{option_map};
ghost use Rattle.serde_json.specs.View.{view};
ghost use Rattle.kms_json.specs.Asks.{body_data, asked, asked_of_values, AnswersFor};
ghost use Rattle.kms_json.specs.Fields.{values_of, refused_by};
ghost use Rattle.kms_json.specs.Operations.{fields_of};

use crate::asks::{AskBody, JsonFault};
use crate::building::asked_from;
use crate::fields::{FieldFault, first_fault, read_values};
use crate::operations::{Operation, fields, operation_of};
use kms_names::{NoMemory, Text};
use serde_json::{Map, Value};
use std::alloc::Global;

// The value of a body, if it is JSON.
fn read_body(alloc: Global, body: &[u8]) -> Result<Option<Value>, NoMemory>
    ensures { IfOk result (λ value. option_map (λ v. view v) value ≡ body_data body.now) }
{
    if body.is_empty() {
        return Ok(Some(Value::Object(Map::new(alloc))));
    }
    match Value::from_slice(alloc, body) {
        Ok(value) => Ok(Some(value)),
        Err(fault) if fault.is_memory() => Err(NoMemory),
        Err(_) => Ok(None),
    }
}

// What a field's fault is answered, or want of memory.
fn refused(alloc: Global, fault: FieldFault) -> JsonFault
    ensures { AnswersFor (Err (refused_by fault)) (Err result) }
{
    match fault {
        FieldFault::Field(name) => match Text::from_str(alloc, name) {
            Ok(field) => JsonFault::Validation(field),
            Err(NoMemory) => JsonFault::NoMemory,
        },
        FieldFault::AliasName => JsonFault::AliasName,
    }
}

// What an object asks of an operation.
fn asked_of_object(alloc: Global, operation: Operation, body: &Value) -> Result<AskBody, JsonFault>
    ensures { AnswersFor (asked_of_values operation (view body.now) (values_of (fields_of operation) (view body.now))) result }
{
    let fields = fields(operation);
    let Some(values) = read_values(alloc, fields, body)? else {
        return Err(JsonFault::Serialization);
    };
    if let Some(fault) = first_fault(fields, body, &values) {
        return Err(refused(alloc, fault));
    }
    Ok(asked_from(alloc, operation, values))
}

/// What a request asks whose header X-Amz-Target has the value `target` (AWS KMS API Reference,
/// JSON protocol 1.1).
///
/// The first of these that holds decides: the target names no operation that is built
/// (`UnknownOperation`); the body is no JSON object nested at most 127 deep, or a known member
/// that is given has another type (`Serialization`); a field isn't valid (`Validation` with its
/// name, or `AliasName` for an alias name that isn't one, for the first in the operation's
/// order of fields). No bytes read as `{}`, null counts as absent, and unknown members are passed
/// over. Want of memory may replace each answer.
pub fn read_ask(alloc: Global, target: &[u8], body: &[u8]) -> Result<AskBody, JsonFault>
    ensures { AnswersFor (asked target.now body.now) result }
{
    let Some(operation) = operation_of(target) else {
        return Err(JsonFault::UnknownOperation);
    };
    let Some(value) = read_body(alloc, body)? else {
        return Err(JsonFault::Serialization);
    };
    if !value.is_object() {
        return Err(JsonFault::Serialization);
    }
    asked_of_object(alloc, operation, &value)
}
