// What each message asks.
ghost use Rattle.std.specs.Prelude.{◌≡◌, ◌≤◌, IfOk, false};
ghost use Rattle.serde_json.specs.View.{view};
ghost use Rattle.serde_json.specs.Written.{has_float};
ghost use Rattle.kms_workload.specs.Requests.{switch_of, IsRequest, asked_of};
ghost use Rattle.kms_workload.specs.Workload.{asked_at};

use crate::bodies::{data_key_body, decrypt_body, encrypt_body, grant_body, key_body, list_body};
use crate::facts::key_id;
use crate::words::{Words, words_of};
use kms_names::{NoMemory, key_text};
use serde_json::{Map, Value};
use std::alloc::Global;

/// How many messages make a key each, before any other comes.
pub const KEYS: u32 = 8;

/// An operation with its body in compact JSON.
#[derive(Drop)]
pub struct Request {
    pub operation: &'static str,
    pub body: Vec<u8>,
}

// The operation that the third word chooses.
fn switch(third: u32) -> &'static str
    ensures { result.now ≡ switch_of third }
{
    if third % 2 == 0 {
        "EnableKey"
    } else {
        "DisableKey"
    }
}

// An operation with this body.
fn written(alloc: Global, operation: &'static str, body: Value) -> Result<Request, NoMemory>
    requires { has_float (view body) ≡ false }
    ensures { IfOk result (IsRequest (record { operation = operation.now; body = view body })) }
{
    Ok(Request {
        operation,
        body: body.to_vec(alloc)?,
    })
}

// What these words have the message of this number ask.
fn request_by(alloc: Global, number: u32, words: Words) -> Result<Request, NoMemory>
    ensures { IfOk result (IsRequest (asked_of number words)) }
{
    let key = key_id(u64::from(words.first % KEYS));
    let id = key_text(alloc, &key)?;
    let id = id.as_str();
    match words.second % 8 {
        0 => written(alloc, "Encrypt", encrypt_body(alloc, id, number)?),
        1 => written(alloc, "Decrypt", decrypt_body(alloc, &key, number)?),
        2 => written(alloc, "GenerateDataKey", data_key_body(alloc, id)?),
        3 => written(alloc, "RotateKeyOnDemand", key_body(alloc, id)?),
        4 => written(alloc, "DescribeKey", key_body(alloc, id)?),
        5 => written(alloc, "CreateGrant", grant_body(alloc, id, number)?),
        6 => written(alloc, "ListGrants", list_body(alloc, id)?),
        _ => written(alloc, switch(words.third), key_body(alloc, id)?),
    }
}

/// What the message of this number asks: the first eight make a key each, and the later ones ask what
/// their words choose.
pub fn request_at(alloc: Global, seed: u64, number: u32) -> Result<Request, NoMemory>
    ensures { IfOk result (IsRequest (asked_at seed number)) }
{
    if number < KEYS {
        written(alloc, "CreateKey", Value::Object(Map::new(alloc)))
    } else {
        request_by(alloc, number, words_of(seed, number))
    }
}
