// The bodies of messages, in compact JSON.
ghost use Rattle.std.specs.Prelude.{◌≡◌, IfOk, string_bytes, decimal};
ghost use Rattle.serde_json.specs.View.{view};
ghost use Rattle.serde_json.specs.Written.{compact_text};
ghost use Rattle.base64.specs.Engines.{standard};
ghost use Rattle.base64.specs.GeneralPurpose.{encode_of};
ghost use Rattle.draw_lines.specs.Iv.{iv_at};
ghost use Rattle.kms_workload.specs.Requests.{text_of, context_data, pairs_of, blob_of, encrypts, decrypts, asks_data_key, names_key, grant_name, grants, lists_grants};

use crate::facts::{BOOT, ROOT};
use base64::engine::general_purpose::STANDARD;
use crypto_ops::seal_blob;
use enc_context::{Context, Pair};
use kms_names::{Bytes, KeyId, NoMemory, Text};
use serde_json::{Value, json};
use std::alloc::Global;

// The number of a pass that no service has.
const NO_PASS: u16 = 65_535;

// The text that a message encrypts.
fn text(number: u32) -> [u8; 8]
    ensures { result ≡ text_of number }
{
    u64::from(number).to_be_bytes()
}

// The context of a message, as JSON.
fn context_value(alloc: Global, number: u32) -> Result<Value, NoMemory>
    ensures { IfOk result (λ v. view v ≡ context_data number) }
{
    let digits = format!(in alloc; "{number}")?;
    let digits = digits.as_str();
    Ok(json!(in alloc; {"n": digits})?)
}

// The context of a message.
fn context(alloc: Global, number: u32) -> Result<Context, NoMemory>
    ensures { IfOk result (λ context. context ≡ pairs_of number) }
{
    let pair = Pair {
        key: Text::from_str(alloc, "n")?,
        value: Text::from_string(format!(in alloc; "{number}")?),
    };
    let mut pairs = Vec::new(alloc);
    pairs.push(pair)?;
    match Context::from_pairs(alloc, pairs) {
        Ok(context) => Ok(context),
        Err(_) => Err(NoMemory),
    }
}

// The vector that seals the blob of a message (SP 800-38D, section 8.2.1).
#[tactic(auto, unfolding(draw_lines::specs::Iv::iv_at))]
fn vector(number: u32) -> [u8; 12]
    ensures { result ≡ iv_at 1 65535 number }
{
    let [b0, b1, b2, b3] = BOOT.to_be_bytes();
    let [p0, p1] = NO_PASS.to_be_bytes();
    let [_, _, c0, c1, c2, c3, c4, c5] = u64::from(number).to_be_bytes();
    [b0, b1, b2, b3, p0, p1, c0, c1, c2, c3, c4, c5]
}

// The blob that a message has opened.
fn blob(alloc: Global, key: &KeyId, number: u32) -> Result<Bytes, NoMemory>
    ensures { IfOk result (λ blob. blob ≡ blob_of key.now number) }
{
    let context = context(alloc, number)?;
    seal_blob(
        alloc,
        &ROOT,
        key,
        1,
        &vector(number),
        &context,
        &text(number),
    )
}

/// The body of Encrypt.
pub fn encrypt_body(alloc: Global, id: &str, number: u32) -> Result<Value, NoMemory>
    ensures { IfOk result (λ v. view v ≡ encrypts id.now number) }
{
    let context = context_value(alloc, number)?;
    let text = STANDARD.encode(alloc, &text(number))?;
    let text = text.as_str();
    Ok(json!(in alloc; {"EncryptionContext": context, "KeyId": id, "Plaintext": text})?)
}

/// The body of Decrypt.
pub fn decrypt_body(alloc: Global, key: &KeyId, number: u32) -> Result<Value, NoMemory>
    ensures { IfOk result (λ v. view v ≡ decrypts key.now number) }
{
    let context = context_value(alloc, number)?;
    let blob = blob(alloc, key, number)?;
    let blob = STANDARD.encode(alloc, blob.as_slice())?;
    let blob = blob.as_str();
    Ok(json!(in alloc; {"CiphertextBlob": blob, "EncryptionContext": context})?)
}

/// The body of GenerateDataKey.
pub fn data_key_body(alloc: Global, id: &str) -> Result<Value, NoMemory>
    ensures { IfOk result (λ v. view v ≡ asks_data_key id.now) }
{
    Ok(json!(in alloc; {"KeyId": id, "KeySpec": "AES_256"})?)
}

/// The body of an operation that is told a key alone.
pub fn key_body(alloc: Global, id: &str) -> Result<Value, NoMemory>
    ensures { IfOk result (λ v. view v ≡ names_key id.now) }
{
    Ok(json!(in alloc; {"KeyId": id})?)
}

/// The body of CreateGrant.
pub fn grant_body(alloc: Global, id: &str, number: u32) -> Result<Value, NoMemory>
    ensures { IfOk result (λ v. view v ≡ grants id.now number) }
{
    let of_fifty = number % 50;
    let name = format!(in alloc; "g{of_fifty}")?;
    let name = name.as_str();
    Ok(json!(in alloc; {
        "GranteePrincipal": "arn:aws:iam::111122223333:user/load",
        "KeyId": id,
        "Name": name,
        "Operations": ["Decrypt"]
    })?)
}

/// The body of ListGrants.
pub fn list_body(alloc: Global, id: &str) -> Result<Value, NoMemory>
    ensures { IfOk result (λ v. view v ≡ lists_grants id.now) }
{
    Ok(json!(in alloc; {"KeyId": id, "Limit": 100})?)
}
