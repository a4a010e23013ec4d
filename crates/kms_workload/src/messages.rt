// The messages of a workload.
ghost use Rattle.std.specs.Prelude.{◌≡◌, ◌++◌, IfOk, OnOk, string_bytes, length};
ghost use Rattle.kms_workload.specs.Workload.{head_text, message_of, workload_of, asked_at};

use crate::requests::request_at;
use kms_names::NoMemory;
use std::alloc::Global;

// The head of a message with a body of so many bytes (RFC 9112, section 2.1).
fn head(alloc: Global, operation: &str, size: usize) -> Result<String, NoMemory>
    ensures { IfOk result (λ head. string_bytes head ≡ head_text operation.now size) }
{
    Ok(format!(in alloc;
        "POST / HTTP/1.1\r\nHost: localhost\r\nContent-Type: application/x-amz-json-1.1\r\nX-Amz-Target: TrentService.{operation}\r\nContent-Length: {size}\r\n\r\n"
    )?)
}

// Writes the message of this number behind those before.
fn add_message(
    alloc: Global,
    messages: &mut Vec<u8>,
    seed: u64,
    number: u32,
) -> Result<(), NoMemory>
    ensures { OnOk result (messages.new.items ≡ messages.old.items ++ message_of (asked_at seed number)) }
{
    let request = request_at(alloc, seed, number)?;
    let head = head(alloc, request.operation, request.body.len())?;
    messages.extend_from_slice(head.as_bytes())?;
    messages.extend_from_slice(&request.body)?;
    Ok(())
}

/// The first so many messages of the workload of this seed, one behind another, of up to 600 bytes each.
pub fn messages(alloc: Global, seed: u64, requests: u32) -> Result<Vec<u8>, NoMemory>
    ensures { IfOk result (λ messages. messages.items ≡ workload_of seed requests) }
{
    let mut messages = Vec::new(alloc);
    for number in 0..requests {
        add_message(alloc, &mut messages, seed, number)?;
    }
    Ok(messages)
}
