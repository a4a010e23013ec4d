// What the headers of a message ask.
ghost use Rattle.std.specs.Prelude.{◌≡◌};
ghost use Rattle.kms_json.specs.Asks.{AnswersFor};
ghost use Rattle.kms_names.specs.Digits.{number_in};
ghost use Rattle.http_front.specs.Message.{Message, CutsOff};
ghost use Rattle.session_front.specs.Asked.{asked_in, after_in, after_number};

use http_front::Cut;
use kms_json::{AskBody, JsonFault, read_ask};
use kms_names::decimal;
use std::alloc::Global;

/// What the header x-kms-after asks: how many entries the answer must stand on.
#[derive(Clone, Copy)]
pub enum After {
    /// At least so many, or any number where the header is absent.
    Entries(Option<u64>),
    /// The header stands twice, or isn't 1 to 18 decimal digits.
    Malformed,
}

// The longest number of x-kms-after, in digits.
const DIGITS: usize = 18;

/// What a message asks, by its one header X-Amz-Target and its body. The buffer is the one in which the
/// message was found.
pub fn asked_of(alloc: Global, cut: &Cut, buffer: &[u8]) -> Result<AskBody, JsonFault>
    requires { (m : Message) × CutsOff buffer.now cut.now m }
    ensures { (m : Message) → CutsOff buffer.now cut.now m → AnswersFor (asked_in m) result }
{
    let Some(target) = cut.header(buffer, "X-Amz-Target", 0) else {
        return Err(JsonFault::UnknownOperation);
    };
    if cut.header(buffer, "X-Amz-Target", 1).is_some() {
        return Err(JsonFault::UnknownOperation);
    }
    read_ask(alloc, target, cut.body(buffer))
}

fn number_of(value: &[u8]) -> After
    ensures { result ≡ after_number (number_in 18 value.now) }
{
    match decimal(value, DIGITS) {
        Some(number) => After::Entries(Some(number)),
        None => After::Malformed,
    }
}

/// What the header x-kms-after of a message asks. The buffer is the one in which the message was found.
pub fn after_of(cut: &Cut, buffer: &[u8]) -> After
    requires { (m : Message) × CutsOff buffer.now cut.now m }
    ensures { (m : Message) → CutsOff buffer.now cut.now m → result ≡ after_in m }
{
    let Some(value) = cut.header(buffer, "x-kms-after", 0) else {
        return After::Entries(None);
    };
    if cut.header(buffer, "x-kms-after", 1).is_some() {
        return After::Malformed;
    }
    number_of(value)
}
