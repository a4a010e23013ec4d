// The forms of texts in a policy.
ghost use Rattle.std.specs.Prelude.{◌≡◌, ◌||◌, ◌==◌, nat_eq, codes, count_by};
ghost use Rattle.std.specs.Char.{is_ascii_uppercase, is_ascii_digit};
ghost use Rattle.std.specs.List.{list_any, list_all, starts_with};
ghost use Rattle.kms_names.specs.Reading.{some_if, is_account_number};
ghost use Rattle.policy_doc.specs.Forms.{has_colon, has_variable, is_arn, is_unique_id, is_caller, departure_of, takes_scalars, takes_count};

use crate::faults::Departure;
use crate::operators::takes_value;
use cond_ops::Operator;
use kms_names::AccountNumber;

/// What a text or a list of texts stands for.
#[derive(Clone, Copy)]
pub enum Form {
    /// An action of Action or NotAction.
    Action,
    /// A resource of Resource or NotResource.
    Resource,
    /// A caller of Principal's member AWS.
    Caller,
    /// A principal that names no caller here.
    Stranger,
    /// A value that an operator of a condition compares with.
    Value(Operator),
}

fn has_colon(text: &str) -> bool
    ensures { result ≡ has_colon text.now }
{
    text.bytes().any(|byte| byte == b':')
}

fn has_variable(text: &str) -> bool
    ensures { result ≡ has_variable text.now }
{
    text.contains("${")
}

fn begins_with_arn(text: &str) -> bool
    ensures { result ≡ starts_with nat_eq text.now (codes "arn:") }
{
    text.starts_with("arn:")
}

fn colons(text: &str) -> usize
    ensures { result ≡ count_by (λ c. c == 58) text.now }
{
    text.bytes().filter(|byte| *byte == b':').count()
}

fn has_wildcard(text: &str) -> bool
    ensures { result ≡ list_any (λ c. c == 42 || c == 63) text.now }
{
    text.bytes().any(|byte| byte == b'*' || byte == b'?')
}

fn is_arn(text: &str) -> bool
    ensures { result ≡ is_arn text.now }
{
    begins_with_arn(text) && colons(text) >= 5 && !has_wildcard(text)
}

fn is_id_byte(byte: u8) -> bool
    ensures { result ≡ (is_ascii_uppercase byte || is_ascii_digit byte) }
{
    byte.is_ascii_uppercase() || byte.is_ascii_digit()
}

fn has_id_bytes(text: &str) -> bool
    ensures { result ≡ list_all (λ c. is_ascii_uppercase c || is_ascii_digit c) text.now }
{
    text.bytes().all(is_id_byte)
}

fn is_unique_id(text: &str) -> bool
    ensures { result ≡ is_unique_id text.now }
{
    16 <= text.len() && text.len() <= 128 && has_id_bytes(text)
}

/// The account number that a text is.
pub fn account(text: &str) -> Option<AccountNumber>
    ensures { result ≡ some_if (is_account_number text.now) text.now }
{
    AccountNumber::read(text)
}

fn is_caller(text: &str) -> bool
    ensures { result ≡ is_caller text.now }
{
    text == "*" || account(text).is_some() || is_arn(text) || is_unique_id(text)
}

/// How a text departs from its form.
pub fn departure(form: Form, text: &str) -> Option<Departure>
    ensures { result ≡ departure_of form text.now }
{
    match form {
        Form::Action if text == "*" || has_colon(text) => None,
        Form::Action => Some(Departure::BadShape),
        Form::Resource if has_variable(text) => Some(Departure::Unsupported),
        Form::Resource => None,
        Form::Caller if is_caller(text) => None,
        Form::Caller => Some(Departure::BadShape),
        Form::Stranger => None,
        Form::Value(_) if has_variable(text) => Some(Departure::Unsupported),
        Form::Value(operator) if takes_value(operator, text) => None,
        Form::Value(_) => Some(Departure::BadShape),
    }
}

impl Form {
    /// Whether truth values and whole numbers stand for texts.
    pub fn takes_scalars(self) -> bool
        ensures { result ≡ takes_scalars self }
    {
        matches!(self, Form::Value(_))
    }

    /// Whether a list may have so many items.
    pub fn takes_count(self, count: usize) -> bool
        ensures { result ≡ takes_count self count }
    {
        match self {
            Form::Value(Operator::NullIs) => count == 1,
            _ => count > 0,
        }
    }
}
