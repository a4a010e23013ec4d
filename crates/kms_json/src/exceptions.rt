// Exceptions' names, texts and bodies.
ghost use Rattle.std.specs.Prelude.{◌≡◌, IfOk, string_bytes};
ghost use Rattle.kms_json.specs.declared.refusals.Refusal.TheVariants as refusal;
ghost use Rattle.kms_json.specs.Exceptions.{exception, exception_text, fixed_text, missing_word, limit_word, unsupported_name, refusal_data};
ghost use Rattle.kms_json.specs.Texts.{Writes};

use crate::objects::{Item, Member, write_object};
use crate::refusals::{Limit, Missing, PolicyFlaw, Refusal, Unsupported};
use crate::states::KeyState;
use crate::texts::JsonText;
use kms_names::{Action, NoMemory, Principal, write_principal};
use std::alloc::Global;

fn write_exception<'a>(
    alloc: Global,
    text: &mut JsonText,
    name: &'a str,
    message: &'a str,
) -> Result<(), NoMemory>
    ensures { Writes result text.old text.new (exception name.now message.now) }
{
    let members = [
        Member("__type", Item::Text(name)),
        Member("message", Item::Text(message)),
    ];
    write_object(alloc, text, &members)
}

fn word_of_missing(what: Missing) -> &'static str
    ensures { result.now ≡ missing_word what }
{
    match what {
        Missing::Key => "key",
        Missing::Alias => "alias",
        Missing::Grant => "grant",
    }
}

fn word_of_limit(what: Limit) -> &'static str
    ensures { result.now ≡ limit_word what }
{
    match what {
        Limit::Keys => "keys",
        Limit::KeyGrants => "key grants",
        Limit::Grants => "grants",
        Limit::Aliases => "aliases",
        Limit::Rotations => "rotations",
        Limit::Tags => "tags",
        Limit::Ivs => "ivs",
        Limit::Draws => "draws",
        Limit::Entries => "entries",
        Limit::Bytes => "bytes",
    }
}

fn name_of_unsupported(field: Unsupported) -> &'static str
    ensures { result.now ≡ unsupported_name field }
{
    match field {
        Unsupported::KeyUsage => "KeyUsage",
        Unsupported::CustomerMasterKeySpec => "CustomerMasterKeySpec",
        Unsupported::KeySpec => "KeySpec",
        Unsupported::Origin => "Origin",
        Unsupported::CustomKeyStoreId => "CustomKeyStoreId",
        Unsupported::MultiRegion => "MultiRegion",
        Unsupported::XksKeyId => "XksKeyId",
        Unsupported::Recipient => "Recipient",
        Unsupported::KeyId => "KeyId",
    }
}

// The text of a history that has fewer entries than are wanted.
fn timeout_text(alloc: Global, entries: u64, wanted: u64) -> Result<String, NoMemory>
    ensures { IfOk result (λ t. string_bytes t ≡ exception_text (refusal.DependencyTimeout entries wanted)) }
{
    Ok(format!(in alloc; "The history has {entries} entries; {wanted} were asked for.")?)
}

// The text of a caller who may not do what was asked.
fn denied_text(
    alloc: Global,
    caller: &Principal,
    action: Action,
    resource: &str,
) -> Result<String, NoMemory>
    ensures { IfOk result (λ t. string_bytes t ≡ exception_text (refusal.AccessDenied caller.now action resource.now)) }
{
    let caller = write_principal(alloc, caller)?;
    let caller = caller.as_str();
    let action = action.name();
    Ok(format!(in alloc;
        "User: {caller} is not authorized to perform: kms:{action} on resource: {resource}"
    )?)
}

// The text of a key that is disabled.
fn disabled_text(alloc: Global, arn: &str) -> Result<String, NoMemory>
    ensures { IfOk result (λ t. string_bytes t ≡ exception_text (refusal.Disabled arn.now)) }
{
    Ok(format!(in alloc; "{arn} is disabled.")?)
}

// The text of a key whose state is none in which the operation is served.
fn state_text(alloc: Global, arn: &str, state: KeyState) -> Result<String, NoMemory>
    ensures { IfOk result (λ t. string_bytes t ≡ exception_text (refusal.InvalidState arn.now state)) }
{
    let state = state.name();
    Ok(format!(in alloc; "{arn} is {state}.")?)
}

// What is wrong with a policy.
fn text_of_flaw(alloc: Global, flaw: &PolicyFlaw) -> Result<String, NoMemory>
    ensures { IfOk result (λ t. string_bytes t ≡ exception_text (refusal.MalformedPolicy flaw.now)) }
{
    let text = match flaw {
        PolicyFlaw::TooLong => String::from_str(alloc, "Policy: TooLong.")?,
        PolicyFlaw::NotJson => String::from_str(alloc, "Policy: NotJson.")?,
        PolicyFlaw::BadShape(path) => {
            let path = path.as_str();
            format!(in alloc; "Policy: BadShape at {path}.")?
        }
        PolicyFlaw::Unsupported(path) => {
            let path = path.as_str();
            format!(in alloc; "Policy: Unsupported at {path}.")?
        }
        PolicyFlaw::Lockout => String::from_str(alloc, "Policy: lockout.")?,
    };
    Ok(text)
}

// The text of an exception that says nothing of its request; the empty text for the others.
fn fixed_text_of(refusal: &Refusal) -> &'static str
    ensures { result.now ≡ fixed_text refusal.now }
{
    match refusal {
        Refusal::MissingAuthentication => "The request carries no Authorization header.",
        Refusal::IncompleteSignature => "The signature is not complete.",
        Refusal::UnrecognizedClient => "The access key is not known.",
        Refusal::RequestExpired => "The request is outside the time window.",
        Refusal::InvalidSignature => "The signature does not match.",
        Refusal::UnknownOperation => "X-Amz-Target names no operation of this service.",
        Refusal::Serialization => "The body is not the JSON that the operation takes.",
        Refusal::InvalidAliasName => "The alias name is not valid.",
        Refusal::InvalidArn => "The ARN is not valid.",
        Refusal::InvalidGrantId => "The grant id is not valid.",
        Refusal::InvalidCiphertext => "The ciphertext does not open.",
        Refusal::IncorrectKey => "The ciphertext is of another key.",
        Refusal::InvalidGrantToken => "A grant token names no live grant.",
        Refusal::InvalidKeyUsage => "The algorithm does not fit the key.",
        Refusal::InvalidMac => "The MAC is not valid.",
        Refusal::AlreadyExists => "The alias exists.",
        Refusal::InvalidMarker => "The marker is not valid.",
        Refusal::InvalidTags => "The tags are not valid.",
        Refusal::DryRun => "The call would have been allowed.",
        _ => "",
    }
}

fn text_of(alloc: Global, refusal: &Refusal) -> Result<String, NoMemory>
    ensures { IfOk result (λ t. string_bytes t ≡ exception_text refusal.now) }
{
    let text = match refusal {
        Refusal::Validation(field) => {
            let field = field.as_str();
            format!(in alloc; "Field {field} is not valid.")?
        }
        Refusal::DependencyTimeout { entries, wanted } => timeout_text(alloc, *entries, *wanted)?,
        Refusal::NotFound(what) => {
            let word = word_of_missing(*what);
            format!(in alloc; "Not found: {word}.")?
        }
        Refusal::AccessDenied {
            caller,
            action,
            resource,
        } => denied_text(alloc, caller, *action, resource.as_str())?,
        Refusal::Disabled(arn) => disabled_text(alloc, arn.as_str())?,
        Refusal::InvalidState { arn, state } => state_text(alloc, arn.as_str(), *state)?,
        Refusal::UnsupportedOperation(field) => {
            let field = name_of_unsupported(*field);
            format!(in alloc; "Field {field} is not supported.")?
        }
        Refusal::MalformedPolicy(flaw) => text_of_flaw(alloc, flaw)?,
        Refusal::LimitExceeded(what) => {
            let word = word_of_limit(*what);
            format!(in alloc; "Limit reached: {word}.")?
        }
        _ => String::from_str(alloc, fixed_text_of(refusal))?,
    };
    Ok(text)
}

/// The body of a reply that refuses.
pub fn write_refusal(alloc: Global, text: &mut JsonText, refusal: &Refusal) -> Result<(), NoMemory>
    ensures { Writes result text.old text.new (refusal_data refusal.now) }
{
    let message = text_of(alloc, refusal)?;
    write_exception(alloc, text, refusal.exception(), message.as_str())
}
