//! Which kind of key a request asks for.

ghost use Rattle.std.specs.Prelude.{◌≡◌, IsTrue, IfOk, IfErr, OnErr, option_copied, option_map};
ghost use Rattle.hmac_keys.specs.Kind.{usage_text, spec_text, text_in};
ghost use Rattle.hmac_keys.specs.Asked.{kind_of, kind_named, answer_of, names_none};

use crate::kinds::{KeyKind, KindField, KindRead};

/// The kind of the key that a CreateKey asks for by its KeyUsage, its CustomerMasterKeySpec and its
/// KeySpec, each absent or a text (AWS KMS API Reference, CreateKey). An absent usage is
/// `ENCRYPT_DECRYPT`. One spec speaks for both, and where both are absent it is `SYMMETRIC_DEFAULT`.
///
/// Unsupported is, the first that applies: KeyUsage, where it is no kind's usage;
/// CustomerMasterKeySpec, and then KeySpec, where it is no kind's spec; KeySpec, where the two specs
/// differ; KeyUsage, where it isn't the usage of the spec's kind. No memory is taken.
pub fn kind_of(usage: Option<&str>, master_spec: Option<&str>, spec: Option<&str>) -> KindRead
    ensures { result
        ≡ kind_of (option_copied usage.entry) (option_copied master_spec.entry) (option_copied spec.entry) }
{
    match read(usage, master_spec, spec) {
        Ok(kind) => KindRead::Kind(kind),
        Err(field) => KindRead::Unsupported(field),
    }
}

/// The kind, or the field that is refused.
fn read(
    usage: Option<&str>,
    master_spec: Option<&str>,
    spec: Option<&str>,
) -> Result<KeyKind, KindField>
    ensures { answer_of result
        ≡ kind_of (option_copied usage.entry) (option_copied master_spec.entry) (option_copied spec.entry) }
{
    let usage = read_field(KindField::KeyUsage, usage)?;
    let master_spec = read_field(KindField::CustomerMasterKeySpec, master_spec)?;
    let spec = read_field(KindField::KeySpec, spec)?;
    agreed(usage, master_spec, spec)
}

/// The kind that a field names, where it is given; the field, where it names none.
fn read_field(field: KindField, text: Option<&str>) -> Result<Option<KeyKind>, KindField>
    ensures named { IfOk result (λ kind. option_copied text.entry ≡ option_map (text_in field) kind) }
    ensures none { IfErr result (λ refused. refused ≡ field) }
    ensures unknown { OnErr result (IsTrue (names_none field (option_copied text.entry))) }
{
    match text {
        Some(text) => match kind_named(field, text) {
            Some(kind) => Ok(Some(kind)),
            None => Err(field),
        },
        None => Ok(None),
    }
}

/// The kind whose text in a field this is.
fn kind_named(field: KindField, text: &str) -> Option<KeyKind>
    ensures { result ≡ kind_named field text.now }
{
    KeyKind::ALL
        .into_iter()
        .find(|kind| text == field.text_of(*kind))
}

/// The kind of a usage and of two specs, where each is absent or a kind's.
fn agreed(
    usage: Option<KeyKind>,
    master_spec: Option<KeyKind>,
    spec: Option<KeyKind>,
) -> Result<KeyKind, KindField>
    ensures { answer_of result
        ≡ kind_of (option_map usage_text usage) (option_map spec_text master_spec) (option_map spec_text spec) }
{
    let usage = usage.unwrap_or(KeyKind::Symmetric);
    let one_spec = spec.or(master_spec).unwrap_or(KeyKind::Symmetric);
    if master_spec.unwrap_or(one_spec) != one_spec {
        Err(KindField::KeySpec)
    } else if usage != one_spec {
        Err(KindField::KeyUsage)
    } else {
        Ok(one_spec)
    }
}
