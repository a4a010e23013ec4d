//! The cases of HMAC-SHA-256, and of HMAC keys.

use crate::cases::Case;
use hmac_keys::{KeyKind, KindField, KindRead, kind_of, mac_of, verify_mac};
use kms_names::KeyId;
use mac_sha::{Mac, hmac256};

/// What a call of the HMAC answers.
pub fn hmac(case: &mut Case<'_>) {
    match case.word() {
        "hmac256" => {
            let key = case.bytes();
            let message = case.bytes();
            case.put_bytes(&hmac256(&key, &message));
        }
        "mac" => {
            let mut mac = Mac::new(&case.bytes());
            for part in case.word().split(' ') {
                mac.add(&case.bytes_of(part));
            }
            case.put_bytes(&mac.end());
        }
        _ => case.lose(),
    }
}

/// What a call of HMAC keys answers.
pub fn macs(case: &mut Case<'_>) {
    match case.word() {
        "mac_of" => {
            let root = case.array();
            let key = KeyId::new(case.array());
            let message = case.bytes();
            case.put_bytes(&mac_of(&root, &key, &message));
        }
        "verify_mac" => {
            let root = case.array();
            let key = KeyId::new(case.array());
            let message = case.bytes();
            let mac = case.bytes();
            case.put_truth(verify_mac(&root, &key, &message, &mac));
        }
        "kind_of" => kind(case),
        "texts" => texts(case),
        _ => case.lose(),
    }
}

// The next column as a text, where it isn't absent.
fn given<'a>(case: &mut Case<'a>) -> Option<&'a str> {
    match case.text() {
        "-" => None,
        text => Some(text),
    }
}

fn kind(case: &mut Case<'_>) {
    let usage = given(case);
    let master_spec = given(case);
    let spec = given(case);
    let read = kind_of(usage, master_spec, spec);
    match case.kept_or(read.copy(), read) {
        KindRead::Kind(kind) => put_kind(case, kind),
        KindRead::Unsupported(field) => put_refused(case, field),
    }
}

fn put_kind(case: &mut Case<'_>, kind: KeyKind) {
    let kind = case.kept_or(kind.copy(), kind);
    case.put(match kind {
        KeyKind::Symmetric => "Symmetric",
        KeyKind::Hmac256 => "Hmac256",
    });
}

fn put_refused(case: &mut Case<'_>, field: KindField) {
    let field = case.kept_or(field.copy(), field);
    case.put("refused");
    case.put(match field {
        KindField::KeyUsage => "KeyUsage",
        KindField::CustomerMasterKeySpec => "CustomerMasterKeySpec",
        KindField::KeySpec => "KeySpec",
    });
}

fn texts(case: &mut Case<'_>) {
    let kind = match case.word() {
        "Symmetric" => KeyKind::Symmetric,
        "Hmac256" => KeyKind::Hmac256,
        _ => return case.lose(),
    };
    case.put(kind.usage_text());
    case.put(kind.spec_text());
}
