//! The cases of signed messages.

use crate::cases::Case;
use http_front::{Step, next_message};
use kms_names::{Principal, read_principal, write_principal};
use sigv4_check::{AuthFault, Credential, CredentialList, KeptKey, check, check_with, signing_key};

/// What a call of signatures answers.
pub fn signatures(case: &mut Case<'_>) {
    match case.word() {
        "signing_key" => {
            let secret = case.text();
            let date = case.text();
            let region = case.text();
            let service = case.text();
            let key = signing_key(case.alloc, secret, date, region, service);
            let key = case.kept_or(key, [0; 32]);
            case.put_bytes(&key);
        }
        "check" => signer(case, None),
        "check_with" => {
            let messages: u8 = case.number();
            let mut kept = KeptKey::new();
            for _ in 0..messages {
                signer(case, Some(&mut kept));
            }
        }
        _ => case.lose(),
    }
}

/// Who signed the message of the next columns, where this key is kept, if any is.
fn signer(case: &mut Case<'_>, kept: Option<&mut KeptKey>) {
    let message = read_message(case);
    let credentials = read_credentials(case);
    let region = case.text();
    let clock = case.number();
    let buffer = message.as_bytes();
    let list = credentials.as_slice();
    match next_message(buffer) {
        Step::Message(cut) => {
            let signer = match kept {
                Some(kept) => check_with(case.alloc, kept, &cut, buffer, list, region, clock),
                None => check(case.alloc, &cut, buffer, list, region, clock),
            };
            put_signer(case, signer);
        }
        _ => case.lose(),
    }
}

fn put_signer(case: &mut Case<'_>, signer: Result<Principal, AuthFault>) {
    match signer {
        Ok(signer) => case.put_made(" ", write_principal(case.alloc, &signer)),
        Err(why) => put_fault(case, why),
    }
}

fn put_fault(case: &mut Case<'_>, why: AuthFault) {
    match why {
        AuthFault::NoAuth => case.put("NoAuth"),
        AuthFault::Incomplete => case.put("Incomplete"),
        AuthFault::UnknownKey => case.put("UnknownKey"),
        AuthFault::Expired => case.put("Expired"),
        AuthFault::BadSignature => case.put("BadSignature"),
        AuthFault::NoMemory => case.lose(),
    }
}

/// The credentials of the next column: each its id, its secret and its principal's ARN, with a space between two.
fn read_credentials(case: &mut Case<'_>) -> CredentialList {
    let mut credentials = CredentialList::empty(case.alloc);
    for item in case.word().split(", ") {
        let (id, rest) = case.found(item.split_once(' ')).unwrap_or(("", ""));
        let (secret, arn) = case.found(rest.split_once(' ')).unwrap_or(("", ""));
        let principal = read_principal(case.alloc, arn);
        if let Some(principal) = case.kept(principal) {
            let credential = Credential {
                id: case.owned(id),
                secret: case.owned(secret),
                principal,
            };
            if credentials.has_id(credential.id.as_str()) {
                case.lose();
            } else {
                case.require(credentials.insert(credential).is_ok());
            }
        }
    }
    credentials
}

/// The message of the next column, in which `\n` stands for a CR and a LF, and `\t` for a tab.
fn read_message(case: &mut Case<'_>) -> String {
    let lines = case.word().replace(case.alloc, "\\n", "\r\n");
    let lines = case.kept_or(lines, String::new(case.alloc));
    let message = lines.as_str().replace(case.alloc, "\\t", "\t");
    case.kept_or(message, String::new(case.alloc))
}
