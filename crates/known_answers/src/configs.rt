//! The cases of configurations.

use crate::cases::Case;
use kms_config::{Config, ConfigFault, read_config};
use kms_names::write_principal;

/// What a call of configurations answers.
pub fn configs(case: &mut Case<'_>) {
    match case.word() {
        "read_config" => {
            let text = case.word();
            answer(case, text.as_bytes());
        }
        "padded" => padded(case),
        _ => case.lose(),
    }
}

// The text with spaces behind it, so that it has so many bytes.
fn padded(case: &mut Case<'_>) {
    let text = case.word().as_bytes();
    let spaces = case.number::<u64>().saturating_sub(text.len() as u64);
    let mut bytes = Vec::new(case.alloc);
    case.require(bytes.extend_from_slice(text).is_ok());
    for _ in 0..spaces {
        case.require(bytes.push(b' ').is_ok());
    }
    answer(case, &bytes);
}

fn answer(case: &mut Case<'_>, bytes: &[u8]) {
    match read_config(case.alloc, bytes) {
        Ok(config) => put_config(case, &config),
        Err(ConfigFault::At(place)) => case.put(place.as_str()),
        Err(ConfigFault::NoMemory) => case.lose(),
    }
}

// The facts; the credentials, each as its id, its secret and its principal's ARN; the principals with policies, each as
// its ARN and how many policies it has; and of how many documents the ceiling is, if there is one.
fn put_config(case: &mut Case<'_>, config: &Config) {
    let facts = &config.facts;
    case.put("ok");
    case.put(facts.account.as_str());
    case.put(facts.region.as_str());
    case.put_bytes(&facts.root);
    case.put_number(u64::from(facts.boot));
    let mut mark = "; ";
    for credential in config.credentials.as_slice() {
        case.put_after(mark, credential.id.as_str());
        case.put(credential.secret.as_str());
        case.put_made(" ", write_principal(case.alloc, &credential.principal));
        mark = ", ";
    }
    if config.credentials.as_slice().is_empty() {
        case.put_after("; ", "-");
    }
    mark = "; ";
    for identity in facts.identities.as_slice() {
        case.put_made(mark, write_principal(case.alloc, &identity.principal));
        case.put_number(identity.policies.as_slice().len() as u64);
        mark = ", ";
    }
    if facts.identities.as_slice().is_empty() {
        case.put_after("; ", "-");
    }
    let documents = facts.ceiling.as_slice().len();
    if documents != 0 {
        case.put_after("; ", "ceiling");
        case.put_number(documents as u64);
    }
}
