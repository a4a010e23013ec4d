//! The cases of policy documents.

use crate::cases::Case;
use crate::conditions::put_condition;
use kms_names::{TextList, write_principal};
use policy_doc::{
    Named, NamedList, Policy, PolicyFault, PolicyKind, Statement, StatementList,
    members_in_byte_order, read_policy, read_policy_value,
};
use serde_json::Value;

/// What a call of policy documents answers.
pub fn policies(case: &mut Case<'_>) {
    let call = case.word();
    let kind = read_kind(case);
    match call {
        "read_policy" => {
            let document = case.text();
            put_answer(case, read_policy(case.alloc, kind, document.as_bytes()));
        }
        "read_policy_bytes" => {
            let document = case.bytes();
            put_answer(case, read_policy(case.alloc, kind, &document));
        }
        "read_policy_value" => {
            let value = Value::from_str(case.alloc, case.text());
            let value = case.kept_or(value, Value::Null);
            members_in_byte_order(&value);
            put_answer(case, read_policy_value(case.alloc, kind, &value));
        }
        "policy" => {
            let policy = policy_of(case, kind);
            let copied = case.kept_or(policy.copy(), policy);
            put_policy(case, &copied);
        }
        _ => case.lose(),
    }
}

/// What a policy is attached to: `key` or `identity`.
pub fn read_kind(case: &mut Case<'_>) -> PolicyKind {
    match case.word() {
        "key" => PolicyKind::Key,
        "identity" => PolicyKind::Identity,
        _ => {
            case.lose();
            PolicyKind::Key
        }
    }
}

/// The policy of the next column, where that is the document of one.
pub fn policy_of(case: &mut Case<'_>, kind: PolicyKind) -> Policy {
    let policy = read_policy(case.alloc, kind, case.text().as_bytes());
    let empty = Policy {
        kind,
        statements: StatementList::new(Vec::new(case.alloc)),
    };
    case.kept_or(policy, empty)
}

/// Puts a policy or a fault.
fn put_answer(case: &mut Case<'_>, answer: Result<Policy, PolicyFault>) {
    match answer {
        Ok(policy) => put_policy(case, &policy),
        Err(PolicyFault::TooLong) => case.put("TooLong"),
        Err(PolicyFault::NotJson) => case.put("NotJson"),
        Err(PolicyFault::BadShape(path)) => {
            case.put("BadShape");
            case.put_text(" at ", path.as_str());
        }
        Err(PolicyFault::Unsupported(path)) => {
            case.put("Unsupported");
            case.put_text(" at ", path.as_str());
        }
        Err(PolicyFault::NoMemory) => case.lose(),
    }
}

/// Puts the kind of a policy, and then the parts of each statement that aren't empty.
fn put_policy(case: &mut Case<'_>, policy: &Policy) {
    case.put(match policy.kind {
        PolicyKind::Key => "key",
        PolicyKind::Identity => "identity",
    });
    for statement in policy.statements.as_slice() {
        put_statement(case, statement);
    }
}

/// Puts a statement behind other words.
fn put_statement(case: &mut Case<'_>, statement: &Statement) {
    case.put_after("; ", if statement.allow { "Allow" } else { "Deny" });
    put_principals(case, &statement.principals);
    put_part(case, "; actions ", &statement.actions);
    put_part(case, "; not actions ", &statement.not_actions);
    put_part(case, "; resources ", &statement.resources);
    put_part(case, "; not resources ", &statement.not_resources);
    for condition in statement.conditions.as_slice() {
        case.put_after("; ", "if");
        put_condition(case, condition);
    }
}

/// Puts a part of a statement behind other words, where it isn't empty.
fn put_part(case: &mut Case<'_>, mark: &str, list: &TextList) {
    if !list.as_slice().is_empty() {
        case.put_texts(mark, list);
    }
}

/// Puts those whom a statement names behind other words, where there are any.
fn put_principals(case: &mut Case<'_>, list: &NamedList) {
    let mut mark = "; to ";
    for named in list.as_slice() {
        match named {
            Named::Everyone => case.put_after(mark, "everyone"),
            Named::One(principal) => case.put_made(mark, write_principal(case.alloc, principal)),
        }
        mark = ", ";
    }
}
