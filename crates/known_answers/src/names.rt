//! The cases of names: accounts, principals, keys, grants, aliases, references and operations.

use crate::cases::Case;
use kms_names::{
    AccountNumber, Action, ActionSet, Bytes, GrantId, GrantOp, GrantOps, KeyId, KeyRef, NameFault,
    Principal, Text, alias_arn, grant_text, grant_text_into, is_alias_name, is_behind, is_region,
    key_arn, key_text, key_text_into, principal_len, read_alias, read_grant_id, read_key_id,
    read_key_ref, read_principal, write_principal,
};
use std::cmp::Ordering;

/// What a call of names answers.
pub fn names(case: &mut Case<'_>) {
    let call = case.word();
    match call {
        "account" => account(case),
        "is_region" => {
            let text = case.text();
            case.put_truth(is_region(text));
        }
        "is_alias_name" => {
            let text = case.text();
            case.put_truth(is_alias_name(text));
        }
        "read_alias" => alias(case),
        "read_key_ref" => reference(case),
        "read_principal" => principal(case),
        "write_principal" | "principal_len" | "account_of" => of_parts(case, call),
        "key_arn" | "alias_arn" => arn(case, call),
        _ => ids(case, call),
    }
}

/// What a call of ids answers.
fn ids(case: &mut Case<'_>, call: &str) {
    match call {
        "read_key_id" => match read_key_id(case.text()) {
            Some(key) => {
                let copied = case.kept_or(key.copy(), key);
                case.put_bytes(copied.as_bytes());
            }
            None => case.put("none"),
        },
        "key_text" => {
            let key = KeyId::new(case.array());
            case.put_made(" ", key_text(case.alloc, &key));
        }
        "key_text_into" => {
            let key = KeyId::new(case.array());
            case.put(key_text_into(&key, &mut [0; 36]));
        }
        "read_grant_id" => match read_grant_id(case.text()) {
            Some(grant) => {
                let copied = case.kept_or(grant.copy(), grant);
                case.put_bytes(copied.as_bytes());
            }
            None => case.put("none"),
        },
        "grant_text" => {
            let grant = GrantId::new(case.array());
            case.put_made(" ", grant_text(case.alloc, &grant));
        }
        "grant_text_into" => {
            let grant = GrantId::new(case.array());
            case.put(grant_text_into(&grant, &mut [0; 64]));
        }
        _ => operations(case, call),
    }
}

/// What a call of operations answers.
fn operations(case: &mut Case<'_>, call: &str) {
    match call {
        "action" => action(case),
        "grant_op" => match GrantOp::read(case.text()) {
            Some(op) => {
                let copied = case.kept_or(op.copy(), op);
                case.put(copied.name());
                case.put(copied.action().name());
            }
            None => case.put("none"),
        },
        "named_ops" => {
            let names = case.texts();
            put_set(case, &GrantOps::named(names.as_slice()));
        }
        "grant_ops" => {
            let set = read_set(case);
            put_set(case, &set);
        }
        "is_subset" => {
            let inner = read_set(case);
            let outer = read_set(case);
            case.put_truth(inner.is_subset(&outer));
        }
        "is_behind" => {
            let after = read_place(case);
            let born = case.number();
            case.put_truth(is_behind(after, born));
        }
        _ => action_sets(case, call),
    }
}

/// The place that the next column stands for: `-` is none.
fn read_place(case: &mut Case<'_>) -> Option<u64> {
    match case.word() {
        "-" => None,
        word => Some(case.number_of(word)),
    }
}

/// What a call of sets of actions answers.
fn action_sets(case: &mut Case<'_>, call: &str) {
    match call {
        "actions_like" => {
            let patterns = case.texts();
            put_actions(case, &ActionSet::like(&patterns));
        }
        "is_like" => {
            let pattern = case.text();
            let action = read_action(case);
            case.put_truth(action.is_like(pattern));
        }
        "complement" => {
            let set = read_actions(case);
            put_actions(case, &set.complement());
        }
        "union" => {
            let left = read_actions(case);
            let right = read_actions(case);
            put_actions(case, &left.union(right));
        }
        _ => values(case, call),
    }
}

/// What a call of texts, of bytes and of lists of texts answers.
fn values(case: &mut Case<'_>, call: &str) {
    match call {
        "text" => {
            let text = case.owned_text();
            let copied = case.kept_text(text.copy());
            if copied == text {
                case.put_text(" ", copied.as_str());
            } else {
                case.put("another copy");
            }
        }
        "bytes" => copied_bytes(case),
        "texts" => {
            let list = case.texts();
            let copied = case.kept_or(list.copy(), list);
            case.put_texts(" ", &copied);
        }
        "order" => order(case),
        _ => case.lose(),
    }
}

fn put_fault(case: &mut Case<'_>, fault: NameFault) {
    match fault {
        NameFault::BadArn => case.put("BadArn"),
        NameFault::BadAlias => case.put("BadAlias"),
        NameFault::BadId => case.put("BadId"),
        NameFault::NoMemory => case.lose(),
    }
}

fn account(case: &mut Case<'_>) {
    match AccountNumber::read(case.text()) {
        Some(account) => {
            let copied = case.kept_or(account.copy(), account);
            case.put(copied.as_str());
        }
        None => case.put("none"),
    }
}

fn alias(case: &mut Case<'_>) {
    match read_alias(case.alloc, case.text()) {
        Ok(alias) => {
            let copied = case.kept_or(alias.copy(), alias);
            case.put(copied.as_str());
        }
        Err(fault) => put_fault(case, fault),
    }
}

/// The account whose number is the next column.
fn read_account(case: &mut Case<'_>) -> Option<AccountNumber> {
    let account = AccountNumber::read(case.word());
    case.found(account)
}

fn reference(case: &mut Case<'_>) {
    let text = case.text();
    let account = read_account(case);
    let region = case.word();
    if let Some(account) = account {
        match read_key_ref(case.alloc, text, &account, region) {
            Ok(reference) => {
                let copied = case.kept_or(reference.copy(), KeyRef::Elsewhere);
                if copied == reference {
                    put_reference(case, &copied);
                } else {
                    case.put("another copy");
                }
            }
            Err(fault) => put_fault(case, fault),
        }
    }
}

/// A reference: `key` and the id's bytes, `alias` and the name, or `elsewhere`.
fn put_reference(case: &mut Case<'_>, reference: &KeyRef) {
    match reference {
        KeyRef::Key(key) => {
            case.put("key");
            case.put_bytes(key.as_bytes());
        }
        KeyRef::Alias(alias) => {
            case.put("alias");
            case.put(alias.as_str());
        }
        KeyRef::Elsewhere => case.put("elsewhere"),
    }
}

fn principal(case: &mut Case<'_>) {
    match read_principal(case.alloc, case.text()) {
        Ok(principal) => {
            let copied = case.kept_or(principal.copy(), principal);
            put_parts(case, &copied);
        }
        Err(fault) => put_fault(case, fault),
    }
}

/// The kind of a principal, its account, and its path and name.
fn put_parts(case: &mut Case<'_>, principal: &Principal) {
    let (kind, account, name) = match principal {
        Principal::Root(account) => ("root", account, ""),
        Principal::User(account, name) => ("user", account, name.as_str()),
        Principal::Role(account, name) => ("role", account, name.as_str()),
    };
    case.put(kind);
    case.put(account.as_str());
    if !name.is_empty() {
        case.put(name);
    }
}

/// The principal of a kind, an account and a path and name: `root` has none of these.
fn read_parts(case: &mut Case<'_>) -> Option<Principal> {
    let kind = case.word();
    let account = read_account(case)?;
    match kind {
        "root" => Some(Principal::Root(account)),
        "user" => Some(Principal::User(account, case.owned_text())),
        "role" => Some(Principal::Role(account, case.owned_text())),
        _ => {
            case.lose();
            None
        }
    }
}

/// What a call of a principal answers that is given by its parts.
fn of_parts(case: &mut Case<'_>, call: &str) {
    if let Some(principal) = read_parts(case) {
        match call {
            "write_principal" => case.put_made(" ", write_principal(case.alloc, &principal)),
            "principal_len" => case.put_number(principal_len(&principal) as u64),
            _ => case.put(principal.account().as_str()),
        }
    }
}

/// The ARN of a key or of an alias.
fn arn(case: &mut Case<'_>, call: &str) {
    let account = read_account(case);
    let region = case.word();
    if let Some(account) = account {
        if call == "key_arn" {
            let key = KeyId::new(case.array());
            case.put_made(" ", key_arn(case.alloc, &account, region, &key));
        } else {
            let alias = read_alias(case.alloc, case.word());
            if let Some(alias) = case.kept(alias) {
                case.put_made(" ", alias_arn(case.alloc, &account, region, &alias));
            }
        }
    }
}

/// The name of the action at a place, and the text that globs are matched with.
fn action(case: &mut Case<'_>) {
    let place = case.number();
    let action = Action::ALL.iter().find(|action| action.number() == place);
    if let Some(action) = case.found(action) {
        let copied = case.kept_or(action.copy(), *action);
        case.put(copied.name());
        case.put(copied.text());
    }
}

/// The action of a name.
fn action_of(name: &str) -> Option<Action> {
    Action::ALL
        .iter()
        .find(|action| action.name() == name)
        .copied()
}

/// The action whose name is the next column.
pub fn read_action(case: &mut Case<'_>) -> Action {
    let action = action_of(case.word());
    case.found(action).unwrap_or(Action::Decrypt)
}

/// The set of the actions of the next column, with `, ` between two: `-` are none.
fn read_actions(case: &mut Case<'_>) -> ActionSet {
    let word = case.word();
    let mut set = ActionSet::new();
    if word != "-" {
        for name in word.split(", ") {
            if let Some(action) = case.found(action_of(name)) {
                set.insert(action);
            }
        }
    }
    set
}

/// The actions of a copy of a set in order: `-` are none.
fn put_actions(case: &mut Case<'_>, set: &ActionSet) {
    let copied = case.kept_or(set.copy(), *set);
    for action in Action::ALL {
        if copied.contains(action) {
            case.put_after(", ", action.name());
        }
    }
    case.end_list();
}

/// The set of the operations of the next column, with `, ` between two: `-` are none.
fn read_set(case: &mut Case<'_>) -> GrantOps {
    let word = case.word();
    let mut set = GrantOps::new();
    if word != "-" {
        for name in word.split(", ") {
            if let Some(op) = case.found(GrantOp::read(name)) {
                set.insert(op);
            }
        }
    }
    set
}

/// The operations of a copy of a set in order: `-` are none.
fn put_set(case: &mut Case<'_>, set: &GrantOps) {
    let copied = case.kept_or(set.copy(), *set);
    for op in GrantOp::ALL {
        if copied.contains(op) {
            case.put_after(", ", op.name());
        }
    }
    if copied.is_empty() {
        case.put("-");
    }
}

fn copied_bytes(case: &mut Case<'_>) {
    let bytes = Bytes::new(case.bytes());
    let copied = case.kept_bytes(bytes.copy());
    let again = case.kept_bytes(Bytes::from_slice(case.alloc, copied.as_slice()));
    if again == bytes {
        case.put_bytes(again.as_slice());
    } else {
        case.put("another copy");
    }
}

fn order(case: &mut Case<'_>) {
    let left = case.owned_text();
    let right = String::from_str(case.alloc, case.text());
    let right = Text::from_string(case.kept_or(right, String::new(case.alloc)));
    case.put(match left.cmp(&right) {
        Ordering::Less => "less",
        Ordering::Equal => "equal",
        Ordering::Greater => "greater",
    });
}
