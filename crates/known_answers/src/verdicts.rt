//! The cases of verdicts of policies.

use crate::cases::Case;
use crate::conditions::read_facts;
use crate::names::read_action;
use crate::policies::{policy_of, read_kind};
use cond_ops::RequestFacts;
use kms_names::read_principal;
use policy_eval::{CeilingVerdict, Compiled, Verdict, action_mask, ceiling, ceiling_asks_facts};

/// What a call of policies that are asked answers.
pub fn verdicts(case: &mut Case<'_>) {
    match case.word() {
        "ceiling" => bounded(case),
        "ceiling_asks_facts" => {
            let documents = documents(case);
            case.put_truth(ceiling_asks_facts(documents.as_slice()));
        }
        "action_mask" => {
            let patterns = case.texts();
            case.put_number(action_mask(patterns.as_slice()));
        }
        call => of_policy(case, call),
    }
}

/// What a call of one policy answers.
fn of_policy(case: &mut Case<'_>, call: &str) {
    let kind = read_kind(case);
    let policy = policy_of(case, kind);
    if let Some(compiled) = case.kept(Compiled::new(case.alloc, &policy)) {
        let copied = case.kept_or(compiled.copy(), compiled);
        match call {
            "verdict" => verdict(case, &copied),
            "asks_facts" => case.put_truth(copied.asks_facts()),
            _ => case.lose(),
        }
    }
}

/// The documents of a ceiling: their number, and the kind and the text of each.
fn documents(case: &mut Case<'_>) -> Vec<Compiled> {
    let count: u8 = case.number();
    let mut documents = Vec::new(case.alloc);
    for _ in 0..count {
        let kind = read_kind(case);
        let policy = policy_of(case, kind);
        if let Some(compiled) = case.kept(Compiled::new(case.alloc, &policy)) {
            let pushed = documents.push(compiled);
            case.require(pushed.is_ok());
        }
    }
    documents
}

/// A request: the caller's ARN, the action's name, the resource and the facts.
fn read_request(case: &mut Case<'_>) -> Option<RequestFacts> {
    let caller = read_principal(case.alloc, case.word());
    let caller = case.kept(caller)?;
    Some(RequestFacts {
        caller,
        action: read_action(case),
        resource: case.owned_text(),
        facts: read_facts(case),
    })
}

/// What the documents of a ceiling say of a request.
fn bounded(case: &mut Case<'_>) {
    let documents = documents(case);
    if let Some(request) = read_request(case) {
        case.put(match ceiling(documents.as_slice(), &request) {
            CeilingVerdict::Passes => "Passes",
            CeilingVerdict::Stops => "Stops",
        });
    }
}

/// The verdict of a policy on a request.
fn verdict(case: &mut Case<'_>, compiled: &Compiled) {
    if let Some(request) = read_request(case) {
        case.put(match compiled.verdict(&request) {
            Verdict::Deny => "Deny",
            Verdict::Direct => "Direct",
            Verdict::ByRoot => "ByRoot",
            Verdict::Silent => "Silent",
        });
    }
}
