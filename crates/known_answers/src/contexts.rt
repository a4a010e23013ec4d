//! The cases of encryption contexts.

ghost use Rattle.enc_context.specs.Pairs.{HasDistinctKeys};

use crate::cases::Case;
use enc_context::{Context, ContextFault, Pair};

/// What a call of a context answers.
pub fn contexts(case: &mut Case<'_>) {
    let call = case.word();
    match context_of(case) {
        Ok(context) => answer(case, call, &context),
        Err(ContextFault::TooLong) if call == "encode" => case.put("TooLong"),
        Err(_) => case.lose(),
    }
}

/// What a call of a context that is read answers.
fn answer(case: &mut Case<'_>, call: &str, context: &Context) {
    match call {
        "encode" => put_encoding(case, context),
        "pairs" => put_pairs(case, context),
        "copy" => {
            let copied = case.kept(context.copy());
            of_two(case, call, context, copied);
        }
        "includes" | "equal" => {
            let other = read_context(case);
            of_two(case, call, context, other);
        }
        _ => case.lose(),
    }
}

/// What a call of a context and of another one, or of its copy, answers.
fn of_two(case: &mut Case<'_>, call: &str, context: &Context, other: Option<Context>) {
    if let Some(other) = other {
        match call {
            "includes" => case.put_truth(context.includes(&other)),
            "equal" => case.put_truth(context.equal(&other)),
            _ if other.equal(context) => put_pairs(case, &other),
            _ => case.put("not equal"),
        }
    }
}

/// The context of the pairs of the next column, with `, ` between two: `-` are none.
fn context_of(case: &mut Case<'_>) -> Result<Context, ContextFault> {
    let word = case.word();
    if word == "-" {
        return Ok(Context::new(case.alloc));
    }
    let mut pairs = Vec::new(case.alloc);
    for pair in word.split(", ") {
        add(case, &mut pairs, pair);
    }
    Context::from_pairs(case.alloc, pairs)
}

/// Adds the pair that a word stands for, a key, `=` and a value, where its key is new.
fn add(case: &mut Case<'_>, pairs: &mut Vec<Pair>, word: &str)
    requires { HasDistinctKeys pairs.old.items }
    ensures { HasDistinctKeys pairs.new.items }
{
    let (key, value) = case.found(word.split_once('=')).unwrap_or(("", ""));
    let pair = Pair {
        key: case.owned(key),
        value: case.owned(value),
    };
    if pairs.iter().any(|other| other.key == pair.key) {
        case.lose();
    } else {
        case.require(pairs.push(pair).is_ok());
    }
}

/// The context that the next column stands for.
pub fn read_context(case: &mut Case<'_>) -> Option<Context> {
    let context = context_of(case);
    case.kept(context)
}

/// The size of an encoding and the encoding, behind the bytes of `head` that stood there before.
fn put_encoding(case: &mut Case<'_>, context: &Context) {
    let mut out = Vec::new(case.alloc);
    case.require(out.extend_from_slice(b"head").is_ok());
    case.require(context.encode_into(&mut out).is_ok());
    case.put_number(context.encoded_len() as u64);
    if let Some(encoding) = case.found(out.strip_prefix(b"head")) {
        case.put_bytes(encoding);
    }
}

/// The pairs of a context in their order.
fn put_pairs(case: &mut Case<'_>, context: &Context) {
    for pair in context.pairs() {
        if let Some(pair) = case.kept(pair.copy()) {
            case.put_after(", ", pair.key.as_str());
            case.write("=");
            case.write(pair.value.as_str());
        }
    }
    case.end_list();
}
