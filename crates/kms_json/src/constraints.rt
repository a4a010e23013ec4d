// The constraints of grants, as bodies give them.
ghost use Rattle.std.specs.Prelude.{◌≡◌, IfOk, option_and_then, option_map};
ghost use Rattle.serde_json.specs.View.{view};
ghost use Rattle.kms_json.specs.Fields.{fitting, context_given, equals_or_free, constraint_by, constraint_of};
ghost use Rattle.kms_json.specs.Given.{context_in};

use crate::asks::GrantConstraint;
use crate::given::{Given, context_if};
use crate::members::context_of;
use enc_context::Context;
use kms_names::NoMemory;
use serde_json::Value;
use std::alloc::Global;

// The most bytes that the encoding of a constraint's context has.
const LIMIT: usize = 4096;

// What a member is to a context, or none where it has another type.
fn context_given(alloc: Global, member: Option<&Value>) -> Result<Option<Given>, NoMemory>
    ensures { IfOk result (λ g. g ≡ context_given (option_map (λ v. view v.now) member.entry)) }
{
    match member {
        None | Some(Value::Null) => Ok(Some(Given::Absent)),
        Some(value) => context_of(alloc, value),
    }
}

// The context, if it is one whose encoding isn't too long for a constraint.
fn fitting(value: Given) -> Option<Context>
    ensures { result ≡ option_and_then (fitting 4096) (context_in value) }
{
    let context = context_if(value)?;
    if context.encoded_len() <= LIMIT {
        Some(context)
    } else {
        None
    }
}

// The constraint that a context is to equal, where one is given.
fn equals_or_free(value: Given) -> Option<GrantConstraint>
    ensures { result ≡ equals_or_free value }
{
    if value.is_absent() {
        return Some(GrantConstraint::Free);
    }
    Some(GrantConstraint::Equals(fitting(value)?))
}

// The constraint by what stands for equality and what stands for a part.
fn constraint_by(equals: Given, subset: Given) -> Option<GrantConstraint>
    ensures { result ≡ constraint_by equals subset }
{
    if subset.is_absent() {
        return equals_or_free(equals);
    }
    if equals.is_there() {
        return None;
    }
    Some(GrantConstraint::Subset(fitting(subset)?))
}

/// The constraint of a grant that isn't null, if it and its known members have their types.
pub fn constraint_of(alloc: Global, value: &Value) -> Result<Option<Given>, NoMemory>
    ensures { IfOk result (λ g. g ≡ constraint_of (view value.now)) }
{
    if !value.is_object() {
        return Ok(None);
    }
    let Some(equals) = context_given(alloc, value.get("EncryptionContextEquals"))? else {
        return Ok(None);
    };
    let Some(subset) = context_given(alloc, value.get("EncryptionContextSubset"))? else {
        return Ok(None);
    };
    Ok(Some(Given::Constraint(constraint_by(equals, subset))))
}
