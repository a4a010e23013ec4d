// Documents.
ghost use Rattle.std.specs.Prelude.{◌≡◌, ◌≢◌, ◌⊎◌, ◌↔◌, ◌<◌, length, IfOk, IfErr, option_map};
ghost use Rattle.serde_json.specs.Data.{Data};
ghost use Rattle.serde_json.specs.View.{view};
ghost use Rattle.policy_doc.specs.Paths.{path_text};
ghost use Rattle.policy_doc.specs.Answers.{Answers};
ghost use Rattle.policy_doc.specs.Documents.{is_version, version_fault, statement_part_fault, statements_in, document_fault, document_statements, first_fault};
ghost use Rattle.policy_doc.specs.Grammar.{IsPolicyOf};
ghost use Rattle.policy_doc.specs.Reading.{Reads, ReadsNothing, IsFaultOf};
ghost use Rattle.policy_doc.specs.declared.faults.PolicyFault.TheVariants.{TooLong, NotJson, NoMemory as OutOfMemory};

use crate::faults::{Departure, PolicyFault};
use crate::lists::one;
use crate::members::{first_unknown, member};
use crate::names::{check_unknown, has_items};
use crate::paths::{Path, fault};
use crate::policies::{Policy, PolicyKind, Statement, StatementList};
use crate::statements::{check_optional, read_items, read_statement};
use serde_json::Value;
use std::alloc::Global;

fn check_version(alloc: Global, path: &Path<'_>, value: Option<&Value>) -> Result<(), PolicyFault>
    ensures { Answers (version_fault (path_text path.now) (option_map (λ v. view v.now) value.entry)) tt result }
{
    match value {
        None => Ok(()),
        Some(Value::String(text)) if is_version(text.as_str()) => Ok(()),
        Some(_) => Err(fault(alloc, Departure::BadShape, path)),
    }
}

fn is_version(text: &str) -> bool
    ensures { result ≡ is_version text.now }
{
    text == "2012-10-17" || text == "2008-10-17"
}

// A statement, or a list of one or more.
fn read_statements(
    alloc: Global,
    kind: PolicyKind,
    path: &Path<'_>,
    value: Option<&Value>,
) -> Result<StatementList, PolicyFault>
    ensures { Answers (statement_part_fault kind (path_text path.now) (option_map (λ v. view v.now) value.entry)) (statements_in kind (option_map (λ v. view v.now) value.entry)) result }
{
    match value {
        Some(Value::Array(items)) if has_items(items) => read_items(alloc, kind, path, items),
        Some(statement) if statement.is_object() => {
            let statement = read_statement(alloc, kind, path, statement)?;
            Ok(StatementList::new(one(alloc, statement)?))
        }
        _ => Err(fault(alloc, Departure::BadShape, path)),
    }
}

// The names that the members of a document may have.
const NAMES: [&str; 3] = ["Version", "Id", "Statement"];

// The statements of a document.
fn read_document(
    alloc: Global,
    kind: PolicyKind,
    value: &Value,
) -> Result<StatementList, PolicyFault>
    ensures { Answers (document_fault kind (view value.now)) (document_statements kind (view value.now)) result }
{
    let root = Path::Root;
    let Value::Object(map) = value else {
        return Err(fault(alloc, Departure::BadShape, &root));
    };
    check_unknown(alloc, &root, first_unknown(&NAMES, map))?;
    check_version(
        alloc,
        &Path::Member(&root, "Version"),
        member(value, "Version"),
    )?;
    check_optional(alloc, &Path::Member(&root, "Id"), member(value, "Id"))?;
    let statement = member(value, "Statement");
    read_statements(alloc, kind, &Path::Member(&root, "Statement"), statement)
}

/// The policy that a JSON value is (IAM User Guide, "Grammar of the IAM JSON policy language").
///
/// Ok exactly where the value is a policy's of this kind. Else the answer is the first fault, with
/// its JSON pointer, in this order: members of other names, in byte order; Version; Id; Statement;
/// and in each statement NotPrincipal, members of other names, Sid, Effect, Principal, Action or
/// NotAction, Resource or NotResource, Condition; in a list the first item, in an object the first
/// name in byte order. `Unsupported` is NotPrincipal, an operator IpAddress, NotIpAddress or
/// BinaryEquals, and `${` in a resource or a condition's value; any other fault is `BadShape`. A
/// member that is missing, or stands beside its Not-form, is named at its own place. Want of memory
/// may replace each answer.
pub fn read_policy_value(
    alloc: Global,
    kind: PolicyKind,
    value: &Value,
) -> Result<Policy, PolicyFault>
    ensures ok { IfOk result (λ p. (p.kind ≡ kind) × IsPolicyOf kind (view value.now) p.statements) }
    ensures fault { IfErr result (λ e. e ≢ OutOfMemory → first_fault kind (view value.now) ≡ Some e) }
{
    let statements = read_document(alloc, kind, value)?;
    Ok(Policy { kind, statements })
}

// The greatest length of a document in bytes.
const MAX_DOCUMENT: usize = 32_768;

fn read_json(alloc: Global, bytes: &[u8]) -> Result<Value, PolicyFault>
    ensures ok { IfOk result (λ v. Reads bytes.now (view v)) }
    ensures not_json { IfErr result (λ e. (e ≡ OutOfMemory) ⊎ ((e ≡ NotJson) × ReadsNothing bytes.now)) }
{
    match Value::from_slice(alloc, bytes) {
        Ok(value) => Ok(value),
        Err(fault) if fault.is_memory() => Err(PolicyFault::NoMemory),
        Err(_) => Err(PolicyFault::NotJson),
    }
}

/// The policy that the bytes of a document are.
///
/// `TooLong` exactly where there are more than 32,768 bytes; else `NotJson` where the bytes are no
/// JSON in UTF-8 that is nested at most 127 deep (RFC 8259); else what [`read_policy_value`] answers
/// of their value. Of equal names in an object the last one counts. Want of memory may replace each
/// answer but `TooLong`.
pub fn read_policy(alloc: Global, kind: PolicyKind, bytes: &[u8]) -> Result<Policy, PolicyFault>
    ensures too_long { (result ≡ Err TooLong) ↔ (32768 < length bytes.now) }
    ensures ok { IfOk result (λ p. (p.kind ≡ kind) × ((d : Data) × Reads bytes.now d × IsPolicyOf kind d p.statements)) }
    ensures fault { IfErr result (IsFaultOf kind bytes.now) }
{
    if bytes.len() > MAX_DOCUMENT {
        return Err(PolicyFault::TooLong);
    }
    let value = read_json(alloc, bytes)?;
    read_policy_value(alloc, kind, &value)
}
