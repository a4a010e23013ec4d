// Statements, and the members that they have.
ghost use Rattle.std.specs.Prelude.{◌≡◌, codes, option_map};
ghost use Rattle.serde_json.specs.Find.{get};
ghost use Rattle.serde_json.specs.View.{view, items_view};
ghost use Rattle.policy_doc.specs.Paths.{member_path, path_text};
ghost use Rattle.policy_doc.specs.Answers.{Answers};
ghost use Rattle.policy_doc.specs.Statements.{optional_fault, effect_fault, effect_of, pair_fault, given_texts, names_fault, statement_fault, statement_of, items_fault, items_of};
ghost use Rattle.policy_doc.specs.declared.forms.Form.TheVariants.{Action, Resource};

use crate::callers::read_principals;
use crate::conditions::read_conditions;
use crate::faults::{Departure, PolicyFault};
use crate::forms::Form;
use crate::members::{first_unknown, member};
use crate::names::check_unknown;
use crate::paths::{Path, fault};
use crate::policies::{PolicyKind, Statement, StatementList};
use crate::texts::read_texts;
use kms_names::TextList;
use serde_json::Value;
use std::alloc::Global;

/// Checks that a value is absent or a text.
pub fn check_optional(
    alloc: Global,
    path: &Path<'_>,
    value: Option<&Value>,
) -> Result<(), PolicyFault>
    ensures { Answers (optional_fault (path_text path.now) (option_map (λ v. view v.now) value.entry)) tt result }
{
    match value {
        None | Some(Value::String(_)) => Ok(()),
        Some(_) => Err(fault(alloc, Departure::BadShape, path)),
    }
}

// Whether the effect is Allow.
fn read_effect(alloc: Global, path: &Path<'_>, value: Option<&Value>) -> Result<bool, PolicyFault>
    ensures { Answers (effect_fault (path_text path.now) (option_map (λ v. view v.now) value.entry)) (effect_of (option_map (λ v. view v.now) value.entry)) result }
{
    match value {
        Some(Value::String(text)) if text.as_str() == "Allow" => Ok(true),
        Some(Value::String(text)) if text.as_str() == "Deny" => Ok(false),
        _ => Err(fault(alloc, Departure::BadShape, path)),
    }
}

// The texts of a member and of its Not-form, of which one stands.
fn read_pair(
    alloc: Global,
    form: Form,
    place: &Path<'_>,
    value: Option<&Value>,
    not_place: &Path<'_>,
    not_value: Option<&Value>,
) -> Result<(TextList, TextList), PolicyFault>
    ensures { Answers (pair_fault form (path_text place.now) (option_map (λ v. view v.now) value.entry) (path_text not_place.now) (option_map (λ v. view v.now) not_value.entry)) (given_texts form (option_map (λ v. view v.now) value.entry), given_texts form (option_map (λ v. view v.now) not_value.entry)) result }
{
    let none = TextList::new(Vec::new(alloc));
    match (value, not_value) {
        (Some(value), None) => Ok((read_texts(alloc, form, place, value)?, none)),
        (None, Some(value)) => Ok((none, read_texts(alloc, form, not_place, value)?)),
        _ => Err(fault(alloc, Departure::BadShape, place)),
    }
}

fn read_actions(
    alloc: Global,
    path: &Path<'_>,
    statement: &Value,
) -> Result<(TextList, TextList), PolicyFault>
    ensures { Answers (pair_fault Action (member_path (path_text path.now) (codes "Action")) (get (codes "Action") (view statement.now)) (member_path (path_text path.now) (codes "NotAction")) (get (codes "NotAction") (view statement.now))) (given_texts Action (get (codes "Action") (view statement.now)), given_texts Action (get (codes "NotAction") (view statement.now))) result }
{
    let place = Path::Member(path, "Action");
    let not_place = Path::Member(path, "NotAction");
    read_pair(
        alloc,
        Form::Action,
        &place,
        member(statement, "Action"),
        &not_place,
        member(statement, "NotAction"),
    )
}

fn read_resources(
    alloc: Global,
    path: &Path<'_>,
    statement: &Value,
) -> Result<(TextList, TextList), PolicyFault>
    ensures { Answers (pair_fault Resource (member_path (path_text path.now) (codes "Resource")) (get (codes "Resource") (view statement.now)) (member_path (path_text path.now) (codes "NotResource")) (get (codes "NotResource") (view statement.now))) (given_texts Resource (get (codes "Resource") (view statement.now)), given_texts Resource (get (codes "NotResource") (view statement.now))) result }
{
    let place = Path::Member(path, "Resource");
    let not_place = Path::Member(path, "NotResource");
    read_pair(
        alloc,
        Form::Resource,
        &place,
        member(statement, "Resource"),
        &not_place,
        member(statement, "NotResource"),
    )
}

// The names that the members of a statement may have.
const NAMES: [&str; 9] = [
    "Sid",
    "Effect",
    "Principal",
    "NotPrincipal",
    "Action",
    "NotAction",
    "Resource",
    "NotResource",
    "Condition",
];

// Checks that a statement is an object, and the names of its members.
fn check_names(alloc: Global, path: &Path<'_>, statement: &Value) -> Result<(), PolicyFault>
    ensures { Answers (names_fault (path_text path.now) (view statement.now)) tt result }
{
    let Value::Object(members) = statement else {
        return Err(fault(alloc, Departure::BadShape, path));
    };
    if member(statement, "NotPrincipal").is_some() {
        let place = Path::Member(path, "NotPrincipal");
        return Err(fault(alloc, Departure::Unsupported, &place));
    }
    check_unknown(alloc, path, first_unknown(&NAMES, members))
}

/// One statement.
pub fn read_statement(
    alloc: Global,
    kind: PolicyKind,
    path: &Path<'_>,
    value: &Value,
) -> Result<Statement, PolicyFault>
    ensures { Answers (statement_fault kind (path_text path.now) (view value.now)) (statement_of kind (view value.now)) result }
{
    check_names(alloc, path, value)?;
    check_optional(alloc, &Path::Member(path, "Sid"), member(value, "Sid"))?;
    let allow = read_effect(
        alloc,
        &Path::Member(path, "Effect"),
        member(value, "Effect"),
    )?;
    let place = Path::Member(path, "Principal");
    let principals = read_principals(alloc, kind, &place, member(value, "Principal"))?;
    let (actions, not_actions) = read_actions(alloc, path, value)?;
    let (resources, not_resources) = read_resources(alloc, path, value)?;
    let place = Path::Member(path, "Condition");
    let conditions = read_conditions(alloc, &place, member(value, "Condition"))?;
    Ok(Statement {
        allow,
        principals,
        actions,
        not_actions,
        resources,
        not_resources,
        conditions,
    })
}

/// The statements of a list.
pub fn read_items(
    alloc: Global,
    kind: PolicyKind,
    path: &Path<'_>,
    items: &[Value],
) -> Result<StatementList, PolicyFault>
    ensures { Answers (items_fault kind (path_text path.now) 0 (items_view items.now)) (items_of kind (items_view items.now)) result }
{
    let mut statements = Vec::new(alloc);
    for (index, item) in items.iter().enumerate() {
        statements.push(read_statement(alloc, kind, &Path::Item(path, index), item)?)?;
    }
    Ok(StatementList::new(statements))
}
