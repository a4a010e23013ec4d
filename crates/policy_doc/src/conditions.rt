// Conditions of statements.
ghost use Rattle.std.specs.Prelude.{option_map};
ghost use Rattle.serde_json.specs.View.{view, members_view};
ghost use Rattle.policy_doc.specs.Paths.{path_text};
ghost use Rattle.policy_doc.specs.Answers.{Answers, Adds};
ghost use Rattle.policy_doc.specs.Texts.{texts_fault};
ghost use Rattle.policy_doc.specs.Conditions.{condition_of, keys_fault, keys_of, operator_fault, operator_conditions, operators_fault, operators_of, condition_fault, conditions_of};

use crate::faults::{Departure, PolicyFault};
use crate::forms::Form;
use crate::operators::named_operator;
use crate::paths::{Path, fault};
use crate::texts::read_texts;
use cond_ops::{Condition, ConditionList, QualifiedOperator};
use kms_names::Text;
use serde_json::{Map, Value};
use std::alloc::Global;

fn read_condition(
    alloc: Global,
    operator: QualifiedOperator,
    path: &Path<'_>,
    key: &str,
    value: &Value,
) -> Result<Condition, PolicyFault>
    ensures { Answers (texts_fault (Form.Value operator.operator) (path_text path.now) (view value.now)) (condition_of operator key.now (view value.now)) result }
{
    let values = read_texts(alloc, Form::Value(operator.operator), path, value)?;
    Ok(Condition {
        operator: operator.operator,
        qualifier: operator.qualifier,
        if_exists: operator.if_exists,
        key: Text::from_str(alloc, key)?,
        values,
    })
}

// Adds the conditions of an operator's keys.
fn read_keys<'a>(
    alloc: Global,
    conditions: &mut Vec<Condition>,
    operator: QualifiedOperator,
    path: &'a Path<'a>,
    map: &'a Map<String, Value>,
) -> Result<(), PolicyFault>
    ensures { Adds (keys_fault operator (path_text path.now) (members_view map.now.entries)) (keys_of operator (members_view map.now.entries)) conditions.old.items conditions.new.items result }
{
    for (key, value) in map {
        let place = Path::Member(path, key.as_str());
        conditions.push(read_condition(alloc, operator, &place, key.as_str(), value)?)?;
    }
    Ok(())
}

// Adds the conditions under an operator.
fn read_operator_member(
    alloc: Global,
    conditions: &mut Vec<Condition>,
    operator: Result<QualifiedOperator, Departure>,
    path: &Path<'_>,
    value: &Value,
) -> Result<(), PolicyFault>
    ensures { Adds (operator_fault operator (path_text path.now) (view value.now)) (operator_conditions operator (view value.now)) conditions.old.items conditions.new.items result }
{
    match (operator, value) {
        (Ok(operator), Value::Object(map)) => read_keys(alloc, conditions, operator, path, map),
        (Ok(_), _) => Err(fault(alloc, Departure::BadShape, path)),
        (Err(departure), _) => Err(fault(alloc, departure, path)),
    }
}

fn read_operators<'a>(
    alloc: Global,
    path: &'a Path<'a>,
    map: &'a Map<String, Value>,
) -> Result<ConditionList, PolicyFault>
    ensures { Answers (operators_fault (path_text path.now) (members_view map.now.entries)) (operators_of (members_view map.now.entries)) result }
{
    let mut conditions = Vec::new(alloc);
    for (name, value) in map {
        let place = Path::Member(path, name.as_str());
        let operator = named_operator(name.as_str());
        read_operator_member(alloc, &mut conditions, operator, &place, value)?;
    }
    Ok(ConditionList::new(conditions))
}

/// The conditions of a statement, in byte order of the operators' texts, and under each of the keys.
pub fn read_conditions(
    alloc: Global,
    path: &Path<'_>,
    value: Option<&Value>,
) -> Result<ConditionList, PolicyFault>
    ensures { Answers (condition_fault (path_text path.now) (option_map (λ v. view v.now) value.entry)) (conditions_of (option_map (λ v. view v.now) value.entry)) result }
{
    match value {
        None => Ok(ConditionList::new(Vec::new(alloc))),
        Some(Value::Object(map)) => read_operators(alloc, path, map),
        Some(_) => Err(fault(alloc, Departure::BadShape, path)),
    }
}
