//! The cases of conditions: their operators, the forms of values, and whether they hold of facts.

use crate::cases::Case;
use cond_ops::{
    CompiledConditions, Condition, ConditionList, Fact, FactList, Operator, QualifiedOperator,
    Qualifier, RequestFacts, holds, is_value, read_operator, write_operator,
};
use kms_names::{AccountNumber, Action, Principal, Text, TextList};

/// What a call of conditions answers.
pub fn conditions(case: &mut Case<'_>) {
    match case.word() {
        "operator" => operator(case),
        "read_operator" => qualified(case),
        "write_operator" => {
            let operator = read_parts(case);
            case.put_made(" ", write_operator(case.alloc, &operator));
        }
        "is_well_qualified" => {
            let operator = read_parts(case);
            case.put_truth(operator.is_well_qualified());
        }
        "is_value" => {
            let operator = named_operator(case);
            let text = case.text();
            case.put_truth(is_value(operator, text));
        }
        "holds" => asked(case),
        "condition" => copied_condition(case),
        "facts" => copied_facts(case),
        _ => case.lose(),
    }
}

/// The name of an operator, what it compares values as, and whether it is a negation.
fn operator(case: &mut Case<'_>) {
    match Operator::read(case.text()) {
        Some(operator) => {
            let copied = case.kept_or(operator.copy(), operator);
            let name = copied.name();
            let kind = operator.kind();
            let sign = if operator.is_negated() {
                "negated"
            } else {
                "positive"
            };
            case.put_string(format!(in case.alloc; "{name} {kind:?} {sign}"));
        }
        None => case.put("none"),
    }
}

/// The parts of an operator's text.
fn qualified(case: &mut Case<'_>) {
    match read_operator(case.text()) {
        Some(found) => {
            let qualifier = case.kept_or(found.qualifier.copy(), found.qualifier);
            case.put(found.operator.name());
            case.put(match qualifier {
                Qualifier::Plain => "Plain",
                Qualifier::AllValues => "AllValues",
                Qualifier::AnyValue => "AnyValue",
            });
            case.put(if found.if_exists { "IfExists" } else { "-" });
        }
        None => case.put("none"),
    }
}

/// The operator whose name is the next column.
fn named_operator(case: &mut Case<'_>) -> Operator {
    let operator = Operator::read(case.word());
    case.found(operator).unwrap_or(Operator::NullIs)
}

/// An operator by its parts: the name, the prefix, and whether the suffix stands.
fn read_parts(case: &mut Case<'_>) -> QualifiedOperator {
    let operator = named_operator(case);
    let qualifier = match case.word() {
        "Plain" => Qualifier::Plain,
        "AllValues" => Qualifier::AllValues,
        "AnyValue" => Qualifier::AnyValue,
        _ => {
            case.lose();
            Qualifier::Plain
        }
    };
    let suffix = case.word();
    case.require(suffix == "IfExists" || suffix == "-");
    QualifiedOperator {
        operator,
        qualifier,
        if_exists: suffix == "IfExists",
    }
}

/// A condition: an operator's text, a key and the values.
fn read_condition(case: &mut Case<'_>) -> Condition {
    let found = read_operator(case.word());
    let written = case.found(found).unwrap_or(QualifiedOperator {
        operator: Operator::NullIs,
        qualifier: Qualifier::Plain,
        if_exists: false,
    });
    Condition {
        operator: written.operator,
        qualifier: written.qualifier,
        if_exists: written.if_exists,
        key: case.owned_text(),
        values: case.texts(),
    }
}

/// The facts of the next column, with `; ` between two: `-` are none. Each is a key, ` = ` and its values.
pub fn read_facts(case: &mut Case<'_>) -> FactList {
    let word = case.word();
    let mut items = Vec::new(case.alloc);
    if word != "-" {
        for fact in word.split("; ") {
            let (key, values) = case.found(fact.split_once(" = ")).unwrap_or(("", ""));
            let fact = Fact {
                key: case.owned(key),
                values: case.texts_of(values),
            };
            case.require(items.push(fact).is_ok());
        }
    }
    FactList::new(items)
}

/// Whether a condition holds of a request of the account's root with some facts.
fn asked(case: &mut Case<'_>) {
    if let Some(account) = case.found(AccountNumber::read("111122223333")) {
        let conditions = [read_condition(case)];
        let request = RequestFacts {
            caller: Principal::Root(account),
            action: Action::Decrypt,
            resource: case.owned("arn:aws:kms:eu-west-1:111122223333:key/1"),
            facts: read_facts(case),
        };
        put_holds(case, &conditions, &request);
    }
}

/// Whether a condition holds, or that it is answered otherwise where it is made ready to be asked.
fn put_holds(case: &mut Case<'_>, conditions: &[Condition; 1], request: &RequestFacts) {
    let answer = holds(&conditions[0], request);
    let made = CompiledConditions::new(case.alloc, conditions);
    if let Some(compiled) = case.kept(made) {
        let copied = case.kept_or(compiled.copy(), compiled);
        if copied.all_hold(request) == answer {
            case.put_truth(answer);
        } else {
            case.put("otherwise compiled");
        }
    }
}

/// Puts a key and its values behind other words.
fn put_values(case: &mut Case<'_>, mark: &str, key: &Text, values: &TextList) {
    case.put_after(mark, key.as_str());
    case.write(" = ");
    case.put_texts("", values);
}

/// The facts of a copy of a list.
fn copied_facts(case: &mut Case<'_>) {
    let facts = read_facts(case);
    let copied = case.kept_or(facts.copy(), facts);
    for fact in copied.as_slice() {
        put_values(case, "; ", &fact.key, &fact.values);
    }
    case.end_list();
}

/// Puts a condition behind other words: its operator's text, the key, ` = ` and the values.
pub fn put_condition(case: &mut Case<'_>, condition: &Condition) {
    let operator = QualifiedOperator {
        operator: condition.operator,
        qualifier: condition.qualifier,
        if_exists: condition.if_exists,
    };
    case.put_made(" ", write_operator(case.alloc, &operator));
    put_values(case, " ", &condition.key, &condition.values);
}

/// The condition of a copy of a list of one.
fn copied_condition(case: &mut Case<'_>) {
    let mut items = Vec::new(case.alloc);
    let pushed = items.push(read_condition(case));
    case.require(pushed.is_ok());
    let list = ConditionList::new(items);
    let copied = case.kept_or(list.copy(), list);
    match copied.as_slice() {
        [condition] => put_condition(case, condition),
        _ => case.lose(),
    }
}
