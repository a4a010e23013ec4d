//! Conditions of policies: their operators, the values that these compare, and whether a condition holds of a request.
#![tactic(auto)]

mod arns;
mod asked;
mod colons;
mod compiled;
mod conditions;
mod cuts;
mod evaluation;
mod facts;
mod forms;
mod heads;
mod integers;
mod laws;
mod moments;
mod numbers;
mod operators;
mod qualified;
mod read_texts;
mod read_values;
mod threads;
mod truths;
mod values;

pub use compiled::CompiledConditions;
pub use conditions::{Condition, ConditionList};
pub use evaluation::holds;
pub use facts::{Fact, FactList, RequestFacts};
pub use laws::{
    moments_are_one, numbers_are_one, operator_texts_differ, related_values_have_the_form,
};
pub use operators::{Kind, Operator, Order};
pub use qualified::{QualifiedOperator, Qualifier, read_operator, write_operator};
pub use threads::conditions_cross_threads;
pub use values::is_value;
