//! Forms in which values of requests are compared.

use crate::arns::ReadArn;
use crate::operators::Order;
use glob_patterns::Letters;

/// A value of a request as an operator compares it.
#[derive(Drop)]
pub enum Form<'a> {
    /// As it is written.
    Exact,
    /// The same, ASCII letters without their case.
    IgnoringCase,
    /// By its characters, with patterns.
    Letters(Letters),
    /// As an integer.
    Number(Order, i64),
    /// As seconds since 1970.
    Date(Order, i64),
    /// As a truth value.
    Truth(bool),
    /// By the parts of an ARN.
    Arn(ReadArn<'a>),
    /// It has another form than the operator compares.
    Other,
}
