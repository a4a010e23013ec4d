//! Values of requests, read once.

ghost use Rattle.std.specs.Prelude.{◌≡◌, ◌↔◌, IfSome, IsTrue};
ghost use Rattle.cond_ops.specs.Integers.{IsReadAs, kind_as};
ghost use Rattle.cond_ops.specs.Moment.{IsMoment};
ghost use Rattle.cond_ops.specs.Number.{IsNumber};
ghost use Rattle.cond_ops.specs.Reading.{ComparesRead, IsFormOf, IsLikeParts};
ghost use Rattle.cond_ops.specs.Relation.{RelatesAs};
ghost use Rattle.cond_ops.specs.Value.{IsTruth};
ghost use Rattle.cond_ops.specs.declared.operators.Kind.TheVariants as kind;

use crate::arns::{ReadArn, read_arn};
use crate::forms::Form;
use crate::integers::Reading;
use crate::moments::read_moment;
use crate::numbers::read_number;
use crate::operators::{Kind, Order};
use crate::read_texts::is_like_read;
use crate::truths::read_truth;
use glob_patterns::Letters;
use std::alloc::Global;
use std::marker::Model;

/// A value of a request, read once for all values of a policy that it is compared with. Contracts see what it is
/// compared as, and the value.
#[derive(Drop)]
pub struct ReadValue<'a> {
    compared: Kind,
    value: &'a str,
    form: Form<'a>,
}

impl<'a> Model for ReadValue<'a> {
    ghost use Rattle.std.specs.Prelude.{List, ℕ};
    ghost use Rattle.cond_ops.specs.Reading.{IsFormOf};
    ghost use Rattle.cond_ops.specs.declared.operators.Kind.{Kind as KindValue};

    ghost Value = { KindValue × List ℕ };

    ghost view = { λ r. (r.compared, r.value.now) };

    ghost invariant = { λ r. IsFormOf r.compared r.value.now r.form };
}

fn number_form(order: Order, value: &str) -> Form<'static>
    ensures { IsFormOf (kind.Number order) value.now result }
{
    match read_number(value) {
        Some(number) => Form::Number(order, number),
        None => Form::Other,
    }
}

fn date_form(order: Order, value: &str) -> Form<'static>
    ensures { IsFormOf (kind.Date order) value.now result }
{
    match read_moment(value) {
        Some(moment) => Form::Date(order, moment),
        None => Form::Other,
    }
}

fn truth_form(value: &str) -> Form<'static>
    ensures { IsFormOf kind.Truth value.now result }
{
    match read_truth(value) {
        Some(truth) => Form::Truth(truth),
        None => Form::Other,
    }
}

fn arn_form(alloc: Global, value: &str) -> Form<'_>
    ensures { IsFormOf kind.Arn value.now result }
{
    match read_arn(value) {
        Some(arn) => Form::Arn(ReadArn::of(alloc, &arn)),
        None => Form::Other,
    }
}

fn form_of(alloc: Global, compared: Kind, value: &str) -> Form<'_>
    ensures { IsFormOf compared value.now result }
{
    match compared {
        Kind::Text => Form::Exact,
        Kind::TextIgnoringCase => Form::IgnoringCase,
        Kind::Pattern => Form::Letters(Letters::of(alloc, value)),
        Kind::Number(order) => number_form(order, value),
        Kind::Date(order) => date_form(order, value),
        Kind::Truth => truth_form(value),
        Kind::Arn => arn_form(alloc, value),
        Kind::Absence => Form::Other,
    }
}

fn number_relates(order: Order, left: i64, policy: &str) -> bool
    ensures { IsTrue result ↔ ComparesRead IsNumber order left policy.now }
{
    match read_number(policy) {
        Some(right) => order.compares(left, right),
        None => false,
    }
}

fn date_relates(order: Order, left: i64, policy: &str) -> bool
    ensures { IsTrue result ↔ ComparesRead IsMoment order left policy.now }
{
    match read_moment(policy) {
        Some(right) => order.compares(left, right),
        None => false,
    }
}

fn truth_relates(wanted: bool, policy: &str) -> bool
    ensures { IsTrue result ↔ IsTruth policy.now wanted }
{
    match read_truth(policy) {
        Some(truth) => truth == wanted,
        None => false,
    }
}

fn arn_relates(arn: &ReadArn<'_>, policy: &str) -> bool
    ensures { IsTrue result ↔ IsLikeParts arn.now policy.now }
{
    match read_arn(policy) {
        Some(pattern) => arn.is_like(&pattern),
        None => false,
    }
}

impl<'a> ReadValue<'a> {
    /// A value as it is compared. The characters of one that is compared with patterns are read where it isn't ASCII and
    /// there is memory for them.
    pub fn of(alloc: Global, compared: Kind, value: &'a str) -> ReadValue<'a>
        ensures { result ≡ (compared, value.now) }
    {
        let form = form_of(alloc, compared, value);
        ReadValue {
            compared,
            value,
            form,
        }
    }

    /// The integer that it is compared as, and how, where its operator reads texts as these.
    pub fn integer(&self, reading: Reading) -> Option<(Order, i64)>
        ensures { IfSome result (λ r. (self.now.0 ≡ kind_as reading r.0) × IsReadAs reading self.now.1 r.1) }
    {
        match (&self.form, reading) {
            (Form::Number(order, left), Reading::Number) => Some((*order, *left)),
            (Form::Date(order, left), Reading::Date) => Some((*order, *left)),
            _ => None,
        }
    }

    /// Whether it stands in the relation to a policy's value.
    pub fn relates(&self, policy: &str) -> bool
        ensures { IsTrue result ↔ RelatesAs self.now.0 self.now.1 policy.now }
    {
        match &self.form {
            Form::Exact => self.value == policy,
            Form::IgnoringCase => self.value.eq_ignore_ascii_case(policy),
            Form::Letters(letters) => is_like_read(self.value, letters, policy),
            Form::Number(order, left) => number_relates(*order, *left, policy),
            Form::Date(order, left) => date_relates(*order, *left, policy),
            Form::Truth(wanted) => truth_relates(*wanted, policy),
            Form::Arn(arn) => arn_relates(arn, policy),
            Form::Other => false,
        }
    }
}
