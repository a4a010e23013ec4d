//! The operators of conditions, and their names.

ghost use Rattle.std.specs.Prelude.{◌≡◌, ◌≢◌, MatchOption, Ok};
ghost use Rattle.cond_ops.specs.Operator.{operator_name, kind_of, is_negated};
ghost use Rattle.cond_ops.specs.declared.operators.Operator.{Operator};

use kms_names::NoMemory;

/// An operator of a condition, named as in a policy document, but `BoolIs` for `Bool` and `NullIs` for `Null`
/// (IAM User Guide, "IAM JSON policy elements: Condition operators").
#[derive(Clone, Copy)]
pub enum Operator {
    StringEquals,
    StringNotEquals,
    StringEqualsIgnoreCase,
    StringNotEqualsIgnoreCase,
    StringLike,
    StringNotLike,
    NumericEquals,
    NumericNotEquals,
    NumericLessThan,
    NumericLessThanEquals,
    NumericGreaterThan,
    NumericGreaterThanEquals,
    DateEquals,
    DateNotEquals,
    DateLessThan,
    DateLessThanEquals,
    DateGreaterThan,
    DateGreaterThanEquals,
    BoolIs,
    ArnEquals,
    ArnNotEquals,
    ArnLike,
    ArnNotLike,
    NullIs,
}

/// How two numbers are compared. The request's value stands on the left.
#[derive(Clone, Copy, Debug)]
pub enum Order {
    /// The request's number is the policy's.
    Equal,
    /// It is below the policy's.
    Less,
    /// It is the policy's or below.
    LessOrEqual,
    /// It is above the policy's.
    Greater,
    /// It is the policy's or above.
    GreaterOrEqual,
}

/// What an operator compares values as. An operator and its negation compare them as the same.
#[derive(Clone, Copy, Debug)]
pub enum Kind {
    /// Equal texts.
    Text,
    /// Equal texts, ASCII letters without their case.
    TextIgnoringCase,
    /// A text and a pattern with `*` and `?`.
    Pattern,
    /// Decimal integers of 64 bits.
    Number(Order),
    /// Moments in whole seconds.
    Date(Order),
    /// `true` and `false`, without ASCII case.
    Truth,
    /// The six parts of an ARN, each by a pattern.
    Arn,
    /// Whether the key is missing.
    Absence,
}

impl Operator {
    /// A copy that equals its source; no memory is taken.
    pub fn copy(&self) -> Result<Operator, NoMemory>
        ensures { result ≡ Ok self.now }
    {
        Ok(*self)
    }

    /// The name in a policy document.
    pub fn name(self) -> &'static str
        ensures { result.now ≡ operator_name self }
    {
        match self {
            Operator::StringEquals => "StringEquals",
            Operator::StringNotEquals => "StringNotEquals",
            Operator::StringEqualsIgnoreCase => "StringEqualsIgnoreCase",
            Operator::StringNotEqualsIgnoreCase => "StringNotEqualsIgnoreCase",
            Operator::StringLike => "StringLike",
            Operator::StringNotLike => "StringNotLike",
            Operator::NumericEquals => "NumericEquals",
            Operator::NumericNotEquals => "NumericNotEquals",
            Operator::NumericLessThan => "NumericLessThan",
            Operator::NumericLessThanEquals => "NumericLessThanEquals",
            Operator::NumericGreaterThan => "NumericGreaterThan",
            Operator::NumericGreaterThanEquals => "NumericGreaterThanEquals",
            Operator::DateEquals => "DateEquals",
            Operator::DateNotEquals => "DateNotEquals",
            Operator::DateLessThan => "DateLessThan",
            Operator::DateLessThanEquals => "DateLessThanEquals",
            Operator::DateGreaterThan => "DateGreaterThan",
            Operator::DateGreaterThanEquals => "DateGreaterThanEquals",
            Operator::BoolIs => "Bool",
            Operator::ArnEquals => "ArnEquals",
            Operator::ArnNotEquals => "ArnNotEquals",
            Operator::ArnLike => "ArnLike",
            Operator::ArnNotLike => "ArnNotLike",
            Operator::NullIs => "Null",
        }
    }

    /// The operator of a name, exactly as it is written in a policy document, without prefix and suffix; no
    /// memory is taken.
    pub fn read(text: &str) -> Option<Operator>
        ensures { MatchOption result ((o : Operator) → text.now ≢ operator_name o) (λ o. text.now ≡ operator_name o) }
    {
        match text {
            "StringEquals" => Some(Operator::StringEquals),
            "StringNotEquals" => Some(Operator::StringNotEquals),
            "StringEqualsIgnoreCase" => Some(Operator::StringEqualsIgnoreCase),
            "StringNotEqualsIgnoreCase" => Some(Operator::StringNotEqualsIgnoreCase),
            "StringLike" => Some(Operator::StringLike),
            "StringNotLike" => Some(Operator::StringNotLike),
            "NumericEquals" => Some(Operator::NumericEquals),
            "NumericNotEquals" => Some(Operator::NumericNotEquals),
            "NumericLessThan" => Some(Operator::NumericLessThan),
            "NumericLessThanEquals" => Some(Operator::NumericLessThanEquals),
            "NumericGreaterThan" => Some(Operator::NumericGreaterThan),
            "NumericGreaterThanEquals" => Some(Operator::NumericGreaterThanEquals),
            "DateEquals" => Some(Operator::DateEquals),
            "DateNotEquals" => Some(Operator::DateNotEquals),
            "DateLessThan" => Some(Operator::DateLessThan),
            "DateLessThanEquals" => Some(Operator::DateLessThanEquals),
            "DateGreaterThan" => Some(Operator::DateGreaterThan),
            "DateGreaterThanEquals" => Some(Operator::DateGreaterThanEquals),
            "Bool" => Some(Operator::BoolIs),
            "ArnEquals" => Some(Operator::ArnEquals),
            "ArnNotEquals" => Some(Operator::ArnNotEquals),
            "ArnLike" => Some(Operator::ArnLike),
            "ArnNotLike" => Some(Operator::ArnNotLike),
            "Null" => Some(Operator::NullIs),
            _ => None,
        }
    }

    /// What the operator compares values as.
    pub fn kind(self) -> Kind
        ensures { result ≡ kind_of self }
    {
        match self {
            Operator::StringEquals | Operator::StringNotEquals => Kind::Text,
            Operator::StringEqualsIgnoreCase | Operator::StringNotEqualsIgnoreCase =>
                Kind::TextIgnoringCase,
            Operator::StringLike | Operator::StringNotLike => Kind::Pattern,
            Operator::NumericEquals | Operator::NumericNotEquals => Kind::Number(Order::Equal),
            Operator::NumericLessThan => Kind::Number(Order::Less),
            Operator::NumericLessThanEquals => Kind::Number(Order::LessOrEqual),
            Operator::NumericGreaterThan => Kind::Number(Order::Greater),
            Operator::NumericGreaterThanEquals => Kind::Number(Order::GreaterOrEqual),
            Operator::DateEquals | Operator::DateNotEquals => Kind::Date(Order::Equal),
            Operator::DateLessThan => Kind::Date(Order::Less),
            Operator::DateLessThanEquals => Kind::Date(Order::LessOrEqual),
            Operator::DateGreaterThan => Kind::Date(Order::Greater),
            Operator::DateGreaterThanEquals => Kind::Date(Order::GreaterOrEqual),
            Operator::BoolIs => Kind::Truth,
            Operator::ArnEquals
            | Operator::ArnNotEquals
            | Operator::ArnLike
            | Operator::ArnNotLike => Kind::Arn,
            Operator::NullIs => Kind::Absence,
        }
    }

    /// Whether the operator is the negation of another.
    pub fn is_negated(self) -> bool
        ensures { result ≡ is_negated self }
    {
        matches!(
            self,
            Operator::StringNotEquals
                | Operator::StringNotEqualsIgnoreCase
                | Operator::StringNotLike
                | Operator::NumericNotEquals
                | Operator::DateNotEquals
                | Operator::ArnNotEquals
                | Operator::ArnNotLike
        )
    }
}
