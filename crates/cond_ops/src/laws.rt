//! Laws of the written forms. Each stands as the contract of a function that does nothing.

ghost use Rattle.cond_ops.specs.Laws.{OperatorTextsDiffer, NumbersAreOne, MomentsAreOne, RelatedValuesHaveTheForm};

/// Two operators with their prefixes and suffixes have two texts, so that what `write_operator` prints reads as the
/// same operator, and a text is read as one.
pub fn operator_texts_differ()
    ensures { OperatorTextsDiffer }
{}

/// A text is one number at most.
pub fn numbers_are_one()
    ensures { NumbersAreOne }
{}

/// A text is one date at most.
pub fn moments_are_one()
    ensures { MomentsAreOne }
{}

/// A value of another form than `is_value` asks for stands in the operator's relation to nothing, on either side.
pub fn related_values_have_the_form()
    ensures { RelatedValuesHaveTheForm }
{}
