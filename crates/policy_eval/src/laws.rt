//! Laws of verdicts and of ceilings. Each stands as the contract of a function that does nothing.

ghost use Rattle.policy_eval.specs.Laws.{VerdictsAreOne, VerdictOfIsTheVerdict, CeilingOfIsUnder};

/// A policy has one verdict of a request.
pub fn verdicts_are_one()
    ensures { VerdictsAreOne }
{}

/// The function `verdict_of`, by which definitions above this crate name the verdict of a policy, is that verdict.
pub fn verdict_of_is_the_verdict()
    ensures { VerdictOfIsTheVerdict }
{}

/// The function `ceiling_of`, by which definitions above this crate name what the documents of a ceiling say of a request,
/// passes exactly where there are no documents, or no Deny statement of theirs matches and an Allow statement of one does.
pub fn ceiling_of_is_under()
    ensures { CeilingOfIsUnder }
{}
