//! Laws of authority. Each stands as the contract of a function that does nothing.

ghost use Rattle.authority.specs.Allowed.{AllowedByStatements, StandsByPoliciesAlone, AllowedByPoliciesAlone};

/// A question is allowed exactly where the account's ceiling lets it pass (it has no documents, or no Deny statement of
/// theirs matches and an Allow statement of one does), and no Deny statement of the key's policy or of the caller's
/// policies hits, and a statement of the key's policy allows the caller directly, or allows the root of the account while a
/// statement of the caller's own policies allows it, the root being allowed everything, or a live grant permits it. A
/// question about no key is allowed exactly where the ceiling lets it pass, and no Deny statement of the caller's policies
/// hits, and one of them allows it, or the caller is the root; a grant doesn't count. The ceiling is asked of everyone, of
/// the root and of grantees as well.
pub fn allowed_by_statements()
    ensures { AllowedByStatements }
{}

/// In an account without a ceiling the policies of the key and of the caller alone say what a question's standing is, and
/// it is allowed exactly where their statements, or a live grant, say so.
pub fn without_a_ceiling()
    ensures standing { StandsByPoliciesAlone }
    ensures allowed { AllowedByPoliciesAlone }
{}
