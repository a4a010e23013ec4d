//! Laws of certificates. Each stands as the contract of a function that does nothing.

ghost use Rattle.access_explain.specs.Laws.{CertificatesAreOne, EarlyWhereNothingIsAsked, AllowedWhereNoneIsDenied, CertificatesExplainReplies};

use account_laws::{
    authority_asks_these_questions, authority_passes_where_statements_allow, grants_permit,
    rows_stand_in_order,
};

/// A request has one certificate at an account: two that both are its certificate are the same,
/// mark by mark.
pub fn certificates_are_one()
    ensures { CertificatesAreOne }
{}

/// A certificate is early exactly where the request is refused before authority is asked.
pub fn early_where_nothing_is_asked()
    ensures { EarlyWhereNothingIsAsked }
{}

/// Where these questions are asked, a certificate is allowed exactly where the step of authority,
/// which knows nothing of marks, denies none of them: so what the marks say is what the account's
/// decision goes by. The caller's own policies are of the kind `Identity`.
pub fn allowed_where_none_is_denied()
    ensures { AllowedWhereNoneIsDenied }
{
    authority_passes_where_statements_allow();
    grants_permit();
    rows_stand_in_order();
}

/// A certificate says what the reply goes by, for any pass. Where it is early, the reply is a refusal
/// that comes before authority; else it is allowed exactly where the step of authority denies none of
/// the questions that it asks, and the first denial is the reply.
pub fn certificates_explain_replies()
    ensures { CertificatesExplainReplies }
{
    authority_asks_these_questions();
    early_where_nothing_is_asked();
    allowed_where_none_is_denied();
}
