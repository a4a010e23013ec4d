// Certificates.
ghost use Rattle.std.specs.Prelude.{◌≡◌, ◌↔◌, IsTrue, IfOk};
ghost use Rattle.account_core.specs.Decide.{asked_at, IsProper};
ghost use Rattle.access_explain.specs.Certificates.{AreFindings, none_denies, early_one, IsCertificateOf, IsCertificateBy, IsCertificate};
ghost use Rattle.access_explain.specs.Findings.{basis_of};

use crate::equality::same_findings;
use crate::findings::{Finding, FindingList, find};
use account_core::{Account, Ask, Asked};
use account_steps::Question;
use kms_names::NoMemory;
use std::alloc::Global;

/// Why a request was served or denied by the step of authority.
#[derive(Drop)]
pub struct Certificate {
    /// It is refused before authority is asked.
    pub early: bool,
    /// It is not refused before, and none of its questions is denied.
    pub allowed: bool,
    /// What is found of its questions, in order, up to the first that is denied.
    pub findings: FindingList,
}

// Whether none of these denies.
fn none_denies(findings: &[Finding]) -> bool
    ensures { result ≡ none_denies findings.now }
{
    findings.iter().all(|finding| finding.ground.allows())
}

// What is found of these questions, up to the first that is denied.
fn find_all(
    alloc: Global,
    account: &Account,
    questions: &[Question],
) -> Result<FindingList, NoMemory>
    ensures { IfOk result (λ findings. AreFindings (basis_of account.now.facts account.now.entries) questions.now findings) }
{
    let mut findings = Vec::new(alloc);
    for question in questions {
        let finding = find(alloc, account, question)?;
        let allows = finding.ground.allows();
        findings.push(finding)?;
        if !allows {
            return Ok(FindingList::new(findings));
        }
    }
    Ok(FindingList::new(findings))
}

// The certificate of a request that is refused before.
fn early_one(alloc: Global) -> Certificate
    ensures { result ≡ early_one }
{
    Certificate {
        early: true,
        allowed: false,
        findings: FindingList::new(Vec::new(alloc)),
    }
}

// The certificate of a request with these questions.
fn certificate_of(
    alloc: Global,
    account: &Account,
    questions: &[Question],
) -> Result<Certificate, NoMemory>
    ensures { IfOk result (λ certificate. IsCertificateOf (basis_of account.now.facts account.now.entries) questions.now certificate) }
{
    let findings = find_all(alloc, account, questions)?;
    Ok(Certificate {
        early: false,
        allowed: none_denies(findings.as_slice()),
        findings,
    })
}

// The certificate of what is asked.
fn certificate_by(alloc: Global, account: &Account, asked: &Asked) -> Result<Certificate, NoMemory>
    ensures { IfOk result (λ certificate. IsCertificateBy (basis_of account.now.facts account.now.entries) asked.now certificate) }
{
    match asked {
        Asked::Early => Ok(early_one(alloc)),
        Asked::Questions(questions) => certificate_of(alloc, account, questions.as_slice()),
    }
}

// Whether both are the same.
fn same_certificate(one: &Certificate, other: &Certificate) -> bool
    ensures { IsTrue result ↔ (one.now ≡ other.now) }
{
    one.early == other.early
        && one.allowed == other.allowed
        && same_findings(one.findings.as_slice(), other.findings.as_slice())
}

/// The certificate of a request at an account: each statement, grant and document that the step of
/// authority asks, by its mark, and the ground that they come to, for each question up to the first
/// that is denied. There is exactly one.
pub fn explain(alloc: Global, account: &Account, ask: &Ask) -> Result<Certificate, NoMemory>
    requires { IsProper account.now.facts ask.now }
    ensures { IfOk result (λ certificate. IsCertificate account.now.facts account.now.entries ask.now certificate) }
{
    let asked = account.questions(alloc, ask)?;
    certificate_by(alloc, account, &asked)
}

/// Whether this is the certificate of a request at an account. Each mark is found anew, by the
/// globs, the conditions and the plain tests of grants, without what policies are compiled to when
/// requests are served.
pub fn check_certificate(
    alloc: Global,
    account: &Account,
    ask: &Ask,
    certificate: &Certificate,
) -> Result<bool, NoMemory>
    requires { IsProper account.now.facts ask.now }
    ensures { IfOk result (λ is. IsTrue is ↔ IsCertificate account.now.facts account.now.entries ask.now certificate.now) }
{
    let found = explain(alloc, account, ask)?;
    Ok(same_certificate(&found, certificate))
}
