// The lines of certificates.
ghost use Rattle.std.specs.Prelude.{◌≡◌, ◌++◌, IfOk, OnOk, string_bytes};
ghost use Rattle.serde_json.specs.View.{view};
ghost use Rattle.serde_json.specs.Written.{compact_text};
ghost use Rattle.kms_json.specs.Objects.{list_data};
ghost use Rattle.access_explain.specs.Lines.{letter, letters, marks_text, ground_text, decision_text, question_data, certificate_data, certificate_text};

use crate::certificates::Certificate;
use crate::findings::Finding;
use crate::grounds::Ground;
use crate::marks::Mark;
use kms_names::{Bytes, NoMemory};
use serde_json::{Value, json};
use std::alloc::Global;

fn letter(mark: Mark) -> &'static str
    ensures { result.now ≡ letter mark }
{
    match mark {
        Mark::Hit => "H",
        Mark::RootHit => "T",
        Mark::Principal => "P",
        Mark::Action => "A",
        Mark::Resource => "R",
        Mark::Condition => "C",
    }
}

// Adds the letters of a run.
fn add_run(text: &mut String, marks: &[Mark]) -> Result<(), NoMemory>
    ensures { OnOk result (string_bytes text.new ≡ string_bytes text.old ++ letters marks.now) }
{
    for mark in marks {
        text.push_str(letter(*mark))?;
    }
    Ok(())
}

// The four runs of a finding.
fn marks_text(alloc: Global, finding: &Finding) -> Result<String, NoMemory>
    ensures { IfOk result (λ text. string_bytes text ≡ marks_text finding.now) }
{
    let mut text = String::new(alloc);
    add_run(&mut text, finding.key_marks.as_slice())?;
    text.push_str("/")?;
    add_run(&mut text, finding.identity_marks.as_slice())?;
    text.push_str("/")?;
    add_run(&mut text, finding.ceiling_marks.as_slice())?;
    text.push_str("/")?;
    add_run(&mut text, finding.grant_marks.as_slice())?;
    Ok(text)
}

fn ground_text(ground: Ground) -> &'static str
    ensures { result.now ≡ ground_text ground }
{
    match ground {
        Ground::KeyDeny => "key deny",
        Ground::IdentityDeny => "identity deny",
        Ground::Ceiling => "ceiling",
        Ground::KeyPolicy => "key policy",
        Ground::RootAndIdentity => "root and identity",
        Ground::Identity => "identity",
        Ground::Root => "root",
        Ground::Grant => "grant",
        Ground::Retire => "retire",
        Ground::Nothing => "nothing",
    }
}

fn decision_text(certificate: &Certificate) -> &'static str
    ensures { result.now ≡ decision_text certificate.now.early certificate.now.allowed }
{
    if certificate.early {
        "Early"
    } else if certificate.allowed {
        "Allowed"
    } else {
        "Denied"
    }
}

fn question_value(alloc: Global, finding: &Finding) -> Result<Value, NoMemory>
    ensures { IfOk result (λ v. view v ≡ question_data finding.now) }
{
    let action = finding.action.text();
    let by = ground_text(finding.ground);
    let marks = marks_text(alloc, finding)?;
    let marks = marks.as_str();
    let resource = finding.resource.as_str();
    Ok(json!(in alloc; {"action": action, "by": by, "marks": marks, "resource": resource})?)
}

fn questions_value(alloc: Global, findings: &[Finding]) -> Result<Value, NoMemory>
    ensures { IfOk result (λ v. view v ≡ list_data question_data findings.now) }
{
    let mut values = Vec::new(alloc);
    for finding in findings {
        values.push(question_value(alloc, finding)?)?;
    }
    Ok(Value::Array(values))
}

fn certificate_value(
    alloc: Global,
    certificate: &Certificate,
    then: &str,
) -> Result<Value, NoMemory>
    ensures { IfOk result (λ v. view v ≡ certificate_data certificate.now then.now) }
{
    let decision = decision_text(certificate);
    let questions = questions_value(alloc, certificate.findings.as_slice())?;
    Ok(json!(in alloc; {"decision": decision, "questions": questions, "then": then})?)
}

/// The line of a certificate: a JSON object in its compact form, and a line feed. Its members are
/// `decision`, which is `Early`, `Allowed` or `Denied`; `questions`, the list of what is found of
/// each, with its action, its resource, the ground (`by`) and the four runs of marks, of the key,
/// the caller, the ceiling and the grants, joined by `/`; and `then`, which is the exception of the
/// reply, or what stands for it. A mark is one letter: H for `Hit`, T for `RootHit`, P, A, R and C
/// for the part that fails.
pub fn certificate_line(
    alloc: Global,
    certificate: &Certificate,
    then: &str,
) -> Result<Bytes, NoMemory>
    ensures { IfOk result (λ line. line ≡ certificate_text certificate.now then.now) }
{
    let value = certificate_value(alloc, certificate, then)?;
    let mut text = value.to_vec(alloc)?;
    text.push(b'\n')?;
    Ok(Bytes::new(text))
}
