// What the step of authority asks about a request.
ghost use Rattle.kms_json.specs.Asks.{IsSized};
ghost use Rattle.account_steps.specs.Steps.{Gives};
ghost use Rattle.account_core.specs.Decide.{asked_of_body};

use crate::operations::{visit_change, visit_read};
use crate::visiting::Asking;
use account_steps::{QuestionList, Stop, View};
use kms_json::AskBody;
use std::alloc::Global;

/// What the step of authority asks about a request (IAM User Guide, "Policy evaluation logic").
#[derive(Drop)]
pub enum Asked {
    /// Nothing, since the request is refused before: it asks for more entries than there are, or what it names isn't there.
    Early,
    /// These questions, in order. The first that isn't allowed is refused.
    Questions(QuestionList),
}

/// What is asked about a request.
pub fn asked_about(alloc: Global, view: &View<'_>, body: &AskBody) -> Result<QuestionList, Stop>
    requires { IsSized body.now }
    ensures { Gives (asked_of_body view.now body.now) result }
{
    match body {
        AskBody::Change(body) => visit_change(alloc, view, body, &Asking),
        AskBody::Read(body) => visit_read(alloc, view, body, &mut Asking),
    }
}
