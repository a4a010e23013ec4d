// Decisions.
ghost use Rattle.std.specs.Prelude.{◌≡◌, IfOk, List, Result};
ghost use Rattle.account_steps.specs.Parts.{entry_of};
ghost use Rattle.account_core.specs.Decide.{lacking, decision_by, asked_by};
ghost use Rattle.account_steps.specs.Steps.{Gives};
ghost use Rattle.account_steps.specs.declared.questions.Question.{Question as Posed};
ghost use Rattle.kms_json.specs.declared.refusals.Refusal.{Refusal as Why};

use crate::asking::Asked;
use account_rows::Entry;
use account_steps::{Made, QuestionList, Stop};
use kms_json::{Refusal, Reply};
use kms_names::NoMemory;

/// What a changing request is answered.
#[derive(Drop)]
pub enum Decision {
    /// The request is refused, and nothing is appended.
    Refused(Reply),
    /// The request is served, and nothing changes.
    Served(Reply),
    /// The entry is appended, and then the reply is given.
    Change(Entry, Reply),
}

/// The refusal of a request that asks for more entries than there are.
pub fn lacking_entries(entries: u64, after: Option<u64>) -> Option<Refusal>
    ensures { result ≡ lacking entries after }
{
    match after {
        Some(wanted) if entries < wanted => Some(Refusal::DependencyTimeout { entries, wanted }),
        _ => None,
    }
}

/// The decision that these make at a moment.
pub fn decision_from(time: u64, made: Made) -> Decision
    ensures { result ≡ decision_by made.reply (entry_of time made.what) }
{
    let Made { reply, what } = made;
    match what {
        Some(what) => Decision::Change(Entry { time, what }, reply),
        None if reply.status() == 200 => Decision::Served(reply),
        None => Decision::Refused(reply),
    }
}

/// What is asked of authority, where the steps before it have passed.
pub fn asked_by(asked: Result<QuestionList, Stop>) -> Result<Asked, NoMemory>
    ensures { (wanted : Result (List Posed) Why) → Gives wanted asked → IfOk result (λ told. told ≡ asked_by wanted) }
{
    match asked {
        Ok(questions) => Ok(Asked::Questions(questions)),
        Err(Stop::Refused(_)) => Ok(Asked::Early),
        Err(Stop::NoMemory) => Err(NoMemory),
    }
}
