// Who is handed the operation that a request asks for.
ghost use Rattle.std.specs.Prelude.{◌≡◌, Result};
ghost use Rattle.kms_json.specs.declared.refusals.Refusal.{Refusal as Why};
ghost use Rattle.account_steps.specs.Parts.{ReadParts, ChangeParts};
ghost use Rattle.account_steps.specs.View.{View as SeenView};
ghost use Rattle.account_core.specs.Operations.{Says};
ghost use Rattle.account_steps.specs.declared.stops.Stop.{Stop as Stopped};

use account_steps::{Changes, Made, QuestionList, Reads, Stop, change, questions_of, read};
use draw_lines::DrawLine;
use kms_json::Reply;
use std::alloc::Global;

/// Who is handed the operation that a request asks for, where that doesn't change the account.
pub trait ReadVisitor {
    /// What comes of it.
    type Answer: Drop;

    ghost may_visit: { Self → SeenView → Type 0 };

    ghost answers: { {F R : Type 0} → Self → SeenView → ReadParts F R → Result Self.Answer Stopped → Self → Type 0 };

    /// Is handed the operation.
    fn visit<O: Reads>(&mut self, alloc: Global, operation: &O) -> Result<Self::Answer, Stop>
        requires { may_visit self.old (O.seen operation.now) }
        ensures { answers self.old (O.seen operation.now) (record { parts = O.parts operation.now; takes = O.takes operation.now }) result self.new };
}

/// Who is handed the operation that a request asks for, where that changes the account.
pub trait ChangeVisitor {
    /// What comes of it.
    type Answer: Drop;

    ghost answers: { {F R : Type 0} → Self → SeenView → ChangeParts F R → Result Self.Answer Why → Type 0 };

    /// Is handed the operation.
    fn visit<O: Changes>(&self, alloc: Global, operation: &O) -> Result<Self::Answer, Stop>
        ensures { Says (answers self.now (O.seen operation.now) (record { parts = O.parts operation.now; does = O.does operation.now })) result };
}

// A pass's line of draws: the operation is decided, and takes of the line what it says.
impl ReadVisitor for DrawLine {
    ghost use Rattle.std.specs.Prelude.{◌≡◌};
    ghost use Rattle.account_steps.specs.Places.{places_of, IsLineOf};
    ghost use Rattle.account_steps.specs.Parts.{decided_read, reads};
    ghost use Rattle.account_steps.specs.Settling.{Settles};

    type Answer = Reply;

    ghost may_visit = { λ line view. IsLineOf view.facts line × (view.places ≡ places_of line) };

    ghost answers = { λ old view op result new. Settles (decided_read (reads view op) (places_of old)) old result new };

    fn visit<O: Reads>(&mut self, alloc: Global, operation: &O) -> Result<Reply, Stop> {
        read(alloc, operation, self)
    }
}

/// Decides what a request that changes the account comes to.
#[derive(Drop)]
pub struct Making;

impl ChangeVisitor for Making {
    ghost use Rattle.std.specs.Prelude.{◌≡◌};
    ghost use Rattle.account_steps.specs.Parts.{changes};
    ghost use Rattle.account_core.specs.Operations.{outcome_told};

    type Answer = Made;

    ghost answers = { λ it view op told. changes view op ≡ outcome_told told };

    fn visit<O: Changes>(&self, alloc: Global, operation: &O) -> Result<Made, Stop> {
        change(alloc, operation)
    }
}

/// Asks what the step of authority asks.
#[derive(Drop)]
pub struct Asking;

impl ReadVisitor for Asking {
    ghost use Rattle.std.specs.Prelude.{◌≡◌};
    ghost use Rattle.account_steps.specs.Parts.{questions_of};
    ghost use Rattle.account_steps.specs.Steps.{Gives};

    type Answer = QuestionList;

    ghost may_visit = { λ it view. Unit {0} };

    ghost answers = { λ it view op result new. Gives (questions_of view op.parts) result };

    fn visit<O: Reads>(&mut self, alloc: Global, operation: &O) -> Result<QuestionList, Stop> {
        questions_of(alloc, operation)
    }
}

impl ChangeVisitor for Asking {
    ghost use Rattle.std.specs.Prelude.{◌≡◌};
    ghost use Rattle.account_steps.specs.Parts.{questions_of};

    type Answer = QuestionList;

    ghost answers = { λ it view op told. questions_of view op.parts ≡ told };

    fn visit<O: Changes>(&self, alloc: Global, operation: &O) -> Result<QuestionList, Stop> {
        questions_of(alloc, operation)
    }
}
