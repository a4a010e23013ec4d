// The calls of a connection in memory that moved bytes.
ghost use Rattle.std.specs.Prelude.{◌≡◌, ◌∷◌, []};
ghost use Rattle.kms_io.specs.Wire.{TellsMore};

use crate::Move;
use std::alloc::Global;
use std::marker::Model;

/// Calls that moved bytes, in order, as long as there is memory to keep them. Contracts see their list, or
/// that it isn't told any more.
#[derive(Drop)]
pub struct Moves {
    all: Option<Vec<Move>>,
}

impl Model for Moves {
    ghost use Rattle.std.specs.Prelude.{List, Option, option_map};
    ghost use Rattle.kms_io.specs.declared.link.Move.{Move};

    ghost Value = { Option (List Move) };

    ghost view = { λ m. option_map (λ all. all.items) m.all };
}

impl Moves {
    ghost use Rattle.std.specs.Prelude.{◌≡◌, ◌∷◌, [], Some};
    ghost use Rattle.kms_io.specs.Wire.{TellsMore};

    /// No calls. It takes no memory.
    pub fn new(alloc: Global) -> Moves
        ensures { result ≡ Some [] }
    {
        Moves {
            all: Some(Vec::new(alloc)),
        }
    }

    /// Adds a call. Where there is no memory to keep it, none is told any more.
    pub fn add(&mut self, last: Move)
        ensures { TellsMore self.old (last ∷ []) self.new }
    {
        let failed = match &mut self.all {
            Some(all) => all.push(last).is_err(),
            None => false,
        };
        if failed {
            self.all = None;
        }
    }
}
