// What a pass has used of its random stream and of its initialization vectors.
ghost use Rattle.std.specs.Prelude.{◌≡◌};
ghost use Rattle.account_steps.specs.Places.{places_of, no_places};

use draw_lines::DrawLine;

/// A pass's number, and how many words of its random stream and initialization vectors it has used.
#[derive(Clone, Copy, PartialEq, Eq)]
pub struct Places {
    /// The number of the pass.
    pub number: u16,
    /// How many words of 4 bytes it has drawn.
    pub words: u64,
    /// How many initialization vectors it has used.
    pub ivs: u64,
}

/// How many words and initialization vectors a request that is served uses.
#[derive(Clone, Copy)]
pub struct Uses {
    /// The words that it draws.
    pub words: u64,
    /// The initialization vectors that it takes.
    pub ivs: u64,
}

impl Uses {
    /// Nothing.
    pub const NOTHING: Uses = Uses { words: 0, ivs: 0 };
}

impl Places {
    /// The first pass, which has used nothing.
    pub const NONE: Places = Places {
        number: 1,
        words: 0,
        ivs: 0,
    };

    /// Where a line of draws stands.
    pub fn of(line: &DrawLine) -> Places
        ensures { result ≡ places_of line.now }
    {
        Places {
            number: line.pass_number(),
            words: line.words(),
            ivs: line.ivs(),
        }
    }
}
