// The rule over the two copies. A view is what its seat saw last. No value of it is made.
use crate::published::Published;
use atomic_table::{Join, Split};
use crossbeam_utils::rule::{Outcome, Protocol};
use left_right::reader::Reader;
use left_right::writer::Writer;

/// What is published goes on where each view ends.
pub struct Rule;

impl Protocol<Published, Option<Published>> for Rule {
    ghost use Rattle.std.specs.Prelude.{None};
    ghost use Rattle.published_account.specs.Rules.{Keeps};

    ghost holds = { Keeps };

    ghost first = { None };
}

/// A step after which all that is published was seen.
pub struct Sees;

impl Outcome<Published, Option<Published>> for Sees {
    ghost use Rattle.published_account.specs.Rules.{Looks};

    ghost then = { Looks };
}

/// The writer tells all that it knows, and a reader takes it over.
pub struct Notes;

impl Split<Option<Published>> for Notes {
    ghost left = { λ v. v };

    ghost right = { λ v. v };
}

impl Join<Option<Published>> for Notes {
    ghost use Rattle.std.specs.Prelude.{None};

    ghost both = { λ v w. w };

    ghost spent = { None };
}

/// The writer of the two copies.
pub type Copies = Writer<Published, Published, Option<Published>, Rule>;

/// A reader of the two copies.
pub type Window = Reader<Published, Option<Published>, Rule>;
