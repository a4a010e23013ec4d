// What a pass hands on.
ghost use Rattle.std.specs.Prelude.{◌≡◌, IfOk};
ghost use Rattle.published_account.specs.Answers.{answer_of, answer_in};

use kms_json::{Reply, write_reply};
use kms_names::{Bytes, NoMemory};
use std::alloc::Global;

/// A reply's status and body, and the number of entries that it stands on.
#[derive(Drop)]
pub struct Answered {
    /// The number of entries, that of the request itself included.
    pub front: u64,
    /// The HTTP status.
    pub status: u16,
    /// The body, a JSON text.
    pub body: Bytes,
}

/// Why a read has no answer.
#[derive(Clone, Copy)]
pub enum Unread {
    /// The published account could not be entered; the pass is as it was, and the caller asks again.
    NotEntered,
    /// A growth of memory was refused.
    NoMemory,
}

impl From<NoMemory> for Unread {
    ghost use Rattle.std.specs.Prelude.{◌≡◌};
    ghost use Rattle.published_account.specs.declared.answered.Unread.TheVariants.{NoMemory as OutOfMemory};

    ghost from_gives = { λ _ e. e ≡ OutOfMemory };

    fn from(_e: NoMemory) -> Unread {
        Unread::NoMemory
    }
}

/// A reply as it is handed on, at so many entries.
pub fn answer_with(alloc: Global, front: u64, reply: Reply) -> Result<Answered, NoMemory>
    ensures { IfOk result (λ a. (a.front ≡ front) × (answer_in a ≡ answer_of reply)) }
{
    Ok(Answered {
        front,
        status: reply.status(),
        body: write_reply(alloc, &reply)?,
    })
}
