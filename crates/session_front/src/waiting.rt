// Waiting for a message.
ghost use Rattle.std.specs.Prelude.{◌<◌, length};
ghost use Rattle.http_front.specs.Message.{Awaits, Begins};
ghost use Rattle.session_front.specs.Inbox.{Receives, Finds};

use crate::inbox::Inbox;
use http_front::{Cut, HttpFault, Step, next_message};
use kms_io::{Link, Took};

/// What a session waits for.
#[derive(Drop)]
pub enum Awaited {
    /// The buffer begins with a message.
    Message(Cut),
    /// The buffer is refused.
    Bad(HttpFault),
    /// Nothing more comes, and the buffer holds no whole message.
    End,
    /// A read failed.
    Failed,
}

// What the bytes begin with. They are looked at only where they are as many as an earlier look asked for.
fn look_again(bytes: &[u8], whole: usize) -> Step
    requires { length bytes.now < whole → Awaits bytes.now whole }
    ensures { Begins bytes.now result }
{
    if bytes.len() < whole {
        return Step::NeedMore(whole);
    }
    next_message(bytes)
}

/// Reads until the buffer begins with a message or is refused, or until nothing comes. It reads only
/// where the buffer holds no whole message and isn't refused, and looks at the buffer only where it has
/// as many bytes as the last look asked for.
pub fn await_message<L: Link>(inbox: &mut Inbox, link: &mut L) -> Awaited
    ensures receives { Receives (L.shows link.old) inbox.old (L.shows link.new) inbox.new }
    ensures finds { Finds (L.shows link.old) (L.shows link.new) inbox.new result }
{
    let mut whole = 0;
    loop {
        match look_again(inbox.bytes(), whole) {
            Step::Message(cut) => return Awaited::Message(cut),
            Step::Bad(fault) => return Awaited::Bad(fault),
            Step::NeedMore(size) => whole = size,
        }
        match inbox.fill(link) {
            Took::Got(_) => {}
            Took::End => return Awaited::End,
            Took::Failed => return Awaited::Failed,
        }
    }
}
