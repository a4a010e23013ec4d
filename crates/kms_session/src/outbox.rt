// Bytes that go out.
ghost use Rattle.std.specs.Prelude.{MatchBool, MatchOption, ◌≡◌, ◌≤◌, ◌++◌, ⊤, ◌<◌, length, take};
ghost use Rattle.kms_names.specs.Moment.{year_10000};
ghost use Rattle.kms_session.specs.Replying.{SendsReply, SendsReplyShort};

use http_front::write_head;
use kms_io::Link;
use session_front::send;

/// How many bytes a reply has at most that is written at once.
pub const ROOM: usize = 8192;

// Puts both texts at the front of the room, where they fit, and answers how many bytes they have.
fn join(room: &mut [u8], first: &[u8], second: &[u8]) -> Option<usize>
    ensures { MatchOption result ⊤ (λ n. (n ≤ length room.new) × (take n room.new ≡ first.now ++ second.now)) }
{
    let size = first.len();
    if size > room.len() || second.len() > room.len() - size {
        return None;
    }
    room[..size].copy_from_slice(first);
    room[size..size + second.len()].copy_from_slice(second);
    Some(size + second.len())
}

/// Writes a reply, its head and then its body, at once where both fit the room, or answers false where the
/// link failed. What the room held doesn't count. It takes no memory.
pub fn send_reply<L: Link>(
    room: &mut [u8],
    link: &mut L,
    status: u16,
    body: &[u8],
    second: u64,
    front: u64,
    closes: bool,
) -> bool
    requires { second < year_10000 }
    ensures { MatchBool result
        (SendsReply (record { status = status; body = body.now }) second front closes (L.shows link.old) (L.shows link.new))
        (SendsReplyShort (record { status = status; body = body.now }) second front closes (L.shows link.old) (L.shows link.new)) }
{
    let head = write_head(status, body.len(), second, front, closes);
    if let Some(size) = join(room, head.bytes(), body) {
        return send(link, &room[..size]);
    }
    if !send(link, head.bytes()) {
        return false;
    }
    send(link, body)
}
