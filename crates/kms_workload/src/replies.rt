// Replies, counted by their status.
ghost use Rattle.std.specs.Prelude.{◌≡◌, ◌≢◌, ◌≤◌, ◌<◌, ◌^◌, ◌+◌, ◌==◌, ℕ, List, ◌∷◌, ◌++◌, false, length, drop, decimal, IfSome, IfNone};
ghost use Rattle.kms_workload.specs.Replies.{IsReply, AreReplies, served_in};
ghost use Rattle.kms_workload.specs.Lines.{line_size, has_return, IsRest};

// The byte that ends a line, before a line feed (RFC 9112, section 2.2).
const RETURN: u8 = b'\r';

// What stands before the size in the line Content-Length.
const SIZE_AT: usize = 16;

/// A line, and what stands behind it.
#[derive(Clone, Copy)]
struct Line<'a> {
    text: &'a [u8],
    rest: &'a [u8],
}

/// A reply: whether its status is 200, and what stands behind it.
#[derive(Clone, Copy)]
struct Reply<'a> {
    served: bool,
    rest: &'a [u8],
}

// How many bytes stand before the first carriage return, or how many there are.
fn line_size(text: &[u8]) -> usize
    ensures value { result ≡ line_size text.now }
    ensures within { result ≤ length text.now }
{
    for (i, byte) in text.iter().enumerate() {
        if *byte == RETURN {
            return i;
        }
    }
    text.len()
}

// What stands behind so many bytes.
fn after(text: &[u8], size: usize) -> &[u8]
    ensures { result.now ≡ drop size text.now }
{
    &text[size.min(text.len())..]
}

// The first line, and what stands behind its end.
fn line_in(text: &[u8]) -> Line<'_>
    ensures { (line more : List ℕ) → has_return line ≡ false → text.now ≡ line ++ 13 ∷ 10 ∷ more
        → (result.text.now ≡ line) × (result.rest.now ≡ more) }
{
    let size = line_size(text);
    Line {
        text: &text[..size],
        rest: after(after(text, size), 2),
    }
}

// The number that the digits write, or 0 where they write none.
fn number_in(digits: &[u8]) -> usize
    ensures { (n : ℕ) → n < 2 ^ 64 → digits.now ≡ decimal n → result ≡ n }
{
    match str::from_utf8(digits) {
        Ok(digits) => digits.parse().unwrap_or(0),
        Err(_) => 0,
    }
}

// What stands behind the lines that follow Content-Length: none, or Date and x-kms-front and perhaps
// Connection; and then the empty line.
fn behind_head(text: &[u8]) -> &[u8]
    ensures { (more : List ℕ) → IsRest text.now more → result.now ≡ more }
{
    let first = line_in(text);
    if first.text.is_empty() {
        return first.rest;
    }
    let third = line_in(line_in(first.rest).rest);
    if third.text.is_empty() {
        return third.rest;
    }
    line_in(third.rest).rest
}

// The first reply.
fn reply_in(text: &[u8]) -> Reply<'_>
    ensures { (status : ℕ) (reply more : List ℕ) → IsReply status reply → text.now ≡ reply ++ more
        → (result.served ≡ (status == 200)) × (result.rest.now ≡ more) }
{
    let status = line_in(text);
    let size = line_in(line_in(status.rest).rest);
    let body = behind_head(size.rest);
    Reply {
        served: status.text == b"HTTP/1.1 200 OK".as_slice(),
        rest: after(body, number_in(after(size.text, SIZE_AT))),
    }
}

/// How many of so many replies have the status 200, or None where the text is not so many replies. It
/// takes no memory.
pub fn count_served(text: &[u8], requests: u32) -> Option<u32>
    ensures counted { IfSome result (λ served. (statuses : List ℕ) → AreReplies text.now statuses → (length statuses ≡ requests) × (served ≡ served_in statuses)) }
    ensures bound { IfSome result (λ served. served ≤ requests) }
    ensures otherwise { IfNone result ((statuses : List ℕ) → AreReplies text.now statuses → length statuses ≢ requests) }
{
    let mut served = 0;
    let mut rest = text;
    for _ in 0..requests {
        if rest.is_empty() {
            return None;
        }
        let reply = reply_in(rest);
        if reply.served {
            served += 1;
        }
        rest = reply.rest;
    }
    if rest.is_empty() { Some(served) } else { None }
}
