// Messages at the front of a buffer.
ghost use Rattle.std.specs.Prelude.{◌≡◌, ◌≤◌, ℕ, length, take, drop, slice_get, option_copied, option_map};
ghost use Rattle.httparse.specs.Grammar.{RequestHead};
ghost use Rattle.http_front.specs.Heading.{values_of, heading_of};
ghost use Rattle.http_front.specs.Judge.{judged};
ghost use Rattle.http_front.specs.Offsets.{size_of};
ghost use Rattle.http_front.specs.Parsed.{Shows};
ghost use Rattle.http_front.specs.Message.{Begins, CutsOff, Message};

use crate::closing::closes;
use crate::fields::value_at;
use crate::judge::{HttpFault, judge};
use crate::parsed::{Look, Parsed, look_at};
use httparse::spans::HeaderSpan;
use std::marker::Model;

// The longest head, in bytes.
const LONGEST_HEAD: usize = 16_384;

/// A message that was found at the front of a buffer: the places of its parts. Contracts see them as `Offsets`.
#[derive(Drop)]
pub struct Cut {
    headers: [HeaderSpan; 64],
    count: usize,
    head: usize,
    body: usize,
    closes: bool,
}

impl Model for Cut {
    ghost use Rattle.std.specs.Prelude.{◌+◌, ◌<◌, ◌≤◌, ◌^◌, take};
    ghost use Rattle.http_front.specs.Offsets.{Offsets};

    ghost Value = { Offsets };

    ghost view = { λ c. record { headers = take c.count c.headers; head = c.head; body = c.body; closes = c.closes } };

    ghost invariant = { λ c. (c.count ≤ 64) × (c.head + c.body < 2 ^ 64) };
}

/// What a buffer begins with.
#[derive(Drop)]
pub enum Step {
    /// A whole message.
    Message(Cut),
    /// No message yet, and none before the buffer has so many bytes.
    NeedMore(usize),
    /// Bytes that are refused.
    Bad(HttpFault),
}

impl Cut {
    /// The value of the k-th header of this name, counted from 0 in the order of the head; None where the
    /// head has at most k of them. Names are compared without case (RFC 9110, section 5.1). The buffer is
    /// the one in which the message was found.
    pub fn header<'a>(&self, buffer: &'a [u8], name: &str, k: usize) -> Option<&'a [u8]>
        requires { (m : Message) × CutsOff buffer.now self.now m }
        ensures { (m : Message) → CutsOff buffer.now self.now m → option_copied result ≡ slice_get (values_of name.now m.head) k }
    {
        value_at(&self.headers[..self.count], buffer, name.as_bytes(), k)
    }

    /// The name and the value of the i-th header, counted from 0; None from the number of headers on. The
    /// buffer is the one in which the message was found.
    pub fn header_at<'a>(&self, buffer: &'a [u8], i: usize) -> Option<(&'a [u8], &'a [u8])>
        requires { (m : Message) × CutsOff buffer.now self.now m }
        ensures { (m : Message) → CutsOff buffer.now self.now m → option_map (λ f. (f.0.now, f.1.now)) result ≡ slice_get m.head.fields i }
    {
        if i >= self.count {
            return None;
        }
        let header = self.headers[i];
        Some((header.name.of(buffer), header.value.of(buffer)))
    }

    /// The body. The buffer is the one in which the message was found.
    pub fn body<'a>(&self, buffer: &'a [u8]) -> &'a [u8]
        requires { (m : Message) × CutsOff buffer.now self.now m }
        ensures { (m : Message) → CutsOff buffer.now self.now m → result.now ≡ m.body }
    {
        &buffer[self.head..self.head + self.body]
    }

    /// The number of the message's bytes.
    pub fn len(&self) -> usize
        ensures { result ≡ size_of self.now }
    {
        self.head + self.body
    }

    /// Whether the connection closes after the reply (RFC 9112, section 9.3).
    pub fn closes(&self) -> bool
        ensures { result ≡ self.now.closes }
    {
        self.closes
    }
}

fn first(bytes: &[u8], most: usize) -> &[u8]
    ensures { result.now ≡ take most bytes.now }
{
    &bytes[..bytes.len().min(most)]
}

// What a buffer begins with that has this head.
fn with_head(parsed: Parsed, buffer: &[u8]) -> Step
    requires { (head : RequestHead) × Shows buffer.now parsed head × (parsed.spans.len ≤ 16384) }
    ensures { Begins buffer.now result }
{
    let head = parsed.spans.len;
    match judge(&parsed, buffer) {
        Err(why) => Step::Bad(why),
        Ok(body) if body > buffer.len() - head => Step::NeedMore(head + body),
        Ok(body) => Step::Message(Cut {
            closes: closes(&parsed, buffer),
            count: parsed.spans.headers,
            headers: parsed.headers,
            head,
            body,
        }),
    }
}

/// What the buffer begins with (`Begins`). A head is read by `httparse` in its default configuration
/// from the first 16,384 bytes and has at most 64 headers. The faults of a whole head come at once, in the
/// order of `HttpFault`, without waiting for its body.
pub fn next_message(buffer: &[u8]) -> Step
    ensures { Begins buffer.now result }
{
    match look_at(first(buffer, LONGEST_HEAD)) {
        Look::Whole(parsed) => with_head(parsed, buffer),
        Look::Short if buffer.len() < LONGEST_HEAD => Step::NeedMore(buffer.len() + 1),
        Look::Short => Step::Bad(HttpFault::TooLong),
        Look::Crowded => Step::Bad(HttpFault::TooLong),
        Look::Differs => Step::Bad(HttpFault::BadHead),
    }
}
