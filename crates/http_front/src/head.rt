// The head of a reply, which takes no memory.
ghost use Rattle.std.specs.Prelude.{◌≡◌, ◌+◌, ◌<◌, ◌≤◌, ◌++◌, List, ℕ, [], codes, decimal, length, take};
ghost use Rattle.kms_names.specs.Moment.{year_10000};
ghost use Rattle.http_front.specs.Head.{reason_of, close_line, head_of, IsHead};
ghost use Rattle.httpdate.specs.Date.{date_text};

use httpdate::HttpDate;
use itoa::Buffer;
use std::marker::Model;

const ROOM: usize = 320;

// The line that ends a head.
const EMPTY_LINE: &[u8] = b"\r\n";

/// The head of a reply, in a fixed room. Contracts see the list of its bytes.
#[derive(Drop)]
pub struct Head {
    text: [u8; 320],
    len: usize,
}

impl Model for Head {
    ghost Value = { List ℕ };

    ghost view = { λ h. take h.len h.text };

    ghost invariant = { λ h. h.len ≤ 320 };
}

impl Head {
    fn new() -> Head
        ensures { result ≡ [] }
    {
        Head {
            text: [0; 320],
            len: 0,
        }
    }

    /// Its bytes.
    pub fn bytes(&self) -> &[u8]
        ensures { result.now ≡ self.now }
    {
        &self.text[..self.len]
    }

    fn push(&mut self, part: &[u8])
        requires { length self.old + length part.now ≤ 320 }
        ensures { self.new ≡ self.old ++ part.now }
    {
        put(&mut self.text, self.len, part);
        self.len += part.len();
    }

    fn push_number(&mut self, number: u64)
        requires { length self.old + 20 ≤ 320 }
        ensures new { self.new ≡ self.old ++ decimal number }
        ensures short { length self.new ≤ length self.old + 20 }
    {
        let mut buffer = Buffer::new();
        self.push(buffer.format(number).as_bytes());
    }
}

// Writes the part behind what is there.
fn put(text: &mut [u8], at: usize, part: &[u8])
    requires { at + length part.now ≤ length text.old }
    ensures { take (at + length part.now) text.new ≡ take at text.old ++ part.now }
{
    text[at..at + part.len()].copy_from_slice(part);
}

fn reason(status: u16) -> &'static [u8]
    ensures value { result.now ≡ reason_of status }
    ensures short { length result.now ≤ 30 }
{
    match status {
        200 => b"OK",
        400 => b"Bad Request",
        404 => b"Not Found",
        405 => b"Method Not Allowed",
        411 => b"Length Required",
        412 => b"Precondition Failed",
        413 => b"Content Too Large",
        501 => b"Not Implemented",
        503 => b"Service Unavailable",
        _ => b"Internal Server Error",
    }
}

fn close(closes: bool) -> &'static [u8]
    ensures value { result.now ≡ close_line closes }
    ensures short { length result.now ≤ 30 }
{
    if closes {
        b"Connection: close\r\n"
    } else {
        b""
    }
}

/// The head of a reply (RFC 9112, section 2.1): the status line, and the lines Content-Type,
/// Content-Length, Date (RFC 9110, section 6.6.1), x-kms-front, and Connection where the reply closes.
/// The date is in seconds since 1970 and before the year 10000. It takes no memory.
pub fn write_head(status: u16, size: usize, second: u64, front: u64, closes: bool) -> Head
    requires { second < year_10000 }
    ensures { IsHead status size second front closes result }
{
    let date = HttpDate::from_unix_secs(second).unwrap();
    head_at(status, size, &date.to_bytes(), front, closes)
}

fn head_at(status: u16, size: usize, date: &[u8; 29], front: u64, closes: bool) -> Head
    ensures { result ≡ head_of status size date.now front closes }
{
    let mut head = Head::new();
    head.push(b"HTTP/1.1 ");
    head.push_number(u64::from(status));
    head.push(b" ");
    head.push(reason(status));
    head.push(b"\r\nContent-Type: application/x-amz-json-1.1\r\nContent-Length: ");
    head.push_number(size as u64);
    head.push(b"\r\nDate: ");
    head.push(date);
    head.push(b"\r\nx-kms-front: ");
    head.push_number(front);
    head.push(b"\r\n");
    head.push(close(closes));
    head.push(EMPTY_LINE);
    head
}
