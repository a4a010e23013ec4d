// A head that was parsed.
ghost use Rattle.std.specs.Prelude.{◌≡◌, ◌≤◌};
ghost use Rattle.http_front.specs.Parsed.{Sees, headers_in};

use httparse::spans::{EMPTY_HEADER_SPAN, HeaderSpan, RequestSpans, parse_request};
use httparse::{Error, Status};

/// A head, with the places of its parts in the buffer.
#[derive(Drop)]
pub struct Parsed {
    pub spans: RequestSpans,
    pub headers: [HeaderSpan; 64],
}

/// What stands at the front of bytes.
#[derive(Drop)]
pub enum Look {
    /// A head of at most 64 headers.
    Whole(Parsed),
    /// The front of a head.
    Short,
    /// The front of a head of more than 64 headers.
    Crowded,
    /// Bytes that begin no head, however they go on.
    Differs,
}

impl Parsed {
    /// The places of the headers.
    pub fn headers(&self) -> &[HeaderSpan]
        requires { self.now.spans.headers ≤ 64 }
        ensures { result.now ≡ headers_in self.now }
    {
        &self.headers[..self.spans.headers]
    }
}

/// Parses the head at the front of the bytes.
pub fn look_at(bytes: &[u8]) -> Look
    ensures { Sees bytes.now result }
{
    let mut headers = [EMPTY_HEADER_SPAN; 64];
    match parse_request(bytes, &mut headers) {
        Ok(Status::Complete(spans)) => Look::Whole(Parsed { spans, headers }),
        Ok(Status::Partial) => Look::Short,
        Err(Error::TooManyHeaders) => Look::Crowded,
        Err(_) => Look::Differs,
    }
}
