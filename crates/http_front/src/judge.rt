// What a whole head comes to.
ghost use Rattle.std.specs.Prelude.{◌≡◌, ◌≤◌, length, map, All, IfOk, codes};
ghost use Rattle.httparse.specs.Grammar.{RequestHead};
ghost use Rattle.httparse.specs.Spans.{header_bytes, IsHeaderWithin};
ghost use Rattle.kms_names.specs.Digits.{number_in};
ghost use Rattle.http_front.specs.Heading.{heading_of, values_in};
ghost use Rattle.http_front.specs.Judge.{size_in, size_within, judged};
ghost use Rattle.http_front.specs.Parsed.{Shows};

use crate::fields::value_at;
use crate::parsed::Parsed;
use httparse::spans::HeaderSpan;
use kms_names::decimal;

/// Why bytes are no message that is served.
#[derive(Clone, Copy, Debug, PartialEq, Eq)]
pub enum HttpFault {
    /// No request head begins so (RFC 9112, section 3).
    BadHead,
    /// The method isn't POST.
    NotPost,
    /// The target isn't `/`.
    NotRoot,
    /// A header Transfer-Encoding stands (RFC 9112, section 6.1), whatever its value.
    Chunked,
    /// There is more than one header Content-Length (RFC 9112, section 6.3).
    TwoLengths,
    /// There is no header Content-Length, or it isn't 1 to 9 decimal digits.
    NoLength,
    /// The head has more than 64 headers or 16,384 bytes, or the body more than 131,072 bytes.
    TooLong,
}

// The longest body, in bytes.
const LONGEST_BODY: u64 = 131_072;

// The longest number of Content-Length, in digits.
const DIGITS: usize = 9;

// The size of a body from the one value of Content-Length.
fn size_from(value: &[u8]) -> Result<usize, HttpFault>
    ensures { result ≡ size_within (number_in 9 value.now) }
{
    match decimal(value, DIGITS) {
        None => Err(HttpFault::NoLength),
        Some(size) if size <= LONGEST_BODY => Ok(size as usize),
        Some(_) => Err(HttpFault::TooLong),
    }
}

// The size of a body from the headers.
fn body_size(headers: &[HeaderSpan], buffer: &[u8]) -> Result<usize, HttpFault>
    requires { All (IsHeaderWithin (length buffer.now)) headers.now }
    ensures { result ≡ size_in (values_in (codes "Content-Length") (map (header_bytes buffer.now) headers.now)) }
{
    let Some(value) = value_at(headers, buffer, b"Content-Length", 0) else {
        return Err(HttpFault::NoLength);
    };
    if value_at(headers, buffer, b"Content-Length", 1).is_some() {
        return Err(HttpFault::TwoLengths);
    }
    size_from(value)
}

/// The size of the body of a head, or its first fault.
pub fn judge(parsed: &Parsed, buffer: &[u8]) -> Result<usize, HttpFault>
    requires { (head : RequestHead) × Shows buffer.now parsed.now head }
    ensures judged { (head : RequestHead) → Shows buffer.now parsed.now head → result ≡ judged (heading_of head) }
    ensures small { IfOk result (λ size. size ≤ 131072) }
{
    if parsed.spans.method.of(buffer) != b"POST".as_slice() {
        return Err(HttpFault::NotPost);
    }
    if parsed.spans.path.of(buffer) != b"/".as_slice() {
        return Err(HttpFault::NotRoot);
    }
    let headers = parsed.headers();
    if value_at(headers, buffer, b"Transfer-Encoding", 0).is_some() {
        return Err(HttpFault::Chunked);
    }
    body_size(headers, buffer)
}
