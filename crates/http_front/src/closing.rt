// Whether the connection closes after the reply.
ghost use Rattle.std.specs.Prelude.{◌≡◌, ◌<◌, ◌+◌, length, drop, map, All};
ghost use Rattle.std.specs.List.{list_any, position};
ghost use Rattle.httparse.specs.Grammar.{RequestHead, trim_ows, is_ows};
ghost use Rattle.httparse.specs.Spans.{header_bytes, IsHeaderWithin};
ghost use Rattle.http_front.specs.Heading.{heading_of};
ghost use Rattle.http_front.specs.Judge.{is_close, has_close, asks_to_close, closes_after, is_comma};
ghost use Rattle.http_front.specs.Parsed.{Shows};

use crate::fields::has_name;
use crate::parsed::Parsed;
use httparse::spans::HeaderSpan;

fn is_blank(byte: u8) -> bool
    ensures { result ≡ is_ows byte }
{
    byte == b' ' || byte == b'\t'
}

// The part without the spaces and tabs at both ends.
fn trimmed(part: &[u8]) -> &[u8]
    ensures { result.now ≡ trim_ows part.now }
{
    let mut start = 0;
    let mut end = part.len();
    while start < end && is_blank(part[start]) {
        start += 1;
    }
    while start < end && is_blank(part[end - 1]) {
        end -= 1;
    }
    &part[start..end]
}

fn says_close(part: &[u8]) -> bool
    ensures { result ≡ is_close part.now }
{
    trimmed(part).eq_ignore_ascii_case(b"close")
}

fn first_comma(bytes: &[u8]) -> Option<usize>
    ensures { result ≡ position is_comma bytes.now }
{
    bytes.iter().position(|byte| *byte == b',')
}

fn behind(bytes: &[u8], comma: usize) -> &[u8]
    requires { comma < length bytes.now }
    ensures { result.now ≡ drop (comma + 1) bytes.now }
{
    &bytes[comma + 1..]
}

// Whether one of the parts between commas says it.
fn one_says_close(value: &[u8]) -> bool
    ensures { result ≡ has_close value.now }
{
    let mut rest = value;
    while let Some(n) = first_comma(rest) {
        if says_close(&rest[..n]) {
            return true;
        }
        rest = behind(rest, n);
    }
    says_close(rest)
}

fn says_to_close(header: &HeaderSpan, buffer: &[u8]) -> bool
    requires { IsHeaderWithin (length buffer.now) header.now }
    ensures { result ≡ asks_to_close (header_bytes buffer.now header.now) }
{
    has_name(header.name.of(buffer), b"Connection") && one_says_close(header.value.of(buffer))
}

fn any_says_close(headers: &[HeaderSpan], buffer: &[u8]) -> bool
    requires { All (IsHeaderWithin (length buffer.now)) headers.now }
    ensures { result ≡ list_any asks_to_close (map (header_bytes buffer.now) headers.now) }
{
    for header in headers {
        if says_to_close(header, buffer) {
            return true;
        }
    }
    false
}

/// Whether the connection closes after the reply to this head.
pub fn closes(parsed: &Parsed, buffer: &[u8]) -> bool
    requires { (head : RequestHead) × Shows buffer.now parsed.now head }
    ensures { (head : RequestHead) → Shows buffer.now parsed.now head → result ≡ closes_after (heading_of head) }
{
    parsed.spans.version == 0 || any_says_close(parsed.headers(), buffer)
}
