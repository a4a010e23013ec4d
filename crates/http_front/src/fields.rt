// The headers of a head.
ghost use Rattle.std.specs.Prelude.{◌≡◌, length, map, All, slice_get, option_copied};
ghost use Rattle.std.specs.Str.{str_eq_ignore_ascii_case};
ghost use Rattle.httparse.specs.Spans.{header_bytes, IsHeaderWithin};
ghost use Rattle.http_front.specs.Heading.{values_in};

use httparse::spans::HeaderSpan;

/// Whether the header's name is this one.
pub fn has_name(field: &[u8], name: &[u8]) -> bool
    ensures { result ≡ str_eq_ignore_ascii_case field.now name.now }
{
    field.eq_ignore_ascii_case(name)
}

/// The value with this number, counted from 0, of those of the headers with this name.
pub fn value_at<'a>(
    headers: &[HeaderSpan],
    buffer: &'a [u8],
    name: &[u8],
    k: usize,
) -> Option<&'a [u8]>
    requires { All (IsHeaderWithin (length buffer.now)) headers.now }
    ensures { option_copied result ≡ slice_get (values_in name.now (map (header_bytes buffer.now) headers.now)) k }
{
    let mut left = k;
    for header in headers {
        if has_name(header.name.of(buffer), name) {
            if left == 0 {
                return Some(header.value.of(buffer));
            }
            left -= 1;
        }
    }
    None
}
