// The headers and the body of a message.
ghost use Rattle.std.specs.Prelude.{◌≡◌, ◌<◌, OnSome, option_map, slice_get};
ghost use Rattle.http_front.specs.Heading.{values_in};
ghost use Rattle.http_front.specs.Message.{Message, CutsOff};
ghost use Rattle.sigv4_check.specs.Fields.{fields_in, body_in};

use http_front::Cut;

/// The name and the value of the i-th header; None from the number of headers on.
pub fn field_at<'a>(cut: &Cut, buffer: &'a [u8], i: usize) -> Option<(&'a [u8], &'a [u8])>
    requires { (m : Message) × CutsOff buffer.now cut.now m }
    ensures value { option_map (λ field. (field.0.now, field.1.now)) result ≡ slice_get (fields_in buffer.now cut.now) i }
    ensures few { OnSome result (i < 64) }
{
    cut.header_at(buffer, i)
}

/// The k-th value of a name.
pub fn value_at<'a>(cut: &Cut, buffer: &'a [u8], name: &str, k: usize) -> Option<&'a [u8]>
    requires { (m : Message) × CutsOff buffer.now cut.now m }
    ensures { option_map (λ value. value.now) result ≡ slice_get (values_in name.now (fields_in buffer.now cut.now)) k }
{
    cut.header(buffer, name, k)
}

/// The body.
pub fn body_of<'a>(cut: &Cut, buffer: &'a [u8]) -> &'a [u8]
    requires { (m : Message) × CutsOff buffer.now cut.now m }
    ensures { result.now ≡ body_in buffer.now cut.now }
{
    cut.body(buffer)
}
