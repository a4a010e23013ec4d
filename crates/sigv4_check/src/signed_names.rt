// The names of the signed headers.
ghost use Rattle.std.specs.Prelude.{◌≡◌, ◌||◌, not};
ghost use Rattle.std.specs.List.{list_all};
ghost use Rattle.std.specs.Str.{str_eq_ignore_ascii_case};
ghost use Rattle.http_front.specs.Message.{Message, CutsOff};
ghost use Rattle.sigv4_check.specs.Parts.{parts_at};
ghost use Rattle.sigv4_check.specs.Fields.{fields_in};
ghost use Rattle.sigv4_check.specs.SignedNames.{is_lower, has_header, is_before, is_signed, is_amz, is_signed_if_amz, is_signable, are_signable, are_signed_names};

use crate::fields::field_at;
use crate::parts::{cut_at, first_part, front};
use http_front::Cut;

fn is_lower(name: &[u8]) -> bool
    ensures { result ≡ is_lower name.now }
{
    name.iter().all(|byte| !byte.is_ascii_uppercase())
}

/// Whether the name of a header is this one, without case.
pub fn has_name(field: &[u8], name: &[u8]) -> bool
    ensures { result ≡ str_eq_ignore_ascii_case field.now name.now }
{
    field.eq_ignore_ascii_case(name)
}

/// Whether one text stands before the other in the order of bytes.
pub fn is_before(one: &[u8], other: &[u8]) -> bool
    ensures { result ≡ is_before one.now other.now }
{
    one.cmp(other).is_lt()
}

// Whether a header has this name.
fn has_header(cut: &Cut, buffer: &[u8], name: &[u8]) -> bool
    requires { (m : Message) × CutsOff buffer.now cut.now m }
    ensures { result ≡ has_header (fields_in buffer.now cut.now) name.now }
{
    let mut i = 0;
    while let Some((field, _)) = field_at(cut, buffer, i) {
        if has_name(field, name) {
            return true;
        }
        i += 1;
    }
    false
}

// Whether a header of this name may be signed: the name is in lower case, and a header has it.
fn is_signable(cut: &Cut, buffer: &[u8], name: &[u8]) -> bool
    requires { (m : Message) × CutsOff buffer.now cut.now m }
    ensures { result ≡ is_signable (fields_in buffer.now cut.now) name.now }
{
    is_lower(name) && has_header(cut, buffer, name)
}

// Whether the names may be signed and ascend.
fn are_signable(cut: &Cut, buffer: &[u8], names: &[u8]) -> bool
    requires { (m : Message) × CutsOff buffer.now cut.now m }
    ensures { result ≡ are_signable (fields_in buffer.now cut.now) (parts_at 59 names.now) }
{
    let mut rest = names;
    while let Some((name, others)) = cut_at(rest, b';') {
        if !is_signable(cut, buffer, name) || !is_before(name, first_part(others, b';')) {
            return false;
        }
        rest = others;
    }
    is_signable(cut, buffer, rest)
}

// Whether the header of this name is among the signed ones.
fn is_signed(names: &[u8], name: &[u8]) -> bool
    ensures { result ≡ is_signed (parts_at 59 names.now) name.now }
{
    let mut rest = names;
    while let Some((signed, others)) = cut_at(rest, b';') {
        if has_name(name, signed) {
            return true;
        }
        rest = others;
    }
    has_name(name, rest)
}

fn is_amz(name: &[u8]) -> bool
    ensures { result ≡ is_amz name.now }
{
    front(name, 6).eq_ignore_ascii_case(b"x-amz-")
}

fn is_signed_if_amz(names: &[u8], name: &[u8]) -> bool
    ensures { result ≡ (not (is_amz name.now) || is_signed (parts_at 59 names.now) name.now) }
{
    !is_amz(name) || is_signed(names, name)
}

// Whether each header whose name begins with `x-amz-` is signed.
fn are_amz_signed(cut: &Cut, buffer: &[u8], names: &[u8]) -> bool
    requires { (m : Message) × CutsOff buffer.now cut.now m }
    ensures { result ≡ list_all (is_signed_if_amz (parts_at 59 names.now)) (fields_in buffer.now cut.now) }
{
    let mut i = 0;
    while let Some((field, _)) = field_at(cut, buffer, i) {
        if !is_signed_if_amz(names, field) {
            return false;
        }
        i += 1;
    }
    true
}

/// Whether these are the names of signed headers, joined by `;`: each in lower case and the name of a
/// header, strictly ascending by their bytes, among them `host` and each that begins with `x-amz-`.
#[tactic(auto, unfolding(crate::specs::SignedNames::are_signed_names))]
pub fn are_signed_names(cut: &Cut, buffer: &[u8], names: &[u8]) -> bool
    requires { (m : Message) × CutsOff buffer.now cut.now m }
    ensures { result ≡ are_signed_names (fields_in buffer.now cut.now) names.now }
{
    are_signable(cut, buffer, names)
        && is_signed(names, b"host")
        && are_amz_signed(cut, buffer, names)
}
