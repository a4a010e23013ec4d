// The header Authorization.
ghost use Rattle.std.specs.Prelude.{◌≡◌, ◌∷◌, ◌&&◌, [], option_map, codes};
ghost use Rattle.std.specs.Str.{bytes_eq};
ghost use Rattle.std.specs.List.{list_all};
ghost use Rattle.sigv4_check.specs.Parts.{skip_spaces as spaces_skipped};
ghost use Rattle.sigv4_check.specs.Authorization.{is_lower_hex_digit, is_signature, scope_of, part_of, claims_in, claims_of};
ghost use Rattle.sigv4_check.specs.Shown.{shown_scope, shown_claims, IsThree};

use crate::parts::{after, cut_at, skip_spaces};

/// What the header Authorization claims, as it stands there.
#[derive(Clone, Copy)]
pub struct Claims<'a> {
    /// The access key id.
    pub id: &'a [u8],
    /// The day of the signing key, YYYYMMDD.
    pub date: &'a [u8],
    /// The region of the signing key.
    pub region: &'a [u8],
    /// The names of the signed headers, joined by `;`.
    pub names: &'a [u8],
    /// The signature, 64 hexadecimal digits in lower case.
    pub signature: &'a [u8],
}

// What a credential is for.
#[derive(Clone, Copy)]
struct Scope<'a> {
    id: &'a [u8],
    date: &'a [u8],
    region: &'a [u8],
}

// The parts of the header, in the order in which they stand there.
#[derive(Clone, Copy)]
struct Parts<'a> {
    first: &'a [u8],
    second: &'a [u8],
    third: &'a [u8],
}

impl<'a> Parts<'a> {
    // The value of the one part that begins with the key.
    fn value_of(&self, key: &[u8]) -> Option<&'a [u8]>
        ensures { option_map (λ value. value.now) result ≡ part_of key.now (self.now.first.now ∷ self.now.second.now ∷ self.now.third.now ∷ []) }
    {
        match (
            after(self.first, key),
            after(self.second, key),
            after(self.third, key),
        ) {
            (Some(value), None, None) | (None, Some(value), None) | (None, None, Some(value)) =>
                Some(value),
            _ => None,
        }
    }
}

fn is_lower_hex_byte(byte: u8) -> bool
    ensures { result ≡ is_lower_hex_digit byte }
{
    byte.is_ascii_digit() || (b'a' <= byte && byte <= b'f')
}

fn are_lower_hex(text: &[u8]) -> bool
    ensures { result ≡ list_all is_lower_hex_digit text.now }
{
    text.iter().all(|byte| is_lower_hex_byte(*byte))
}

fn is_signature(text: &[u8]) -> bool
    ensures { result ≡ is_signature text.now }
{
    text.len() == 64 && are_lower_hex(text)
}

// Whether a scope ends as one of this service.
fn is_of_service(service: &[u8], end: &[u8]) -> bool
    ensures { result ≡ (bytes_eq service.now (codes "kms") && bytes_eq end.now (codes "aws4_request")) }
{
    service == b"kms".as_slice() && end == b"aws4_request".as_slice()
}

// ID/DATE/REGION/kms/aws4_request
fn scope_of(text: &[u8]) -> Option<Scope<'_>>
    ensures { option_map shown_scope result ≡ scope_of text.now }
{
    let (id, rest) = cut_at(text, b'/')?;
    let (date, rest) = cut_at(rest, b'/')?;
    let (region, rest) = cut_at(rest, b'/')?;
    let (service, end) = cut_at(rest, b'/')?;
    if !is_of_service(service, end) {
        return None;
    }
    Some(Scope { id, date, region })
}

fn claims_in<'a>(parts: &Parts<'a>) -> Option<Claims<'a>>
    ensures { option_map shown_claims result ≡ claims_in (parts.now.first.now ∷ parts.now.second.now ∷ parts.now.third.now ∷ []) }
{
    let scope = scope_of(parts.value_of(b"Credential=")?)?;
    let names = parts.value_of(b"SignedHeaders=")?;
    let signature = parts.value_of(b"Signature=")?;
    if !is_signature(signature) {
        return None;
    }
    Some(Claims {
        id: scope.id,
        date: scope.date,
        region: scope.region,
        names,
        signature,
    })
}

fn parts_of(text: &[u8]) -> Option<Parts<'_>>
    ensures { IsThree text.now result }
{
    let (first, rest) = cut_at(text, b',')?;
    let (second, third) = cut_at(rest, b',')?;
    match cut_at(third, b',') {
        Some(_) => None,
        None => Some(Parts {
            first: skip_spaces(first),
            second: skip_spaces(second),
            third: skip_spaces(third),
        }),
    }
}

/// What the value of a header Authorization claims: `AWS4-HMAC-SHA256`, spaces, and the three parts in
/// any order, each once, with a comma and any spaces between two of them; None for any other value.
pub fn claims_of(value: &[u8]) -> Option<Claims<'_>>
    ensures { option_map shown_claims result ≡ claims_of value.now }
{
    claims_in(&parts_of(after(value, b"AWS4-HMAC-SHA256 ")?)?)
}
