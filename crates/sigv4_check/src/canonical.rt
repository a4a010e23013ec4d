// The canonical request, which is handed to the hash part by part.
ghost use Rattle.std.specs.Prelude.{◌≡◌, ◌++◌, ℕ, List};
ghost use Rattle.std.specs.List.{flat_map};
ghost use Rattle.hex.specs.Hex.{encode_lower};
ghost use Rattle.sha2.specs.Hashers.{Holds256};
ghost use Rattle.sha2.specs.Sha256.{sha256};
ghost use Rattle.http_front.specs.Message.{Message, CutsOff};
ghost use Rattle.sigv4_check.specs.Parts.{parts_at};
ghost use Rattle.sigv4_check.specs.Fields.{fields_in, body_in};
ghost use Rattle.sigv4_check.specs.Canonical.{begins_with_spaces, squeezed, next_value, canonical_values, ended_line, canonical_request};

use crate::fields::{body_of, field_at};
use crate::parts::{behind, cut_at};
use crate::signed_names::has_name;
use http_front::Cut;
use sha2::{Digest, Sha256};

/// A hash in lower-case hexadecimal digits.
pub fn hex_of(hash: &[u8; 32]) -> [u8; 64]
    ensures { result ≡ encode_lower hash.now }
{
    let mut digits = [0u8; 64];
    let _ = hex::encode_to_slice(hash.as_slice(), &mut digits);
    digits
}

fn begins_with_spaces(text: &[u8]) -> bool
    ensures { result ≡ begins_with_spaces text.now }
{
    matches!(text, [b' ', b' ', ..])
}

// Adds a value, in which each run of spaces counts as one.
fn add_value(hasher: &mut Sha256, value: &[u8])
    ensures { (m : List ℕ) → Holds256 hasher.old m → Holds256 hasher.new (m ++ squeezed value.now) }
{
    let mut start = 0;
    for i in 0..value.len() {
        if begins_with_spaces(behind(value, i)) {
            hasher.update(&value[start..i]);
            start = i + 1;
        }
    }
    hasher.update(behind(value, start));
}

// Adds a value, with a comma before it where others stand before it.
fn add_next_value(hasher: &mut Sha256, value: &[u8], is_first: bool)
    ensures { (m : List ℕ) → Holds256 hasher.old m → Holds256 hasher.new (m ++ next_value is_first value.now) }
{
    if !is_first {
        hasher.update(b",".as_slice());
    }
    add_value(hasher, value);
}

// Adds the values of a name, with a comma between two.
fn add_values(hasher: &mut Sha256, cut: &Cut, buffer: &[u8], name: &[u8])
    requires { (m : Message) × CutsOff buffer.now cut.now m }
    ensures { (m : List ℕ) → Holds256 hasher.old m → Holds256 hasher.new (m ++ canonical_values (fields_in buffer.now cut.now) name.now) }
{
    let mut is_first = true;
    let mut i = 0;
    while let Some((field, value)) = field_at(cut, buffer, i) {
        if has_name(field, name) {
            add_next_value(hasher, value, is_first);
            is_first = false;
        }
        i += 1;
    }
}

// Adds the line of a name.
fn add_line(hasher: &mut Sha256, cut: &Cut, buffer: &[u8], name: &[u8])
    requires { (m : Message) × CutsOff buffer.now cut.now m }
    ensures { (m : List ℕ) → Holds256 hasher.old m → Holds256 hasher.new (m ++ ended_line (fields_in buffer.now cut.now) name.now) }
{
    hasher.update(name);
    hasher.update(b":".as_slice());
    add_values(hasher, cut, buffer, name);
    hasher.update(b"\n".as_slice());
}

// Adds the lines of the signed names.
fn add_lines(hasher: &mut Sha256, cut: &Cut, buffer: &[u8], names: &[u8])
    requires { (m : Message) × CutsOff buffer.now cut.now m }
    ensures { (m : List ℕ) → Holds256 hasher.old m → Holds256 hasher.new (m ++ flat_map (ended_line (fields_in buffer.now cut.now)) (parts_at 59 names.now)) }
{
    let mut rest = names;
    while let Some((name, others)) = cut_at(rest, b';') {
        add_line(hasher, cut, buffer, name);
        rest = others;
    }
    add_line(hasher, cut, buffer, rest);
}

/// The SHA-256 of the canonical request of a message whose signed names these are. The body is hashed on
/// its own before.
#[tactic(auto, unfolding(crate::specs::Canonical::canonical_request))]
pub fn canonical_hash(cut: &Cut, buffer: &[u8], names: &[u8]) -> [u8; 32]
    requires { (m : Message) × CutsOff buffer.now cut.now m }
    ensures { result ≡ sha256 (canonical_request (fields_in buffer.now cut.now) names.now (body_in buffer.now cut.now)) }
{
    let body: [u8; 32] = Sha256::digest(body_of(cut, buffer));
    let mut hasher = Sha256::new();
    hasher.update(b"POST\n/\n\n".as_slice());
    add_lines(&mut hasher, cut, buffer, names);
    hasher.update(b"\n".as_slice());
    hasher.update(names);
    hasher.update(b"\n".as_slice());
    hasher.update(hex_of(&body).as_slice());
    hasher.finalize()
}
