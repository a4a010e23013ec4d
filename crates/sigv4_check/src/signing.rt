// The string to sign, the signing key and the signature.
ghost use Rattle.std.specs.Prelude.{◌≡◌, ◌++◌, [], ℕ, List, codes, IfOk, string_bytes};
ghost use Rattle.std.specs.Str.{bytes_eq};
ghost use Rattle.sha2.specs.Sha256.{sha256};
ghost use Rattle.mac_sha.specs.Running.{IsMac};
ghost use Rattle.sigv4_check.specs.Signing.{signing_key_of, string_to_sign, signature_of};

use crate::canonical::hex_of;
use kms_names::NoMemory;
use mac_sha::{Mac, hmac256};
use std::alloc::Global;

// What stands before a secret in the first key.
const PREFIX: &str = "AWS4";

// The secret as the first key.
fn first_key(alloc: Global, secret: &str) -> Result<String, NoMemory>
    ensures { IfOk result (λ key. string_bytes key ≡ codes "AWS4" ++ secret.now) }
{
    let mut key = String::with_capacity(alloc, secret.len().saturating_add(PREFIX.len()))?;
    key.push_str(PREFIX)?;
    key.push_str(secret)?;
    Ok(key)
}

/// The key that signs what is asked of a service in a region on a day (YYYYMMDD), with a secret
/// access key: IAM User Guide, "Create a signed AWS API request", step 3. It is four HMACs.
#[tactic(auto, unfolding(crate::specs::Signing::signing_key_of))]
pub fn signing_key(
    alloc: Global,
    secret: &str,
    date: &str,
    region: &str,
    service: &str,
) -> Result<[u8; 32], NoMemory>
    ensures { IfOk result (λ key. key ≡ signing_key_of secret.now date.now region.now service.now) }
{
    signing_key_of(
        alloc,
        secret,
        date.as_bytes(),
        region.as_bytes(),
        service.as_bytes(),
    )
}

/// The same of a day, a region and a service as bytes.
#[tactic(auto, unfolding(crate::specs::Signing::signing_key_of))]
pub fn signing_key_of(
    alloc: Global,
    secret: &str,
    date: &[u8],
    region: &[u8],
    service: &[u8],
) -> Result<[u8; 32], NoMemory>
    ensures { IfOk result (λ key. key ≡ signing_key_of secret.now date.now region.now service.now) }
{
    let first = first_key(alloc, secret)?;
    let day = hmac256(first.as_bytes(), date);
    let place = hmac256(&day, region);
    let subject = hmac256(&place, service);
    Ok(hmac256(&subject, b"aws4_request"))
}

/// The signature of the string to sign, from an HMAC of no parts so far under the signing key and
/// the hash of the canonical request.
#[tactic(auto, unfolding(crate::specs::Signing::string_to_sign, crate::specs::Signing::signature_of))]
pub fn signature(
    mut mac: Mac,
    stamp: &[u8],
    date: &[u8],
    region: &[u8],
    hash: &[u8; 32],
) -> [u8; 64]
    ensures { (key canonical : List ℕ) → IsMac mac key [] → hash.now ≡ sha256 canonical → result ≡ signature_of key (string_to_sign stamp.now date.now region.now canonical) }
{
    mac.add(b"AWS4-HMAC-SHA256\n");
    mac.add(stamp);
    mac.add(b"\n");
    mac.add(date);
    mac.add(b"/");
    mac.add(region);
    mac.add(b"/kms/aws4_request\n");
    mac.add(&hex_of(hash));
    hex_of(&mac.end())
}

/// Whether a text is these digits. The differences of all 64 digits are joined before the one test,
/// whatever stands before a digit that differs.
pub fn are_digits(digits: &[u8; 64], text: &[u8]) -> bool
    ensures { result ≡ bytes_eq digits.now text.now }
{
    if text.len() != 64 {
        return false;
    }
    let mut difference = 0;
    for i in 0..64 {
        difference |= digits[i] ^ text[i];
    }
    difference == 0
}
