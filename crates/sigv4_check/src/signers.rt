// Who signed a message.
ghost use Rattle.std.specs.Prelude.{◌≡◌, ◌∷◌, [], ℕ, List, IfOk, option_map, codes};
ghost use Rattle.std.specs.Result.{result_map_both};
ghost use Rattle.std.specs.Str.{bytes_eq};
ghost use Rattle.http_front.specs.Heading.{values_in};
ghost use Rattle.http_front.specs.Message.{Message, CutsOff};
ghost use Rattle.sigv4_check.specs.Fields.{fields_in, body_in};
ghost use Rattle.sigv4_check.specs.Parts.{only};
ghost use Rattle.sigv4_check.specs.Shown.{shown_claim, shown_claims};
ghost use Rattle.sigv4_check.specs.Credentials.{AreDistinct};
ghost use Rattle.sigv4_check.specs.Signer.{claim_of, claim_in, is_complete, is_far, signature_under, signer_in, signer_of, IsOrNoMemory};

use crate::authorization::{Claims, claims_of};
use crate::canonical::canonical_hash;
use crate::credentials::{Credential, find};
use crate::dates::second_of;
use crate::faults::AuthFault;
use crate::fields::value_at;
use crate::kept::KeptKey;
use crate::parts::front;
use crate::signed_names::are_signed_names;
use crate::signing::{are_digits, signature};
use http_front::Cut;
use kms_names::{NoMemory, Principal};
use std::alloc::Global;

// How many seconds the clock and the date of a request may differ by.
const WINDOW: u64 = 300;

/// What a message claims, and when: its date as it is written, and its second since 1970.
#[derive(Clone, Copy)]
pub struct Claim<'a> {
    pub claims: Claims<'a>,
    pub stamp: &'a [u8],
    pub second: u64,
}

// The one value of x-amz-date.
fn stamp_of<'a>(cut: &Cut, buffer: &'a [u8]) -> Option<&'a [u8]>
    requires { (m : Message) × CutsOff buffer.now cut.now m }
    ensures { option_map (λ value. value.now) result ≡ only (values_in (codes "x-amz-date") (fields_in buffer.now cut.now)) }
{
    let stamp = value_at(cut, buffer, "x-amz-date", 0)?;
    if value_at(cut, buffer, "x-amz-date", 1).is_some() {
        return None;
    }
    Some(stamp)
}

fn is_complete(cut: &Cut, buffer: &[u8], region: &str, claims: &Claims, stamp: &[u8]) -> bool
    requires { (m : Message) × CutsOff buffer.now cut.now m }
    ensures { result ≡ is_complete (fields_in buffer.now cut.now) region.now (shown_claims claims.now) stamp.now }
{
    claims.date == front(stamp, 8)
        && claims.region == region.as_bytes()
        && are_signed_names(cut, buffer, claims.names)
}

// The claim of a header Authorization.
#[tactic(auto, unfolding(crate::specs::Signer::claim_of))]
fn claim_of<'a>(cut: &Cut, buffer: &'a [u8], region: &str, value: &'a [u8]) -> Option<Claim<'a>>
    requires { (m : Message) × CutsOff buffer.now cut.now m }
    ensures { option_map shown_claim result ≡ claim_of (fields_in buffer.now cut.now) region.now value.now }
{
    let claims = claims_of(value)?;
    let stamp = stamp_of(cut, buffer)?;
    let second = second_of(stamp)?;
    if !is_complete(cut, buffer, region, &claims, stamp) {
        return None;
    }
    Some(Claim {
        claims,
        stamp,
        second,
    })
}

// The claim of a message, which has one header Authorization.
#[tactic(auto, unfolding(crate::specs::Signer::claim_in))]
fn claim_in<'a>(cut: &Cut, buffer: &'a [u8], region: &str) -> Result<Claim<'a>, AuthFault>
    requires { (m : Message) × CutsOff buffer.now cut.now m }
    ensures { result_map_both shown_claim (λ why. why) result ≡ claim_in (fields_in buffer.now cut.now) region.now }
{
    let Some(value) = value_at(cut, buffer, "Authorization", 0) else {
        return Err(AuthFault::NoAuth);
    };
    if value_at(cut, buffer, "Authorization", 1).is_some() {
        return Err(AuthFault::Incomplete);
    }
    claim_of(cut, buffer, region, value).ok_or(AuthFault::Incomplete)
}

fn is_far(second: u64, clock: u64) -> bool
    ensures { result ≡ is_far second clock }
{
    second.abs_diff(clock) > WINDOW
}

// Whether the message's signature is the one under a secret.
#[tactic(auto, unfolding(crate::specs::Signer::signature_under))]
fn is_signed_by(
    alloc: Global,
    kept: &mut KeptKey,
    secret: &str,
    claim: &Claim,
    cut: &Cut,
    buffer: &[u8],
) -> Result<bool, NoMemory>
    requires { (m : Message) × CutsOff buffer.now cut.now m }
    ensures { IfOk result (λ is. is ≡ bytes_eq (signature_under secret.now (shown_claim claim.now) (fields_in buffer.now cut.now) (body_in buffer.now cut.now)) claim.now.claims.signature.now) }
{
    let claims = &claim.claims;
    let mac = kept.mac_under(alloc, secret, claims.date, claims.region)?;
    let hash = canonical_hash(cut, buffer, claims.names);
    let digits = signature(mac, claim.stamp, claims.date, claims.region, &hash);
    Ok(are_digits(&digits, claims.signature))
}

// Who signed a message, by the places of its parts.
#[tactic(auto, unfolding(crate::specs::Signer::signer_in))]
fn signer(
    alloc: Global,
    kept: &mut KeptKey,
    cut: &Cut,
    buffer: &[u8],
    creds: &[Credential],
    region: &str,
    clock: u64,
) -> Result<Principal, AuthFault>
    requires found { (m : Message) × CutsOff buffer.now cut.now m }
    requires distinct { AreDistinct creds.now }
    ensures { IsOrNoMemory (signer_in (fields_in buffer.now cut.now) (body_in buffer.now cut.now) creds.now region.now clock) result }
{
    let claim = match claim_in(cut, buffer, region) {
        Ok(claim) => claim,
        Err(why) => return Err(why),
    };
    let Some(credential) = find(creds, claim.claims.id) else {
        return Err(AuthFault::UnknownKey);
    };
    if is_far(claim.second, clock) {
        return Err(AuthFault::Expired);
    }
    if !is_signed_by(alloc, kept, credential.secret.as_str(), &claim, cut, buffer)? {
        return Err(AuthFault::BadSignature);
    }
    Ok(credential.principal.copy()?)
}

/// Who signed a message for a service of this region, by AWS Signature Version 4 (AWS General
/// Reference, "Create a signed AWS API request"): the principal of the credential that its one header
/// Authorization names, where the signature is right; else the first reason against it, in the order
/// of `AuthFault`. `moment` is the clock's answer, in seconds since 1970, and the buffer is the one
/// in which the message was found.
///
/// The signing key is taken from `kept` where it is the one that is held there, and is held there
/// after; the answer is the same whatever is held. Then it takes memory for the answer alone, and
/// makes one HMAC; else it takes memory for the first key and for what is kept too, and makes five.
/// The body is hashed once, the canonical request once, part by part.
pub fn check_with(
    alloc: Global,
    kept: &mut KeptKey,
    cut: &Cut,
    buffer: &[u8],
    creds: &[Credential],
    region: &str,
    moment: u64,
) -> Result<Principal, AuthFault>
    requires found { (m : Message) × CutsOff buffer.now cut.now m }
    requires distinct { AreDistinct creds.now }
    ensures { (m : Message) → CutsOff buffer.now cut.now m → IsOrNoMemory (signer_of m creds.now region.now moment) result }
{
    signer(alloc, kept, cut, buffer, creds, region, moment)
}

/// The same of one message alone: no key is kept from it or for it.
pub fn check(
    alloc: Global,
    cut: &Cut,
    buffer: &[u8],
    creds: &[Credential],
    region: &str,
    moment: u64,
) -> Result<Principal, AuthFault>
    requires found { (m : Message) × CutsOff buffer.now cut.now m }
    requires distinct { AreDistinct creds.now }
    ensures { (m : Message) → CutsOff buffer.now cut.now m → IsOrNoMemory (signer_of m creds.now region.now moment) result }
{
    let mut kept = KeptKey::new();
    check_with(alloc, &mut kept, cut, buffer, creds, region, moment)
}
