//! The MACs of HMAC keys.

ghost use Rattle.std.specs.Prelude.{◌≡◌, ◌↔◌, IsTrue};
ghost use Rattle.hmac_keys.specs.Mac.{mac_of, secret_of};

use kms_names::KeyId;
use mac_sha::{Mac, hmac256};

/// The label of the secrets of HMAC keys under the root secret.
const LABEL: &[u8] = b"mac";

/// The MAC of a message under an HMAC key: HMAC-SHA-256 (FIPS 198-1, section 4) under the key's secret,
/// which is HMAC-SHA-256 under the root secret of the label `mac` and the key's id. No memory is taken.
#[tactic(auto, unfolding(crate::specs::Mac::mac_of))]
pub fn mac_of(root: &[u8; 32], key: &KeyId, message: &[u8]) -> [u8; 32]
    ensures { result ≡ mac_of root.now key.now message.now }
{
    hmac256(&secret(root, key), message)
}

/// Whether these bytes are the MAC of the message under the key: all its 32 bytes, and no more.
///
/// Where there are 32 bytes, all of them are looked at wherever one differs; how long that takes isn't
/// proved. No memory is taken.
pub fn verify_mac(root: &[u8; 32], key: &KeyId, message: &[u8], mac: &[u8]) -> bool
    ensures { IsTrue result ↔ (mac.now ≡ mac_of root.now key.now message.now) }
{
    are_equal(&mac_of(root, key, message), mac)
}

/// The secret of an HMAC key.
#[tactic(auto, unfolding(crate::specs::Mac::secret_of))]
fn secret(root: &[u8; 32], key: &KeyId) -> [u8; 32]
    ensures { result ≡ secret_of root.now key.now }
{
    let mut mac = Mac::new(root);
    mac.add(LABEL);
    mac.add(key.as_bytes());
    mac.end()
}

/// Whether what is given is the MAC that is wanted. Their differences are gathered over all 32 bytes.
fn are_equal(wanted: &[u8; 32], given: &[u8]) -> bool
    ensures { IsTrue result ↔ (given.now ≡ wanted.now) }
{
    if given.len() != wanted.len() {
        return false;
    }
    let mut difference = 0;
    for i in 0..32 {
        difference |= wanted[i] ^ given[i];
    }
    difference == 0
}
