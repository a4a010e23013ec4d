// The signing key that is kept from one message to the next.
ghost use Rattle.std.specs.Prelude.{◌≡◌, [], IfOk, IfSome};
ghost use Rattle.mac_sha.specs.Running.{IsMac};
ghost use Rattle.sigv4_check.specs.Kept.{is_of, service_key_of};

use crate::signing::signing_key_of;
use kms_names::{Bytes, NoMemory, Text};
use mac_sha::Mac;
use std::alloc::Global;
use std::marker::Model;

/// The signing key of the last secret, day and region that `check_with` was asked about, or none so
/// far. Contracts see nothing of it: no answer depends on what it holds.
///
/// It holds a copy of that secret access key and the HMAC under its signing key, which signs for
/// the service in that region on that day. They stay in memory until another key takes their place
/// or it is let go, and are not wiped then: keep one no longer than the credentials themselves.
#[derive(Drop)]
pub struct KeptKey {
    last: Option<DayKey>,
}

impl Model for KeptKey {
    ghost use Rattle.std.specs.Prelude.{⊤};

    ghost Value = { ⊤ };

    ghost view = { λ _. tt };
}

// The signing key of a secret, a day and a region, as an HMAC under it of no parts so far.
// Contracts see whose key it is.
#[derive(Drop)]
struct DayKey {
    secret: Text,
    date: Bytes,
    region: Bytes,
    mac: Mac,
}

impl Model for DayKey {
    ghost use Rattle.std.specs.Prelude.{[]};
    ghost use Rattle.mac_sha.specs.Running.{IsMac};
    ghost use Rattle.sigv4_check.specs.Kept.{Scoped, service_key_of};

    ghost Value = { Scoped };

    ghost view = { λ k. record { secret = k.secret; date = k.date; region = k.region } };

    ghost invariant = { λ k. IsMac k.mac (service_key_of k.secret k.date k.region) [] };
}

impl DayKey {
    fn new(
        alloc: Global,
        secret: &str,
        date: &[u8],
        region: &[u8],
        mac: Mac,
    ) -> Result<DayKey, NoMemory>
        requires { IsMac mac (service_key_of secret.now date.now region.now) [] }
        ensures { IfOk result (λ k. k ≡ record { secret = secret.now; date = date.now; region = region.now }) }
    {
        Ok(DayKey {
            secret: Text::from_str(alloc, secret)?,
            date: Bytes::from_slice(alloc, date)?,
            region: Bytes::from_slice(alloc, region)?,
            mac,
        })
    }

    fn is_of(&self, secret: &str, date: &[u8], region: &[u8]) -> bool
        ensures { result ≡ is_of self.now secret.now date.now region.now }
    {
        self.secret.as_str() == secret
            && self.date.as_slice() == date
            && self.region.as_slice() == region
    }

    fn mac(&self) -> Mac
        ensures { IsMac result (service_key_of self.now.secret self.now.date self.now.region) [] }
    {
        self.mac.copy()
    }
}

impl KeptKey {
    /// One that holds no key so far; no memory is taken.
    pub fn new() -> KeptKey {
        KeptKey { last: None }
    }

    // The HMAC under the signing key of these, if that is the key that is held.
    fn found(&self, secret: &str, date: &[u8], region: &[u8]) -> Option<Mac>
        ensures { IfSome result (λ mac. IsMac mac (service_key_of secret.now date.now region.now) []) }
    {
        let Some(key) = &self.last else {
            return None;
        };
        if key.is_of(secret, date, region) {
            Some(key.mac())
        } else {
            None
        }
    }

    /// An HMAC of no parts so far under the signing key of a secret access key for the key service
    /// (`kms`) in a region on a day, which is eight digits. What the message is, the caller adds.
    ///
    /// Where that key is the one that is held, the call compares the three with those that are
    /// held and copies the HMAC: no memory is taken. Else it makes the key by four HMACs with
    /// SHA-256, each of one of these texts, and holds it in the place of the one before. That takes
    /// memory for `AWS4` and the secret until the key is made, and for copies of the secret, the day
    /// and the region, which are held with 64 bytes of state for the HMAC.
    ///
    /// `NoMemory` comes only where the key isn't held and there is no memory to make it: what was
    /// held stays. Where memory is wanting only for the copies, the HMAC comes and no key is held.
    pub fn mac_under(
        &mut self,
        alloc: Global,
        secret: &str,
        date: &[u8],
        region: &[u8],
    ) -> Result<Mac, NoMemory>
        ensures { IfOk result (λ mac. IsMac mac (service_key_of secret.now date.now region.now) []) }
    {
        if let Some(mac) = self.found(secret, date, region) {
            return Ok(mac);
        }
        let key = signing_key_of(alloc, secret, date, region, b"kms")?;
        let mac = Mac::new(&key);
        self.last = DayKey::new(alloc, secret, date, region, mac.copy()).ok();
        Ok(mac)
    }
}
