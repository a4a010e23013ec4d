// What the operations on MACs are asked.
ghost use Rattle.std.specs.Prelude.{◌≡◌};
ghost use Rattle.kms_json.specs.Building.{held};
ghost use Rattle.kms_json.specs.MacAsks as asked;

use super::next;
use crate::asks::{GenerateMac, Reading, VerifyMac};
use crate::given::{Given, bytes_in, flag_in, text_in, texts_in};
use std::alloc::Global;
use std::collections::VecDeque;

/// GenerateMac.
pub fn generate_mac(alloc: Global, values: &mut VecDeque<Given>) -> Reading
    ensures { result ≡ asked.generate_mac (held asked.generate_mac_fields values.old.items) }
{
    Reading::GenerateMac(GenerateMac {
        message: bytes_in(alloc, next(values)),
        key_id: text_in(alloc, next(values)),
        algorithm: text_in(alloc, next(values)),
        grant_tokens: texts_in(alloc, next(values)),
        dry_run: flag_in(next(values)),
    })
}

/// VerifyMac.
pub fn verify_mac(alloc: Global, values: &mut VecDeque<Given>) -> Reading
    ensures { result ≡ asked.verify_mac (held asked.verify_mac_fields values.old.items) }
{
    Reading::VerifyMac(VerifyMac {
        message: bytes_in(alloc, next(values)),
        key_id: text_in(alloc, next(values)),
        algorithm: text_in(alloc, next(values)),
        mac: bytes_in(alloc, next(values)),
        grant_tokens: texts_in(alloc, next(values)),
        dry_run: flag_in(next(values)),
    })
}
