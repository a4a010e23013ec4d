// Who asks.
ghost use Rattle.http_front.specs.Message.{Message, CutsOff};
ghost use Rattle.sigv4_check.specs.Signer.{IsOrNoMemory};
ghost use Rattle.session_front.specs.Callers.{caller_of};

use crate::trust::Trust;
use http_front::Cut;
use kms_names::Principal;
use sigv4_check::{AuthFault, KeptKey, check_with};
use std::alloc::Global;

/// Who asks by a message of a service of this region, at this answer of the clock: the one who is
/// trusted, or the one who signed it; else the first reason why nobody signed it. The buffer is the one
/// in which the message was found. The signing key is kept from one message to the next: no answer
/// depends on what is kept.
pub fn caller_in(
    alloc: Global,
    kept: &mut KeptKey,
    trust: &Trust,
    region: &str,
    cut: &Cut,
    buffer: &[u8],
    now: u64,
) -> Result<Principal, AuthFault>
    requires { (m : Message) × CutsOff buffer.now cut.now m }
    ensures { (m : Message) → CutsOff buffer.now cut.now m → IsOrNoMemory (caller_of trust.now region.now m now) result }
{
    match trust {
        Trust::Word(caller) => Ok(caller.copy()?),
        Trust::Signed(list) => {
            check_with(alloc, kept, cut, buffer, list.as_slice(), region, now)
        }
    }
}
