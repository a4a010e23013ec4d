// What a message asks of the account.
ghost use Rattle.std.specs.Prelude.{◌≡◌, ℕ, List, IfOk};
ghost use Rattle.http_front.specs.Message.{Message, CutsOff};
ghost use Rattle.session_front.specs.Asked.{asked_in, after_in};
ghost use Rattle.session_front.specs.Callers.{IsOfAccount};
ghost use Rattle.session_front.specs.Early.{ask_by, ask_of, IsAskOrWants, IsAskAt};

use crate::asked::{After, after_of, asked_of};
use crate::callers::caller_in;
use crate::refused::Early;
use crate::trust::Trust;
use http_front::Cut;
use kms_json::{Ask, Refusal};
use kms_names::{Principal, Text};
use sigv4_check::KeptKey;
use std::alloc::Global;

// What this caller asks by a message.
fn ask_by(
    alloc: Global,
    caller: Principal,
    cut: &Cut,
    buffer: &[u8],
    moment: u64,
) -> Result<Ask, Early>
    requires { (m : Message) × CutsOff buffer.now cut.now m }
    ensures { (m : Message) → CutsOff buffer.now cut.now m → IsAskOrWants (ask_by caller moment (asked_in m) (after_in m)) result }
{
    let body = asked_of(alloc, cut, buffer)?;
    match after_of(cut, buffer) {
        After::Entries(after) => Ok(Ask {
            body,
            caller,
            moment,
            after,
        }),
        After::Malformed => {
            let field = Text::from_str(alloc, "x-kms-after")?;
            Err(Early::Fault(Refusal::Validation(field)))
        }
    }
}

/// What a message asks of an account of this region, at this answer of the clock. It is refused here
/// exactly where no account has to be looked at for it: who asks is judged first, then the target and
/// the body, then the header x-kms-after. The buffer is the one in which the message was found. The
/// signing key is kept from one message to the next: no answer depends on what is kept.
///
/// Where whoever may be the caller is of an account, the caller of what is asked is.
pub fn early(
    alloc: Global,
    kept: &mut KeptKey,
    cut: &Cut,
    buffer: &[u8],
    trust: &Trust,
    region: &str,
    moment: u64,
) -> Result<Ask, Early>
    requires { (m : Message) × CutsOff buffer.now cut.now m }
    ensures ask { (m : Message) → CutsOff buffer.now cut.now m → IsAskOrWants (ask_of trust.now region.now m moment) result }
    ensures proper { (account : List ℕ) → IsOfAccount account trust.now → IfOk result (IsAskAt account moment) }
{
    let caller = caller_in(alloc, kept, trust, region, cut, buffer, moment)?;
    ask_by(alloc, caller, cut, buffer, moment)
}
