// The lines of what no account decides, and the exceptions of replies.
ghost use Rattle.std.specs.Prelude.{◌≡◌, IfOk};
ghost use Rattle.explain_session.specs.Explaining.{early_line, exception_in};

use access_explain::{Certificate, FindingList, certificate_line};
use kms_json::Reply;
use kms_names::{Bytes, NoMemory};
use std::alloc::Global;

/// The name of the exception of a reply, or `Ok`. It takes no memory.
pub fn exception_in(reply: &Reply) -> &'static str
    ensures { result.now ≡ exception_in reply.now }
{
    match reply {
        Reply::Refused(why) => why.exception(),
        _ => "Ok",
    }
}

/// The line of what is refused with an exception before the account is asked.
pub fn early_line(alloc: Global, exception: &str) -> Result<Bytes, NoMemory>
    ensures { IfOk result (λ line. line ≡ early_line exception.now) }
{
    let certificate = Certificate {
        early: true,
        allowed: false,
        findings: FindingList::new(Vec::new(alloc)),
    };
    certificate_line(alloc, &certificate, exception)
}
