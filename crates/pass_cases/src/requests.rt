// What the root of the account asks, or ann.
ghost use Rattle.std.specs.Prelude.{◌≡◌, false, IfOk};
ghost use Rattle.kms_json.specs.Asks.{changes_account};
ghost use Rattle.account_core.specs.Decide.{IsProper};
ghost use Rattle.kms_names.specs.Principal.{account_of};

use account_steps::RealmFacts;
use kms_io::Gate;
use kms_json::{Ask, JsonFault, read_ask};
use kms_names::{NoMemory, Principal, Text};
use publish_pass::{Answered, Nothing, Pass, Realm, Service, Unmade, Unread};
use std::alloc::{AllocError, Global};
use std::io;
use std::sync::Wait;

/// Who asks.
#[derive(Clone, Copy)]
pub enum Caller {
    /// The root of the account.
    Root,
    /// Its user `ann`, who has no policies.
    Ann,
}

/// A request: who sends it, its operation, its body, and how many entries it wants.
#[derive(Clone, Copy)]
pub struct Request<'a> {
    /// The one who asks.
    pub caller: Caller,
    /// The operation, as `CreateKey`.
    pub operation: &'a str,
    /// The body, a JSON text.
    pub body: &'a str,
    /// How many entries the history is to have at least.
    pub after: Option<u64>,
}

/// A key is made.
pub const MAKE: Request<'static> = Request {
    caller: Caller::Root,
    operation: "CreateKey",
    body: "{}",
    after: None,
};

/// A look at the first key.
pub const LOOK: Request<'static> = Request {
    caller: Caller::Root,
    operation: "DescribeKey",
    body: "{\"KeyId\":\"10284733-057c-2825-aeb4-000000000000\"}",
    after: None,
};

// The second at which all is asked.
const NOW: u64 = 1_700_000_000;

fn principal(alloc: Global, facts: &RealmFacts, caller: Caller) -> Result<Principal, NoMemory>
    ensures { IfOk result (λ principal. account_of principal ≡ facts.now.account) }
{
    Ok(match caller {
        Caller::Root => Principal::Root(facts.account),
        Caller::Ann => Principal::User(facts.account, Text::from_str(alloc, "ann")?),
    })
}

fn ask(alloc: Global, facts: &RealmFacts, request: &Request<'_>) -> Result<Ask, JsonFault>
    ensures { IfOk result (λ ask. IsProper facts.now ask) }
{
    let operation = request.operation;
    let Ok(target) = format!(in alloc; "TrentService.{operation}") else {
        return Err(JsonFault::NoMemory);
    };
    let caller = principal(alloc, facts, request.caller)?;
    Ok(Ask {
        body: read_ask(alloc, target.as_bytes(), request.body.as_bytes())?,
        caller,
        moment: NOW,
        after: request.after,
    })
}

/// Why a scene can't be shown.
#[derive(Clone, Copy)]
pub enum Failure {
    /// Memory lacked, or a line could not be written.
    Stage(io::ErrorKind),
    /// A request asks nothing, or a reply has not its form.
    Unlike,
}

impl From<Unmade> for Failure {
    fn from(_e: Unmade) -> Failure {
        Failure::from(NoMemory)
    }
}

impl From<NoMemory> for Failure {
    fn from(_e: NoMemory) -> Failure {
        Failure::Stage(io::ErrorKind::OutOfMemory)
    }
}

impl From<AllocError> for Failure {
    fn from(_e: AllocError) -> Failure {
        Failure::from(NoMemory)
    }
}

impl From<io::Error> for Failure {
    fn from(e: io::Error) -> Failure {
        Failure::Stage(e.kind())
    }
}

impl From<JsonFault> for Failure {
    fn from(e: JsonFault) -> Failure {
        match e {
            JsonFault::NoMemory => Failure::from(NoMemory),
            _ => Failure::Unlike,
        }
    }
}

/// What the passes of a scene have in common.
#[derive(Drop)]
pub struct Stage<'a, W: Wait, R: Realm> {
    pub rt: &'a W,
    pub alloc: Global,
    pub service: &'a Service<R, Nothing>,
    pub facts: &'a RealmFacts,
}

// Reads until the published account is entered.
fn read<R: Realm, W: Wait>(
    rt: &W,
    alloc: Global,
    pass: &mut Pass<R>,
    ask: &Ask,
) -> Result<Answered, NoMemory>
    requires proper { IsProper R.facts ask.now }
    requires reads { changes_account ask.now.body ≡ false }
{
    for _ in rt.forever() {
        let _ = pass.seen();
        match pass.read(alloc, ask) {
            Ok(answered) => return Ok(answered),
            Err(Unread::NoMemory) => return Err(NoMemory),
            Err(Unread::NotEntered) => {}
        }
    }
    unreachable!()
}

// What a pass answers, by a change or a read.
fn change_or_read<R: Realm, W: Wait, G: Gate>(
    host: &Stage<'_, W, R>,
    pass: &mut Pass<R>,
    ask: &Ask,
    gate: &G,
) -> Result<Answered, Unmade>
    requires { IsProper R.facts ask.now }
{
    let _ = pass.seen();
    if ask.changes() {
        return pass.change(host.rt, host.alloc, host.service, ask, gate);
    }
    Ok(read(host.rt, host.alloc, pass, ask)?)
}

/// What a pass answers to a request.
pub fn answer<R: Realm, W: Wait, G: Gate>(
    host: &Stage<'_, W, R>,
    pass: &mut Pass<R>,
    request: &Request<'_>,
    gate: &G,
) -> Result<Answered, Failure>
    requires { host.now.facts.now ≡ R.facts }
{
    let ask = ask(host.alloc, host.facts, request)?;
    let answered = change_or_read(host, pass, &ask, gate)?;
    Ok(answered)
}

/// The number of entries at which it answers.
pub fn front<R: Realm, W: Wait, G: Gate>(
    host: &Stage<'_, W, R>,
    pass: &mut Pass<R>,
    request: &Request<'_>,
    gate: &G,
) -> Result<u64, Failure>
    requires { host.now.facts.now ≡ R.facts }
{
    let answered = answer(host, pass, request, gate)?;
    Ok(answered.front)
}
