// The account that is served, and who may ask.
ghost use Rattle.std.specs.Prelude.{◌≡◌, IfOk, vec_len};
ghost use Rattle.session_front.specs.Callers.{IsOfAccount};

use account_core::Account;
use account_steps::RealmFacts;
use authority::{IdentityList, PolicyList};
use keepers::Nothing;
use kms_io::{Door, Ear, Gate, MemoryClock};
use kms_names::{AccountNumber, NoMemory, Principal, Text};
use kms_server::{Order, Outcome, serve};
use kms_session::Trust;
use sigv4_check::{Credential, CredentialList};
use std::alloc::Global;
use std::sync::Wait;
use std::thread::Threads;
use std::{io, rt};

/// Why a scene can't be shown.
#[derive(Clone, Copy)]
pub enum Failure {
    /// Memory lacked, or a line could not be written.
    Workshop(io::ErrorKind),
    /// A worker waited for too long, or a reply has not its form.
    Unlike,
}

impl From<NoMemory> for Failure {
    fn from(_e: NoMemory) -> Failure {
        Failure::Workshop(io::ErrorKind::OutOfMemory)
    }
}

impl From<io::Error> for Failure {
    fn from(e: io::Error) -> Failure {
        Failure::Workshop(e.kind())
    }
}

/// The second for which all messages are signed, which is each clock's first answer and its second one.
pub const NOW: u32 = 1_700_000_000;

/// Account 111122223333 in us-east-1, with a root secret of zeros and boot number 1.
#[derive(Drop)]
pub struct World<'a, W: Wait> {
    pub rt: &'a W,
    pub alloc: Global,
    facts: RealmFacts,
}

// The credential by which the root of the account signs.
fn trust(alloc: Global, account: AccountNumber) -> Result<Trust, NoMemory>
    ensures { IfOk result (IsOfAccount account) }
{
    let mut credentials = CredentialList::empty(alloc);
    credentials.insert(Credential {
        id: Text::from_str(alloc, "AKIDEXAMPLE")?,
        secret: Text::from_str(alloc, "wJalrXUtnFEMI/K7MDENG+bPxRfiCYEXAMPLEKEY")?,
        principal: Principal::Root(account),
    })?;
    Ok(Trust::Signed(credentials))
}

// 64 clocks, each of whose third answer is this.
fn clocks(alloc: Global, later: u32) -> Result<Vec<MemoryClock>, NoMemory>
    ensures { IfOk result (λ clocks. vec_len clocks ≡ 64) }
{
    let mut clocks = Vec::with_capacity(alloc, 64)?;
    while clocks.len() < 64 {
        let answers = vec![in alloc; u64::from(NOW), u64::from(NOW), u64::from(later)]?;
        clocks.push(MemoryClock::new(answers))?;
    }
    Ok(clocks)
}

impl<'a, W: Wait> World<'a, W> {
    ghost use Rattle.std.specs.Prelude.{◌<◌, ◌≤◌};

    /// The world on this host.
    pub fn new(rt: &'a W) -> Result<World<'a, W>, Failure>
    where
        W: rt::Runtime<A = Global>,
    {
        let alloc = rt.alloc();
        let Some(account) = AccountNumber::read("111122223333") else {
            return Err(Failure::Unlike);
        };
        let facts = RealmFacts {
            account,
            region: Text::from_str(alloc, "us-east-1")?,
            root: [0; 32],
            boot: 1,
            identities: IdentityList::new(Vec::new(alloc)),
            ceiling: PolicyList::new(Vec::new(alloc)),
        };
        Ok(World { rt, alloc, facts })
    }

    /// What comes of so many workers at a door, of whom each takes so many connections.
    pub fn serve<D: Door, G: Gate + Sync>(
        &self,
        workers: u16,
        connections: u16,
        later: u32,
        door: &mut D,
        gate: &G,
    ) -> Result<Outcome, NoMemory>
    where
        W: Threads + Sync,
        <D::Listener as Ear>::Conn: Send,
        requires { (0 < workers) × (workers ≤ 64) }
    {
        let order = Order {
            address: "memory",
            workers,
            connections: u64::from(connections),
            keeps: false,
        };
        let mut clocks = clocks(self.alloc, later)?;
        let facts = self.facts.copy()?;
        let trust = trust(self.alloc, facts.account)?;
        let account = Account::empty(self.alloc, facts)?;
        let (outcome, _nothing) = serve(
            self.rt,
            self.alloc,
            account,
            Nothing,
            &trust,
            &order,
            &mut clocks,
            door,
            gate,
        );
        Ok(outcome)
    }
}
