// Whose account the workload asks, and who asks it.
ghost use Rattle.std.specs.Prelude.{◌≡◌, IfOk};
ghost use Rattle.kms_workload.specs.Facts.{load_facts, load_trust, key_at};

use account_steps::{RealmFacts, key_id_of};
use authority::{IdentityList, PolicyList};
use kms_names::{AccountNumber, KeyId, NoMemory, Principal, Text};
use kms_session::Trust;
use std::alloc::Global;

/// The root secret: 32 zero bytes.
pub const ROOT: [u8; 32] = [0; 32];

/// The boot number of the service.
pub const BOOT: u32 = 1;

fn account() -> AccountNumber
    ensures { result ≡ load_facts.account }
{
    AccountNumber::read("111122223333").unwrap()
}

/// The facts of the account that is asked.
pub fn facts(alloc: Global) -> Result<RealmFacts, NoMemory>
    ensures { IfOk result (λ facts. facts ≡ load_facts) }
{
    Ok(RealmFacts {
        account: account(),
        region: Text::from_str(alloc, "us-east-1")?,
        root: ROOT,
        boot: BOOT,
        identities: IdentityList::new(Vec::new(alloc)),
        ceiling: PolicyList::new(Vec::new(alloc)),
    })
}

/// Each message is the account's root's. It takes no memory.
pub fn trust() -> Trust
    ensures { result ≡ load_trust }
{
    Trust::Word(Principal::Root(account()))
}

/// The id of the key that the entry at this place makes. It takes no memory.
pub fn key_id(place: u64) -> KeyId
    ensures { result ≡ key_at place }
{
    key_id_of(&ROOT, BOOT, place)
}
