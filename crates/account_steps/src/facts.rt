// What is constant for a run.
use authority::{IdentityList, PolicyList};
use kms_names::{AccountNumber, NoMemory, Text};

/// What is constant for a run of the service.
pub struct RealmFacts {
    /// The account of the service.
    pub account: AccountNumber,
    /// The region of the service.
    pub region: Text,
    /// The root secret, from which ids and key material are derived.
    pub root: [u8; 32],
    /// The boot number, of which each is used once with a root secret.
    pub boot: u32,
    /// The principals with their own policies, which are of the kind `Identity`. Where a principal stands twice, the
    /// first counts. The account's root needs none: it may do everything.
    pub identities: IdentityList,
    /// The documents of the account's ceiling, which are of the kind `Identity`. Where there are some, nobody may do what one
    /// of them denies or none of them allows, the account's root and grantees included. They allow nothing by themselves.
    pub ceiling: PolicyList,
}

// Each crate that lets the facts go calls this one drop, and doesn't take them apart itself.
impl Drop for RealmFacts {
    fn drop(self) {
        let RealmFacts {
            account: _,
            region: _,
            root: _,
            boot: _,
            identities: _,
            ceiling: _,
        } = self;
    }
}

impl RealmFacts {
    ghost use Rattle.std.specs.Prelude.{◌≡◌, IfOk};

    /// A copy that equals its source.
    pub fn copy(&self) -> Result<RealmFacts, NoMemory>
        ensures { IfOk result (λ facts. facts ≡ self.now) }
    {
        Ok(RealmFacts {
            account: self.account,
            region: self.region.copy()?,
            root: self.root,
            boot: self.boot,
            identities: self.identities.copy()?,
            ceiling: self.ceiling.copy()?,
        })
    }
}
