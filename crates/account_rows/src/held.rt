//! Rows of keys that versions of the account share, with their policies ready to be asked.

ghost use Rattle.std.specs.Prelude.{◌≡◌, IfOk, length};
ghost use Rattle.key_policies.specs.KeyPolicy.{policy_in};
ghost use Rattle.account_rows.specs.Changes.{with_policy, HasVersions};

use key_policies::KeyPolicy;
use key_states::KeyRow;
use kms_names::{AccountNumber, NoMemory, Text};
use std::alloc::Global;
use std::marker::Model;
use std::sync::Arc;

/// The default policy of the account's keys, which they share. Contracts see the account.
#[derive(Drop)]
pub struct DefaultPolicy {
    account: AccountNumber,
    policy: KeyPolicy,
}

impl Model for DefaultPolicy {
    ghost use Rattle.std.specs.Prelude.{◌≡◌, ℕ, List};
    ghost use Rattle.key_policies.specs.KeyPolicy.{default_policy};

    ghost Value = { List ℕ };

    ghost view = { λ d. d.account };

    ghost invariant = { λ d. d.policy ≡ default_policy d.account };
}

impl DefaultPolicy {
    /// The default policy of an account.
    pub fn new(alloc: Global, account: &AccountNumber) -> Result<DefaultPolicy, NoMemory>
        ensures { IfOk result (λ d. d ≡ account.now) }
    {
        let policy = KeyPolicy::of_account(alloc, account)?;
        Ok(DefaultPolicy {
            account: *account,
            policy,
        })
    }

    /// The same once more.
    pub fn share(&self) -> Result<DefaultPolicy, NoMemory>
        ensures { IfOk result (λ d. d ≡ self.now) }
    {
        let policy = self.policy.share()?;
        Ok(DefaultPolicy {
            account: self.account,
            policy,
        })
    }

    // The policy of a text.
    fn policy_in(&self, alloc: Global, text: &Text) -> Result<KeyPolicy, NoMemory>
        ensures { IfOk result (λ p. p ≡ policy_in text.now) }
    {
        KeyPolicy::of_text(alloc, text, &self.account, &self.policy)
    }
}

/// A row with its policy, ready to be asked, both shared by the versions of the account that hold the key. Contracts see
/// the row.
#[derive(Drop)]
pub struct HeldKey {
    row: Arc<KeyRow>,
    policy: KeyPolicy,
}

impl Model for HeldKey {
    ghost use Rattle.std.specs.Prelude.{◌≡◌};
    ghost use Rattle.std.specs.Arc.{arc_value};
    ghost use Rattle.key_states.specs.declared.rows.KeyRow.{KeyRow};
    ghost use Rattle.key_policies.specs.KeyPolicy.{policy_in};

    ghost Value = { KeyRow };

    ghost view = { λ held. arc_value held.row };

    ghost use Rattle.account_rows.specs.Changes.{HasVersions};

    ghost invariant = { λ held. record {
      policy : held.policy ≡ policy_in (arc_value held.row).policy;
      versions : HasVersions (arc_value held.row);
    } };
}

impl HeldKey {
    /// The row with its policy, which is read here, once.
    pub(crate) fn new(
        alloc: Global,
        row: KeyRow,
        default: &DefaultPolicy,
    ) -> Result<HeldKey, NoMemory>
        requires { HasVersions row }
        ensures { IfOk result (λ held. held ≡ row) }
    {
        let policy = default.policy_in(alloc, &row.policy)?;
        match Arc::new(alloc, row) {
            Ok(row) => Ok(HeldKey { row, policy }),
            Err(_) => Err(NoMemory),
        }
    }

    /// Another row with the same policy.
    pub(crate) fn with_row(&self, alloc: Global, row: KeyRow) -> Result<HeldKey, NoMemory>
        requires policy { row.policy ≡ self.now.policy }
        requires versions { HasVersions row }
        ensures { IfOk result (λ held. held ≡ row) }
    {
        let policy = self.policy.share()?;
        match Arc::new(alloc, row) {
            Ok(row) => Ok(HeldKey { row, policy }),
            Err(_) => Err(NoMemory),
        }
    }

    /// The same row with another policy.
    pub(crate) fn with_policy(
        &self,
        alloc: Global,
        text: &Text,
        default: &DefaultPolicy,
    ) -> Result<HeldKey, NoMemory>
        ensures { IfOk result (λ held. held ≡ with_policy text.now self.now) }
    {
        let mut row = self.row().copy()?;
        row.policy = text.copy()?;
        HeldKey::new(alloc, row, default)
    }

    /// The same once more.
    pub(crate) fn share(&self) -> Result<HeldKey, NoMemory>
        ensures { IfOk result (λ held. held ≡ self.now) }
    {
        let policy = self.policy.share()?;
        match Arc::try_clone(&self.row) {
            Ok(row) => Ok(HeldKey { row, policy }),
            Err(_) => Err(NoMemory),
        }
    }

    /// The row, which has at least one version.
    pub fn row(&self) -> &KeyRow
        ensures row { result.now ≡ self.now }
        ensures versions { HasVersions self.now }
    {
        &self.row
    }

    /// Its policy, ready to be asked.
    pub fn policy(&self) -> &KeyPolicy
        ensures { result.now ≡ policy_in self.now.policy }
    {
        let _ = &self.row;
        &self.policy
    }
}

/// A row that is lent with its policy. Contracts see the row.
#[derive(Drop)]
pub struct Lent<'a> {
    held: &'a HeldKey,
}

impl<'a> Model for Lent<'a> {
    ghost use Rattle.key_states.specs.declared.rows.KeyRow.{KeyRow};

    ghost Value = { KeyRow };

    ghost view = { λ lent. lent.held.now };
}

impl<'a> Lent<'a> {
    /// The row, lent.
    pub fn new(held: &'a HeldKey) -> Lent<'a>
        ensures { result ≡ held.now }
    {
        Lent { held }
    }

    /// The same, lent once more.
    pub fn again(&self) -> Lent<'a>
        ensures { result ≡ self.now }
    {
        Lent { held: self.held }
    }

    /// The row, which has at least one version.
    pub fn row(&self) -> &'a KeyRow
        ensures row { result.now ≡ self.now }
        ensures versions { HasVersions self.now }
    {
        self.held.row()
    }

    /// The number of its newest version, counted from 1.
    pub fn newest_version(&self) -> u32
        ensures { result ≡ length self.now.versions }
    {
        self.row().versions.as_slice().len() as u32
    }

    /// Its policy, ready to be asked.
    pub fn policy(&self) -> &'a KeyPolicy
        ensures { result.now ≡ policy_in self.now.policy }
    {
        self.held.policy()
    }
}
