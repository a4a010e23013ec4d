ghost use Rattle.std.specs.Prelude.{◌≡◌, ◌↔◌, ℕ, List, IsTrue, IfOk};
ghost use Rattle.std.specs.Option.{SomeIff};
ghost use Rattle.kms_names.specs.Account.{IsAccountNumber};

use crate::faults::NoMemory;
use std::marker::Model;

/// An account number: 12 decimal digits. Contracts see it as the list of their 12 bytes.
#[derive(Clone, Copy, PartialEq, Eq, PartialOrd, Ord)]
pub struct AccountNumber {
    digits: [u8; 12],
}

impl Model for AccountNumber {
    ghost Value = { List ℕ };

    ghost view = { λ a. a.digits };

    ghost inverse = { λ digits. record { digits = digits } };

    ghost invariant = { λ a. IsAccountNumber a.digits };
}

fn is_account_number(text: &str) -> bool
    ensures { IsTrue result ↔ IsAccountNumber text.now }
{
    text.len() == 12 && text.bytes().all(|byte| byte.is_ascii_digit())
}

impl AccountNumber {
    /// A copy that equals its source; no memory is taken.
    pub fn copy(&self) -> Result<AccountNumber, NoMemory>
        ensures { IfOk result (λ x. x ≡ self.now) }
    {
        Ok(*self)
    }

    /// The number that a text is, where it is 12 decimal digits; no memory is taken.
    pub fn read(text: &str) -> Option<AccountNumber>
        ensures { SomeIff result (IsAccountNumber text.now) text.now }
    {
        if !is_account_number(text) {
            return None;
        }
        let mut digits = [0u8; 12];
        digits.copy_from_slice(text.as_bytes());
        Some(AccountNumber { digits })
    }

    /// The 12 digits.
    pub fn as_str(&self) -> &str
        ensures value { result.now ≡ self.now }
        ensures digits { IsAccountNumber self.now }
    {
        str::from_utf8(&self.digits).unwrap()
    }
}
