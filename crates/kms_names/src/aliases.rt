ghost use Rattle.std.specs.Prelude.{◌≡◌, ◌⊎◌, ◌↔◌, ℕ, List, IsTrue, IfOk, IfErr};
ghost use Rattle.kms_names.specs.Alias.{is_alias_character, IsAliasName};

use crate::faults::{NameFault, NoMemory};
use crate::parts::after;
use crate::texts::Text;
use std::alloc::Global;
use std::marker::Model;

/// An alias name: `alias/` and one or more letters, digits, `/`, `_` and `-`, of at most 256 characters
/// in all, that doesn't begin `alias/aws/`. Contracts see it as the list of its bytes.
#[derive(PartialEq, Eq, PartialOrd, Ord, Drop)]
pub struct AliasName {
    text: Text,
}

impl Model for AliasName {
    ghost Value = { List ℕ };

    ghost view = { λ a. a.text };

    ghost inverse = { λ text. record { text = text } };

    ghost invariant = { λ a. IsAliasName a.text };
}

impl AliasName {
    /// A copy of an alias name.
    pub(crate) fn from_name(alloc: Global, name: &str) -> Result<AliasName, NoMemory>
        requires { IsAliasName name.now }
        ensures { IfOk result (λ a. a ≡ name.now) }
    {
        let text = Text::from_str(alloc, name)?;
        Ok(AliasName { text })
    }

    /// The name, from `alias/` on.
    pub fn as_str(&self) -> &str
        ensures value { result.now ≡ self.now }
        ensures name { IsAliasName self.now }
    {
        self.text.as_str()
    }

    /// A copy that equals its source.
    pub fn copy(&self) -> Result<AliasName, NoMemory>
        ensures { IfOk result (λ a. a ≡ self.now) }
    {
        let text = self.text.copy()?;
        Ok(AliasName { text })
    }
}

fn is_alias_byte(byte: u8) -> bool
    ensures { result ≡ is_alias_character byte }
{
    byte.is_ascii_alphanumeric() || b"/_-".contains(&byte)
}

/// Whether a text is an alias name; no memory is taken.
pub fn is_alias_name(text: &str) -> bool
    ensures { IsTrue result ↔ IsAliasName text.now }
{
    let Some(name) = after(text, "alias/") else {
        return false;
    };
    !name.is_empty()
        && text.len() <= 256
        && name.bytes().all(is_alias_byte)
        && after(text, "alias/aws/").is_none()
}

/// The alias name that a text is: `BadAlias` where it is none.
pub fn read_alias(alloc: Global, text: &str) -> Result<AliasName, NameFault>
    ensures ok { IfOk result (λ a. (a ≡ text.now) × IsAliasName text.now) }
    ensures bad_alias { result ≡ Err NameFault.BadAlias → ¬ (IsAliasName text.now) }
    ensures faults { IfErr result (λ e. (e ≡ NameFault.BadAlias) ⊎ (e ≡ NameFault.NoMemory)) }
{
    if !is_alias_name(text) {
        return Err(NameFault::BadAlias);
    }
    Ok(AliasName::from_name(alloc, text)?)
}
