//! Those whom statements name, in little memory.

ghost use Rattle.std.specs.Prelude.{◌≡◌, ◌⊎◌, ◌↔◌, IsTrue, IfOk};
ghost use Rattle.kms_names.specs.declared.principals.Principal.TheVariants.{Root};
ghost use Rattle.policy_doc.specs.declared.policies.Named.TheVariants.{Everyone, One};
ghost use Rattle.policy_eval.specs.KeptName.{named_of};
ghost use Rattle.policy_eval.specs.Naming.{root_of};

use kms_names::{AccountNumber, NoMemory, Principal};
use policy_doc::Named;
use std::alloc::Global;
use std::marker::Model;

#[derive(Drop)]
enum Form {
    /// Every principal.
    Star,
    /// The root of an account.
    RootOf(AccountNumber),
    /// A principal, of whatever kind.
    Other(Box<Principal>),
}

/// One whom a statement names, in 16 bytes; one who is not the root of an account takes some 40 more, and the name's.
/// Contracts see it as the one that it was made of.
#[derive(Drop)]
pub struct KeptName {
    form: Form,
}

impl Model for KeptName {
    ghost use Rattle.policy_doc.specs.declared.policies.Named.{Named as NamedValue};

    ghost Value = { NamedValue };

    ghost use Rattle.policy_eval.specs.KeptName.{named_of};

    ghost view = { λ n. named_of n.form };
}

// How a principal is kept.
fn form_of(alloc: Global, principal: &Principal) -> Result<Form, NoMemory>
    ensures { IfOk result (λ form. named_of form ≡ One principal.now) }
{
    match principal {
        Principal::Root(account) => Ok(Form::RootOf(*account)),
        Principal::User(_, _) | Principal::Role(_, _) => {
            Ok(Form::Other(Box::new(alloc, principal.copy()?)?))
        }
    }
}

// Whether a principal is the root of an account.
fn is_root_of(principal: &Principal, account: AccountNumber) -> bool
    ensures { IsTrue result ↔ (principal.now ≡ Root account) }
{
    match principal {
        Principal::Root(own) => *own == account,
        Principal::User(_, _) | Principal::Role(_, _) => false,
    }
}

impl KeptName {
    /// One who is named.
    pub fn new(alloc: Global, named: &Named) -> Result<KeptName, NoMemory>
        ensures { IfOk result (λ name. name ≡ named.now) }
    {
        let form = match named {
            Named::Everyone => Form::Star,
            Named::One(principal) => form_of(alloc, principal)?,
        };
        Ok(KeptName { form })
    }

    /// Whether everyone is named, or this caller.
    pub fn is_caller(&self, caller: &Principal) -> bool
        ensures { IsTrue result ↔ ((self.now ≡ Everyone) ⊎ (self.now ≡ One caller.now)) }
    {
        match &self.form {
            Form::Star => true,
            Form::RootOf(account) => is_root_of(caller, *account),
            Form::Other(principal) => **principal == *caller,
        }
    }

    /// Whether the root of the caller's account is named.
    pub fn is_account(&self, caller: &Principal) -> bool
        ensures { IsTrue result ↔ (self.now ≡ One (root_of caller.now)) }
    {
        match &self.form {
            Form::Star => false,
            Form::RootOf(account) => *account == caller.account(),
            Form::Other(principal) => is_root_of(principal, caller.account()),
        }
    }

    /// A copy that equals its source.
    pub fn copy(&self, alloc: Global) -> Result<KeptName, NoMemory>
        ensures { IfOk result (λ name. name ≡ self.now) }
    {
        let form = match &self.form {
            Form::Star => Form::Star,
            Form::RootOf(account) => Form::RootOf(*account),
            Form::Other(principal) => Form::Other(Box::new(alloc, principal.copy()?)?),
        };
        Ok(KeptName { form })
    }
}

/// Those whom a statement names, with no room for more.
pub fn keep_names(alloc: Global, names: &[Named]) -> Result<Vec<KeptName>, NoMemory>
    ensures { IfOk result (λ kept. kept.items ≡ names.now) }
{
    let mut kept = Vec::with_capacity(alloc, names.len())?;
    for named in names {
        kept.push(KeptName::new(alloc, named)?)?;
    }
    Ok(kept)
}

/// The same names.
pub fn copy_names(alloc: Global, names: &[KeptName]) -> Result<Vec<KeptName>, NoMemory>
    ensures { IfOk result (λ copies. copies.items ≡ names.now) }
{
    let mut copies = Vec::with_capacity(alloc, names.len())?;
    for name in names {
        copies.push(name.copy(alloc)?)?;
    }
    Ok(copies)
}
