//! The policies of keys, read from their texts once.
ghost use Rattle.std.specs.Prelude.{◌≡◌, ◌≢◌, IfOk, IfErr, None, Some};
ghost use Rattle.std.specs.Bool.{Decides};
ghost use Rattle.policy_doc.specs.declared.faults.PolicyFault.TheVariants.{NoMemory as OutOfMemory};
ghost use Rattle.key_policies.specs.KeyPolicy.{default_text, default_policy, no_statements, policy_in, fault_in};

use kms_names::{AccountNumber, NoMemory, Text, after};
use policy_doc::{Policy, PolicyFault, PolicyKind, StatementList, read_policy};
use policy_eval::Compiled;
use std::alloc::Global;
use std::marker::Model;
use std::sync::Arc;

const DEFAULT_FRONT: &str =
    "{\"Version\":\"2012-10-17\",\"Id\":\"key-default-1\",\"Statement\":[{\"Sid\":\"Enable IAM User Permissions\",\"Effect\":\"Allow\",\"Principal\":{\"AWS\":\"arn:aws:iam::";

const DEFAULT_BACK: &str = ":root\"},\"Action\":\"kms:*\",\"Resource\":\"*\"}]}";

/// The text of the default policy of an account's keys (AWS KMS Developer Guide, "Default key policy").
pub fn default_policy_text(alloc: Global, account: &AccountNumber) -> Result<Text, NoMemory>
    ensures { IfOk result (λ t. t ≡ default_text account.now) }
{
    let mut text = String::from_str(alloc, DEFAULT_FRONT)?;
    text.push_str(account.as_str())?;
    text.push_str(DEFAULT_BACK)?;
    Ok(Text::from_string(text))
}

// Whether a text is that of the default policy of this account.
fn is_default(text: &str, account: &AccountNumber) -> bool
    ensures { Decides result (text.now ≡ default_text account.now) }
{
    let Some(behind) = after(text, DEFAULT_FRONT) else {
        return false;
    };
    match after(behind, account.as_str()) {
        Some(back) => back == DEFAULT_BACK,
        None => false,
    }
}

/// The policy of a key that a text is, or its first fault: `TooLong` for more than 32,768 bytes, `NotJson` where it is
/// no JSON, and else the first departure from the grammar of policies, with its JSON pointer.
pub fn read_key_policy(alloc: Global, text: &Text) -> Result<Policy, PolicyFault>
    ensures ok { IfOk result (λ p. (fault_in text.now ≡ None) × (p ≡ policy_in text.now)) }
    ensures fault { IfErr result (λ e. e ≢ OutOfMemory → fault_in text.now ≡ Some e) }
{
    read_policy(alloc, PolicyKind::Key, text.as_str().as_bytes())
}

/// The policy of a key, read once and shared by the versions of an account. Contracts see the policy.
#[derive(Drop)]
pub struct KeyPolicy {
    compiled: Arc<Compiled>,
}

impl Model for KeyPolicy {
    ghost use Rattle.std.specs.Arc.{arc_value};
    ghost use Rattle.policy_doc.specs.declared.policies.Policy.{Policy as PolicyValue};

    ghost Value = { PolicyValue };

    ghost view = { λ p. arc_value p.compiled };
}

impl KeyPolicy {
    fn of(alloc: Global, policy: &Policy) -> Result<KeyPolicy, NoMemory>
        ensures { IfOk result (λ p. p ≡ policy.now) }
    {
        let compiled = Compiled::new(alloc, policy)?;
        match Arc::new(alloc, compiled) {
            Ok(compiled) => Ok(KeyPolicy { compiled }),
            Err(_) => Err(NoMemory),
        }
    }

    /// The default policy of an account's keys, read from its text.
    pub fn of_account(alloc: Global, account: &AccountNumber) -> Result<KeyPolicy, NoMemory>
        ensures { IfOk result (λ p. p ≡ default_policy account.now) }
    {
        let text = default_policy_text(alloc, account)?;
        KeyPolicy::of_document(alloc, &text)
    }

    /// The policy that a text is, or its first fault, as `read_key_policy` tells it.
    pub fn read(alloc: Global, text: &Text) -> Result<KeyPolicy, PolicyFault>
        ensures ok { IfOk result (λ p. (fault_in text.now ≡ None) × (p ≡ policy_in text.now)) }
        ensures fault { IfErr result (λ e. e ≢ OutOfMemory → fault_in text.now ≡ Some e) }
    {
        let policy = read_key_policy(alloc, text)?;
        Ok(KeyPolicy::of(alloc, &policy)?)
    }

    /// The policy that a text is; one with a fault has no statements. Where the text is that of the default policy of this
    /// account, what `shared` has read is shared.
    pub fn of_text(
        alloc: Global,
        text: &Text,
        account: &AccountNumber,
        shared: &KeyPolicy,
    ) -> Result<KeyPolicy, NoMemory>
        requires { shared.now ≡ default_policy account.now }
        ensures { IfOk result (λ p. p ≡ policy_in text.now) }
    {
        if is_default(text.as_str(), account) {
            shared.share()
        } else {
            KeyPolicy::of_document(alloc, text)
        }
    }

    // The policy that a text is, anew.
    fn of_document(alloc: Global, text: &Text) -> Result<KeyPolicy, NoMemory>
        ensures { IfOk result (λ p. p ≡ policy_in text.now) }
    {
        match KeyPolicy::read(alloc, text) {
            Ok(policy) => Ok(policy),
            Err(fault) => KeyPolicy::of_faulty(alloc, &fault),
        }
    }

    // The policy of a text with this fault.
    fn of_faulty(alloc: Global, fault: &PolicyFault) -> Result<KeyPolicy, NoMemory>
        ensures { IfOk result (λ p. (fault.now ≢ OutOfMemory) × (p ≡ no_statements)) }
    {
        match fault {
            PolicyFault::NoMemory => Err(NoMemory),
            PolicyFault::TooLong
            | PolicyFault::NotJson
            | PolicyFault::BadShape(_)
            | PolicyFault::Unsupported(_) => KeyPolicy::without_statements(alloc),
        }
    }

    fn without_statements(alloc: Global) -> Result<KeyPolicy, NoMemory>
        ensures { IfOk result (λ p. p ≡ no_statements) }
    {
        let policy = Policy {
            kind: PolicyKind::Key,
            statements: StatementList::new(Vec::new(alloc)),
        };
        KeyPolicy::of(alloc, &policy)
    }

    /// The same policy once more, sharing what was read.
    pub fn share(&self) -> Result<KeyPolicy, NoMemory>
        ensures { IfOk result (λ p. p ≡ self.now) }
    {
        match Arc::try_clone(&self.compiled) {
            Ok(compiled) => Ok(KeyPolicy { compiled }),
            Err(_) => Err(NoMemory),
        }
    }

    /// The policy, ready to be asked.
    pub fn compiled(&self) -> &Compiled
        ensures { result.now ≡ self.now }
    {
        &self.compiled
    }
}
