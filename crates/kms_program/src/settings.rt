// What the values of `run` stand for.
ghost use Rattle.std.specs.Prelude.{◌≡◌, ◌↔◌, length, if◌then◌else◌, Some, None, IsSome, IfSome, IfOk, IfErr, IfNone, OnErr, Ok, option_map};
ghost use Rattle.std.specs.Str.{bytes_eq};
ghost use Rattle.std.specs.List.{AllPass};
ghost use Rattle.hex.specs.Hex.{decode_of, is_hex_digit};
ghost use Rattle.kms_names.specs.Principal.{account_of};
ghost use Rattle.session_front.specs.Callers.{IsOfAccount};
ghost use Rattle.session_front.specs.declared.trust.Trust.TheVariants.{Signed};
ghost use Rattle.kms_words.specs.Words.{values_in};
ghost use Rattle.kms_program.specs.Settings.{boot_of, IsSettings, IsConfigured, IsNobody, Names, UnlessMemory};

use account_steps::RealmFacts;
use authority::{IdentityList, PolicyList};
use hex::FromHex;
use kms_config::{Config, if_of_account};
use kms_names::{AccountNumber, NameFault, NoMemory, Principal, Text, is_region, read_principal};
use kms_session::Trust;
use kms_words::{RunWords, number_or};
use std::alloc::Global;

/// An option of `run`.
#[derive(Clone, Copy, Debug, PartialEq, Eq)]
pub enum RunOption {
    Account,
    Region,
    Root,
    Boot,
    As,
}

/// Why the values of the options are refused.
#[derive(Clone, Copy, Debug, PartialEq, Eq)]
pub enum SettingFault {
    /// The value of this option has not its form, and those before it have.
    At(RunOption),
    /// A growth of memory was refused.
    NoMemory,
}

impl From<NoMemory> for SettingFault {
    ghost use Rattle.std.specs.Prelude.{◌≡◌};
    ghost use Rattle.kms_program.specs.declared.settings.SettingFault.TheVariants.{NoMemory as OutOfMemory};

    ghost from_gives = { λ _ e. e ≡ OutOfMemory };

    fn from(_e: NoMemory) -> SettingFault {
        SettingFault::NoMemory
    }
}

/// What `run` serves, and whom it trusts.
#[derive(Drop)]
pub struct Settings {
    pub facts: RealmFacts,
    pub trust: Trust,
}

// The last boot number: they have 32 bits.
const LAST_BOOT: u64 = 4_294_967_295;

fn read_root(text: &str) -> Option<[u8; 32]>
    ensures value { IfSome result (λ root. decode_of text.now ≡ Ok root) }
    ensures found { IsSome result ↔ ((length text.now ≡ 64) × AllPass is_hex_digit text.now) }
{
    <[u8; 32] as FromHex>::from_hex(text).ok()
}

// The principal of the account whose ARN a text is.
fn read_caller(
    alloc: Global,
    text: &str,
    account: &AccountNumber,
) -> Result<Option<Principal>, NoMemory>
    ensures { IfOk result (Names account.now text.now) }
{
    match read_principal(alloc, text) {
        Ok(principal) => Ok(if_of_account(principal, account)),
        Err(NameFault::BadArn | NameFault::BadAlias | NameFault::BadId) => Ok(None),
        Err(NameFault::NoMemory) => Err(NoMemory),
    }
}

// The boot number, 1 where none is given.
fn boot_of(text: Option<&str>) -> Option<u32>
    ensures { result ≡ boot_of (option_map (λ text. text.now) text.entry) }
{
    let boot = number_or(text, 1, 1, LAST_BOOT)?;
    Some(boot as u32)
}

/// What the words of `run` stand for. The first option is named whose value has not its form: an
/// account of 12 digits, a region of 1 to 32 lower-case letters, digits and `-`, a root secret of 64
/// hex digits, a boot number of 1 to 20 digits, from 1 to 4294967295 (1 where none is given), and the
/// ARN of a principal of the account as the caller.
pub fn read_settings(alloc: Global, words: &RunWords<'_>) -> Result<Settings, SettingFault>
    ensures ok { IfOk result (IsSettings (values_in words.now)) }
    ensures trust { IfOk result (λ settings. IsOfAccount settings.facts.account settings.trust) }
    ensures refused { IfErr result (UnlessMemory (values_in words.now)) }
{
    let Some(account) = AccountNumber::read(words.account) else {
        return Err(SettingFault::At(RunOption::Account));
    };
    if !is_region(words.region) {
        return Err(SettingFault::At(RunOption::Region));
    }
    let Some(root) = read_root(words.root) else {
        return Err(SettingFault::At(RunOption::Root));
    };
    let Some(boot) = boot_of(words.boot) else {
        return Err(SettingFault::At(RunOption::Boot));
    };
    let Some(caller) = read_caller(alloc, words.caller, &account)? else {
        return Err(SettingFault::At(RunOption::As));
    };
    let facts = RealmFacts {
        account,
        region: Text::from_str(alloc, words.region)?,
        root,
        boot,
        identities: IdentityList::new(Vec::new(alloc)),
        ceiling: PolicyList::new(Vec::new(alloc)),
    };
    let trust = Trust::Word(caller);
    Ok(Settings { facts, trust })
}

/// What a configuration stands for: its account is served to whoever signs with one of its credentials,
/// or to the one whose ARN is given, who must be of its account. It is None where that is nobody.
pub fn configured(
    alloc: Global,
    config: Config,
    caller: Option<&str>,
) -> Result<Option<Settings>, NoMemory>
    requires { IsOfAccount config.facts.account (Signed config.credentials) }
    ensures some { IfOk result (λ found. IfSome found (IsConfigured config (option_map (λ caller. caller.now) caller.entry))) }
    ensures trust { IfOk result (λ found. IfSome found (λ settings. IsOfAccount settings.facts.account settings.trust)) }
    ensures none { IfOk result (λ found. IfNone found (IsNobody config (option_map (λ caller. caller.now) caller.entry))) }
{
    let Config { facts, credentials } = config;
    let Some(text) = caller else {
        let trust = Trust::Signed(credentials);
        return Ok(Some(Settings { facts, trust }));
    };
    match read_caller(alloc, text, &facts.account)? {
        Some(caller) => {
            let trust = Trust::Word(caller);
            Ok(Some(Settings { facts, trust }))
        }
        None => Ok(None),
    }
}
