// Sessions: what is done with one, and where its settings come from.
ghost use Rattle.std.specs.Prelude.{◌≡◌, ℕ, List, Option, IfOk, IfErr, option_map};
ghost use Rattle.kms_io.specs.Shelf.{Shelf};
ghost use Rattle.kms_io.specs.Files.{Asks};
ghost use Rattle.session_front.specs.Callers.{IsOfAccount};
ghost use Rattle.kms_words.specs.Words.{values_in, source_in, journal_in};
ghost use Rattle.kms_program.specs.Files.{HasIdentityPolicies};
ghost use Rattle.session_front.specs.declared.trust.Trust.TheVariants.{Signed};
ghost use Rattle.kms_program.specs.Settings.{IsSettings, IsConfigured};
ghost use Rattle.kms_program.specs.Program.{around, Conducts, WithValues, WithConfig, WithFile, FromSource, IsOfFile, IsFrom, AsksSource, Begins, WithSession};

use crate::accounts::obtain_account;
use crate::configs::obtain_config;
use crate::exporting::export;
use crate::holding::serve;
use crate::lines::say_refused;
use crate::settings::{RunOption, SettingFault, Settings, configured, read_settings};
use crate::statuses::{NO_MEMORY, REFUSED, status_of};
use account_core::Account;
use explain_session::explain_session;
use kms_config::Config;
use kms_io::{Clock, Files, Gate, Link};
use kms_names::NoMemory;
use kms_session::Trust;
use kms_words::{RunWords, SessionAsked, SessionWords};
use std::alloc::Global;
use std::sync::Wait;

/// What is done with a session.
#[derive(Clone, Copy)]
pub enum Task {
    /// Its messages are answered.
    Serve,
    /// Its answers are explained.
    Explain,
    /// Its messages are answered to nobody, and the journal that they leave is written.
    Export,
}

// Does what is to be done with a session of an account.
fn conduct<W: Wait, L: Link, C: Clock, G: Gate>(
    rt: &W,
    alloc: Global,
    task: Task,
    account: Account,
    trust: &Trust,
    clock: &mut C,
    link: &mut L,
    gate: &G,
) -> u8
    requires { IsOfAccount account.facts.account trust.now }
    ensures { (shelf : Shelf) → Conducts task account trust.now result (around (L.shows link.old) (C.told clock.old) shelf) (around (L.shows link.new) (C.told clock.new) shelf) }
{
    match task {
        Task::Serve => {
            let (end, _kept) = serve(rt, alloc, account, trust, clock, link, gate, false);
            status_of(end)
        }
        Task::Explain => status_of(explain_session(alloc, account, trust, clock, link)),
        Task::Export => export(rt, alloc, account, trust, clock, link, gate),
    }
}

// The settings that values stand for; else what was to be written is, and this is the status.
fn settings_of_values<L: Link>(
    alloc: Global,
    words: &RunWords<'_>,
    link: &mut L,
) -> Result<Settings, u8>
    ensures settings { IfOk result (λ settings. IsSettings (values_in words.now) settings × (L.shows link.new ≡ L.shows link.old)) }
    ensures trust { IfOk result (λ settings. IsOfAccount settings.facts.account settings.trust) }
    ensures policies { IfOk result (λ settings. HasIdentityPolicies settings.facts) }
    ensures status { IfErr result (λ status. (clock : Option (List ℕ)) (shelf : Shelf) → WithValues (values_in words.now) status (around (L.shows link.old) clock shelf) (around (L.shows link.new) clock shelf) (λ settings. ⊥)) }
{
    match read_settings(alloc, words) {
        Ok(settings) => Ok(settings),
        Err(SettingFault::At(option)) => {
            say_refused(link, option);
            Err(REFUSED)
        }
        Err(SettingFault::NoMemory) => Err(NO_MEMORY),
    }
}

// The settings of a configuration, with the caller who is told; else what was to be written is, and this is the status.
fn settings_of_config<L: Link>(
    alloc: Global,
    config: Config,
    caller: Option<&str>,
    link: &mut L,
) -> Result<Settings, u8>
    requires { IsOfAccount config.facts.account (Signed config.credentials) }
    ensures settings { IfOk result (λ settings. IsConfigured config (option_map (λ caller. caller.now) caller.entry) settings × (L.shows link.new ≡ L.shows link.old)) }
    ensures trust { IfOk result (λ settings. IsOfAccount settings.facts.account settings.trust) }
    ensures status { IfErr result (λ status. (clock : Option (List ℕ)) (shelf later : Shelf) → WithConfig config (option_map (λ caller. caller.now) caller.entry) status (around (L.shows link.old) clock shelf) (around (L.shows link.new) clock later) (λ settings. ⊥)) }
{
    match configured(alloc, config, caller) {
        Ok(Some(settings)) => Ok(settings),
        Ok(None) => {
            say_refused(link, RunOption::As);
            Err(REFUSED)
        }
        Err(NoMemory) => Err(NO_MEMORY),
    }
}

// The settings of a file, with the caller who is told; else what was to be written is, and this is the status.
fn settings_of_file<F: Files, L: Link>(
    alloc: Global,
    file: &str,
    caller: Option<&str>,
    files: &mut F,
    link: &mut L,
) -> Result<Settings, u8>
    ensures settings { IfOk result (λ settings. IsOfFile (F.shows files.old) file.now (option_map (λ caller. caller.now) caller.entry) settings × Asks (F.shows files.old) file.now (F.shows files.new) × (L.shows link.new ≡ L.shows link.old)) }
    ensures trust { IfOk result (λ settings. IsOfAccount settings.facts.account settings.trust) }
    ensures policies { IfOk result (λ settings. HasIdentityPolicies settings.facts) }
    ensures status { IfErr result (λ status. (clock : Option (List ℕ)) → WithFile file.now status (around (L.shows link.old) clock (F.shows files.old)) (around (L.shows link.new) clock (F.shows files.new))
        (λ config. WithConfig config (option_map (λ caller. caller.now) caller.entry) status (around (L.shows link.old) clock (F.shows files.old)) (around (L.shows link.new) clock (F.shows files.new)) (λ settings. ⊥))) }
{
    match obtain_config(alloc, files, link, file) {
        Ok(config) => settings_of_config(alloc, config, caller, link),
        Err(status) => Err(status),
    }
}

// The settings of a session; else what was to be written is, and this is the status.
fn obtain_settings<F: Files, L: Link>(
    alloc: Global,
    words: SessionWords<'_>,
    files: &mut F,
    link: &mut L,
) -> Result<Settings, u8>
    ensures settings { IfOk result (λ settings. IsFrom (F.shows files.old) (source_in words.entry) settings × AsksSource (source_in words.entry) (F.shows files.old) (F.shows files.new) × (L.shows link.new ≡ L.shows link.old)) }
    ensures trust { IfOk result (λ settings. IsOfAccount settings.facts.account settings.trust) }
    ensures policies { IfOk result (λ settings. HasIdentityPolicies settings.facts) }
    ensures status { IfErr result (λ status. (clock : Option (List ℕ)) → FromSource (source_in words.entry) status (around (L.shows link.old) clock (F.shows files.old)) (around (L.shows link.new) clock (F.shows files.new)) (λ settings. ⊥)) }
{
    match words {
        SessionWords::Values(words) => settings_of_values(alloc, &words, link),
        SessionWords::File(file, caller) => settings_of_file(alloc, file, caller, files, link),
    }
}

// Does what is to be done with a session of these settings, and gives the status.
fn begin_session<W: Wait, F: Files, L: Link, C: Clock, G: Gate>(
    rt: &W,
    alloc: Global,
    task: Task,
    settings: Settings,
    load: Option<&str>,
    files: &mut F,
    clock: &mut C,
    link: &mut L,
    gate: &G,
) -> u8
    requires { IsOfAccount settings.facts.account settings.trust }
    ensures { Begins settings.facts (option_map (λ load. load.now) load.entry) result (around (L.shows link.old) (C.told clock.old) (F.shows files.old)) (around (L.shows link.new) (C.told clock.new) (F.shows files.new))
        (λ account met. Conducts task account settings.trust result met (around (L.shows link.new) (C.told clock.new) (F.shows files.new))) }
{
    let Settings { facts, trust } = settings;
    match obtain_account(alloc, facts, load, files, link) {
        Ok(account) => conduct(rt, alloc, task, account, &trust, clock, link, gate),
        Err(status) => status,
    }
}

/// Does what is to be done with a session whose settings and journal these words name, and gives the status.
pub fn hold_session<W: Wait, F: Files, L: Link, C: Clock, G: Gate>(
    rt: &W,
    alloc: Global,
    task: Task,
    session: SessionAsked<'_>,
    files: &mut F,
    clock: &mut C,
    link: &mut L,
    gate: &G,
) -> u8
    ensures { WithSession (source_in session.entry.words) (journal_in session.entry) result (around (L.shows link.old) (C.told clock.old) (F.shows files.old)) (around (L.shows link.new) (C.told clock.new) (F.shows files.new))
        (λ settings account met. Conducts task account settings.trust result met (around (L.shows link.new) (C.told clock.new) (F.shows files.new))) }
{
    match obtain_settings(alloc, session.words, files, link) {
        Ok(settings) => begin_session(
            rt,
            alloc,
            task,
            settings,
            session.load,
            files,
            clock,
            link,
            gate,
        ),
        Err(status) => status,
    }
}
