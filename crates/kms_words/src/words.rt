// The words of the command line.
ghost use Rattle.std.specs.Prelude.{◌≡◌, ◌≢◌, ◌≤◌, ◌||◌, [], Err, IfOk, IfSome, codes, option_map, option_and_then, map, string_bytes};
ghost use Rattle.std.specs.List.{list_any};
ghost use Rattle.clap.specs.Words.{first_of, rows_of, found_of, subcommand_rows_of};
ghost use Rattle.kms_words.specs.Numbers.{number_within, number_or};
ghost use Rattle.kms_words.specs.Words.{ends_in_equals, is_valueless, is_stray, values_of, form_of, source_of, is_given, run_of, explain_of, export_of, check_of, served_by, serve_of, loaded_by, load_of, named_command, command_of, source_in, journal_in, shown};

use crate::asked::{Asked, LoadWords, RunWords, ServeWords, SessionAsked, SessionWords};
use crate::line::{LineFault, read_line};
use crate::numbers::{number_or, number_within};
use clap::ArgMatches;
use kms_names::NoMemory;
use std::alloc::Global;

// The most connections of a worker that can be asked for.
const CONNECTIONS: u64 = 1_000_000_000;

// How many it takes where no number is given: more than come in a thousand years.
const AS_MANY: u64 = 1 << 57;

fn ends_in_equals(text: &[u8]) -> bool
    ensures { result ≡ ends_in_equals text.now }
{
    match text.len().checked_sub(1) {
        Some(last) => text[last] == b'=' && !text[..last].contains(&b'='),
        None => false,
    }
}

fn is_valueless(word: &[u8]) -> bool
    ensures { result ≡ is_valueless word.now }
{
    word.strip_prefix(b"--").is_some() && ends_in_equals(word)
}

fn is_stray(word: &[u8]) -> bool
    ensures { result ≡ is_stray word.now }
{
    word == b"".as_slice()
        || word == b"-".as_slice()
        || word == b"--".as_slice()
        || is_valueless(word)
}

fn has_stray(words: &[String]) -> bool
    ensures { result ≡ list_any (λ word. is_stray (string_bytes word)) words.now }
{
    words.iter().any(|word| is_stray(word.as_bytes()))
}

// A session by the values of its options, if all that it needs are given.
fn values_of<'a>(
    account: Option<&'a str>,
    region: Option<&'a str>,
    root: Option<&'a str>,
    boot: Option<&'a str>,
    caller: Option<&'a str>,
) -> Option<SessionWords<'a>>
    ensures { option_map source_in result ≡ values_of (option_map (λ s. s.now) account.entry) (option_map (λ s. s.now) region.entry) (option_map (λ s. s.now) root.entry) (option_map (λ s. s.now) boot.entry) (option_map (λ s. s.now) caller.entry) }
{
    Some(SessionWords::Values(RunWords {
        account: account?,
        region: region?,
        root: root?,
        boot,
        caller: caller?,
    }))
}

// One of the two forms of a session's settings, by the values of its options.
fn form_of<'a>(
    config: Option<&'a str>,
    account: Option<&'a str>,
    region: Option<&'a str>,
    root: Option<&'a str>,
    boot: Option<&'a str>,
    caller: Option<&'a str>,
) -> Option<SessionWords<'a>>
    ensures { option_map source_in result ≡ form_of (option_map (λ s. s.now) config.entry) (option_map (λ s. s.now) account.entry) (option_map (λ s. s.now) region.entry) (option_map (λ s. s.now) root.entry) (option_map (λ s. s.now) boot.entry) (option_map (λ s. s.now) caller.entry) }
{
    let Some(file) = config else {
        return values_of(account, region, root, boot, caller);
    };
    if account.is_some() || region.is_some() || root.is_some() || boot.is_some() {
        return None;
    }
    Some(SessionWords::File(file, caller))
}

// The value of an option.
fn value_in<'a>(matches: &ArgMatches<'a>, name: &str) -> Option<&'a str>
    ensures { option_map (λ s. s.now) result ≡ first_of name.now (rows_of (found_of matches.now)) }
{
    matches.get_str(name)
}

// Whether an option that takes no value is given.
fn is_given(matches: &ArgMatches<'_>, name: &str) -> bool
    ensures { result ≡ is_given name.now (rows_of (found_of matches.now)) }
{
    value_in(matches, name) == Some("true")
}

// The settings of a session.
fn settings_in<'a>(matches: &ArgMatches<'a>) -> Option<SessionWords<'a>>
    ensures { option_map source_in result ≡ source_of (rows_of (found_of matches.now)) }
{
    form_of(
        value_in(matches, "config"),
        value_in(matches, "account"),
        value_in(matches, "region"),
        value_in(matches, "root"),
        value_in(matches, "boot"),
        value_in(matches, "as"),
    )
}

// The settings of a session, and its journal.
fn session_in<'a>(matches: &ArgMatches<'a>) -> Option<SessionAsked<'a>>
    ensures settings { option_map (λ session. source_in session.words) result ≡ source_of (rows_of (found_of matches.now)) }
    ensures journal { IfSome result (λ session. journal_in session ≡ first_of (codes "load") (rows_of (found_of matches.now))) }
{
    let words = settings_in(matches)?;
    let load = value_in(matches, "load");
    Some(SessionAsked { words, load })
}

fn run_in<'a>(matches: &ArgMatches<'a>) -> Option<Asked<'a>>
    ensures { option_map shown result ≡ run_of (rows_of (found_of matches.now)) }
{
    let session = session_in(matches)?;
    Some(Asked::Run(session))
}

fn explain_in<'a>(matches: &ArgMatches<'a>) -> Option<Asked<'a>>
    ensures { option_map shown result ≡ explain_of (rows_of (found_of matches.now)) }
{
    let session = session_in(matches)?;
    Some(Asked::Explain(session))
}

fn export_in<'a>(matches: &ArgMatches<'a>) -> Option<Asked<'a>>
    ensures { option_map shown result ≡ export_of (rows_of (found_of matches.now)) }
{
    let session = session_in(matches)?;
    Some(Asked::Export(session))
}

fn check_in<'a>(matches: &ArgMatches<'a>) -> Option<Asked<'a>>
    ensures { option_map shown result ≡ check_of (rows_of (found_of matches.now)) }
{
    let file = value_in(matches, "config")?;
    Some(Asked::Check(file))
}

// `serve` with the values of its options, if all that it needs are given.
fn served_by<'a>(
    file: Option<&'a str>,
    address: Option<&'a str>,
    workers: Option<u64>,
    connections: Option<u64>,
    load: Option<&'a str>,
    exports: bool,
) -> Option<Asked<'a>>
    requires workers { IfSome workers (λ number. (1 ≤ number) × (number ≤ 64)) }
    requires connections { IfSome connections (λ number. (1 ≤ number) × (number ≤ 144115188075855872)) }
    ensures { option_map shown result ≡ served_by (option_map (λ s. s.now) file.entry) (option_map (λ s. s.now) address.entry) workers connections (option_map (λ s. s.now) load.entry) exports }
{
    Some(Asked::Serve(ServeWords {
        file: file?,
        address: address?,
        workers: workers? as u16,
        connections: connections?,
        load,
        exports,
    }))
}

// How many connections each worker takes.
fn connections_in(text: Option<&str>) -> Option<u64>
    ensures number { result ≡ number_or 144115188075855872 1 1000000000 (option_map (λ text. text.now) text.entry) }
    ensures bounds { IfSome result (λ number. (1 ≤ number) × (number ≤ 144115188075855872)) }
{
    match text {
        Some(text) => number_within(text, 1, CONNECTIONS),
        None => Some(AS_MANY),
    }
}

fn serve_in<'a>(matches: &ArgMatches<'a>) -> Option<Asked<'a>>
    ensures { option_map shown result ≡ serve_of (rows_of (found_of matches.now)) }
{
    served_by(
        value_in(matches, "config"),
        value_in(matches, "listen"),
        number_or(value_in(matches, "workers"), 4, 1, 64),
        connections_in(value_in(matches, "connections")),
        value_in(matches, "load"),
        is_given(matches, "export"),
    )
}

// The number of an option that is given.
fn number_in(matches: &ArgMatches<'_>, name: &str, least: u64, most: u64) -> Option<u64>
    ensures number { result ≡ option_and_then (number_within least most) (first_of name.now (rows_of (found_of matches.now))) }
    ensures bounds { IfSome result (λ number. (least ≤ number) × (number ≤ most)) }
{
    let text = value_in(matches, name)?;
    number_within(text, least, most)
}

// `load` with its numbers, if both are given.
fn loaded_by<'a>(seed: Option<u64>, requests: Option<u64>) -> Option<Asked<'a>>
    requires { IfSome requests (λ number. (1 ≤ number) × (number ≤ 100000)) }
    ensures { option_map shown result ≡ loaded_by seed requests }
{
    Some(Asked::Load(LoadWords {
        seed: seed?,
        requests: requests? as u32,
    }))
}

fn load_in<'a>(matches: &ArgMatches<'a>) -> Option<Asked<'a>>
    ensures { option_map shown result ≡ load_of (rows_of (found_of matches.now)) }
{
    loaded_by(
        number_in(matches, "seed", 0, u64::MAX),
        number_in(matches, "requests", 1, 100_000),
    )
}

// What the command with its options asks.
fn asked_in<'a>(matches: &ArgMatches<'a>) -> Option<Asked<'a>>
    ensures { option_map shown result ≡ named_command (subcommand_rows_of matches.now) }
{
    let (name, inner) = matches.subcommand()?;
    match name {
        "run" => run_in(inner),
        "explain" => explain_in(inner),
        "export" => export_in(inner),
        "check" => check_in(inner),
        "serve" => serve_in(inner),
        _ => load_in(inner),
    }
}

/// What the words ask, if they are a command: `run` with `--account`, `--region`, `--root` and `--as`, and
/// perhaps `--boot` and `--load`; `run` with `--config` and perhaps `--as` and `--load`; `explain` or
/// `export` with the options of one of these two; `check` with `--config`; `serve` with `--config` and
/// `--listen`, and perhaps `--workers` (1 to 64, else 4), `--connections` (1 to 1,000,000,000, else as
/// many as come), `--load` and `--export`; `load` with `--seed` (0 to 2^64 - 1) and `--requests` (1 to 100,000). A
/// number has 1 to 20 decimal digits. An option is written `--name value` or `--name=value`, and `--export`
/// without a value; each at most once and in any order.
pub fn read_words<'a>(alloc: Global, words: &'a [String]) -> Result<Option<Asked<'a>>, NoMemory>
    ensures { IfOk result (λ asked. option_map shown asked ≡ command_of (map string_bytes words.entry.now)) }
{
    if has_stray(words) {
        return Ok(None);
    }
    match read_line(alloc, words) {
        Ok(matches) => Ok(asked_in(&matches)),
        Err(LineFault::Refused) => Ok(None),
        Err(LineFault::NoMemory) => Err(NoMemory),
    }
}
