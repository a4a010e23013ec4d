// The command line, as `clap` reads it.
ghost use Rattle.std.specs.Prelude.{◌≡◌, ◌≢◌, [], Err, IfOk, false, map, string_bytes};
ghost use Rattle.clap.specs.Words.{app_of, rule_of, fault_of, with_subcommand, subcommand_rows_of, subcommand_of};
ghost use Rattle.clap.specs.declared.builder.command.Command.TheViews.{out-Command};
ghost use Rattle.kms_words.specs.Words.{value_option, flag_option, with_value, with_flag, with_values, session_line, run_line, explain_line, export_line, check_line, serve_line, load_line, bare_line, whole_line};
ghost use Rattle.kms_words.specs.declared.line.LineFault.TheVariants.{Refused, NoMemory};

use clap::error::ErrorKind;
use clap::{Arg, ArgAction, ArgMatches, Command};
use std::alloc::{AllocError, Global};

/// Why there are no matches.
#[derive(Debug, Drop)]
pub enum LineFault {
    /// The words are no command.
    Refused,
    /// A growth of memory was refused.
    NoMemory,
}

impl From<AllocError> for LineFault {
    ghost from_gives = { λ _ r. r ≡ NoMemory };

    fn from(_error: AllocError) -> LineFault {
        LineFault::NoMemory
    }
}

fn option_of<'a>(alloc: Global, name: &'a str) -> Arg<'a>
    ensures rule { rule_of result ≡ value_option name.entry.now }
    ensures local { result.global ≡ false }
{
    Arg::new(alloc, name).long(name)
}

fn flag_of<'a>(alloc: Global, name: &'a str) -> Arg<'a>
    ensures rule { rule_of result ≡ flag_option name.entry.now }
    ensures local { result.global ≡ false }
{
    Arg::new(alloc, name).long(name).action(ArgAction::SetTrue)
}

// The command with one more option, which takes a value.
fn with_value<'a>(
    alloc: Global,
    command: Command<'a>,
    name: &'a str,
) -> Result<Command<'a>, AllocError>
    requires { (out-Command command).has_globals ≡ false }
    ensures app { IfOk result (λ c. app_of c ≡ with_value (app_of command.entry) name.entry.now) }
    ensures local { IfOk result (λ c. (out-Command c).has_globals ≡ false) }
{
    command.arg(option_of(alloc, name))
}

// The command with one more option, which takes no value.
fn with_flag<'a>(
    alloc: Global,
    command: Command<'a>,
    name: &'a str,
) -> Result<Command<'a>, AllocError>
    requires { (out-Command command).has_globals ≡ false }
    ensures app { IfOk result (λ c. app_of c ≡ with_flag (app_of command.entry) name.entry.now) }
    ensures local { IfOk result (λ c. (out-Command c).has_globals ≡ false) }
{
    command.arg(flag_of(alloc, name))
}

// The command with more options, each of which takes a value.
fn with_values<'a>(
    alloc: Global,
    mut command: Command<'a>,
    names: &[&'a str],
) -> Result<Command<'a>, AllocError>
    requires { (out-Command command).has_globals ≡ false }
    ensures app { IfOk result (λ c. app_of c ≡ with_values (app_of command.entry) (map (λ name. name.now) names.entry.now)) }
    ensures local { IfOk result (λ c. (out-Command c).has_globals ≡ false) }
{
    for name in names {
        command = with_value(alloc, command, name)?;
    }
    Ok(command)
}

// A command that is about one session, with the options of its settings and of its journal.
fn session_command<'a>(alloc: Global, name: &'a str) -> Result<Command<'a>, AllocError>
    ensures app { IfOk result (λ c. app_of c ≡ session_line name.entry.now) }
    ensures local { IfOk result (λ c. (out-Command c).has_globals ≡ false) }
{
    let names = ["account", "region", "root", "boot", "as", "config", "load"];
    with_values(alloc, Command::new(alloc, name), &names)
}

fn check_command<'a>(alloc: Global) -> Result<Command<'a>, AllocError>
    ensures app { IfOk result (λ c. app_of c ≡ check_line) }
    ensures local { IfOk result (λ c. (out-Command c).has_globals ≡ false) }
{
    with_values(alloc, Command::new(alloc, "check"), &["config"])
}

fn serve_command<'a>(alloc: Global) -> Result<Command<'a>, AllocError>
    ensures app { IfOk result (λ c. app_of c ≡ serve_line) }
    ensures local { IfOk result (λ c. (out-Command c).has_globals ≡ false) }
{
    let names = ["config", "listen", "workers", "connections", "load"];
    let command = with_values(alloc, Command::new(alloc, "serve"), &names)?;
    with_flag(alloc, command, "export")
}

fn load_command<'a>(alloc: Global) -> Result<Command<'a>, AllocError>
    ensures app { IfOk result (λ c. app_of c ≡ load_line) }
    ensures local { IfOk result (λ c. (out-Command c).has_globals ≡ false) }
{
    with_values(alloc, Command::new(alloc, "load"), &["seed", "requests"])
}

// The program, which has no command yet.
fn bare_command<'a>(alloc: Global) -> Command<'a>
    ensures { app_of result ≡ bare_line }
{
    Command::new(alloc, "kms_local")
        .no_binary_name(true)
        .subcommand_required(true)
}

// The program with one more command.
fn with_command<'a>(program: Command<'a>, command: Command<'a>) -> Result<Command<'a>, AllocError>
    requires { (out-Command command).has_globals ≡ false }
    ensures { IfOk result (λ c. app_of c ≡ with_subcommand (app_of program.entry) (app_of command.entry).top) }
{
    program.subcommand(command)
}

fn with_run<'a>(alloc: Global, program: Command<'a>) -> Result<Command<'a>, AllocError>
    ensures { IfOk result (λ c. app_of c ≡ with_subcommand (app_of program.entry) run_line.top) }
{
    with_command(program, session_command(alloc, "run")?)
}

fn with_explain<'a>(alloc: Global, program: Command<'a>) -> Result<Command<'a>, AllocError>
    ensures { IfOk result (λ c. app_of c ≡ with_subcommand (app_of program.entry) explain_line.top) }
{
    with_command(program, session_command(alloc, "explain")?)
}

fn with_export<'a>(alloc: Global, program: Command<'a>) -> Result<Command<'a>, AllocError>
    ensures { IfOk result (λ c. app_of c ≡ with_subcommand (app_of program.entry) export_line.top) }
{
    with_command(program, session_command(alloc, "export")?)
}

fn with_check<'a>(alloc: Global, program: Command<'a>) -> Result<Command<'a>, AllocError>
    ensures { IfOk result (λ c. app_of c ≡ with_subcommand (app_of program.entry) check_line.top) }
{
    with_command(program, check_command(alloc)?)
}

fn with_serve<'a>(alloc: Global, program: Command<'a>) -> Result<Command<'a>, AllocError>
    ensures { IfOk result (λ c. app_of c ≡ with_subcommand (app_of program.entry) serve_line.top) }
{
    with_command(program, serve_command(alloc)?)
}

fn with_load<'a>(alloc: Global, program: Command<'a>) -> Result<Command<'a>, AllocError>
    ensures { IfOk result (λ c. app_of c ≡ with_subcommand (app_of program.entry) load_line.top) }
{
    with_command(program, load_command(alloc)?)
}

fn whole_command<'a>(alloc: Global) -> Result<Command<'a>, AllocError>
    ensures { IfOk result (λ c. app_of c ≡ whole_line) }
{
    let one = with_run(alloc, bare_command(alloc))?;
    let two = with_check(alloc, one)?;
    let three = with_serve(alloc, two)?;
    let four = with_load(alloc, three)?;
    let five = with_explain(alloc, four)?;
    with_export(alloc, five)
}

/// The matches of the words, if they are a command.
pub fn read_line<'a>(alloc: Global, words: &'a [String]) -> Result<ArgMatches<'a>, LineFault>
    ensures rows { IfOk result (λ m. subcommand_rows_of m ≡ subcommand_of whole_line (map string_bytes words.entry.now)) }
    ensures ok { IfOk result (λ m. fault_of whole_line (map string_bytes words.entry.now) ≡ []) }
    ensures refused { result ≡ Err Refused → fault_of whole_line (map string_bytes words.entry.now) ≢ [] }
{
    match whole_command(alloc)?.try_get_matches_from(words) {
        Ok(matches) => Ok(matches),
        Err(error) => match error.kind() {
            ErrorKind::OutOfMemory => Err(LineFault::NoMemory),
            _ => Err(LineFault::Refused),
        },
    }
}
