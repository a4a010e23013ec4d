//! The account of one thread is asked what a script says. Each certificate checks, and none does with a mark turned; and each entry
//! that a request makes fits the history.
#![tactic(auto)]

ghost use Rattle.account_core.specs.Decide.{IsProper};

mod asking;
mod failures;
mod turning;

use access_explain::{Certificate, Finding, check_certificate, explain};
use account_core::Account;
use asking::{after, ask_of};
use failures::Failure;
use kms_config::read_config;
use kms_json::Ask;
use kms_names::NoMemory;
use std::alloc::Global;
use std::process::ExitCode;
use std::{fs, io, rt};
use turning::{Place, RUNS, Run, turned};

// How many marks were turned, and with how many of them the certificate still checks.
#[derive(Clone, Copy)]
struct Tally {
    turned: u64,
    checks: u64,
}

// A certificate of a request at an account.
#[derive(Clone, Copy)]
struct Explained<'a> {
    account: &'a Account,
    ask: &'a Ask,
    certificate: &'a Certificate,
}

impl Explained<'_> {
    // Turns each mark of a run.
    fn turn_run(
        &self,
        alloc: Global,
        finding: usize,
        run: Run,
        marks: usize,
        before: Tally,
    ) -> Result<Tally, NoMemory>
        requires { IsProper self.now.account.now.facts self.now.ask.now }
    {
        let mut tally = before;
        for mark in 0..marks {
            let place = Place { finding, run, mark };
            let other = turned(alloc, self.certificate, place)?;
            tally.turned = tally.turned.saturating_add(1);
            if check_certificate(alloc, self.account, self.ask, &other)? {
                tally.checks = tally.checks.saturating_add(1);
            }
        }
        Ok(tally)
    }

    // Turns each mark of a finding.
    fn turn_finding(
        &self,
        alloc: Global,
        number: usize,
        finding: &Finding,
        before: Tally,
    ) -> Result<Tally, NoMemory>
        requires { IsProper self.now.account.now.facts self.now.ask.now }
    {
        let mut tally = before;
        for run in RUNS {
            let marks = run.of(finding).as_slice().len();
            tally = self.turn_run(alloc, number, run, marks, tally)?;
        }
        Ok(tally)
    }

    // Turns each mark.
    fn turn_all(&self, alloc: Global) -> Result<Tally, NoMemory>
        requires { IsProper self.now.account.now.facts self.now.ask.now }
    {
        let mut tally = Tally {
            turned: 0,
            checks: 0,
        };
        for (number, finding) in self.certificate.findings.as_slice().iter().enumerate() {
            tally = self.turn_finding(alloc, number, finding, tally)?;
        }
        Ok(tally)
    }
}

// Shows what a line asks, and gives the account after it.
fn show<R: rt::Runtime<A = Global>>(
    rt: &R,
    account: Account,
    line: &str,
) -> Result<Account, Failure> {
    let alloc = rt.alloc();
    let ask = ask_of(alloc, account.facts(), line)?;
    let certificate = explain(alloc, &account, &ask)?;
    let whole = check_certificate(alloc, &account, &ask, &certificate)?;
    let explained = Explained {
        account: &account,
        ask: &ask,
        certificate: &certificate,
    };
    let Tally { turned, checks } = explained.turn_all(alloc)?;
    let body = line
        .split_once('{')
        .map_or(line, |(request, _body)| request);
    let says = if whole { "checks" } else { "doesn't check" };
    println!(rt; "{body}{says}; {turned} marks turned, {checks} check")?;
    after(alloc, account, &ask)
}

// All lines of the script, at the account of the configuration.
fn show_all<R: rt::Runtime<A = Global>>(rt: &R) -> Result<(), Failure> {
    let alloc = rt.alloc();
    let config = fs::read_to_string(rt, "config.json")?;
    let script = fs::read_to_string(rt, "script.txt")?;
    let Ok(config) = read_config(alloc, config.as_bytes()) else {
        return Err(Failure::Unfit);
    };
    let mut account = Account::empty(alloc, config.facts)?;
    for line in script.lines() {
        account = show(rt, account, line)?;
    }
    Ok(())
}

fn main(rt: HostRuntime) -> io::Result<ExitCode> {
    match show_all(&rt) {
        Ok(()) => Ok(ExitCode::SUCCESS),
        Err(Failure::Workshop(kind)) => Err(io::Error::from(kind)),
        Err(_) => Ok(ExitCode::from(1)),
    }
}
