// Cases that are asked of an account by a pass that has given so much already.
ghost use Rattle.std.specs.Prelude.{◌≡◌, ◌≤◌, ◌^◌, IfOk, true};
ghost use Rattle.kms_json.specs.Asks.{changes_account};
ghost use Rattle.account_steps.specs.Places.{IsLineOf};
ghost use Rattle.account_core.specs.Decide.{IsProper};
ghost use Rattle.kms_names.specs.Principal.{account_of};

use crate::callers::caller_of;
use crate::cases::{Case, Request};
use crate::failures::Failure;
use crate::lines::{Given, Line, Wanted};
use crate::replies::body_text;
use crate::sessions::{account_number, facts_of};
use account_core::{Account, Decision};
use account_steps::RealmFacts;
use draw_lines::DrawLine;
use kms_json::{Ask, read_ask};
use kms_names::{NoMemory, Principal};
use mac_sha::Mac;
use published_account::{Answered, answer_with};
use std::alloc::Global;

const MOST: u64 = 0x1_0000_0000_0000;

fn ask(
    alloc: Global,
    facts: &RealmFacts,
    caller: Principal,
    operation: &str,
    body: &str,
) -> Result<Ask, Failure>
    requires { account_of caller ≡ facts.now.account }
    ensures { IfOk result (λ ask. IsProper facts.now ask) }
{
    let target = format!(in alloc; "TrentService.{operation}")?;
    Ok(Ask {
        body: read_ask(alloc, target.as_bytes(), body.as_bytes())?,
        caller,
        moment: 1_700_000_000,
        after: None,
    })
}

// The line of the first pass after so many words and so many initialization vectors.
#[tactic(auto, unfolding(account_steps::specs::Ids::draw_seed))]
fn line_after(facts: &RealmFacts, words: u64, ivs: u64) -> DrawLine
    requires words { words ≤ 2 ^ 48 }
    requires ivs { ivs ≤ 2 ^ 48 }
    ensures { IsLineOf facts.now result }
{
    let number = 1u16;
    let mut mac = Mac::new(&facts.root);
    mac.add(b"draw");
    mac.add(&facts.boot.to_be_bytes());
    mac.add(&number.to_be_bytes());
    DrawLine::resume(&mac.end(), facts.boot, number, words, ivs)
}

// An account, and the line of draws of the pass that asks it.
#[derive(Drop)]
struct Asked {
    account: Account,
    line: DrawLine,
    ghost line_of: { IsLineOf account.facts line },
}

impl Asked {
    ghost use Rattle.std.specs.Prelude.{◌≡◌, true};
    ghost use Rattle.account_core.specs.Decide.{IsProper};
    ghost use Rattle.kms_json.specs.Asks.{changes_account};

    // Answers a request.
    fn answer(&mut self, alloc: Global, ask: &Ask) -> Result<Answered, NoMemory>
        requires { IsProper self.old.account.facts ask.now }
    {
        if ask.changes() {
            return self.change(alloc, ask);
        }
        let reply = self.account.decide_read(alloc, ask, &mut self.line)?;
        answer_with(alloc, self.account.entries(), reply)
    }

    // Answers a request that changes the account, and appends its entry.
    fn change(&mut self, alloc: Global, ask: &Ask) -> Result<Answered, NoMemory>
        requires proper { IsProper self.old.account.facts ask.now }
        requires changes { changes_account ask.now.body ≡ true }
    {
        match self.account.decide_change(alloc, ask)? {
            Decision::Change(entry, reply) => {
                self.account = self.account.apply(&entry)?;
                answer_with(alloc, self.account.entries(), reply)
            }
            Decision::Refused(reply) | Decision::Served(reply) => {
                answer_with(alloc, self.account.entries(), reply)
            }
        }
    }

    // Asks what a request asks, and compares the answer with the reply that is wanted.
    fn hold(
        &mut self,
        alloc: Global,
        request: &Request<'_>,
        wanted: &Wanted<'_>,
    ) -> Result<(), Failure> {
        let Request::Ask {
            caller,
            operation,
            body,
        } = *request
        else {
            return Err(Failure::Unfit);
        };
        let facts = self.account.facts();
        let caller = caller_of(alloc, facts.account, caller)?;
        let ask = ask(alloc, facts, caller, operation, body)?;
        let answered = self.answer(alloc, &ask)?;
        compare(alloc, &answered, wanted)
    }

    // Asks all requests, until one isn't answered by the reply that is wanted.
    fn hold_all(
        &mut self,
        alloc: Global,
        requests: &[Request<'_>],
        replies: &[Wanted<'_>],
    ) -> Result<(), Failure> {
        for (request, wanted) in requests.iter().zip(replies) {
            match self.hold(alloc, request, wanted) {
                Ok(()) => {}
                Err(Failure::Unfit) => return Err(Failure::OtherAnswer),
                Err(failure) => return Err(failure),
            }
        }
        Ok(())
    }
}

// Compares an answer with the reply that is wanted.
fn compare(alloc: Global, answered: &Answered, wanted: &Wanted<'_>) -> Result<(), Failure> {
    let body = body_text(alloc, wanted)?;
    if answered.status == wanted.status
        && answered.front == wanted.front
        && answered.body.as_slice() == body.as_bytes()
    {
        Ok(())
    } else {
        Err(Failure::OtherAnswer)
    }
}

// The account of a case, with a line that has given so much.
fn open_account(alloc: Global, case: &Case<'_>, spent: Given) -> Result<Asked, Failure> {
    if spent.words > MOST || spent.ivs > MOST {
        return Err(Failure::Unfit);
    }
    let account = account_number().ok_or(Failure::Unfit)?;
    let facts = facts_of(alloc, account, case)?;
    let line = line_after(&facts, spent.words, spent.ivs);
    Ok(Asked {
        account: Account::empty(alloc, facts)?,
        line,
    })
}

// Asks what a case asks, and compares the replies.
fn hold_case(alloc: Global, case: &Case<'_>, asked: &mut Asked) -> Result<(), Failure> {
    let requests = case.all_requests(alloc)?;
    let replies = case.all_replies(alloc)?;
    asked.hold_all(alloc, &requests, &replies)
}

/// Asks an account, by a pass that has given so much, what a case asks, and compares the replies and
/// what the pass has given afterwards.
pub fn hold_places(alloc: Global, case: &Case<'_>, spent: Given) -> Result<(), Failure> {
    let Some(Line::Left(left)) = case.lines.last() else {
        return Err(Failure::NothingLeft);
    };
    if case.requests != case.replies {
        return Err(Failure::NoReply);
    }
    let mut asked = open_account(alloc, case, spent)?;
    let held = hold_case(alloc, case, &mut asked);
    let after = Given {
        words: asked.line.words(),
        ivs: asked.line.ivs(),
    };
    // Where the answers differ too, what was given says more.
    match held {
        Err(Failure::NoMemory) => held,
        _ if after != *left => Err(Failure::OtherPlaces),
        _ => held,
    }
}
