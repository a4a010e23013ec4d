// The steps of a decision in their order. Each operation says its own parts of them; the order is written
// here alone.
ghost use Rattle.std.specs.Prelude.{◌≡◌, IfOk, OnOk, OnErr, Option, None, Ok, length};
ghost use Rattle.std.specs.List.{list_any};
ghost use Rattle.account_steps.specs.Places.{places_of, line_at, IsLineOf, IsWithin};
ghost use Rattle.account_steps.specs.View.{View as SeenView};
ghost use Rattle.account_steps.specs.Steps.{Gives, Passes, unless, or_else, stopping};
ghost use Rattle.account_steps.specs.Authority.{denied, all_asked};
ghost use Rattle.account_steps.specs.Parts.{Parts, cleared, outcome, decided_read, questions_of, spent, full, overfull, limited, only_asked, after, unfit_state, entries_full, bytes_full, rotations_full, keys_full, grant_id_of, grant_of_token, is_dead, dead_token, aliases_full, grants_full};
ghost use Rattle.account_steps.specs.Settling.{Settles, Makes};
ghost use Rattle.account_steps.specs.declared.places.Uses.{Uses as TakenUses};
ghost use Rattle.account_rows.specs.declared.entries.What.{What as DoneWhat};

use crate::places::{Places, Uses};
use crate::questions::{QuestionList, Questions, pass_all, pose_all};
use crate::stops::Stop;
use crate::view::{LentGrant, View};
use account_rows::{BYTES, ENTRIES, What};
use draw_lines::DrawLine;
use kms_json::{Limit, Refusal, Reply};
use kms_names::{AliasName, GrantId, KeyId, NoMemory, Text, read_grant_id};
use std::alloc::Global;

// How many initialization vectors, and how many words, a pass gives.
const MOST: u64 = 0x1_0000_0000_0000;

// How many keys an account holds at most.
const KEYS: usize = 10_000;

// How many rotations on demand a key has at most.
const ROTATIONS: u32 = 10;

// How many grants a key has at most, and how many there are at most in all.
const KEY_GRANTS: usize = 5_000;

const GRANTS: usize = 50_000;

// How many aliases an account has at most.
const ALIASES: usize = 10_000;

/// What an operation says of the steps of a decision.
pub trait Request {
    /// What its references name.
    type Found: Drop;

    /// What comes of its own refusals.
    type Ready: Drop;

    ghost seen: { Self → SeenView };

    ghost parts: { Self → Parts Self.Found Self.Ready };

    /// What its steps go by.
    fn view(&self) -> &View<'_>
        ensures { result.now ≡ seen self.now };

    /// Looks its references up, in order.
    fn find(&self, alloc: Global) -> Result<Self::Found, Stop>
        ensures { Gives (parts self.now).found result };

    /// What the caller has to be allowed: its questions, in order.
    fn questions<'q>(&'q self, found: &'q Self::Found) -> Questions<'q>
        ensures { all_asked (seen self.now) result ≡ (parts self.now).questions found.now };

    /// The tokens of grants that it gives.
    fn tokens(&self) -> &[Text]
        ensures { result.now ≡ (parts self.now).tokens };

    /// Whether the states of its keys let it be served: each key, in order.
    fn fit(&self, alloc: Global, found: &Self::Found) -> Result<(), Stop>
        ensures { Passes (unfit_state (seen self.now) ((parts self.now).uses found.now)) result };

    /// Its own refusals, in order.
    fn own(&self, alloc: Global, found: &Self::Found) -> Result<Self::Ready, Stop>
        ensures { Gives ((parts self.now).own found.now) result };

    /// Whether it is only to say what it would answer.
    fn dry_run(&self) -> bool
        ensures { result ≡ (parts self.now).dry_run };
}

/// An operation that doesn't change the account.
pub trait Reads: Request {
    ghost takes: { Self → TakenUses };

    /// What it takes of the pass where it is served.
    fn uses(&self) -> Uses
        ensures { result ≡ takes self.now };

    /// Its reply, where all steps have passed. It takes of the line what it says; without memory at most so much.
    fn serve(
        &self,
        alloc: Global,
        found: Self::Found,
        ready: Self::Ready,
        line: &mut DrawLine,
    ) -> Result<Reply, NoMemory>
        requires line { IsLineOf (Self.seen self.now).facts line.old }
        requires places { (Self.seen self.now).places ≡ places_of line.old }
        requires left { spent (Self.seen self.now).places (takes self.now) ≡ None }
        ensures reply { IfOk result (λ reply. reply ≡ (Self.parts self.now).reply found ready) }
        ensures used { OnOk result (line.new ≡ line_at line.old (after (places_of line.old) (takes self.now))) }
        ensures within { OnErr result (IsWithin line.old line.new (after (places_of line.old) (takes self.now))) };
}

/// What a request that changes the account comes to.
#[derive(Drop)]
pub struct Made {
    /// Its reply.
    pub reply: Reply,
    /// What it does to the account; None where there is nothing to do.
    pub what: Option<What>,
}

/// An operation that changes the account.
pub trait Changes: Request {
    ghost does: { Self → Self.Found → Self.Ready → Option DoneWhat };

    /// Its reply and what it does, where all steps but the limits have passed.
    fn make(&self, alloc: Global, found: Self::Found, ready: Self::Ready) -> Result<Made, NoMemory>
        ensures reply { IfOk result (λ made. made.reply ≡ (Self.parts self.now).reply found ready) }
        ensures does { IfOk result (λ made. made.what ≡ does self.now found ready) };
}

/// Stops at a refusal.
pub fn refuse(refusal: Option<Refusal>) -> Result<(), Stop>
    ensures { result ≡ stopping refusal }
{
    match refusal {
        Some(why) => Err(Stop::Refused(why)),
        None => Ok(()),
    }
}

fn only_asked(dry_run: bool) -> Option<Refusal>
    ensures { result ≡ only_asked dry_run }
{
    if dry_run { Some(Refusal::DryRun) } else { None }
}

// The limits of what a pass gives: words, and then initialization vectors.
fn spent(places: Places, uses: Uses) -> Option<Refusal>
    ensures { result ≡ spent places uses }
{
    if uses.words > 0 && places.words.saturating_add(uses.words) > MOST {
        return Some(Refusal::LimitExceeded(Limit::Draws));
    }
    if uses.ivs > 0 && places.ivs.saturating_add(uses.ivs) > MOST {
        return Some(Refusal::LimitExceeded(Limit::Ivs));
    }
    None
}

/// The id that a text of 64 lower-case hexadecimal digits writes.
pub fn grant_id_of(text: &str) -> Option<GrantId>
    ensures { result ≡ grant_id_of text.now }
{
    read_grant_id(text)
}

/// The live grant whose token a text is. It takes no memory.
pub fn grant_of_token<'a>(view: &View<'a>, token: &Text) -> Option<LentGrant<'a>>
    ensures { result ≡ grant_of_token view.now token.now }
{
    view.grant(&grant_id_of(token.as_str())?)
}

// Whether a token is that of no live grant.
#[tactic(auto, unfolding(crate::specs::Parts::is_dead))]
fn is_dead(view: &View<'_>, token: &Text) -> bool
    ensures { result ≡ is_dead view.now token.now }
{
    grant_of_token(view, token).is_none()
}

// Whether some token is that of no live grant.
fn some_dead(view: &View<'_>, tokens: &[Text]) -> bool
    ensures { result ≡ list_any (is_dead view.now) tokens.now }
{
    tokens.iter().any(|token| is_dead(view, token))
}

// The refusal of tokens where one is that of no live grant.
fn dead_token(view: &View<'_>, tokens: &[Text]) -> Option<Refusal>
    ensures { result ≡ dead_token view.now tokens.now }
{
    if some_dead(view, tokens) {
        Some(Refusal::InvalidGrantToken)
    } else {
        None
    }
}

// The limit of aliases, where this one isn't there.
fn aliases_full(view: &View<'_>, name: &AliasName) -> Option<Refusal>
    ensures { result ≡ aliases_full view.now name.now }
{
    let aliases = view.aliases();
    if aliases.resolve(name).is_none() && aliases.len() >= ALIASES {
        return Some(Refusal::LimitExceeded(Limit::Aliases));
    }
    None
}

// The limits of grants: of the key, and then of all keys together.
fn grants_full(view: &View<'_>, key: &KeyId) -> Option<Refusal>
    ensures { result ≡ grants_full view.now key.now }
{
    let grants = view.grants();
    if grants.number_of_key(key) >= KEY_GRANTS {
        return Some(Refusal::LimitExceeded(Limit::KeyGrants));
    }
    if grants.len() >= GRANTS {
        return Some(Refusal::LimitExceeded(Limit::Grants));
    }
    None
}

// The limit of what an entry would add to.
fn full(view: &View<'_>, what: &What) -> Option<Refusal>
    ensures { result ≡ full view.now what.now }
{
    match what {
        What::CreateKey { .. } if view.number_of_keys() >= KEYS => {
            Some(Refusal::LimitExceeded(Limit::Keys))
        }
        What::RotateNow { key } => match view.rotations(key) {
            Some(rotations) if rotations >= ROTATIONS => {
                Some(Refusal::LimitExceeded(Limit::Rotations))
            }
            _ => None,
        },
        What::AliasPut { name, .. } => aliases_full(view, name),
        What::GrantAdd { key, .. } => grants_full(view, key),
        _ => None,
    }
}

/// The refusal of an entry for which the limits leave no room, if any: of what it would add to, then of the number of entries, then of
/// their bytes. It takes no memory.
pub fn overfull(view: &View<'_>, what: &What) -> Option<Refusal>
    ensures { result ≡ overfull view.now what.now }
{
    if let Some(why) = full(view, what) {
        return Some(why);
    }
    if view.place() >= ENTRIES {
        return Some(Refusal::LimitExceeded(Limit::Entries));
    }
    if view.bytes().saturating_add(what.size()) > BYTES {
        return Some(Refusal::LimitExceeded(Limit::Bytes));
    }
    None
}

// The limits of a request that changes the account, where there is something to do.
fn limited(view: &View<'_>, what: &Option<What>) -> Option<Refusal>
    ensures { result ≡ limited view.now what.now }
{
    match what {
        Some(what) => overfull(view, what),
        None => None,
    }
}

// Whether the caller may do what an operation asks.
fn authorize<O: Request>(alloc: Global, operation: &O, found: &O::Found) -> Result<(), Stop>
    ensures { Passes (denied (O.seen operation.now) ((O.parts operation.now).questions found.now)) result }
{
    pass_all(alloc, operation.view(), &operation.questions(found))
}

/// What the step of authority asks about an operation, where its references name what is there: each question as policies and
/// grants are asked it, in order.
pub fn questions_of<O: Request>(alloc: Global, operation: &O) -> Result<QuestionList, Stop>
    ensures { Gives (questions_of (O.seen operation.now) (O.parts operation.now)) result }
{
    let found = operation.find(alloc)?;
    Ok(pose_all(alloc, operation.view(), &operation.questions(&found))?)
}

// The steps up to an operation's own refusals.
fn clear<O: Request>(alloc: Global, operation: &O) -> Result<(O::Found, O::Ready), Stop>
    ensures { Gives (cleared (O.seen operation.now) (O.parts operation.now)) result }
{
    let found = operation.find(alloc)?;
    authorize(alloc, operation, &found)?;
    refuse(dead_token(operation.view(), operation.tokens()))?;
    operation.fit(alloc, &found)?;
    let ready = operation.own(alloc, &found)?;
    Ok((found, ready))
}

/// The answer to a request that doesn't change the account.
pub fn read<O: Reads>(alloc: Global, operation: &O, line: &mut DrawLine) -> Result<Reply, Stop>
    requires line { IsLineOf (O.seen operation.now).facts line.old }
    requires places { (O.seen operation.now).places ≡ places_of line.old }
    ensures { Settles (decided_read (outcome (O.seen operation.now) (O.parts operation.now) (spent (O.seen operation.now).places) (λ found ready. O.takes operation.now)) (places_of line.old)) line.old result line.new }
{
    let (found, ready) = clear(alloc, operation)?;
    refuse(spent(operation.view().places(), operation.uses()))?;
    refuse(only_asked(operation.dry_run()))?;
    Ok(operation.serve(alloc, found, ready, line)?)
}

// The limits of what is done, and then DryRun.
fn pass<O: Request>(operation: &O, what: &Option<What>) -> Result<(), Stop>
    ensures { Passes (or_else (limited (O.seen operation.now) what.now) (only_asked (O.parts operation.now).dry_run)) result }
{
    refuse(limited(operation.view(), what))?;
    refuse(only_asked(operation.dry_run()))
}

// What was made, where the limits and DryRun let it pass.
fn let_pass<O: Request>(operation: &O, made: Made) -> Result<Made, Stop>
    ensures { Makes (unless (or_else (limited (O.seen operation.now) made.what) (only_asked (O.parts operation.now).dry_run)) (Ok (record { reply = made.reply; effect = made.what }))) result }
{
    match pass(operation, &made.what) {
        Ok(()) => Ok(made),
        Err(stop) => Err(stop),
    }
}

/// What a request that changes the account comes to.
pub fn change<O: Changes>(alloc: Global, operation: &O) -> Result<Made, Stop>
    ensures { Makes (outcome (O.seen operation.now) (O.parts operation.now) (limited (O.seen operation.now)) (O.does operation.now)) result }
{
    let (found, ready) = clear(alloc, operation)?;
    let_pass(operation, operation.make(alloc, found, ready)?)
}
