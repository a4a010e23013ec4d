// What a service is opened from.
ghost use Rattle.std.specs.Prelude.{◌≡◌, ◌+◌, ◌<◌, ◌≤◌, [], length, drop, IfOk, IsTrue};
ghost use Rattle.left_right.specs.Sides.{view};
ghost use Rattle.publish_pass.specs.Pass.{fresh_pass, fresh_passes};
ghost use Rattle.keepers.specs.Keeping.{IsKept};
ghost use Rattle.published_account.specs.Pairs.{IsHistory, entries_of, loaded_pairs, whole_of};
ghost use Rattle.published_account.specs.Rules.{Knows, Names};

use crate::desk::Desk;
use crate::pass::Pass;
use crate::service::Service;
use crate::told::Told;
use account_core::Account;
use account_steps::{RealmFacts, draw_line};
use keepers::Keeps;
use kms_names::{NoMemory, Text};
use published_account::{Copies, Entrance, Notes, Prefix, Published, Realm, Unnamed, Window, warm};
use std::alloc::Global;
use std::marker::Model;
use std::sync::Wait;
use std::sync::ledger::{Blank, Share};

/// A service that isn't open yet: the two copies of its account, all of whose entries were loaded, and a ledger that
/// no realm names. It isn't dropped: `open_service` takes it. Contracts see the ledger's name and parts and what is
/// published.
pub struct Opening {
    writer: Copies,
    unnamed: Unnamed,
    blank: Blank,
    passes: u16,
}

impl Model for Opening {
    ghost use Rattle.std.specs.Prelude.{◌≡◌, ◌<◌, length};
    ghost use Rattle.published_account.specs.Pairs.{entries_of, loaded_pairs};
    ghost use Rattle.left_right.specs.Sides as sides;
    ghost use Rattle.publish_pass.specs.Pass as openings;
    ghost use Rattle.published_account.specs.Rules.{Knows};

    ghost Value = { openings.Opening };

    ghost view = { λ o. record { name = o.blank.name; parts = o.blank.parts; shown = o.writer.desk.shown.value } };

    ghost invariant = { λ o. record {
      book : o.writer.desk.shown.value.book ≡ o.unnamed.seen.book;
      passes : o.writer.desk.shown.value.whole.passes ≡ o.passes;
      loaded : o.writer.desk.shown.value.whole.pairs ≡ loaded_pairs (entries_of o.writer.desk.shown.value.whole.pairs);
      number : o.writer.desk.shown.value.whole.loaded ≡ length o.writer.desk.shown.value.whole.pairs;
      parts : o.blank.parts ≡ o.passes;
      some : 0 < o.passes;
      knows : Knows o.writer.desk.shown.value.book o.writer.desk.shown.value.whole.facts o.passes o.writer.desk.shown.value.whole.loaded (sides.view o.writer.desk.place);
    } };
}

// The two copies of an account whose entries were loaded.
fn first_copies(
    alloc: Global,
    unnamed: &Unnamed,
    account: Account,
    passes: u16,
) -> Result<Copies, NoMemory>
    requires passes { 0 < passes }
    requires loaded { unnamed.now.seen.log ≡ loaded_pairs account.entries }
    ensures pending { IfOk result (λ w. drop w.behind w.log.items ≡ []) }
    ensures shown { IfOk result (λ w. w.desk.shown.value ≡ record { book = unnamed.now.seen.book; whole = whole_of account passes }) }
{
    let first = Published::first(alloc, account, passes, unnamed)?;
    let second = first.share()?;
    match Copies::new(alloc, first, second, passes as usize) {
        Ok(writer) => Ok(writer),
        Err(_) => Err(NoMemory),
    }
}

// A reader that has seen what the writer has.
fn open_window(writer: &mut Copies) -> Result<Window, NoMemory>
    ensures shown { writer.new.desk.shown.value ≡ writer.old.desk.shown.value }
    ensures view { view writer.new.desk.place ≡ view writer.old.desk.place }
    ensures window { IfOk result (λ w. view w.place ≡ view writer.old.desk.place) }
{
    let mut window = writer.factory().reader()?;
    let note = writer.tell::<Notes>();
    window.learn::<Notes>(note);
    Ok(window)
}

// A pass that has seen what was loaded alone, and made and used nothing. It takes one part of the share.
fn make_pass<R: Realm>(
    alloc: Global,
    writer: &mut Copies,
    facts: &RealmFacts,
    prefix: &Prefix<R>,
    share: &mut Share<R>,
    number: u16,
) -> Result<Pass<R>, NoMemory>
    requires knows { Knows R.book R.facts R.passes R.loaded (view writer.old.desk.place) }
    requires facts { facts.now ≡ R.facts }
    requires loaded { (prefix.now ≡ loaded_pairs (entries_of prefix.now)) × (length prefix.now ≡ R.loaded) }
    requires history { IsHistory R.facts R.passes R.loaded prefix.now }
    requires share { (1 ≤ share.old.parts) × (share.old.amount ≡ 0) }
    requires number { (0 < number) × (number ≤ R.passes) }
    ensures shown { writer.new.desk.shown.value ≡ writer.old.desk.shown.value }
    ensures view { view writer.new.desk.place ≡ view writer.old.desk.place }
    ensures pass { IfOk result (λ pass. pass ≡ fresh_pass R.facts R.passes (entries_of prefix.now) number) }
    ensures share { IfOk result (λ pass. (share.new.parts + 1 ≡ share.old.parts) × (share.new.amount ≡ 0)) }
{
    let window = open_window(writer)?;
    let entrance = Entrance::new(window);
    let mine = share.split_off(1, 0);
    let own = Vec::new(alloc);
    let draws = draw_line(facts, number);
    Ok(Pass::new(number, entrance, prefix.again(), own, draws, mine))
}

// The passes, with the numbers 1 to n in order.
fn make_passes<R: Realm>(
    alloc: Global,
    writer: &mut Copies,
    facts: &RealmFacts,
    prefix: &Prefix<R>,
    share: Share<R>,
    passes: u16,
) -> Result<Vec<Pass<R>>, NoMemory>
    requires knows { Knows R.book R.facts R.passes R.loaded (view writer.old.desk.place) }
    requires facts { facts.now ≡ R.facts }
    requires loaded { (prefix.now ≡ loaded_pairs (entries_of prefix.now)) × (length prefix.now ≡ R.loaded) }
    requires history { IsHistory R.facts R.passes R.loaded prefix.now }
    requires share { (share.parts ≡ passes) × (share.amount ≡ 0) }
    requires passes { passes ≡ R.passes }
    ensures shown { writer.new.desk.shown.value ≡ writer.old.desk.shown.value }
    ensures passes { IfOk result (λ ps. ps.items ≡ fresh_passes R.facts R.passes (entries_of prefix.now) passes) }
{
    let mut share = share;
    let mut all = Vec::new(alloc);
    for i in 0..passes {
        let pass = make_pass(alloc, writer, facts, prefix, &mut share, i + 1)?;
        all.push(pass)?;
    }
    Ok(all)
}

impl Opening {
    ghost use Rattle.std.specs.Prelude.{◌≡◌, ◌<◌, ◌≤◌, [], IfOk};

    /// A service of an account with these facts and no entries, and of n passes, 1 to 64.
    pub fn new<W: Wait>(
        rt: &W,
        alloc: Global,
        facts: RealmFacts,
        n: u16,
    ) -> Result<Opening, NoMemory>
        requires { (0 < n) × (n ≤ 64) }
        ensures { IfOk result (λ o. (o.shown.whole ≡ record { facts = facts; passes = n; loaded = 0; pairs = [] }) × (o.parts ≡ n)) }
    {
        let account = Account::empty(alloc, facts)?;
        open_loaded(rt, alloc, account, n)
    }
}

/// A service that begins with the entries of an account, and has n passes, 1 to 64. Its time grows with the
/// number of entries; nothing of them is copied.
///
/// It makes the two copies of the account, and room for all that publishing takes later beside the account
/// itself.
pub fn open_loaded<W: Wait>(
    rt: &W,
    alloc: Global,
    account: Account,
    n: u16,
) -> Result<Opening, NoMemory>
    requires { (0 < n) × (n ≤ 64) }
    ensures { IfOk result (λ o. (o.shown.whole ≡ whole_of account n) × (o.parts ≡ n)) }
{
    let unnamed = Unnamed::of(&account)?;
    let mut writer = first_copies(alloc, &unnamed, account, n)?;
    if let Ok(like) = writer.published().share() {
        if warm(rt, &mut writer, like).is_ok() {
            return Ok(Opening {
                writer,
                unnamed,
                blank: Blank::new(n as u64),
                passes: n,
            });
        }
    }
    drop(writer.take(rt));
    Err(NoMemory)
}

// The passes and the region of a service.
fn equip<R: Realm>(
    alloc: Global,
    writer: &mut Copies,
    prefix: &Prefix<R>,
    share: Share<R>,
    passes: u16,
) -> Result<(Vec<Pass<R>>, Text), NoMemory>
    requires knows { Knows R.book R.facts R.passes R.loaded (view writer.old.desk.place) }
    requires names { Names R.book R.facts R.passes R.loaded writer.old.desk.shown.value }
    requires loaded { (prefix.now ≡ loaded_pairs (entries_of prefix.now)) × (length prefix.now ≡ R.loaded) }
    requires history { IsHistory R.facts R.passes R.loaded prefix.now }
    requires share { (share.parts ≡ passes) × (share.amount ≡ 0) }
    requires passes { passes ≡ R.passes }
    ensures shown { writer.new.desk.shown.value ≡ writer.old.desk.shown.value }
    ensures passes { IfOk result (λ made. made.0.items ≡ fresh_passes R.facts R.passes (entries_of prefix.now) R.passes) }
    ensures region { IfOk result (λ made. made.1 ≡ R.facts.region) }
{
    let facts = writer.published().account().facts().copy()?;
    let region = facts.region.copy()?;
    let passes = make_passes(alloc, writer, &facts, prefix, share, passes)?;
    Ok((passes, region))
}

/// Opens a service: what the passes share, and the passes, with the numbers 1 to n in order. They have seen
/// what was loaded alone, made no entry, and used nothing. The realm's members are the opening's. The keeper has kept what
/// was loaded. Where it is refused, the opening and the keeper are gone.
pub fn open_service<W: Wait, R: Realm, K: Keeps>(
    rt: &W,
    alloc: Global,
    opening: Opening,
    keeper: K,
) -> Result<(Service<R, K>, Vec<Pass<R>>), NoMemory>
    requires ledger { (opening.name ≡ R.name) × (opening.parts ≡ R.parts) }
    requires names { Names R.book R.facts R.passes R.loaded opening.shown }
    requires kept { IsTrue K.keeps → IsKept (K.tells R.facts) K.is_open K.moment K.left_since (K.reads R.facts) R.started R.loaded keeper (entries_of opening.shown.whole.pairs) }
    ensures passes { IfOk result (λ opened. opened.1.items ≡ fresh_passes R.facts R.passes (entries_of opening.shown.whole.pairs) R.passes) }
    ensures loaded { IfOk result (λ opened. length (entries_of opening.shown.whole.pairs) ≡ R.loaded) }
{
    let Opening {
        mut writer,
        unnamed,
        blank,
        passes,
    } = opening;
    let (book, share) = blank.open::<R>();
    let prefix = writer.published().history::<R>();
    let head = unnamed.named::<R>();
    match equip(alloc, &mut writer, &prefix, share, passes) {
        Err(error) => {
            drop(writer.take(rt));
            Err(error)
        }
        Ok((all, region)) => {
            let desk = Desk::new(writer, head, book, keeper);
            Ok((Service::new(desk, Told::new(prefix), passes, region), all))
        }
    }
}
