// Parts of lists.
ghost use Rattle.std.specs.Prelude.{◌≡◌, ◌<◌, ◌≤◌, ℕ, List, Bool, AllPairs, IfOk, option_map, find, filter, map};
ghost use Rattle.kms_names.specs.Place.{is_behind};
ghost use Rattle.account_steps.specs.Steps.{Gives};
ghost use Rattle.account_lists.specs.Pages.{behind_marker, part_of};

use account_steps::Stop;
use kms_json::{Page, Refusal};
use kms_names::{NoMemory, Text, decimal};
use std::alloc::Global;

// The longest number of a marker, in digits.
const DIGITS: usize = 18;

/// The place behind which a part of a list begins, where a marker is given: a text of 1 to 18 decimal digits.
pub fn behind_marker(page: &Page) -> Result<Option<u64>, Stop>
    ensures { Gives (behind_marker page.now.marker) result }
{
    let Some(text) = &page.marker else {
        return Ok(None);
    };
    match decimal(text.as_str().as_bytes(), DIGITS) {
        Some(place) => Ok(Some(place)),
        None => Err(Stop::Refused(Refusal::InvalidMarker)),
    }
}

/// A list, of which parts are shown.
pub trait Listing {
    /// What stands in the list, lent.
    type Row: Drop;

    /// A row as replies show it.
    type Item: Drop;

    ghost rows: { Self → List Self.Row };

    ghost born: { Self → Self.Row → ℕ };

    ghost listed: { Self → Self.Row → Bool };

    ghost shown: { Self → Self.Row → Self.Item };

    /// The rows stand in order of making.
    fn in_order(&self)
        ensures { AllPairs (λ p q. born self.now p < born self.now q) (rows self.now) };

    /// The first row that was made behind a place, or the first of all.
    fn behind(&self, after: Option<u64>) -> Option<Self::Row>
        ensures { result ≡ find (λ row. is_behind after (born self.now row)) (rows self.now) };

    /// The place of a row.
    fn born(&self, row: &Self::Row) -> u64
        ensures { result ≡ born self.now row.now };

    /// Whether a row is listed.
    fn lists(&self, row: &Self::Row) -> bool
        ensures { result ≡ listed self.now row.now };

    /// A row as replies show it.
    fn show(&self, alloc: Global, row: Self::Row) -> Result<Self::Item, NoMemory>
        ensures { IfOk result (λ item. item ≡ shown self.now row) };
}

/// A part of a list, and the marker of the next part, where more rows remain.
#[derive(Drop)]
pub struct Part<I: Drop> {
    /// The rows as replies show them.
    pub items: Vec<I>,
    /// The place of the last one.
    pub next: Option<u64>,
}

/// At most so many of the rows that were made behind a place. It goes through what it lists, and what isn't listed between.
pub fn part_behind<L: Listing>(
    alloc: Global,
    listing: &L,
    limit: usize,
    after: Option<u64>,
) -> Result<Part<L::Item>, NoMemory>
    ensures items { IfOk result (λ part. part.items.items ≡ map (L.shown listing.now) (part_of (L.born listing.now) (filter (L.listed listing.now) (L.rows listing.now)) limit after).rows) }
    ensures next { IfOk result (λ part. part.next ≡ (part_of (L.born listing.now) (filter (L.listed listing.now) (L.rows listing.now)) limit after).next) }
{
    listing.in_order();
    let mut items = Vec::new(alloc);
    let mut at = after;
    let mut last = None;
    while let Some(row) = listing.behind(at) {
        let place = Some(listing.born(&row));
        if listing.lists(&row) {
            if items.len() == limit {
                return Ok(Part { items, next: last });
            }
            items.push(listing.show(alloc, row)?)?;
            last = place;
        }
        at = place;
    }
    Ok(Part { items, next: None })
}
