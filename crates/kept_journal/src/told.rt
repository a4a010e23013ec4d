// What a line tells.
use account_rows::Entry;

/// What a line behind the first one tells.
#[derive(Drop)]
pub enum Told {
    /// A run of the server began, under this boot number.
    Start(u32),
    /// The account was changed.
    Change(Entry),
}
