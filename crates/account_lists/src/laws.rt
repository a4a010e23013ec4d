// What follows from the definitions alone.
ghost use Rattle.account_lists.specs.Pages.{MarkersReadBack};

/// The marker that a reply tells of the next part is read, where a client sends it back, as the place that it was made of.
/// A place is below 10^18: an account has at most 1,000,000 entries.
pub fn markers_read_back()
    ensures { MarkersReadBack }
{}
