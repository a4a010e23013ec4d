// What follows from the definitions alone.
ghost use Rattle.account_tags.specs.Pages.{PartsOfTagsMakeTheWhole, MarkersReadBack};

/// The parts of the list of a key's tags, each behind the marker of the one before it, come to an end, and joined they are
/// the tags whose keys are above the bytes where they begin, each once. A marker gives the key that it was made of.
pub fn parts_of_tags_make_the_whole()
    ensures whole { PartsOfTagsMakeTheWhole }
    ensures read_back { MarkersReadBack }
{}
