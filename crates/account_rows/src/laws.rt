//! What follows from the definitions alone.

ghost use Rattle.account_rows.specs.Laws.{TagsAreTheLastGiven};

/// Each tag of a key that is there has the value, or has none, as the last entry of the history says that names the tag: an
/// entry that makes the key, gives it tags, or takes tags from it.
pub fn tags_are_the_last_given()
    ensures { TagsAreTheLastGiven }
{}
