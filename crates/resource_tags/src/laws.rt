// What follows from the definitions alone.
ghost use Rattle.resource_tags.specs.Laws.{PutTagsAreThere, DroppedTagsAreGone};

/// Once tags were put, a key has the value of the last of them that has the key, and else the value that it had.
pub fn put_tags_are_there()
    ensures { PutTagsAreThere }
{}

/// Once keys were dropped, they have no value, and every other key has the value that it had.
pub fn dropped_tags_are_gone()
    ensures { DroppedTagsAreGone }
{}
