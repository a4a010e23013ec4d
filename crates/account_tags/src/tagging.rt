// TagResource and UntagResource.
ghost use Rattle.std.specs.Prelude.{◌≡◌};
ghost use Rattle.account_steps.specs.Steps.{Passes};
ghost use Rattle.account_tags.specs.Tagging.{too_many, has_some, tags_key, untags_key};

use account_rows::{Lent, What};
use account_steps::{
    Changes, Made, Questions, Request, Stop, View, improper, of_key, only_key_of, refuse,
};
use authority::Particulars;
use kms_json::{Limit, Refusal, Reply};
use kms_names::{Action, NoMemory, Text, TextList};
use resource_tags::{TagFault, TagList, TagMap};
use std::alloc::Global;
use tag_order::in_order;

// Stops where a key would have too many tags.
fn keep_few(tags: &TagMap, more: &TagList) -> Result<(), Stop>
    ensures { Passes (too_many tags.now more.now) result }
{
    match tags.put_all(more.as_slice()) {
        Ok(_) => Ok(()),
        Err(TagFault::TooMany) => Err(Stop::Refused(Refusal::LimitExceeded(Limit::Tags))),
        Err(TagFault::NoMemory) => Err(Stop::NoMemory),
    }
}

/// TagResource.
#[derive(Drop)]
pub struct TaggingKey<'a> {
    /// What its steps go by.
    pub view: &'a View<'a>,
    /// The reference to the key.
    pub key_id: &'a Text,
    /// The tags that it gives to the key.
    pub tags: &'a TagList,
}

impl<'a> Request for TaggingKey<'a> {
    type Found = Lent<'a>;

    type Ready = TagList;

    ghost seen = { λ op. op.view.now };

    ghost parts = { λ op. (tags_key op.view.now op.key_id.now op.tags.now).parts };

    fn view(&self) -> &View<'_> {
        self.view
    }

    fn find(&self, alloc: Global) -> Result<Lent<'a>, Stop> {
        only_key_of(alloc, self.view, self.key_id)
    }

    fn questions<'q>(&'q self, found: &'q Lent<'a>) -> Questions<'q> {
        let said = Particulars {
            request_tags: Some(self.tags),
            ..of_key(self.view, found.row())
        };
        Questions::on_key(Action::TagResource, found, said)
    }

    fn tokens(&self) -> &[Text] {
        &[]
    }

    fn fit(&self, alloc: Global, found: &Lent<'a>) -> Result<(), Stop> {
        self.view.fit(alloc, Action::TagResource, found)
    }

    fn own(&self, alloc: Global, found: &Lent<'a>) -> Result<TagList, Stop> {
        refuse(improper(self.tags.as_slice()))?;
        let tags = in_order(alloc, self.tags.as_slice())?;
        keep_few(&found.row().tags, &tags)?;
        Ok(tags)
    }

    fn dry_run(&self) -> bool {
        false
    }
}

impl<'a> Changes for TaggingKey<'a> {
    ghost does = { λ op. (tags_key op.view.now op.key_id.now op.tags.now).does };

    fn make(&self, _alloc: Global, found: Lent<'a>, ready: TagList) -> Result<Made, NoMemory> {
        Ok(Made {
            reply: Reply::Done,
            what: Some(What::Tag {
                key: found.row().key,
                tags: ready,
            }),
        })
    }
}

// Whether a tag of a key has one of these keys.
fn has_some(tags: &TagMap, keys: &[Text]) -> bool
    ensures { result ≡ has_some tags.now keys.now }
{
    keys.iter().any(|key| tags.get(key).is_some())
}

/// UntagResource.
#[derive(Drop)]
pub struct UntaggingKey<'a> {
    /// What its steps go by.
    pub view: &'a View<'a>,
    /// The reference to the key.
    pub key_id: &'a Text,
    /// The keys of the tags that it takes from the key.
    pub keys: &'a TextList,
}

impl<'a> Request for UntaggingKey<'a> {
    type Found = Lent<'a>;

    type Ready = ();

    ghost seen = { λ op. op.view.now };

    ghost parts = { λ op. (untags_key op.view.now op.key_id.now op.keys.now).parts };

    fn view(&self) -> &View<'_> {
        self.view
    }

    fn find(&self, alloc: Global) -> Result<Lent<'a>, Stop> {
        only_key_of(alloc, self.view, self.key_id)
    }

    fn questions<'q>(&'q self, found: &'q Lent<'a>) -> Questions<'q> {
        let said = Particulars {
            untagged: Some(self.keys),
            ..of_key(self.view, found.row())
        };
        Questions::on_key(Action::UntagResource, found, said)
    }

    fn tokens(&self) -> &[Text] {
        &[]
    }

    fn fit(&self, alloc: Global, found: &Lent<'a>) -> Result<(), Stop> {
        self.view.fit(alloc, Action::UntagResource, found)
    }

    fn own(&self, _alloc: Global, _found: &Lent<'a>) -> Result<(), Stop> {
        Ok(())
    }

    fn dry_run(&self) -> bool {
        false
    }
}

impl<'a> Changes for UntaggingKey<'a> {
    ghost does = { λ op. (untags_key op.view.now op.key_id.now op.keys.now).does };

    fn make(&self, _alloc: Global, found: Lent<'a>, _ready: ()) -> Result<Made, NoMemory> {
        let row = found.row();
        let what = if has_some(&row.tags, self.keys.as_slice()) {
            Some(What::Untag {
                key: row.key,
                keys: self.keys.copy()?,
            })
        } else {
            None
        };
        Ok(Made {
            reply: Reply::Done,
            what,
        })
    }
}
