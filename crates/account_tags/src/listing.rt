// ListResourceTags.
ghost use Rattle.account_tags.specs.Tagging.{lists_tags};

use crate::pages::{behind_marker, part_of};
use account_rows::Lent;
use account_steps::{Questions, Reads, Request, Stop, Uses, View, of_key, only_key_of};
use draw_lines::DrawLine;
use kms_json::{Page, Reply};
use kms_names::{Action, Bytes, NoMemory, Text};
use std::alloc::Global;

/// ListResourceTags.
#[derive(Drop)]
pub struct ListingTags<'a> {
    /// What its steps go by.
    pub view: &'a View<'a>,
    /// The reference to the key.
    pub key_id: &'a Text,
    /// Which part.
    pub page: &'a Page,
}

impl<'a> Request for ListingTags<'a> {
    type Found = Lent<'a>;

    type Ready = Option<Bytes>;

    ghost seen = { λ op. op.view.now };

    ghost parts = { λ op. (lists_tags op.view.now op.key_id.now op.page.now).parts };

    fn view(&self) -> &View<'_> {
        self.view
    }

    fn find(&self, alloc: Global) -> Result<Lent<'a>, Stop> {
        only_key_of(alloc, self.view, self.key_id)
    }

    fn questions<'q>(&'q self, found: &'q Lent<'a>) -> Questions<'q> {
        let said = of_key(self.view, found.row());
        Questions::on_key(Action::ListResourceTags, found, said)
    }

    fn tokens(&self) -> &[Text] {
        &[]
    }

    fn fit(&self, alloc: Global, found: &Lent<'a>) -> Result<(), Stop> {
        self.view.fit(alloc, Action::ListResourceTags, found)
    }

    fn own(&self, alloc: Global, _found: &Lent<'a>) -> Result<Option<Bytes>, Stop> {
        behind_marker(alloc, self.page)
    }

    fn dry_run(&self) -> bool {
        false
    }
}

impl<'a> Reads for ListingTags<'a> {
    ghost takes = { λ op. (lists_tags op.view.now op.key_id.now op.page.now).takes };

    fn uses(&self) -> Uses {
        Uses::NOTHING
    }

    fn serve(
        &self,
        alloc: Global,
        found: Lent<'a>,
        ready: Option<Bytes>,
        _line: &mut DrawLine,
    ) -> Result<Reply, NoMemory> {
        let page = part_of(alloc, &found.row().tags, self.page.limit as usize, &ready)?;
        Ok(Reply::Tags(page))
    }
}
