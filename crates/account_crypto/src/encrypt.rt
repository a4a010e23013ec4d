// Encrypt.
ghost use Rattle.std.specs.Prelude.{◌≤◌, length};
ghost use Rattle.account_crypto.specs.Crypto.{encrypts};

use crate::crypto::{ONE_IV, seal};
use account_steps::{
    Named, Questions, Reads, Request, Stop, Uses, View, key_of, of_context, refuse, unfit,
};
use draw_lines::DrawLine;
use kms_json::{Encrypt, Reply};
use kms_names::{Action, NoMemory, Text};
use std::alloc::Global;

/// Encrypt of a text of 1 to 4,096 bytes.
#[derive(Drop)]
pub struct Encrypting<'a> {
    /// What its steps go by.
    pub view: &'a View<'a>,
    /// What it asks.
    pub request: &'a Encrypt,
    ghost some: { 1 ≤ length request.now.plaintext },
    ghost short: { length request.now.plaintext ≤ 4096 },
}

impl<'a> Request for Encrypting<'a> {
    type Found = Named<'a>;

    type Ready = ();

    ghost seen = { λ op. op.view.now };

    ghost parts = { λ op. (encrypts op.view.now op.request.now).parts };

    fn view(&self) -> &View<'_> {
        self.view
    }

    fn find(&self, alloc: Global) -> Result<Named<'a>, Stop> {
        key_of(alloc, self.view, &self.request.key_id)
    }

    fn questions<'q>(&'q self, found: &'q Named<'a>) -> Questions<'q> {
        let row = found.row.row();
        let said = of_context(self.view, row, &found.alias, &self.request.context);
        Questions::on_key(Action::Encrypt, &found.row, said)
    }

    fn tokens(&self) -> &[Text] {
        self.request.grant_tokens.as_slice()
    }

    fn fit(&self, alloc: Global, found: &Named<'a>) -> Result<(), Stop> {
        self.view.fit(alloc, Action::Encrypt, &found.row)
    }

    fn own(&self, _alloc: Global, found: &Named<'a>) -> Result<(), Stop> {
        refuse(unfit(found.row.row().kind, &self.request.algorithm))
    }

    fn dry_run(&self) -> bool {
        self.request.dry_run
    }
}

impl<'a> Reads for Encrypting<'a> {
    ghost takes = { λ op. (encrypts op.view.now op.request.now).takes };

    fn uses(&self) -> Uses {
        ONE_IV
    }

    fn serve(
        &self,
        alloc: Global,
        found: Named<'a>,
        _ready: (),
        line: &mut DrawLine,
    ) -> Result<Reply, NoMemory> {
        let arn = self.view.arn(alloc, &found.row.row().key)?;
        let blob = seal(
            alloc,
            self.view,
            &found.row,
            &self.request.context,
            self.request.plaintext.as_slice(),
            line,
        )?;
        Ok(Reply::Encrypted { blob, arn })
    }
}
