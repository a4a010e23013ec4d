// Decrypt.
ghost use Rattle.account_crypto.specs.Crypto.{decrypts};

use account_steps::{
    Questions, Reads, Request, Sealed, Stop, Uses, View, find_source, of_context, refuse, unfit,
    unsupported,
};
use draw_lines::DrawLine;
use kms_json::{Decrypt, Reply, Unsupported};
use kms_names::{Action, Bytes, NoMemory, Text};
use std::alloc::Global;

/// Decrypt.
#[derive(Drop)]
pub struct Decrypting<'a> {
    /// What its steps go by.
    pub view: &'a View<'a>,
    /// What it asks.
    pub request: &'a Decrypt,
}

impl<'a> Request for Decrypting<'a> {
    type Found = Sealed<'a>;

    type Ready = Bytes;

    ghost seen = { λ op. op.view.now };

    ghost parts = { λ op. (decrypts op.view.now op.request.now).parts };

    fn view(&self) -> &View<'_> {
        self.view
    }

    fn find(&self, alloc: Global) -> Result<Sealed<'a>, Stop> {
        find_source(
            alloc,
            self.view,
            Action::Decrypt,
            &self.request.key_id,
            self.request.blob.as_slice(),
        )
    }

    fn questions<'q>(&'q self, found: &'q Sealed<'a>) -> Questions<'q> {
        let said = of_context(
            self.view,
            found.lent().row(),
            found.alias(),
            &self.request.context,
        );
        Questions::on_key(Action::Decrypt, found.lent(), said)
    }

    fn tokens(&self) -> &[Text] {
        self.request.grant_tokens.as_slice()
    }

    fn fit(&self, alloc: Global, found: &Sealed<'a>) -> Result<(), Stop> {
        self.view.fit(alloc, Action::Decrypt, found.lent())
    }

    fn own(&self, alloc: Global, found: &Sealed<'a>) -> Result<Bytes, Stop> {
        refuse(unfit(found.lent().row().kind, &self.request.algorithm))?;
        refuse(unsupported(self.request.recipient, Unsupported::Recipient))?;
        found.open(alloc, self.view, &self.request.context)
    }

    fn dry_run(&self) -> bool {
        self.request.dry_run
    }
}

impl<'a> Reads for Decrypting<'a> {
    ghost takes = { λ op. (decrypts op.view.now op.request.now).takes };

    fn uses(&self) -> Uses {
        Uses::NOTHING
    }

    fn serve(
        &self,
        alloc: Global,
        found: Sealed<'a>,
        ready: Bytes,
        _line: &mut DrawLine,
    ) -> Result<Reply, NoMemory> {
        let arn = self.view.arn(alloc, found.key())?;
        Ok(Reply::Decrypted {
            plaintext: ready,
            arn,
        })
    }
}
