// ReEncrypt.
ghost use Rattle.account_crypto.specs.Crypto.{re_encrypts};

use crate::crypto::{ONE_IV, Sealable, seal};
use account_rows::same_key;
use account_steps::{
    Asking, Named, Questions, Reads, Request, Sealed, Stop, Uses, View, find_source, key_of,
    of_context, refuse, unfit,
};
use authority::Particulars;
use draw_lines::DrawLine;
use kms_json::{ReEncrypt, Reply};
use kms_names::{Action, NoMemory, Text};
use std::alloc::Global;

/// A sealed text, and the key that it is sealed under anew.
#[derive(Drop)]
pub struct Turning<'a> {
    /// The sealed text, with the key that it was sealed under.
    pub source: Sealed<'a>,
    /// The key that it is sealed under anew.
    pub to: Named<'a>,
}

impl Turning<'_> {
    ghost use Rattle.std.specs.Prelude.{◌≡◌};
    ghost use Rattle.account_crypto.specs.Crypto.{same_key};

    // Whether the text is sealed anew under the key that sealed it.
    fn turns_to_same(&self) -> bool
        ensures { result ≡ same_key self.now }
    {
        same_key(self.source.key(), &self.to.row.row().key)
    }
}

/// ReEncrypt.
#[derive(Drop)]
pub struct ReEncrypting<'a> {
    /// What its steps go by.
    pub view: &'a View<'a>,
    /// What it asks.
    pub request: &'a ReEncrypt,
}

impl<'a> ReEncrypting<'a> {
    ghost use Rattle.std.specs.Prelude.{◌≡◌};
    ghost use Rattle.account_crypto.specs.Crypto.{of_source, of_destination};

    // What the request says of the key that sealed the text.
    fn from<'b>(&'b self, found: &'b Turning<'a>) -> Particulars<'b>
        ensures { result ≡ of_source self.now.view.now self.now.request.now found.now }
    {
        let source = &found.source;
        Particulars {
            same_key: Some(found.turns_to_same()),
            ..of_context(
                self.view,
                source.lent().row(),
                source.alias(),
                &self.request.source_context,
            )
        }
    }

    // What it says of the key to seal it anew.
    fn to<'b>(&'b self, found: &'b Turning<'a>) -> Particulars<'b>
        ensures { result ≡ of_destination self.now.view.now self.now.request.now found.now }
    {
        let row = found.to.row.row();
        Particulars {
            same_key: Some(found.turns_to_same()),
            ..of_context(self.view, row, &found.to.alias, &self.request.context)
        }
    }
}

impl<'a> Request for ReEncrypting<'a> {
    type Found = Turning<'a>;

    type Ready = Sealable;

    ghost seen = { λ op. op.view.now };

    ghost parts = { λ op. (re_encrypts op.view.now op.request.now).parts };

    fn view(&self) -> &View<'_> {
        self.view
    }

    fn find(&self, alloc: Global) -> Result<Turning<'a>, Stop> {
        let source = find_source(
            alloc,
            self.view,
            Action::ReEncryptFrom,
            &self.request.source_key_id,
            self.request.blob.as_slice(),
        )?;
        let to = key_of(alloc, self.view, &self.request.key_id)?;
        Ok(Turning { source, to })
    }

    fn questions<'q>(&'q self, found: &'q Turning<'a>) -> Questions<'q> {
        let (source, to) = (found.source.lent(), &found.to.row);
        Questions {
            first: Asking::on_key(Action::ReEncryptFrom, source, self.from(found)),
            second: Some(Asking::on_key(Action::ReEncryptTo, to, self.to(found))),
            third: None,
        }
    }

    fn tokens(&self) -> &[Text] {
        self.request.grant_tokens.as_slice()
    }

    fn fit(&self, alloc: Global, found: &Turning<'a>) -> Result<(), Stop> {
        let view = self.view;
        view.fit(alloc, Action::ReEncryptFrom, found.source.lent())?;
        view.fit(alloc, Action::ReEncryptTo, &found.to.row)
    }

    fn own(&self, alloc: Global, found: &Turning<'a>) -> Result<Sealable, Stop> {
        let (source, to) = (found.source.lent().row(), found.to.row.row());
        refuse(unfit(source.kind, &self.request.source_algorithm))?;
        refuse(unfit(to.kind, &self.request.algorithm))?;
        let text = found
            .source
            .open(alloc, self.view, &self.request.source_context)?;
        Ok(Sealable::new(text))
    }

    fn dry_run(&self) -> bool {
        self.request.dry_run
    }
}

impl<'a> Reads for ReEncrypting<'a> {
    ghost takes = { λ op. (re_encrypts op.view.now op.request.now).takes };

    fn uses(&self) -> Uses {
        ONE_IV
    }

    fn serve(
        &self,
        alloc: Global,
        found: Turning<'a>,
        ready: Sealable,
        line: &mut DrawLine,
    ) -> Result<Reply, NoMemory> {
        let arn = self.view.arn(alloc, &found.to.row.row().key)?;
        let source_arn = self.view.arn(alloc, found.source.key())?;
        let blob = seal(
            alloc,
            self.view,
            &found.to.row,
            &self.request.context,
            ready.as_slice(),
            line,
        )?;
        Ok(Reply::ReEncrypted {
            blob,
            arn,
            source_arn,
        })
    }
}
