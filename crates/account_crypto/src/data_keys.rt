// Data keys: GenerateDataKey and GenerateDataKeyWithoutPlaintext.
ghost use Rattle.std.specs.Prelude.{◌≡◌, ◌≤◌};
ghost use Rattle.account_crypto.specs.DataKeyForms.{data_key_action, has_recipient};
ghost use Rattle.account_crypto.specs.Crypto.{generates_data_key};

use crate::crypto::{draw, seal};
use account_rows::Lent;
use account_steps::{
    Named, Questions, Reads, Request, Stop, Uses, View, key_of, of_context, other_kind, refuse,
    unsupported,
};
use draw_lines::DrawLine;
use hmac_keys::KeyKind;
use kms_json::{DataKey, Reply, Unsupported};
use kms_names::{Action, Bytes, NoMemory, Text};
use std::alloc::Global;

// The most bytes of a data key.
const LONGEST: usize = 1024;

/// What a data key is given as.
#[derive(Clone, Copy)]
pub enum DataKeyForm {
    /// In plaintext and sealed; `recipient` says whether a recipient is given.
    Plaintext { recipient: bool },
    /// Sealed alone.
    Sealed,
}

impl DataKeyForm {
    // What the call is named.
    fn action(self) -> Action
        ensures { result ≡ data_key_action self }
    {
        match self {
            DataKeyForm::Plaintext { .. } => Action::GenerateDataKey,
            DataKeyForm::Sealed => Action::GenerateDataKeyWithoutPlaintext,
        }
    }

    // Whether a recipient is given.
    fn has_recipient(self) -> bool
        ensures { result ≡ has_recipient self }
    {
        match self {
            DataKeyForm::Plaintext { recipient } => recipient,
            DataKeyForm::Sealed => false,
        }
    }
}

/// GenerateDataKey and GenerateDataKeyWithoutPlaintext: a data key of 1 to 1,024 bytes.
#[derive(Drop)]
pub struct GeneratingDataKey<'a> {
    /// What its steps go by.
    pub view: &'a View<'a>,
    /// What it asks.
    pub request: &'a DataKey,
    /// What the data key is given as.
    pub form: DataKeyForm,
    ghost some: { 1 ≤ request.now.size },
    ghost short: { request.now.size ≤ 1024 },
}

impl<'a> GeneratingDataKey<'a> {
    ghost use Rattle.std.specs.Prelude.{IfOk, length, None};
    ghost use Rattle.account_steps.specs.Places.{places_of, line_at, IsLineOf};
    ghost use Rattle.account_steps.specs.Parts.{after, spent};
    ghost use Rattle.account_steps.specs.Steps.{draws};
    ghost use Rattle.account_crypto.specs.Crypto.{sealed_key, words_and_iv};

    // What a data key uses.
    fn words_and_iv(&self) -> Uses
        ensures { result ≡ words_and_iv self.now.request.now.size }
    {
        Uses {
            words: self.request.size.div_ceil(4),
            ivs: 1,
        }
    }

    // Draws the data key into a room of its size, and seals it.
    fn seal(
        &self,
        alloc: Global,
        lent: &Lent<'a>,
        room: &mut [u8],
        line: &mut DrawLine,
    ) -> Result<Bytes, NoMemory>
        requires line { IsLineOf self.now.view.now.facts line.old }
        requires places { self.now.view.now.places ≡ places_of line.old }
        requires left { spent (places_of line.old) (words_and_iv self.now.request.now.size) ≡ None }
        requires size { length room.old ≡ self.now.request.now.size }
        ensures blob { IfOk result (λ b. b ≡ sealed_key self.now.view.now self.now.request.now lent.now) }
        ensures room { room.new ≡ draws self.now.view.now.facts self.now.request.now.size self.now.view.now.places }
        ensures used { line.new ≡ line_at line.old (after (places_of line.old) (words_and_iv self.now.request.now.size)) }
    {
        draw(line, room);
        seal(alloc, self.view, lent, &self.request.context, room, line)
    }
}

impl<'a> Request for GeneratingDataKey<'a> {
    type Found = Named<'a>;

    type Ready = ();

    ghost seen = { λ op. op.view.now };

    ghost parts = { λ op. (generates_data_key op.view.now op.request.now op.form).parts };

    fn view(&self) -> &View<'_> {
        self.view
    }

    fn find(&self, alloc: Global) -> Result<Named<'a>, Stop> {
        key_of(alloc, self.view, &self.request.key_id)
    }

    fn questions<'q>(&'q self, found: &'q Named<'a>) -> Questions<'q> {
        let row = found.row.row();
        let said = of_context(self.view, row, &found.alias, &self.request.context);
        Questions::on_key(self.form.action(), &found.row, said)
    }

    fn tokens(&self) -> &[Text] {
        self.request.grant_tokens.as_slice()
    }

    fn fit(&self, alloc: Global, found: &Named<'a>) -> Result<(), Stop> {
        self.view.fit(alloc, self.form.action(), &found.row)
    }

    fn own(&self, _alloc: Global, found: &Named<'a>) -> Result<(), Stop> {
        refuse(other_kind(KeyKind::Symmetric, found.row.row().kind))?;
        refuse(unsupported(self.form.has_recipient(), Unsupported::Recipient))
    }

    fn dry_run(&self) -> bool {
        self.request.dry_run
    }
}

impl<'a> Reads for GeneratingDataKey<'a> {
    ghost takes = { λ op. (generates_data_key op.view.now op.request.now op.form).takes };

    fn uses(&self) -> Uses {
        self.words_and_iv()
    }

    fn serve(
        &self,
        alloc: Global,
        found: Named<'a>,
        _ready: (),
        line: &mut DrawLine,
    ) -> Result<Reply, NoMemory> {
        let arn = self.view.arn(alloc, &found.row.row().key)?;
        let mut room = [0; LONGEST];
        let plain = &mut room[..self.request.size as usize];
        let blob = self.seal(alloc, &found.row, plain, line)?;
        match self.form {
            DataKeyForm::Plaintext { .. } => Ok(Reply::DataKey {
                blob,
                plaintext: Bytes::from_slice(alloc, plain)?,
                arn,
            }),
            DataKeyForm::Sealed => Ok(Reply::SealedDataKey { blob, arn }),
        }
    }
}
