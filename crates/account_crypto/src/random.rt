// GenerateRandom.
ghost use Rattle.std.specs.Prelude.{◌≤◌};
ghost use Rattle.account_crypto.specs.Crypto.{generates_random};

use crate::crypto::draw;
use account_steps::{
    Asking, Questions, Reads, Request, Stop, Uses, View, of_none, refuse, unsupported,
};
use draw_lines::DrawLine;
use kms_json::{Reply, Unsupported};
use kms_names::{Action, Bytes, NoMemory, Text};
use std::alloc::Global;

// The most bytes that are drawn at once.
const LONGEST: usize = 1024;

/// GenerateRandom of 1 to 1,024 bytes.
#[derive(Drop)]
pub struct GeneratingRandom<'a> {
    /// What its steps go by.
    pub view: &'a View<'a>,
    /// How many bytes.
    pub size: u64,
    /// Whether a custom key store is given.
    pub custom_key_store: bool,
    /// Whether a recipient is given.
    pub recipient: bool,
    ghost some: { 1 ≤ size },
    ghost short: { size ≤ 1024 },
}

impl<'a> Request for GeneratingRandom<'a> {
    type Found = ();

    type Ready = ();

    ghost seen = { λ op. op.view.now };

    ghost parts = { λ op. (generates_random op.view.now op.size op.custom_key_store op.recipient).parts };

    fn view(&self) -> &View<'_> {
        self.view
    }

    fn find(&self, _alloc: Global) -> Result<(), Stop> {
        Ok(())
    }

    fn questions<'q>(&'q self, _found: &'q ()) -> Questions<'q> {
        let asking = Asking::OnAll {
            action: Action::GenerateRandom,
            said: of_none(),
        };
        asking.alone()
    }

    fn tokens(&self) -> &[Text] {
        &[]
    }

    fn fit(&self, _alloc: Global, _found: &()) -> Result<(), Stop> {
        Ok(())
    }

    fn own(&self, _alloc: Global, _found: &()) -> Result<(), Stop> {
        refuse(unsupported(self.custom_key_store, Unsupported::CustomKeyStoreId))?;
        refuse(unsupported(self.recipient, Unsupported::Recipient))
    }

    fn dry_run(&self) -> bool {
        false
    }
}

impl<'a> Reads for GeneratingRandom<'a> {
    ghost takes = { λ op. (generates_random op.view.now op.size op.custom_key_store op.recipient).takes };

    fn uses(&self) -> Uses {
        Uses {
            words: self.size.div_ceil(4),
            ivs: 0,
        }
    }

    fn serve(
        &self,
        alloc: Global,
        _found: (),
        _ready: (),
        line: &mut DrawLine,
    ) -> Result<Reply, NoMemory> {
        let mut room = [0; LONGEST];
        let drawn = &mut room[..self.size as usize];
        draw(line, drawn);
        let plaintext = Bytes::from_slice(alloc, drawn)?;
        Ok(Reply::Random { plaintext })
    }
}
