// GenerateMac and VerifyMac.
ghost use Rattle.std.specs.Prelude.{◌≡◌};
ghost use Rattle.account_crypto.specs.Crypto.{wrong_mac, generates_mac, verifies_mac};

use account_steps::{
    Named, Questions, Reads, Request, Stop, Uses, View, key_of, of_mac, refuse, unfit_mac,
};
use draw_lines::DrawLine;
use hmac_keys::{mac_of, verify_mac};
use key_states::KeyRow;
use kms_json::{GenerateMac, Refusal, Reply, VerifyMac};
use kms_names::{Action, Bytes, NoMemory, Text};
use std::alloc::Global;

/// GenerateMac.
#[derive(Drop)]
pub struct GeneratingMac<'a> {
    /// What its steps go by.
    pub view: &'a View<'a>,
    /// What it asks.
    pub request: &'a GenerateMac,
}

impl<'a> Request for GeneratingMac<'a> {
    type Found = Named<'a>;

    type Ready = ();

    ghost seen = { λ op. op.view.now };

    ghost parts = { λ op. (generates_mac op.view.now op.request.now).parts };

    fn view(&self) -> &View<'_> {
        self.view
    }

    fn find(&self, alloc: Global) -> Result<Named<'a>, Stop> {
        key_of(alloc, self.view, &self.request.key_id)
    }

    fn questions<'q>(&'q self, found: &'q Named<'a>) -> Questions<'q> {
        let row = found.row.row();
        let said = of_mac(self.view, row, &found.alias, &self.request.algorithm);
        Questions::on_key(Action::GenerateMac, &found.row, said)
    }

    fn tokens(&self) -> &[Text] {
        self.request.grant_tokens.as_slice()
    }

    fn fit(&self, alloc: Global, found: &Named<'a>) -> Result<(), Stop> {
        self.view.fit(alloc, Action::GenerateMac, &found.row)
    }

    fn own(&self, _alloc: Global, found: &Named<'a>) -> Result<(), Stop> {
        refuse(unfit_mac(found.row.row().kind, &self.request.algorithm))
    }

    fn dry_run(&self) -> bool {
        self.request.dry_run
    }
}

impl<'a> Reads for GeneratingMac<'a> {
    ghost takes = { λ op. (generates_mac op.view.now op.request.now).takes };

    fn uses(&self) -> Uses {
        Uses::NOTHING
    }

    fn serve(
        &self,
        alloc: Global,
        found: Named<'a>,
        _ready: (),
        _line: &mut DrawLine,
    ) -> Result<Reply, NoMemory> {
        let key = &found.row.row().key;
        let mac = mac_of(
            &self.view.facts().root,
            key,
            self.request.message.as_slice(),
        );
        let arn = self.view.arn(alloc, key)?;
        let mac = Bytes::from_slice(alloc, &mac)?;
        Ok(Reply::Mac { mac, arn })
    }
}

// The refusal of a MAC that isn't that of the message.
fn wrong_mac(view: &View<'_>, request: &VerifyMac, row: &KeyRow) -> Option<Refusal>
    ensures { result ≡ wrong_mac view.now request.now row.now }
{
    let message = request.message.as_slice();
    if verify_mac(
        &view.facts().root,
        &row.key,
        message,
        request.mac.as_slice(),
    ) {
        None
    } else {
        Some(Refusal::InvalidMac)
    }
}

/// VerifyMac.
#[derive(Drop)]
pub struct VerifyingMac<'a> {
    /// What its steps go by.
    pub view: &'a View<'a>,
    /// What it asks.
    pub request: &'a VerifyMac,
}

impl<'a> Request for VerifyingMac<'a> {
    type Found = Named<'a>;

    type Ready = ();

    ghost seen = { λ op. op.view.now };

    ghost parts = { λ op. (verifies_mac op.view.now op.request.now).parts };

    fn view(&self) -> &View<'_> {
        self.view
    }

    fn find(&self, alloc: Global) -> Result<Named<'a>, Stop> {
        key_of(alloc, self.view, &self.request.key_id)
    }

    fn questions<'q>(&'q self, found: &'q Named<'a>) -> Questions<'q> {
        let row = found.row.row();
        let said = of_mac(self.view, row, &found.alias, &self.request.algorithm);
        Questions::on_key(Action::VerifyMac, &found.row, said)
    }

    fn tokens(&self) -> &[Text] {
        self.request.grant_tokens.as_slice()
    }

    fn fit(&self, alloc: Global, found: &Named<'a>) -> Result<(), Stop> {
        self.view.fit(alloc, Action::VerifyMac, &found.row)
    }

    fn own(&self, _alloc: Global, found: &Named<'a>) -> Result<(), Stop> {
        let row = found.row.row();
        refuse(unfit_mac(row.kind, &self.request.algorithm))?;
        refuse(wrong_mac(self.view, self.request, row))
    }

    fn dry_run(&self) -> bool {
        self.request.dry_run
    }
}

impl<'a> Reads for VerifyingMac<'a> {
    ghost takes = { λ op. (verifies_mac op.view.now op.request.now).takes };

    fn uses(&self) -> Uses {
        Uses::NOTHING
    }

    fn serve(
        &self,
        alloc: Global,
        found: Named<'a>,
        _ready: (),
        _line: &mut DrawLine,
    ) -> Result<Reply, NoMemory> {
        let arn = self.view.arn(alloc, &found.row.row().key)?;
        Ok(Reply::MacValid { arn })
    }
}
