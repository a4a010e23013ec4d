// Sealing and drawing by the line of a pass.
ghost use Rattle.std.specs.Prelude.{◌≡◌, ◌+◌, ◌^◌, ◌<◌, ◌≤◌, length, IfOk};
ghost use Rattle.draw_lines.specs.Draw.{words_for, draw_at};
ghost use Rattle.account_steps.specs.Places.{places_of, line_at, IsLineOf};
ghost use Rattle.account_steps.specs.Parts.{after};
ghost use Rattle.account_steps.specs.Steps.{seals};
ghost use Rattle.account_crypto.specs.Crypto.{one_iv, words_of};

use account_rows::Lent;
use account_steps::{Uses, View};
use crypto_ops::seal_blob;
use draw_lines::DrawLine;
use enc_context::Context;
use kms_names::{Bytes, NoMemory};
use std::alloc::Global;
use std::marker::Model;

/// What a sealing uses: one initialization vector.
pub const ONE_IV: Uses = Uses { words: 0, ivs: 1 };

/// Seals a text of 1 to 4,096 bytes, and takes an initialization vector for it.
pub fn seal(
    alloc: Global,
    view: &View<'_>,
    lent: &Lent<'_>,
    context: &Context,
    text: &[u8],
    line: &mut DrawLine,
) -> Result<Bytes, NoMemory>
    requires line { IsLineOf view.now.facts line.old }
    requires ivs { line.old.ivs < 2 ^ 48 }
    requires some { 1 ≤ length text.now }
    requires short { length text.now ≤ 4096 }
    ensures blob { IfOk result (λ b. b ≡ seals view.now.facts lent.now context.now text.now (places_of line.old)) }
    ensures used { line.new ≡ line_at line.old (after (places_of line.old) one_iv) }
{
    let iv = line.next_iv().unwrap();
    seal_blob(
        alloc,
        &view.facts().root,
        &lent.row().key,
        lent.newest_version(),
        &iv,
        context,
        text,
    )
}

/// Fills a room of at most 1,024 bytes with the next bytes of the line.
pub fn draw(line: &mut DrawLine, room: &mut [u8])
    requires short { length room.old ≤ 1024 }
    requires words { line.old.words + words_for (length room.old) ≤ 2 ^ 48 }
    ensures room { room.new ≡ draw_at line.old.seed line.old.words (length room.old) }
    ensures used { line.new ≡ line_at line.old (after (places_of line.old) (words_of (length room.old))) }
{
    let _ = line.draw(room);
}

/// A text that can be sealed: 1 to 4,096 bytes. Contracts see its bytes.
#[derive(Drop)]
pub struct Sealable {
    text: Bytes,
}

impl Model for Sealable {
    ghost use Rattle.std.specs.Prelude.{ℕ, List, length, ◌≤◌};

    ghost Value = { List ℕ };

    ghost view = { λ s. s.text };

    ghost invariant = { λ s. (1 ≤ length s.text) × (length s.text ≤ 4096) };
}

impl Sealable {
    ghost use Rattle.std.specs.Prelude.{◌≡◌, ◌≤◌, length};

    /// The text.
    pub fn new(text: Bytes) -> Sealable
        requires some { 1 ≤ length text }
        requires short { length text ≤ 4096 }
        ensures { result ≡ text }
    {
        Sealable { text }
    }

    /// Its bytes.
    pub fn as_slice(&self) -> &[u8]
        ensures text { result.now ≡ self.now }
        ensures some { 1 ≤ length self.now }
        ensures short { length self.now ≤ 4096 }
    {
        self.text.as_slice()
    }
}
