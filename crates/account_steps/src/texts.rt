// Texts that are lent.
ghost use Rattle.std.specs.Prelude.{◌≡◌};

use kms_names::Text;
use std::marker::Model;

/// A text that is lent. Contracts see the text.
#[derive(Drop)]
pub struct LentText<'a> {
    text: &'a Text,
}

impl<'a> Model for LentText<'a> {
    ghost use Rattle.std.specs.Prelude.{ℕ, List};

    ghost Value = { List ℕ };

    ghost view = { λ lent. lent.text.now };
}

impl<'a> LentText<'a> {
    ghost use Rattle.std.specs.Prelude.{◌≡◌};

    /// The text, lent.
    pub fn new(text: &'a Text) -> LentText<'a>
        ensures { result ≡ text.now }
    {
        LentText { text }
    }

    /// The text.
    pub fn text(&self) -> &'a Text
        ensures { result.now ≡ self.now }
    {
        self.text
    }
}

/// A text that may be left out, lent.
pub fn lent_if_given<'a>(text: &'a Option<Text>) -> Option<LentText<'a>>
    ensures { result ≡ text.now }
{
    match text {
        Some(text) => Some(LentText::new(text)),
        None => None,
    }
}
