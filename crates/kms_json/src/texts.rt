// The texts of replies, which grow a token at a time.
ghost use Rattle.std.specs.Prelude.{◌≡◌, [], ◌∷◌, ◌++◌, IfOk, OnOk, decimal};
ghost use Rattle.json.specs.Print.{print};
ghost use Rattle.json.specs.Token as token;

use json::Writer;
use kms_names::NoMemory;
use std::alloc::Global;
use std::marker::Model;

/// A JSON text as far as it is written, with no space between its tokens. Commas and colons come by
/// themselves. Contracts see it as the list of its tokens.
#[derive(Drop)]
pub struct JsonText {
    writer: Writer,
}

impl Model for JsonText {
    ghost use Rattle.std.specs.Prelude.{◌≡◌, List, []};
    ghost use Rattle.json.specs.Token.{Token, tokens_code};

    ghost Value = { List Token };

    ghost coded = { tokens_code };

    ghost view = { λ t. t.writer.tokens };

    ghost invariant = { λ t. t.writer.before ≡ [] };
}

impl JsonText {
    /// The empty text, with room for some bytes.
    pub fn new(alloc: Global, room: usize) -> Result<JsonText, NoMemory>
        ensures { IfOk result (λ t. t ≡ []) }
    {
        let writer = Writer::new(Vec::with_capacity(alloc, room)?);
        Ok(JsonText { writer })
    }

    /// The bytes of the text; no memory is taken.
    pub fn into_bytes(self) -> Vec<u8>
        ensures { result.items ≡ print self }
    {
        let JsonText { writer } = self;
        writer.into_inner()
    }

    /// Opens an object.
    pub fn begin_object(&mut self) -> Result<(), NoMemory>
        ensures { OnOk result (self.new ≡ self.old ++ token.begin_object ∷ []) }
    {
        Ok(self.writer.begin_object()?)
    }

    /// Closes an object.
    pub fn end_object(&mut self) -> Result<(), NoMemory>
        ensures { OnOk result (self.new ≡ self.old ++ token.end_object ∷ []) }
    {
        Ok(self.writer.end_object()?)
    }

    /// Opens a list.
    pub fn begin_array(&mut self) -> Result<(), NoMemory>
        ensures { OnOk result (self.new ≡ self.old ++ token.begin_array ∷ []) }
    {
        Ok(self.writer.begin_array()?)
    }

    /// Closes a list.
    pub fn end_array(&mut self) -> Result<(), NoMemory>
        ensures { OnOk result (self.new ≡ self.old ++ token.end_array ∷ []) }
    {
        Ok(self.writer.end_array()?)
    }

    /// The name of a member.
    pub fn key(&mut self, name: &str) -> Result<(), NoMemory>
        ensures { OnOk result (self.new ≡ self.old ++ token.key name.now ∷ []) }
    {
        Ok(self.writer.key(name)?)
    }

    /// A text.
    pub fn string(&mut self, text: &str) -> Result<(), NoMemory>
        ensures { OnOk result (self.new ≡ self.old ++ token.string text.now ∷ []) }
    {
        Ok(self.writer.string(text)?)
    }

    /// A number.
    pub fn number(&mut self, number: u64) -> Result<(), NoMemory>
        ensures { OnOk result (self.new ≡ self.old ++ token.number (decimal number) ∷ []) }
    {
        Ok(self.writer.u64(number)?)
    }

    /// A number as a text of its decimal digits.
    pub fn quoted_number(&mut self, number: u64) -> Result<(), NoMemory>
        ensures { OnOk result (self.new ≡ self.old ++ token.string (decimal number) ∷ []) }
    {
        Ok(self.writer.quoted_u64(number)?)
    }

    /// `true` or `false`.
    pub fn boolean(&mut self, flag: bool) -> Result<(), NoMemory>
        ensures { OnOk result (self.new ≡ self.old ++ token.boolean flag ∷ []) }
    {
        Ok(self.writer.boolean(flag)?)
    }
}
