//! The kinds of keys, and the texts that name them.

ghost use Rattle.std.specs.Prelude.{◌≡◌, IfOk, IsOk};
ghost use Rattle.hmac_keys.specs.Kind.{usage_text, spec_text, text_in};

use kms_names::NoMemory;

/// A kind of key.
#[derive(Clone, Copy, Debug, PartialEq, Eq)]
pub enum KeyKind {
    /// It encrypts and decrypts: usage `ENCRYPT_DECRYPT`, spec `SYMMETRIC_DEFAULT`.
    Symmetric,
    /// It makes MACs and verifies them by HMAC-SHA-256: usage `GENERATE_VERIFY_MAC`, spec `HMAC_256`.
    Hmac256,
}

impl KeyKind {
    /// All kinds.
    pub(crate) const ALL: [KeyKind; 2] = [KeyKind::Symmetric, KeyKind::Hmac256];

    /// A copy that equals its source. It never fails, and no memory is taken.
    pub fn copy(&self) -> Result<KeyKind, NoMemory>
        ensures same { IfOk result (λ kind. kind ≡ self.now) }
        ensures succeeds { IsOk result }
    {
        Ok(*self)
    }

    /// The usage of keys of this kind, as requests and replies have it in `KeyUsage`.
    pub fn usage_text(self) -> &'static str
        ensures { result.now ≡ usage_text self }
    {
        match self {
            KeyKind::Symmetric => "ENCRYPT_DECRYPT",
            KeyKind::Hmac256 => "GENERATE_VERIFY_MAC",
        }
    }

    /// The spec of keys of this kind, as requests and replies have it in `KeySpec` and in
    /// `CustomerMasterKeySpec`.
    pub fn spec_text(self) -> &'static str
        ensures { result.now ≡ spec_text self }
    {
        match self {
            KeyKind::Symmetric => "SYMMETRIC_DEFAULT",
            KeyKind::Hmac256 => "HMAC_256",
        }
    }
}

/// A field of a request that says of which kind a key is to be.
#[derive(Clone, Copy, Debug, PartialEq, Eq)]
pub enum KindField {
    /// The usage.
    KeyUsage,
    /// The spec, under its older name.
    CustomerMasterKeySpec,
    /// The spec.
    KeySpec,
}

impl KindField {
    /// A copy that equals its source. It never fails, and no memory is taken.
    pub fn copy(&self) -> Result<KindField, NoMemory>
        ensures same { IfOk result (λ field. field ≡ self.now) }
        ensures succeeds { IsOk result }
    {
        Ok(*self)
    }

    /// The text of a kind in this field.
    pub(crate) fn text_of(self, kind: KeyKind) -> &'static str
        ensures { result.now ≡ text_in self kind }
    {
        match self {
            KindField::KeyUsage => kind.usage_text(),
            KindField::CustomerMasterKeySpec | KindField::KeySpec => kind.spec_text(),
        }
    }
}

/// What a request says of the kind that a key is to have.
#[derive(Clone, Copy, Debug, PartialEq, Eq)]
pub enum KindRead {
    /// The kind.
    Kind(KeyKind),
    /// There is no such kind, for what this field says.
    Unsupported(KindField),
}

impl KindRead {
    /// A copy that equals its source. It never fails, and no memory is taken.
    pub fn copy(&self) -> Result<KindRead, NoMemory>
        ensures same { IfOk result (λ read. read ≡ self.now) }
        ensures succeeds { IsOk result }
    {
        Ok(*self)
    }
}
