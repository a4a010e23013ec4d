//! How characters are compared.

ghost use Rattle.std.specs.Prelude.{◌≡◌, ◌==◌, ◌||◌, ◌≤◌, ℕ};
ghost use Rattle.glob_patterns.specs.Letters.{folded};

/// How characters are compared.
#[derive(Clone, Copy)]
pub enum Case {
    Exact,
    AsciiIgnored,
}

impl Case {
    /// A character as it is compared.
    pub fn fold(self, c: char) -> char
        ensures value { result ≡ folded self c }
        ensures again { folded self result ≡ result }
    {
        match self {
            Case::Exact => c,
            Case::AsciiIgnored => c.to_ascii_lowercase(),
        }
    }

    /// The other character that is compared as this one is, or itself.
    pub fn other(self, c: char) -> char
        requires { folded self c ≡ c }
        ensures value { (d : ℕ) → (folded self d == c) ≡ (d == c || d == result) }
        ensures below { result ≤ c }
    {
        match self {
            Case::Exact => c,
            Case::AsciiIgnored => c.to_ascii_uppercase(),
        }
    }
}
