ghost use Rattle.std.specs.Prelude.{◌≡◌, ◌↔◌, IsTrue};
ghost use Rattle.kms_names.specs.Characters.{is_region_character};
ghost use Rattle.kms_names.specs.Region.{IsRegion};

fn is_region_byte(byte: u8) -> bool
    ensures { result ≡ is_region_character byte }
{
    byte.is_ascii_lowercase() || byte.is_ascii_digit() || byte == b'-'
}

/// Whether a text is a region: 1 to 32 lower-case letters, digits and `-`.
pub fn is_region(text: &str) -> bool
    ensures { IsTrue result ↔ IsRegion text.now }
{
    !text.is_empty() && text.len() <= 32 && text.bytes().all(is_region_byte)
}
