// Numbers in decimal digits.
ghost use Rattle.std.specs.Prelude.{◌≡◌, ◌≤◌};
ghost use Rattle.std.specs.List.{list_all};
ghost use Rattle.std.specs.Char.{is_ascii_digit};
ghost use Rattle.kms_names.specs.Digits.{number_in};

fn are_digits(text: &[u8]) -> bool
    ensures { result ≡ list_all is_ascii_digit text.now }
{
    text.iter().all(|byte| byte.is_ascii_digit())
}

/// The number that `text` writes in 1 to `most` decimal digits, leading zeros among them; None for
/// any other text.
pub fn decimal(text: &[u8], most: usize) -> Option<u64>
    requires { most ≤ 18 }
    ensures { result ≡ number_in most text.now }
{
    if text.is_empty() || text.len() > most || !are_digits(text) {
        return None;
    }
    let mut number = 0;
    for digit in text {
        number = 10 * number + u64::from(*digit - b'0');
    }
    Some(number)
}
