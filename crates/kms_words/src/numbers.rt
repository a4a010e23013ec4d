// Numbers among the words.
ghost use Rattle.std.specs.Prelude.{◌≡◌, ◌≤◌, option_map, IfSome};
ghost use Rattle.std.specs.List.{list_all};
ghost use Rattle.std.specs.Char.{is_ascii_digit};
ghost use Rattle.kms_names.specs.Digits.{is_decimal};
ghost use Rattle.kms_words.specs.Numbers.{number_within, number_or};

// The most digits of a number, leading zeros among them.
const DIGITS: usize = 20;

fn are_digits(text: &[u8]) -> bool
    ensures { result ≡ list_all is_ascii_digit text.now }
{
    text.iter().all(|byte| byte.is_ascii_digit())
}

// Whether a text is a number of 1 to 20 decimal digits.
fn is_number(text: &str) -> bool
    ensures { result ≡ is_decimal 20 text.now }
{
    !text.is_empty() && text.len() <= DIGITS && are_digits(text.as_bytes())
}

/// The number of 1 to 20 decimal digits that a text is, where it is within these bounds.
pub fn number_within(text: &str, least: u64, most: u64) -> Option<u64>
    ensures number { result ≡ number_within least most text.now }
    ensures bounds { IfSome result (λ number. (least ≤ number) × (number ≤ most)) }
{
    if !is_number(text) {
        return None;
    }
    match text.parse::<u64>() {
        Ok(number) if least <= number && number <= most => Some(number),
        _ => None,
    }
}

/// The same where a text is given, and else the usual number.
pub fn number_or(text: Option<&str>, usual: u64, least: u64, most: u64) -> Option<u64>
    requires least { least ≤ usual }
    requires most { usual ≤ most }
    ensures number { result ≡ number_or usual least most (option_map (λ text. text.now) text.entry) }
    ensures bounds { IfSome result (λ number. (least ≤ number) × (number ≤ most)) }
{
    match text {
        Some(text) => number_within(text, least, most),
        None => Some(usual),
    }
}
