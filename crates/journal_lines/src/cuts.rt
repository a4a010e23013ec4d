// Texts cut into lines, and numbers in them.
ghost use Rattle.std.specs.Prelude.{◌≡◌, ◌≤◌, ◌++◌, length, decimal, OnOk, option_map};
ghost use Rattle.journal_lines.specs.Cuts.{place_of, first_line, behind_line, cut_at, number_of, number_before};

use itoa::Buffer;
use kms_names::NoMemory;

// How many bytes stand before the first such byte, or all of them.
fn place_of(stop: u8, text: &[u8]) -> usize
    ensures place { result ≡ place_of stop text.now }
    ensures bound { result ≤ length text.now }
{
    for (place, byte) in text.iter().enumerate() {
        if *byte == stop {
            return place;
        }
    }
    text.len()
}

/// The first line with its line feed, or the whole text where it has none, and what follows.
pub fn cut_line(text: &[u8]) -> (&[u8], &[u8])
    ensures line { result.0.now ≡ first_line text.now }
    ensures rest { result.1.now ≡ behind_line text.now }
{
    let place = place_of(b'\n', text);
    if place < text.len() {
        (&text[..place + 1], &text[place + 1..])
    } else {
        (text, &[])
    }
}

/// What stands before and behind the first such byte.
pub fn cut_at(stop: u8, text: &[u8]) -> Option<(&[u8], &[u8])>
    ensures { option_map (λ cut. (cut.0.now, cut.1.now)) result ≡ cut_at stop text.now }
{
    let place = place_of(stop, text);
    if place < text.len() {
        Some((&text[..place], &text[place + 1..]))
    } else {
        None
    }
}

// The number that these digits are, of 1 to 18, with no zero before others.
fn number_of(digits: &[u8]) -> Option<u64>
    ensures { result ≡ number_of digits.now }
{
    let number = kms_names::decimal(digits, 18)?;
    if Buffer::new().format(number).as_bytes() == digits {
        Some(number)
    } else {
        None
    }
}

/// The number before the first such byte, and what follows that byte.
pub fn number_before(stop: u8, text: &[u8]) -> Option<(u64, &[u8])>
    ensures { option_map (λ cut. (cut.0, cut.1.now)) result ≡ number_before stop text.now }
{
    let (digits, rest) = cut_at(stop, text)?;
    Some((number_of(digits)?, rest))
}

/// Writes a number in decimal behind what stands in a buffer.
pub fn append_number(text: &mut Vec<u8>, number: u64) -> Result<(), NoMemory>
    ensures { OnOk result (text.new.items ≡ text.old.items ++ decimal number) }
{
    text.extend_from_slice(Buffer::new().format(number).as_bytes())?;
    Ok(())
}
