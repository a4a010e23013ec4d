// Texts in parts.
ghost use Rattle.std.specs.Prelude.{◌≡◌, ◌<◌, ◌≤◌, ◌∷◌, [], ℕ, List, length, take, drop, MatchOption, option_map};
ghost use Rattle.kms_names.specs.Reading.{after_front};
ghost use Rattle.std.specs.List.{position};
ghost use Rattle.sigv4_check.specs.Parts.{is_byte, parts_at, skip_spaces as spaces_skipped};

fn place_of(text: &[u8], mark: u8) -> Option<usize>
    ensures { result ≡ position (is_byte mark) text.now }
{
    text.iter().position(|byte| *byte == mark)
}

/// What stands from a place on.
pub fn behind(text: &[u8], place: usize) -> &[u8]
    requires { place ≤ length text.now }
    ensures { result.now ≡ drop place text.now }
{
    &text[place..]
}

/// What stands before and behind the first of a mark.
pub fn cut_at(text: &[u8], mark: u8) -> Option<(&[u8], &[u8])>
    ensures { MatchOption result (parts_at mark text.now ≡ text.now ∷ []) (λ cut. (parts_at mark text.now ≡ cut.0.now ∷ parts_at mark cut.1.now) × (length cut.1.now < length text.now)) }
{
    let place = place_of(text, mark)?;
    Some((&text[..place], behind(text, place + 1)))
}

/// What follows a front.
pub fn after<'a>(text: &'a [u8], front: &[u8]) -> Option<&'a [u8]>
    ensures { option_map (λ rest. rest.now) result ≡ after_front front.now text.now }
{
    text.strip_prefix(front)
}

/// The text without the spaces at its front.
pub fn skip_spaces(text: &[u8]) -> &[u8]
    ensures { result.now ≡ spaces_skipped text.now }
{
    let mut rest = text;
    while let Some((b' ', others)) = rest.split_first() {
        rest = others;
    }
    rest
}

/// What stands before the first of a mark, or the whole text.
pub fn first_part(text: &[u8], mark: u8) -> &[u8]
    ensures { (more : List (List ℕ)) × (parts_at mark text.now ≡ result.now ∷ more) }
{
    match cut_at(text, mark) {
        Some((first, _)) => first,
        None => text,
    }
}

/// The first bytes of a text, at most so many.
pub fn front(text: &[u8], most: usize) -> &[u8]
    ensures { result.now ≡ take most text.now }
{
    &text[..text.len().min(most)]
}
