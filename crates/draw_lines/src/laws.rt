//! Laws of lines. Each stands as the contract of a function that does nothing.

ghost use Rattle.draw_lines.specs.Laws.{OneLineRepeatsNoIv, LinesShareNoIv, DrawsKeepToTheirWords};

/// The vectors that a line gives at two counts below 2^48 differ.
pub fn one_line_repeats_no_iv()
    ensures { OneLineRepeatsNoIv }
{}

/// Two vectors of counts below 2^48 that are equal have the same boot, pass number and count. So lines
/// of different boots or pass numbers share none.
pub fn lines_share_no_iv()
    ensures { LinesShareNoIv }
{}

/// A draw has the bytes that were asked for, and each is a byte of one of the words that the draw
/// counts.
pub fn draws_keep_to_their_words()
    ensures { DrawsKeepToTheirWords }
{}
