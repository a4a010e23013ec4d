// Laws. Each function does nothing: its clause is what it is for.
ghost use Rattle.kept_journal.specs.Laws.{EntryLinesArePrintable, LaterIsHigher, StartsRise, RunsShareNoIv};

use draw_lines::lines_share_no_iv;

/// The line of an entry has no byte below 32 before its line feed, and so no tab and no line feed.
pub fn entry_lines_are_printable()
    ensures { EntryLinesArePrintable }
{}

/// Of two starts of one journal the later is higher.
pub fn later_starts_are_higher()
    ensures { LaterIsHigher }
{}

/// Of two runs on one file, the second on what a crash of the first may have left, the second has the
/// higher boot number.
pub fn starts_rise()
    ensures { StartsRise }
{}

/// No two initialization vectors of two such runs are equal.
pub fn runs_share_no_iv()
    ensures { RunsShareNoIv }
{
    lines_share_no_iv()
}
