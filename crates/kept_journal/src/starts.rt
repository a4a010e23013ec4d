// The boot number of the next start.
ghost use Rattle.std.specs.Prelude.{◌≡◌, ◌≤◌, ◌^◌, IfSome, MatchOption};
ghost use Rattle.kept_journal.specs.Starts.{start_after};

use crate::reading::{behind, start_in};
use journal_lines::cut_line;
use kept_log::whole;

/// The boot number of a start: above the last start, and no less than the least that is asked for and
/// than the seconds since 1970. `None` where it would be 2^32 or more.
pub fn next_start(last: u32, least: u32, seconds: u64) -> Option<u32>
    ensures { MatchOption result (2 ^ 32 ≤ start_after last least seconds) (λ number. number ≡ start_after last least seconds) }
{
    let number = (u64::from(last) + 1).max(u64::from(least).max(seconds));
    u32::try_from(number).ok()
}

// The number of the start that a line tells, by its front alone: its seal isn't looked at.
fn start_of(line: &[u8]) -> Option<u32> {
    let rest = behind(b"{\"start\":", line)?;
    let place = rest.iter().position(|&byte| byte == b',')?;
    start_in(&rest[..place])
}

// The highest number of a start in these lines, 0 where there is none.
fn highest_start(lines: &[u8]) -> u32 {
    let mut highest = 0;
    let mut rest = lines;
    while !rest.is_empty() {
        let (line, behind) = cut_line(rest);
        highest = start_of(line).unwrap_or(0).max(highest);
        rest = behind;
    }
    highest
}

/// The boot number for the next run on a file of these bytes: above each start that its whole lines
/// show, and no less than the least that is asked for and than the seconds since 1970. `None` where it
/// would be 2^32 or more. Seals aren't looked at: `read_kept` refuses a file whose last start isn't
/// below this number.
pub fn next_boot(bytes: &[u8], least: u32, seconds: u64) -> Option<u32>
    ensures { IfSome result (λ number. (least ≤ number) × (seconds ≤ number)) }
{
    next_start(highest_start(&bytes[..whole(bytes)]), least, seconds)
}
