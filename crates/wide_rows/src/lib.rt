// The first wide seam of a row: in the order of the printed lines, the first that is closed and whose half gap
// is over a limit. `first_wide` is an operation: it answers every input.
#![tactic(auto)]

ghost use Rattle.std.specs.Prelude.{◌≡◌, List, ℕ, ◌≤◌, ◌<◌, length};
ghost use Rattle.columns.specs.Marks.{mark_bytes};
ghost use Rattle.wide.specs.Wide.{if_over, are_narrow, seam_first, rest_first, row_first, first_wide};

use columns::marked;
use places::seams::{left, other_lengths, right};
use seam::{LATEST, Seam};
use settings::Settings;
use settings::refusal::Refusal;
use wide::Wide;

// Of a row's W times and its marks; the limit is in half ticks.
pub fn first_wide(
    settings: Settings,
    times: &[u64],
    marks: &[u8],
    limit: u64,
) -> Result<Option<Wide>, Refusal>
    ensures { result ≡ first_wide settings times.now marks.now limit }
{
    settings.check()?;
    let width = settings.width;
    if other_lengths(width as usize, times.len(), marks.len()) {
        return Err(Refusal::Lengths);
    }
    along(times, marks, limit)
}

// Goes from seam to seam until one is wide or turned away, past those that are narrow at once.
fn along(times: &[u64], marks: &[u8], limit: u64) -> Result<Option<Wide>, Refusal>
    requires { (6 ≤ length times.now) × (length times.now ≤ 256) × (length marks.now ≡ mark_bytes (length times.now)) }
    ensures { result ≡ row_first limit (length times.now) times.now marks.now }
{
    let width = times.len() as u64;
    let mut i = 0;
    // A `while`: it goes on by as many seams as are passed at once.
    while i <= width {
        i = passed(times, limit, i as usize) as u64;
        let a = left(width, i) as usize;
        let b = right(width, i) as usize;
        match seam_first(times, marks, limit, a, b)? {
            Some(wide) => {
                return Ok(Some(wide));
            }
            None => {
                i += 1;
            }
        }
    }
    Ok(None)
}

// The first seam from i on that its times alone don't show to be narrow, of those between a column and the next; i where it is
// none of these, and the seam behind them where all are.
fn passed(times: &[u64], limit: u64, i: usize) -> usize
    requires { (6 ≤ length times.now) × (length times.now ≤ 256) × (i ≤ length times.now) }
    ensures within { (i ≤ result) × (result ≤ length times.now) }
    ensures same { (marks : List ℕ) → rest_first limit (length times.now) times.now marks i ≡ rest_first limit (length times.now) times.now marks result }
{
    if i < 2 {
        return i;
    }
    let last = times.len() - 1;
    let mut left = times[i - 1];
    for at in i..last {
        let right = times[at];
        if !narrow(left, right, limit) {
            return at;
        }
        left = right;
    }
    i.max(last)
}

// Whether two times are in time and no more than the limit apart.
fn narrow(left: u64, right: u64, limit: u64) -> bool
    ensures { result ≡ are_narrow limit left right }
{
    left.max(right) <= LATEST && left.abs_diff(right) <= limit
}

// The seam of two columns. Its marks are looked at only where its times alone don't show it to be narrow.
fn seam_first(
    times: &[u64],
    marks: &[u8],
    limit: u64,
    a: usize,
    b: usize,
) -> Result<Option<Wide>, Refusal>
    requires { (length marks.now ≡ mark_bytes (length times.now)) × (a < length times.now) × (b < length times.now) × (length times.now ≤ 256) }
    ensures { result ≡ seam_first limit times.now marks.now a b }
{
    let left = times[a];
    let right = times[b];
    if narrow(left, right, limit) {
        return Ok(None);
    }
    let half_ticks = left.abs_diff(right);
    let left_faulty = marked(marks, a);
    let right_faulty = marked(marks, b);
    match seam::join(left, left_faulty, right, right_faulty)? {
        Seam::Closed(_) => Ok(over(limit, a as u64, b as u64, half_ticks)),
        Seam::Open(_) => Ok(None),
    }
}

// A closed seam.
fn over(limit: u64, left: u64, right: u64, half_ticks: u64) -> Option<Wide>
    ensures { result ≡ if_over limit left right half_ticks }
{
    if half_ticks <= limit {
        return None;
    }
    Some(Wide {
        left,
        right,
        half_ticks,
    })
}
