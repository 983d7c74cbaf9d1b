// The lines of a search: a word and numbers.
#![tactic(auto)]

ghost use Rattle.std.specs.Prelude.{◌+◌, ◌≤◌, length, take};
ghost use Rattle.columns.specs.Wrote.{Wrote};
ghost use Rattle.lines.specs.Row.{step_room};
ghost use Rattle.reach.specs.Search.{reach_in_row};
ghost use Rattle.search_lines.specs.Text.{largest_text, reach_text, gap_text};

use lines::{byte, line, spaced, word};
use reach::reach_in_row;
use stages::Place;

// The largest reach over the wall, the last line of a whole answer.
pub fn largest_line(largest: u64, out: &mut [u8], at: usize) -> usize
    requires { at + 64 ≤ length out.old }
    ensures { Wrote out.old at (largest_text largest) out.new result }
{
    let named = word(b"largest", out, at);
    let numbered = spaced(largest, out, named);
    let end = word(b" ticks", out, numbered);
    byte(b'\n', out, end)
}

// So many of the rows asked for count.
pub const ASKED_MOST: usize = 16;

// B of the row, and its reach in each later row that is asked for.
pub fn row_lines(asked: &[u64], place: Place, gap: u64, out: &mut [u8], at: usize) -> usize
    requires { at + step_room ≤ length out.old }
    ensures { Wrote out.old at (gap_text place.settings gap place.row (take 16 asked.now)) out.new result }
{
    let mut end = line(b"b", &[place.row, gap], out, at);
    for later in asked.iter().take(ASKED_MOST) {
        end = reach_line(place, gap, *later, out, end);
    }
    end
}

// The reach in a later row of the wall; any other row has no line.
fn reach_line(place: Place, gap: u64, later: u64, out: &mut [u8], at: usize) -> usize
    requires { at + 100 ≤ length out.old }
    ensures { Wrote out.old at (reach_text place.row later (reach_in_row place.settings gap place.row later 0)) out.new result }
{
    let settings = place.settings;
    match reach_in_row(settings, gap, place.row, later, 0) {
        Ok(Some(range)) => {
            let hops = later.saturating_sub(place.row);
            line(b"r", &[place.row, later, range.ticks, hops], out, at)
        }
        Ok(None) => at,
        Err(_) => at,
    }
}
