// What a step brought: nothing yet, a row's B and reach, a faulty tile, a refusal, or the largest reach.
#![tactic(auto)]

ghost use Rattle.std.specs.Prelude.{◌≡◌, true, ◌+◌, ◌≤◌, length, take, []};
ghost use Rattle.columns.specs.Marks.{mark_bytes};
ghost use Rattle.steps.specs.Step.{step_of};
ghost use Rattle.stages.specs.Fit.{place_fits, wall_fits};
ghost use Rattle.lines.specs.Row.{step_room};
ghost use Rattle.steps.specs.Take.{taken_of};
ghost use Rattle.row.specs.Row.{pulses};
ghost use Rattle.telling.specs.Telling.{first_marked, row_says, telling};
ghost use Rattle.told.specs.Telling.{Said};

use columns::marked;
use fields::body;
use lines::{line, refused_line};
use reach::survey::survey;
use search_lines::{largest_line, row_lines};
use stages::{Place, Wall};
use steps::RefusedAt;
use told::Told;

// The row is the last before the step, and the part is what the step took.
pub fn tell(
    asked: &[u64],
    wall: Wall,
    taken: Result<Wall, RefusedAt>,
    part: &[u8],
    row: &[u64],
    largest: u64,
    out: &mut [u8],
    at: usize,
) -> Told
    requires { (wall_fits wall (length row.now) ≡ true) × (taken ≡ taken_of (step_of wall (pulses row.now []) part.now)) × (at + step_room ≤ length out.old) }
    ensures { Said (telling (take 16 asked.now) wall largest row.now part.now) result out.old at out.new }
{
    let after = match taken {
        Ok(after) => after,
        Err(away) => {
            let number = u64::from(away.refusal.number());
            return Told {
                wall: Wall::Over,
                kept: largest,
                end: refused_line(number, away.offset, out, at),
            };
        }
    };
    match wall {
        Wall::Row(place) => {
            let bytes = (row.len() + 7) / 8;
            let marks = body(bytes, part);
            row_told(asked, place, after, marks, row, largest, out, at)
        }
        Wall::End(_) => Told {
            wall: after,
            kept: largest,
            end: largest_line(largest, out, at),
        },
        Wall::New | Wall::Start(_) | Wall::Over => Told {
            wall: after,
            kept: largest,
            end: at,
        },
    }
}

// A row whose marks are known. One with a faulty tile ends the search.
fn row_told(
    asked: &[u64],
    place: Place,
    after: Wall,
    marks: &[u8],
    row: &[u64],
    largest: u64,
    out: &mut [u8],
    at: usize,
) -> Told
    requires { (place_fits place (length row.now) ≡ true) × (length marks.now ≡ mark_bytes (length row.now)) × (at + step_room ≤ length out.old) }
    ensures { Said (row_says (take 16 asked.now) place after largest marks.now row.now) result out.old at out.new }
{
    let width = row.len();
    let column = first_marked(width, marks);
    if column < width {
        return Told {
            wall: Wall::Over,
            kept: largest,
            end: line(b"faulty", &[place.row, column as u64], out, at),
        };
    }
    match survey(place.settings, place.row, largest, row) {
        Ok(Some(surveyed)) => Told {
            wall: after,
            kept: surveyed.largest,
            end: row_lines(asked, place, surveyed.gap, out, at),
        },
        // No row of a wall file is outside it or turned away.
        Ok(None) => Told {
            wall: Wall::Over,
            kept: largest,
            end: at,
        },
        Err(_) => Told {
            wall: Wall::Over,
            kept: largest,
            end: at,
        },
    }
}

// The lowest marked column, or the width where there is none.
fn first_marked(width: usize, marks: &[u8]) -> usize
    requires { (width ≤ 256) × (length marks.now ≡ mark_bytes width) }
    ensures { result ≡ first_marked width marks.now }
{
    for c in 0..width {
        if marked(marks, c) {
            return c;
        }
    }
    width
}
