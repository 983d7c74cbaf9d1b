// What a step brought where the first wide seam is asked for: that seam, a refusal, at the end of the file that there is none, or
// nothing yet.
#![tactic(auto)]

ghost use Rattle.std.specs.Prelude.{◌≡◌, true, [], ◌+◌, ◌≤◌, length};
ghost use Rattle.lines.specs.Row.{step_room};
ghost use Rattle.row.specs.Row.{pulses};
ghost use Rattle.stages.specs.Fit.{wall_fits};
ghost use Rattle.steps.specs.Step.{step_of};
ghost use Rattle.steps.specs.Take.{taken_of};
ghost use Rattle.told.specs.Telling.{Said};
ghost use Rattle.found.specs.Finding.{finding};
ghost use Rattle.finding.specs.Brought.{row_brought, step_brought, telling_of};

use lines::{line, refused_line};
use stages::{Place, Wall};
use steps::RefusedAt;
use told::Told;
use wide::Wide;
use wide_rows::first_wide;

// What an accepted part can bring: the first wide seam of the row that is then shown, or that there is none in all of the file.
#[derive(Clone, Copy)]
pub enum Brought {
    Wide { row: u64, seam: Wide },
    No,
}

// The row is the last before the step, and the part is what the step took. The number kept stays.
pub fn tell(
    limit: u64,
    wall: Wall,
    taken: Result<Wall, RefusedAt>,
    part: &[u8],
    row: &[u64],
    kept: u64,
    out: &mut [u8],
    at: usize,
) -> Told
    requires { (wall_fits wall (length row.now) ≡ true) × (taken ≡ taken_of (step_of wall (pulses row.now []) part.now)) × (at + step_room ≤ length out.old) }
    ensures { Said (finding limit wall kept row.now part.now) result out.old at out.new }
{
    match taken {
        Ok(after) => told(step_brought(limit, wall, part, row), after, kept, out, at),
        Err(away) => {
            let number = away.refusal.number() as u64;
            Told {
                wall: Wall::Over,
                kept,
                end: refused_line(number, away.offset, out, at),
            }
        }
    }
}

// What is told of it: the file is not read on once a wide seam is found.
fn told(brought: Option<Brought>, after: Wall, kept: u64, out: &mut [u8], at: usize) -> Told
    requires { at + step_room ≤ length out.old }
    ensures { Said (telling_of after kept brought) result out.old at out.new }
{
    match brought {
        Some(Brought::Wide { row, seam }) => Told {
            wall: Wall::Over,
            kept,
            end: line(
                b"wide",
                &[row, seam.left, seam.right, seam.half_ticks],
                out,
                at,
            ),
        },
        Some(Brought::No) => Told {
            wall: after,
            kept,
            end: line(b"no", &[], out, at),
        },
        None => Told {
            wall: after,
            kept,
            end: at,
        },
    }
}

// What a step brought whose part is accepted.
fn step_brought(limit: u64, wall: Wall, part: &[u8], row: &[u64]) -> Option<Brought>
    requires { wall_fits wall (length row.now) ≡ true }
    ensures { result ≡ step_brought limit wall row.now part.now }
{
    match wall {
        Wall::Row(place) => {
            let marks = fields::body((row.len() + 7) / 8, part);
            row_brought(limit, place, false, marks, row)
        }
        // The last row has no marks.
        Wall::End(place) => {
            let marks = [0u8; 32];
            let bytes = (row.len() + 7) / 8;
            row_brought(limit, place, true, &marks[..bytes], row)
        }
        Wall::New | Wall::Start(_) | Wall::Over => None,
    }
}

// What the row at a place brought; row 0 is not shown.
fn row_brought(limit: u64, place: Place, last: bool, marks: &[u8], row: &[u64]) -> Option<Brought>
    ensures { result ≡ row_brought limit place last marks.now row.now }
{
    let without = last.then_some(Brought::No);
    if place.row == 0 {
        return without;
    }
    match first_wide(place.settings, row, marks, limit) {
        Ok(Some(seam)) => Some(Brought::Wide {
            row: place.row,
            seam,
        }),
        Ok(None) => without,
        // No row of a wall file has a seam that is turned away.
        Err(_) => without,
    }
}
