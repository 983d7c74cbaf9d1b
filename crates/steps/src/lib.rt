// A wall file, step by step. Each step is given the part of the file that is due and the row that the last
// one left, writes the next row and answers the refusal, if any. `take` is an operation: it answers every input.
#![tactic(auto)]

mod row_step;
mod steps;

ghost use Rattle.std.specs.Prelude.{◌≡◌, true, ◌≤◌, length};
ghost use Rattle.row.specs.Row.{pulses};
ghost use Rattle.stages.specs.Fit.{wall_fits};
ghost use Rattle.steps.specs.Take.{Takes, StepTaken};

use settings::refusal::Refusal;
use stages::{Wall, fits};

// Why a part is turned away, and where in the file.
#[derive(Clone, Copy)]
pub struct RefusedAt {
    pub refusal: Refusal,
    pub offset: u64,
}

// Takes the part of the file that is due. `row` is the wall's last, W times; `next` is written with
// row 0 or the next row where that is accepted, `letters` with the letters of the next row. Where what is lent
// doesn't fit the wall nothing has changed, and the answer is None. A refusal ends the file: the wall is then Over.
pub fn take(
    wall: Wall,
    part: &[u8],
    row: &[u64],
    next: &mut [u64],
    letters: &mut [u8],
) -> Option<Result<Wall, RefusedAt>>
    ensures { Takes wall part.now row.now (pulses next.old letters.old) result (pulses next.new letters.new) }
{
    let mut links = row_fields::link_space();
    take_in(wall, part, row, &mut links, next, letters)
}

// The same with room for link values that is made once for all steps. A layer of its own, since
// `take_in_ensured` (file) speaks of its contract.
pub fn take_in(
    wall: Wall,
    part: &[u8],
    row: &[u64],
    links: &mut [u64],
    next: &mut [u64],
    letters: &mut [u8],
) -> Option<Result<Wall, RefusedAt>>
    requires { 770 ≤ length links.old }
    ensures { Takes wall part.now row.now (pulses next.old letters.old) result (pulses next.new letters.new) }
{
    if !fits(wall, row.len()) {
        return None;
    }
    if !fits(wall, next.len()) {
        return None;
    }
    if !fits(wall, letters.len()) {
        return None;
    }
    Some(take_fit(wall, part, row, links, next, letters))
}

// The same of rows that fit.
pub fn take_fit(
    wall: Wall,
    part: &[u8],
    row: &[u64],
    links: &mut [u64],
    next: &mut [u64],
    letters: &mut [u8],
) -> Result<Wall, RefusedAt>
    requires { (770 ≤ length links.old) × (wall_fits wall (length row.now) ≡ true) × (wall_fits wall (length next.old) ≡ true) × (wall_fits wall (length letters.old) ≡ true) }
    ensures { StepTaken wall part.now row.now (pulses next.old letters.old) result (pulses next.new letters.new) }
{
    match wall {
        Wall::New => steps::settings(part),
        Wall::Start(place) => steps::start(place, part, next),
        Wall::Row(place) => row_step::row(place, part, row, links, next, letters),
        Wall::End(place) => steps::end(place, part),
        Wall::Over => Ok(wall),
    }
}
