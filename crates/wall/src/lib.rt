// A step of a wall file with its text: the lines of the row that is then shown, or of a refusal. `step` is an
// operation: it answers every input.
#![tactic(auto)]

ghost use Rattle.std.specs.Prelude.{◌≡◌, ◌+◌, ◌≤◌, leb, length, true};
ghost use Rattle.columns.specs.Wrote.{Wrote};
ghost use Rattle.lines.specs.Row.{step_room};
ghost use Rattle.row.specs.Row.{pulses};
ghost use Rattle.stages.specs.Fit.{width_of, wall_fits};
ghost use Rattle.steps.specs.Step.{step_of};
ghost use Rattle.steps.specs.Take.{taken_of};
ghost use Rattle.show.specs.Text.{texts_of};
ghost use Rattle.wall.specs.Operation.{accepted_row, Stepping};

use lines::ROOM;
use show::show;
use stages::{Wall, fits};
use steps::RefusedAt;

// The wall as a step leaves it, and where the text ends.
#[derive(Clone, Copy)]
pub struct Went {
    pub wall: Wall,
    pub end: usize,
}

// Takes the part of the file that is due. The row is the wall's, W times and W letters, and the next takes
// its place; the text goes into `out` from `at` on. None: what was lent does not fit the wall, and nothing has
// changed.
pub fn step(
    wall: Wall,
    part: &[u8],
    row: &mut [u64],
    letters: &mut [u8],
    out: &mut [u8],
    at: usize,
) -> Option<Went>
    ensures { Stepping wall part.now (pulses row.old letters.old) out.old at result (pulses row.new letters.new) out.new }
{
    if !has_room(out.len(), at) {
        return None;
    }
    let width = wall.width();
    let mut next = time_space();
    let mut next_letters = letter_space();
    step_in(
        wall,
        part,
        &mut next[..width],
        &mut next_letters[..width],
        row,
        letters,
        out,
        at,
    )
}

// With room for the next row and its letters, and for the text of any step.
fn step_in(
    wall: Wall,
    part: &[u8],
    next: &mut [u64],
    next_letters: &mut [u8],
    row: &mut [u64],
    letters: &mut [u8],
    out: &mut [u8],
    at: usize,
) -> Option<Went>
    requires { (length next.old ≡ width_of wall) × (length next_letters.old ≡ width_of wall) × (at + step_room ≤ length out.old) }
    ensures { Stepping wall part.now (pulses row.old letters.old) out.old at result (pulses row.new letters.new) out.new }
{
    if !fits(wall, letters.len()) {
        return None;
    }
    let taken = steps::take(wall, part, row, next, next_letters)?;
    let end = text(wall, taken, part, row, letters, out, at);
    match taken {
        Ok(after) => {
            replace(wall, next, next_letters, row, letters);
            Some(Went { wall: after, end })
        }
        Err(_) => Some(Went {
            wall: Wall::Over,
            end,
        }),
    }
}

// Writes the text of a step that was taken; answers where it ends.
fn text(
    wall: Wall,
    taken: Result<Wall, RefusedAt>,
    part: &[u8],
    row: &[u64],
    letters: &[u8],
    out: &mut [u8],
    at: usize,
) -> usize
    requires { (wall_fits wall (length row.now) ≡ true) × (wall_fits wall (length letters.now) ≡ true) × (at + step_room ≤ length out.old) × (taken ≡ taken_of (step_of wall (pulses row.now letters.now) part.now)) }
    ensures { Wrote out.old at (texts_of (step_of wall (pulses row.now letters.now) part.now).shows) out.new result }
{
    let mut tables = tables::space();
    tables::fill(&mut tables);
    show(&tables, wall, taken, part, row, letters, out, at)
}

// The next row takes the place of the last: row 0, which has no letters, or a later row.
fn replace(wall: Wall, next: &[u64], next_letters: &[u8], row: &mut [u64], letters: &mut [u8])
    requires { (wall_fits wall (length row.old) ≡ true) × (wall_fits wall (length letters.old) ≡ true) × (length next.now ≡ width_of wall) × (length next_letters.now ≡ width_of wall) }
    ensures { pulses row.new letters.new ≡ accepted_row wall (pulses next.now next_letters.now) (pulses row.old letters.old) }
{
    match wall {
        Wall::New => {}
        Wall::Start(_) => row.copy_from_slice(next),
        Wall::Row(_) => {
            row.copy_from_slice(next);
            letters.copy_from_slice(next_letters);
        }
        Wall::End(_) => {}
        Wall::Over => {}
    }
}

fn time_space() -> [u64; 256]
    ensures { 256 ≡ length result }
{
    [0; 256]
}

fn letter_space() -> [u8; 256]
    ensures { 256 ≡ length result }
{
    [0; 256]
}

// Whether any step's text has room.
fn has_room(room: usize, at: usize) -> bool
    ensures { result ≡ leb (at + step_room) room }
{
    if room < ROOM {
        return false;
    }
    at <= room - ROOM
}
