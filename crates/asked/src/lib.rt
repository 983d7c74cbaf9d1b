// What is asked of a wall file, and what a step tells of it.
#![tactic(auto)]

ghost use Rattle.std.specs.Prelude.{◌≡◌, true, ◌+◌, ◌≤◌, length, take};
ghost use Rattle.lines.specs.Row.{step_room};
ghost use Rattle.row.specs.Row.{pulses};
ghost use Rattle.stages.specs.Fit.{wall_fits};
ghost use Rattle.steps.specs.Step.{step_of};
ghost use Rattle.steps.specs.Take.{taken_of};
ghost use Rattle.told.specs.Telling.{Said};
ghost use Rattle.asked.specs.Asked.{HasTables, told_of};

use show::show;
use stages::Wall;
use steps::RefusedAt;
use told::Told;

#[derive(Clone, Copy)]
pub enum Asked {
    // The lines of every row.
    Lines,
    // How far one broken tile of each row can reach, and in the later rows asked for.
    Range,
    // The first closed seam whose half gap is over so many half ticks.
    Wide(u64),
}

// What a step brought: the row is the last before it, and the part is what it took. `given` is what the answer needs: for lines the
// tables that they are written from, for the range the rows asked for.
pub fn tell(
    asked: Asked,
    given: &[u64],
    wall: Wall,
    taken: Result<Wall, RefusedAt>,
    part: &[u8],
    row: &[u64],
    letters: &[u8],
    kept: u64,
    out: &mut [u8],
    at: usize,
) -> Told
    requires { HasTables asked given.now × (wall_fits wall (length row.now) ≡ true) × (wall_fits wall (length letters.now) ≡ true) × (taken ≡ taken_of (step_of wall (pulses row.now letters.now) part.now)) × (at + step_room ≤ length out.old) }
    ensures { Said (told_of asked (take 16 given.now) wall kept (pulses row.now letters.now) part.now) result out.old at out.new }
{
    match asked {
        Asked::Lines => {
            let end = show(given, wall, taken, part, row, letters, out, at);
            Told {
                wall: taken.unwrap_or(Wall::Over),
                kept,
                end,
            }
        }
        Asked::Range => telling::tell(given, wall, taken, part, row, kept, out, at),
        Asked::Wide(limit) => finding::tell(limit, wall, taken, part, row, kept, out, at),
    }
}
