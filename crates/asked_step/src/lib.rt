// A step of a wall file, and what it tells by what is asked.
#![tactic(auto)]

ghost use Rattle.std.specs.Prelude.{◌≡◌, ◌+◌, ◌≤◌, length, take};
ghost use Rattle.lines.specs.Row.{step_room};
ghost use Rattle.row.specs.Row.{pulses};
ghost use Rattle.stages.specs.Fit.{width_of};
ghost use Rattle.file.specs.Stands.{Stands};
ghost use Rattle.asked.specs.Asked.{HasTables, told_of, Tells};

use asked::{Asked, tell};
use stages::Wall;
use steps::take_fit;
use told::Told;

// Takes the part that is due and tells what that brought of the last row; the next takes its place. All rows are of the wall's width;
// `links` is room for link values, and `last` and `last_letters` for a copy of the last row.
pub fn step(
    asked: Asked,
    given: &[u64],
    wall: Wall,
    kept: u64,
    part: &[u8],
    links: &mut [u64],
    last: &mut [u64],
    last_letters: &mut [u8],
    row: &mut [u64],
    letters: &mut [u8],
    out: &mut [u8],
    at: usize,
) -> Told
    requires { HasTables asked given.now × Stands wall × (770 ≤ length links.old) × (length last.old ≡ width_of wall) × (length last_letters.old ≡ width_of wall) × (length row.old ≡ width_of wall) × (length letters.old ≡ width_of wall) × (length row.old ≤ 256) × (at + step_room ≤ length out.old) }
    ensures { Tells (told_of asked (take 16 given.now)) wall kept part.now (pulses row.old letters.old) out.old at result (pulses row.new letters.new) out.new }
{
    last.copy_from_slice(row);
    last_letters.copy_from_slice(letters);
    let taken = take_fit(wall, part, last, links, row, letters);
    tell(
        asked,
        given,
        wall,
        taken,
        part,
        last,
        last_letters,
        kept,
        out,
        at,
    )
}
