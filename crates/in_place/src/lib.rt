// A step that is taken in the place of the last row: the next row is written there, and the last is kept beside it.
#![tactic(auto)]

ghost use Rattle.std.specs.Prelude.{◌≡◌, true, ◌≤◌, length};
ghost use Rattle.row.specs.Row.{pulses};
ghost use Rattle.stages.specs.Fit.{wall_fits};
ghost use Rattle.in_place.specs.Replaced.{Replaces};

use stages::Wall;
use steps::{RefusedAt, take_fit};

// Takes the part of the file that is due. The row is the wall's; `last` and `last_letters` are room for a copy of it, `links` for link
// values.
pub fn replace(
    wall: Wall,
    part: &[u8],
    links: &mut [u64],
    last: &mut [u64],
    last_letters: &mut [u8],
    row: &mut [u64],
    letters: &mut [u8],
) -> Result<Wall, RefusedAt>
    requires { (770 ≤ length links.old) × (wall_fits wall (length row.old) ≡ true) × (wall_fits wall (length letters.old) ≡ true) × (length row.old ≡ length last.old) × (length letters.old ≡ length last_letters.old) × (length last.old ≤ 256) }
    ensures { Replaces wall part.now (pulses row.old letters.old) result (pulses last.new last_letters.new) (pulses row.new letters.new) }
{
    last.copy_from_slice(row);
    last_letters.copy_from_slice(letters);
    take_fit(wall, part, last, links, row, letters)
}
