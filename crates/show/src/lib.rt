// The text of a step: the line of a refusal, or the lines of the row that is then shown.
#![tactic(auto)]

ghost use Rattle.std.specs.Prelude.{◌≡◌, true, ◌+◌, ◌≤◌, length};
ghost use Rattle.columns.specs.Marks.{mark_bytes};
ghost use Rattle.tables.specs.Word.{Tables};
ghost use Rattle.columns.specs.Wrote.{Wrote};
ghost use Rattle.steps.specs.Shown.{row_shown, no_marks};
ghost use Rattle.row.specs.Row.{pulses};
ghost use Rattle.show.specs.Text.{texts_of};
ghost use Rattle.steps.specs.Step.{step_of};
ghost use Rattle.stages.specs.Fit.{place_fits, wall_fits};
ghost use Rattle.lines.specs.Row.{step_room};
ghost use Rattle.steps.specs.Take.{taken_of};

use stages::{Place, Wall};
use steps::RefusedAt;

// Writes the text of a step that was taken from the row lent, its times and letters; answers where the text ends.
pub fn show(
    tables: &[u64],
    wall: Wall,
    taken: Result<Wall, RefusedAt>,
    part: &[u8],
    row: &[u64],
    letters: &[u8],
    out: &mut [u8],
    at: usize,
) -> usize
    requires { Tables tables.now × (wall_fits wall (length row.now) ≡ true) × (wall_fits wall (length letters.now) ≡ true) × (at + step_room ≤ length out.old) × (taken ≡ taken_of (step_of wall (pulses row.now letters.now) part.now)) }
    ensures { Wrote out.old at (texts_of (step_of wall (pulses row.now letters.now) part.now).shows) out.new result }
{
    match taken {
        Ok(_) => match wall {
            Wall::New => at,
            Wall::Start(_) => at,
            Wall::Row(place) => {
                let marks = fields::body((row.len() + 7) / 8, part);
                lines(tables, place, marks, row, letters, out, at)
            }
            Wall::End(place) => last_lines(tables, place, row, letters, out, at),
            Wall::Over => at,
        },
        Err(refused) => {
            let number = u64::from(refused.refusal.number());
            lines::refused_line(number, refused.offset, out, at)
        }
    }
}

// The lines of the last row accepted; row 0 has none.
fn lines(
    tables: &[u64],
    place: Place,
    marks: &[u8],
    row: &[u64],
    letters: &[u8],
    out: &mut [u8],
    at: usize,
) -> usize
    requires { Tables tables.now × (place_fits place (length row.now) ≡ true) × (place_fits place (length letters.now) ≡ true) × (length marks.now ≡ mark_bytes (length row.now)) × (at + step_room ≤ length out.old) }
    ensures { Wrote out.old at (texts_of (row_shown place.settings place.row marks.now (pulses row.now letters.now))) out.new result }
{
    if place.row == 0 {
        return at;
    }
    text::row_lines(tables, row.len(), place.row, marks, row, letters, out, at)
}

// The same of row R, where all tiles are correct.
fn last_lines(
    tables: &[u64],
    place: Place,
    row: &[u64],
    letters: &[u8],
    out: &mut [u8],
    at: usize,
) -> usize
    requires { Tables tables.now × (place_fits place (length row.now) ≡ true) × (place_fits place (length letters.now) ≡ true) × (at + step_room ≤ length out.old) }
    ensures { Wrote out.old at (texts_of (row_shown place.settings place.row (no_marks place.settings.width) (pulses row.now letters.now))) out.new result }
{
    let marks = [0u8; 32];
    let bytes = (row.len() + 7) / 8;
    lines(tables, place, &marks[..bytes], row, letters, out, at)
}
