// The step that takes a row: its marks and tiles, and the row operation.
ghost use Rattle.std.specs.Prelude.{◌≡◌, true, ◌+◌, ◌≤◌, length};
ghost use Rattle.row.specs.Row.{pulses};
ghost use Rattle.steps.specs.Step.{row_step, after_row};
ghost use Rattle.stages.specs.Fit.{place_fits};
ghost use Rattle.steps.specs.Take.{taken_of, row_left};

use crate::RefusedAt;
use row_fields::{plan, size};
use stages::{Place, Wall};

pub fn row(
    place: Place,
    part: &[u8],
    row: &[u64],
    links: &mut [u64],
    next: &mut [u64],
    letters: &mut [u8],
) -> Result<Wall, RefusedAt>
    requires { (place_fits place (length row.now) ≡ true) × (place_fits place (length next.old) ≡ true) × (place_fits place (length letters.old) ≡ true) × (770 ≤ length links.old) }
    ensures taken { result ≡ taken_of (row_step place.settings place.row place.offset (pulses row.now letters.old) part.now) }
    ensures row { pulses next.new letters.new ≡ row_left (row_step place.settings place.row place.offset (pulses row.now letters.old) part.now) (pulses next.old letters.old) }
{
    let width = row.len();
    let marks = (width + 7) / 8;
    let offset = place.offset;
    fields::check(3, marks, part).map_err(|refusal| RefusedAt { refusal, offset })?;
    let offset = offset + (3 + marks as u64);
    plan(place.settings, part, row, links, next, letters).map_err(|refusal| RefusedAt {
        refusal,
        offset,
    })?;
    Ok(after(place, size(width) as u64))
}

// What is due after a row of that many bytes.
fn after(place: Place, size: u64) -> Wall
    requires { (place.row ≤ 1024) × (place.offset + size ≤ 8589934592) }
    ensures { result ≡ after_row place.settings (place.row + 1) (place.offset + size) }
{
    let settings = place.settings;
    let row = place.row + 1;
    let offset = place.offset + size;
    if row < settings.rows {
        return Wall::Row(Place {
            settings,
            row,
            offset,
        });
    }
    Wall::End(Place {
        settings,
        row,
        offset,
    })
}
