// The steps that take the settings, row 0 and the end of the file.
ghost use Rattle.std.specs.Prelude.{◌≡◌, true, ◌≤◌, length};
ghost use Rattle.settings.specs.Refusal.{answer};
ghost use Rattle.row.specs.Row.{Pulses, pulses};
ghost use Rattle.fields.specs.Field.{body};
ghost use Rattle.contents.specs.Contents.{settings_in};
ghost use Rattle.steps.specs.Number.{settings_field_cause, start_cause};
ghost use Rattle.steps.specs.Step.{settings_step, start_step, end_step};
ghost use Rattle.stages.specs.Fit.{place_fits};
ghost use Rattle.steps.specs.Take.{taken_of, row_left};

use crate::RefusedAt;
use settings::Settings;
use settings::refusal::Refusal;
use stages::{Place, Wall};

pub fn settings(part: &[u8]) -> Result<Wall, RefusedAt>
    ensures { (row : Pulses) → result ≡ taken_of (settings_step row part.now) }
{
    let settings = settings_in(part).map_err(|refusal| RefusedAt { refusal, offset: 0 })?;
    Ok(Wall::Start(Place {
        settings,
        row: 0,
        offset: 27,
    }))
}

// The settings that tag 1 holds, or why they are turned away.
fn settings_in(part: &[u8]) -> Result<Settings, Refusal>
    ensures { result ≡ answer (settings_field_cause part.now) (settings_in (body 24 part.now)) }
{
    fields::check(1, 24, part)?;
    contents::settings(fields::body(24, part))
}

pub fn start(place: Place, part: &[u8], next: &mut [u64]) -> Result<Wall, RefusedAt>
    requires { place_fits place (length next.old) ≡ true }
    ensures taken { (row : Pulses) → result ≡ taken_of (start_step place.settings place.offset row part.now) }
    ensures row { (row : Pulses) → pulses next.new row.letters ≡ row_left (start_step place.settings place.offset row part.now) (pulses next.old row.letters) }
{
    let offset = place.offset;
    check_start(place, part).map_err(|refusal| RefusedAt { refusal, offset })?;
    let size = 8 * next.len();
    contents::times(fields::body(size, part), next);
    Ok(Wall::Row(Place {
        settings: place.settings,
        row: 0,
        offset: offset + (3 + size as u64),
    }))
}

// Whether row 0 is accepted.
fn check_start(place: Place, part: &[u8]) -> Result<(), Refusal>
    requires { place.settings.width ≤ 256 }
    ensures { result ≡ answer (start_cause place.settings part.now) tt }
{
    let width = place.settings.width as usize;
    fields::check(2, 8 * width, part)?;
    if contents::late_start(width, fields::body(8 * width, part)) {
        return Err(Refusal::LateStart);
    }
    Ok(())
}

pub fn end(place: Place, part: &[u8]) -> Result<Wall, RefusedAt>
    ensures { (row : Pulses) → result ≡ taken_of (end_step place.settings place.row place.offset row part.now) }
{
    if part.len() != 0 {
        return Err(RefusedAt {
            refusal: Refusal::GoesOn,
            offset: place.offset,
        });
    }
    Ok(Wall::Over)
}
