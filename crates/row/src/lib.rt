// One row of pulses and their letters, worked out from the row before it.
#![tactic(auto)]

mod progress;

ghost use Rattle.std.specs.Prelude.{◌≡◌, length};
ghost use Rattle.admission.specs.Call.{call};
ghost use Rattle.row.specs.Row.{planned, written, lettered};

use crate::progress::{Progress, further};
use settings::Settings;
use settings::refusal::Refusal;

// The earliest and latest time of a row that was written.
#[derive(Clone, Copy, Debug, PartialEq, Eq)]
pub struct Ends {
    pub earliest: u64,
    pub latest: u64,
}

// Writes the row's times and letters, from the times of the row before, its fault marks, and the drifts,
// phases and link values of the row. Rows that are turned away are left as they were.
pub fn plan(
    settings: Settings,
    before: &[u64],
    marks: &[u8],
    drifts: &[u32],
    phases: &[u32],
    links: &[u64],
    times: &mut [u64],
    letters: &mut [u8],
) -> Result<Ends, Refusal>
    ensures answer { result ≡ planned settings before.now (call marks.now drifts.now phases.now links.now (length times.old) (length letters.old)) }
    ensures row { times.new ≡ written settings before.now (call marks.now drifts.now phases.now links.now (length times.old) (length letters.old)) times.old }
    ensures letters { letters.new ≡ lettered settings before.now (call marks.now drifts.now phases.now links.now (length times.old) (length letters.old)) letters.old }
{
    admission::check(
        settings,
        before,
        marks,
        drifts,
        phases,
        links,
        times.len(),
        letters.len(),
    )?;
    let step = settings::step(settings.unit, settings.drift);
    let mut done = Progress::none();
    // Not a `for`: a plain stretch is passed over in one go.
    while done.next < times.len() {
        done = further(
            settings, step, before, marks, drifts, phases, links, times, letters, done,
        );
    }
    Ok(Ends {
        earliest: done.earliest,
        latest: done.latest,
    })
}
