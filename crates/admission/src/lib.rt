// When a row call is turned away. Each check goes over the whole row, so that the first refusal that
// applies anywhere is the one given: 21 to 26, with 53 before 26.
#![tactic(auto)]

ghost use Rattle.std.specs.Prelude.{◌≡◌, true, ◌*◌, ◌≤◌, ◌<◌, length};
ghost use Rattle.std.specs.Int.Count.{ones};
ghost use Rattle.settings.specs.Refusal.{any_below, answer};
ghost use Rattle.columns.specs.Columns.{predecessors};
ghost use Rattle.admission.specs.Call.{call};
ghost use Rattle.links.specs.Links.{latest_time};
ghost use Rattle.columns.specs.Marks.{marked, mark_bytes, faulty_among};
ghost use Rattle.admission.specs.Together.{AllBy};
ghost use Rattle.admission.specs.Refusal.{stray_mark, late_time, crowded, over, row_cause};

use columns::{first_sender, four_senders, marked, quiet};
use links::{LATEST, any_bad_links};
use rule::clock::Clock;
use settings::Settings;
use settings::refusal::Refusal;

// Why a row call is turned away, if it is.
pub fn check(
    settings: Settings,
    before: &[u64],
    marks: &[u8],
    drifts: &[u32],
    phases: &[u32],
    links: &[u64],
    room: usize,
    letters: usize,
) -> Result<(), Refusal>
    ensures { result ≡ answer (row_cause settings before.now (call marks.now drifts.now phases.now links.now room letters)) tt }
{
    settings.check()?;
    let width = settings.width as usize;
    if before.len() != width
        || marks.len() != width.div_ceil(8)
        || drifts.len() != width
        || phases.len() != width
        || links.len() != 3 * width + 2
        || room != width
        || letters != width
    {
        return Err(Refusal::Lengths);
    }
    if stray_mark(width, marks) {
        return Err(Refusal::StrayMark);
    }
    if late_time(before, marks) {
        return Err(Refusal::LateTime);
    }
    if crowded(width, marks) {
        return Err(Refusal::Crowded);
    }
    if any_over(settings.drift, drifts) {
        return Err(Refusal::TileDrift);
    }
    if any_over(Clock::PHASE_MOST, phases) {
        return Err(Refusal::Phase);
    }
    if any_bad_links(settings, width, marks, links) {
        return Err(Refusal::Link);
    }
    Ok(())
}

// 22: a mark past the last column.
fn stray_mark(width: usize, marks: &[u8]) -> bool
    requires { (width ≤ 256) × (length marks.now ≡ mark_bytes width) }
    ensures { result ≡ any_below (8 * mark_bytes width) (stray_mark width marks.now) }
{
    for c in width..8 * marks.len() {
        if marked(marks, c) {
            return true;
        }
    }
    false
}

// 23: a correct tile's time that is too late.
fn late_time(before: &[u64], marks: &[u8]) -> bool
    requires { length marks.now ≡ mark_bytes (length before.now) }
    ensures { result ≡ any_below (length before.now) (late_time before.now marks.now) }
{
    if all_on_time(before) {
        return false;
    }
    for (c, time) in before.iter().enumerate() {
        if LATEST < *time && !marked(marks, c) {
            return true;
        }
    }
    false
}

// Whether no time is too late, a faulty tile's neither: none has a bit that the latest lacks.
fn all_on_time(before: &[u64]) -> bool
    ensures { result ≡ true → AllBy latest_time before.now }
{
    let mut bits = 0;
    for time in before {
        bits |= *time;
    }
    bits <= LATEST
}

// 24: a tile with two faulty predecessors. The tiles of a quiet byte of marks have none.
fn crowded(width: usize, marks: &[u8]) -> bool
    requires { (6 ≤ width) × (width ≤ 256) × (length marks.now ≡ mark_bytes width) }
    ensures { result ≡ any_below width (crowded width marks.now) }
{
    for byte in 0..marks.len() {
        let first = 8 * byte;
        if !quiet(width, marks, first) {
            for c in first..width.min(first + 8) {
                if 1 < gathered(width, marks, c).count_ones() {
                    return true;
                }
            }
        }
    }
    false
}

// The marks of a tile's predecessors, gathered into a byte.
fn gathered(width: usize, marks: &[u8], c: usize) -> u8
    requires { (6 ≤ width) × (width ≤ 256) × (c < width) × (length marks.now ≡ mark_bytes width) }
    ensures { ones result ≡ faulty_among marks.now (predecessors width c) }
{
    let k = first_sender(width, c);
    let three = (u8::from(marked(marks, k)) * 2 + u8::from(marked(marks, k + 1))) * 2
        + u8::from(marked(marks, k + 2));
    if four_senders(width, c) {
        three * 2 + u8::from(marked(marks, k + 3))
    } else {
        three
    }
}

// 25 and 53: a drift or a phase over its limit.
fn any_over(limit: u64, values: &[u32]) -> bool
    ensures { result ≡ any_below (length values.now) (over limit values.now) }
{
    let mut most: u32 = 0;
    for value in values {
        most = most.max(*value);
    }
    limit < u64::from(most)
}
