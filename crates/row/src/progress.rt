// A row as it is filled, from its first column on.
ghost use Rattle.std.specs.Prelude.{◌≡◌, ◌≤◌, ◌<◌, length, set};
ghost use Rattle.settings.specs.Settings.{step_of};
ghost use Rattle.admission.specs.Call.{call};
ghost use Rattle.admission.specs.Refusal.{row_refusal};
ghost use Rattle.rule.specs.Letter.{byte_of};
ghost use Rattle.row.specs.Row.{pulses};
ghost use Rattle.row.specs.Progress.{none_done, with_time, SoFar};

use columns::plain;
use pulse::{Pulsed, clock, correct, pulse};
use rule::forwarding::SILENT;
use settings::Settings;

#[derive(Clone, Copy)]
pub struct Progress {
    // The first column that is not yet written.
    pub next: usize,
    // The earliest and latest time before it.
    pub earliest: u64,
    pub latest: u64,
}

impl Progress {
    pub fn none() -> Self
        ensures { result ≡ none_done }
    {
        Self {
            next: 0,
            earliest: SILENT,
            latest: 0,
        }
    }

    // Writes the next column's time and letter, and takes the time into the earliest and the latest.
    fn put(self, pulsed: Pulsed, times: &mut [u64], letters: &mut [u8]) -> Self
        requires { (self.next < length times.old) × (length times.old ≤ 256) × (length letters.old ≡ length times.old) }
        ensures row { times.new ≡ set times.old self.next pulsed.time }
        ensures letters { letters.new ≡ set letters.old self.next (byte_of pulsed.letter) }
        ensures ends { result ≡ with_time self pulsed.time }
    {
        times[self.next] = pulsed.time;
        letters[self.next] = pulsed.letter.byte();
        Self {
            next: self.next + 1,
            earliest: self.earliest.min(pulsed.time),
            latest: self.latest.max(pulsed.time),
        }
    }
}

// One tile more, or as many as are plain: away from the ends, and with correct predecessors only.
pub fn further(
    settings: Settings,
    step: u64,
    before: &[u64],
    marks: &[u8],
    drifts: &[u32],
    phases: &[u32],
    links: &[u64],
    times: &mut [u64],
    letters: &mut [u8],
    done: Progress,
) -> Progress
    requires width_value { (row_refusal settings before.now (call marks.now drifts.now phases.now links.now settings.width settings.width) ≡ 0) × (step ≡ step_of settings) × (length times.old ≡ settings.width) × (length letters.old ≡ settings.width) × (done.next < settings.width) }
    requires so_far { SoFar settings before.now (call marks.now drifts.now phases.now links.now settings.width settings.width) (pulses times.old letters.old) (pulses times.old letters.old) done }
    ensures filled { SoFar settings before.now (call marks.now drifts.now phases.now links.now settings.width settings.width) (pulses times.old letters.old) (pulses times.new letters.new) result }
    ensures onward { done.next < result.next }
{
    let first = done.next;
    let count = plain(before.len(), marks, first);
    if count == 0 {
        let pulsed = pulse(settings, step, before, marks, drifts, phases, links, first);
        return done.put(pulsed, times, letters);
    }
    let mut so_far = done;
    for c in first..first + count {
        let clock = clock(drifts, phases, c);
        let pulsed = correct(settings, step, clock, before, links, c);
        so_far = so_far.put(pulsed, times, letters);
    }
    so_far
}
