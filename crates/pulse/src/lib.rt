// The pulse of one tile of an accepted row, and the letter of what fixed it.
#![tactic(auto)]

ghost use Rattle.std.specs.Prelude.{◌≡◌, ◌+◌, ◌≤◌, ◌<◌, length};
ghost use Rattle.settings.specs.Settings.{step_of};
ghost use Rattle.rule.specs.Clock.{Admitted};
ghost use Rattle.rule.specs.Closed.{Forwardable};
ghost use Rattle.admission.specs.Call.{call};
ghost use Rattle.pulse.specs.Pulse.{clock_of, pulsed_at};
ghost use Rattle.admission.specs.Refusal.{row_refusal};
ghost use Rattle.pulse.specs.Stampable.{Stampable, stamped};
ghost use Rattle.pulse.specs.Arranged.{arranged};
ghost use Rattle.pulse.specs.Pulsed.{pulsed};
ghost use Rattle.pulse.specs.Plain.{Receivable, Correct, received, correct_pulse};

use columns::{first_link, first_sender, four_senders, marked};
use rule::clock::Clock;
use rule::forwarding;
use rule::forwarding::SILENT;
use rule::letter::Letter;
use settings::Settings;

#[derive(Clone, Copy)]
pub struct Pulsed {
    pub time: u64,
    pub letter: Letter,
}

// By the window of the tile's predecessors, three or four.
pub fn pulse(
    settings: Settings,
    step: u64,
    before: &[u64],
    marks: &[u8],
    drifts: &[u32],
    phases: &[u32],
    links: &[u64],
    c: usize,
) -> Pulsed
    requires { (row_refusal settings before.now (call marks.now drifts.now phases.now links.now settings.width settings.width) ≡ 0) × (step ≡ step_of settings) × (c < settings.width) }
    ensures { result ≡ pulsed_at settings before.now (call marks.now drifts.now phases.now links.now settings.width settings.width) c }
{
    let width = settings.width as usize;
    let clock = clock(drifts, phases, c);
    let first = first_sender(width, c);
    let at = first_link(width, c);
    let x = stamp(clock, before, marks, links, first, at, 0);
    let y = stamp(clock, before, marks, links, first, at, 1);
    let z = stamp(clock, before, marks, links, first, at, 2);
    let (own, a, b) = own_first(c - first, x, y, z);
    if four_senders(width, c) {
        let d = stamp(clock, before, marks, links, first, at, 3);
        let least = a.min(b).min(d);
        let most = a.max(b).max(d);
        by_ends(settings, step, clock, own, least, most)
    } else {
        by_ends(settings, step, clock, own, a.min(b), a.max(b))
    }
}

// The clock of a tile.
pub fn clock(drifts: &[u32], phases: &[u32], c: usize) -> Clock
    requires { (c < length drifts.now) × (c < length phases.now) }
    ensures { result ≡ clock_of drifts.now phases.now c }
{
    Clock {
        drift: u64::from(drifts[c]),
        phase: u64::from(phases[c]),
    }
}

// Three adjacent predecessors' stamps, own's at the place: own's first, then the others' in their order.
fn own_first(place: usize, x: u64, y: u64, z: u64) -> (u64, u64, u64)
    ensures { arranged place (λ own a b. (result.0 ≡ own) × (result.1 ≡ a) × (result.2 ≡ b)) x y z }
{
    match place {
        0 => (x, y, z),
        1 => (y, x, z),
        _ => (z, x, y),
    }
}

// The stamp of what a sender's link brings, by the sender's place in the window, whose first column
// and first link are given. A faulty sender's time is not read.
fn stamp(
    clock: Clock,
    before: &[u64],
    marks: &[u8],
    links: &[u64],
    first: usize,
    at: usize,
    place: usize,
) -> u64
    requires { Stampable clock before.now marks.now links.now (first + place) (at + place) }
    ensures { result ≡ stamped clock before.now marks.now links.now (first + place) (at + place) }
{
    let sender = first + place;
    let link = at + place;
    if marked(marks, sender) {
        let arrival = links[link];
        if arrival == SILENT {
            return SILENT;
        }
        return clock.reading(arrival);
    }
    received(clock, before, links, sender, link)
}

// The stamp of a correct sender's pulse.
fn received(clock: Clock, before: &[u64], links: &[u64], sender: usize, at: usize) -> u64
    requires { Receivable clock before.now links.now sender at }
    ensures { result ≡ received clock before.now links.now sender at }
{
    clock.reading(before[sender] + links[at])
}

// The pulse of a tile away from the ends, of an accepted row, whose predecessors are correct.
pub fn correct(
    settings: Settings,
    step: u64,
    clock: Clock,
    before: &[u64],
    links: &[u64],
    c: usize,
) -> Pulsed
    requires { Correct settings step clock before.now links.now c }
    ensures { result ≡ correct_pulse settings step clock before.now links.now c }
{
    let at = 3 * c + 1;
    let a = received(clock, before, links, c - 1, at);
    let own = received(clock, before, links, c, at + 1);
    let b = received(clock, before, links, c + 1, at + 2);
    by_ends(settings, step, clock, own, a.min(b), a.max(b))
}

// By own's stamp and the earliest and latest of the neighbours'.
fn by_ends(settings: Settings, step: u64, clock: Clock, own: u64, least: u64, most: u64) -> Pulsed
    requires forwardable { Forwardable settings.unit step own least most }
    requires admitted { Admitted clock × (0 < settings.hold) × (settings.hold ≤ 1000000) }
    ensures { result ≡ pulsed settings step clock own least most }
{
    let fixed = forwarding::adopted(settings.unit, step, own, least, most);
    Pulsed {
        time: clock.first_tick(fixed.p + settings.hold),
        letter: fixed.letter,
    }
}
