// When a row call is turned away for a link value.
#![tactic(auto)]

ghost use Rattle.std.specs.Prelude.{◌≡◌, ◌+◌, ◌-◌, ◌*◌, ◌<◌, ◌≤◌, true, false, length};
ghost use Rattle.settings.specs.Refusal.{outside, any_below};
ghost use Rattle.settings.specs.Settings.{settings_refusal};
ghost use Rattle.columns.specs.Marks.{mark_bytes};
ghost use Rattle.links.specs.Links.{bad_value, bad_links, NeverBad};
ghost use Rattle.links.specs.Delays.{Delays, EightNeverBad};

use columns::{first_link, first_sender, four_senders, marked};
use rule::forwarding::SILENT;
use settings::Settings;

// The latest time of a correct tile, and the latest faulty arrival.
pub const LATEST: u64 = 1_099_511_627_775;

// 2^63 - 1, the largest number whose top bit is clear.
const TOP_CLEAR: u64 = u64::MAX / 2;

// A row's link values, and by what they are looked at.
#[derive(Clone, Copy)]
struct Row<'a> {
    settings: Settings,
    width: usize,
    marks: &'a [u8],
    links: &'a [u64],
    ghost checked: { settings_refusal settings ≡ 0 },
    ghost wide: { settings.width ≡ width },
    ghost marked: { length marks.now ≡ mark_bytes width },
    ghost linked: { length links.now ≡ 3 * width + 2 },
}

// 26: a tile with a link value that is out of range.
pub fn any_bad_links(settings: Settings, width: usize, marks: &[u8], links: &[u64]) -> bool
    requires { (settings_refusal settings ≡ 0) × (settings.width ≡ width) × (length marks.now ≡ mark_bytes width) × (length links.now ≡ 3 * width + 2) }
    ensures { result ≡ any_below width (bad_links settings marks.now links.now) }
{
    let row = Row {
        settings,
        width,
        marks,
        links,
    };
    row.any_bad()
}

impl Row<'_> {
    // Eight tiles at a time are looked at together, and one by one where that leaves it open.
    fn any_bad(&self) -> bool
        ensures { result ≡ any_below self.now.width (bad_links self.now.settings self.now.marks.now self.now.links.now) }
    {
        for c in (0..self.width).step_by(8) {
            if !self.eight_ordinary(c) && self.bad_before(c, (c + 8).min(self.width)) {
                return true;
            }
        }
        false
    }

    // Whether eight tiles away from the ends have values in the range of delays only. None of them is
    // bad then, whoever is faulty.
    fn eight_ordinary(&self, c: usize) -> bool
        requires { c < self.now.width }
        ensures { result ≡ true → EightNeverBad self.now.settings self.now.links.now c }
    {
        if c < 3 {
            return false;
        }
        if self.width < c + 11 {
            return false;
        }
        let shortest = self.settings.delay - self.settings.uncertainty;
        all_delays(shortest, self.settings.delay, self.links, 3 * c + 1)
    }

    // Whether a tile before a column has a link value that is out of range, where none before an
    // earlier column has.
    fn bad_before(&self, from: usize, end: usize) -> bool
        requires { (from ≤ end) × (end ≤ self.now.width) × (any_below from (bad_links self.now.settings self.now.marks.now self.now.links.now) ≡ false) }
        ensures { result ≡ any_below end (bad_links self.now.settings self.now.marks.now self.now.links.now) }
    {
        for c in from..end {
            if !self.ordinary(c) && self.bad_links(c) {
                return true;
            }
        }
        false
    }

    // Whether a tile away from the ends has three values in the range of delays. None of them is bad
    // then, whoever is faulty.
    fn ordinary(&self, c: usize) -> bool
        ensures { result ≡ true → NeverBad self.now.settings self.now.links.now c }
    {
        if c < 3 {
            return false;
        }
        if self.width - 3 <= c {
            return false;
        }
        let at = 3 * c + 1;
        if self.no_delay(self.links[at]) {
            return false;
        }
        if self.no_delay(self.links[at + 1]) {
            return false;
        }
        !self.no_delay(self.links[at + 2])
    }

    // Whether a link value of the tile is out of range.
    fn bad_links(&self, c: usize) -> bool
        requires { c < self.now.width }
        ensures { result ≡ bad_links self.now.settings self.now.marks.now self.now.links.now c }
    {
        let k = first_sender(self.width, c);
        let at = first_link(self.width, c);
        if self.bad_value(marked(self.marks, k), self.links[at]) {
            return true;
        }
        if self.bad_value(marked(self.marks, k + 1), self.links[at + 1]) {
            return true;
        }
        if self.bad_value(marked(self.marks, k + 2), self.links[at + 2]) {
            return true;
        }
        if four_senders(self.width, c) {
            return self.bad_value(marked(self.marks, k + 3), self.links[at + 3]);
        }
        false
    }

    // A delay outside its range, or a faulty arrival that is too late.
    fn bad_value(&self, faulty: bool, value: u64) -> bool
        ensures { result ≡ bad_value self.now.settings faulty value }
    {
        if faulty {
            return value != SILENT && LATEST < value;
        }
        self.no_delay(value)
    }

    // Whether a value is below the shortest delay or above the longest, by one test: below it the
    // difference wraps.
    fn no_delay(&self, value: u64) -> bool
        ensures { result ≡ outside (self.now.settings.delay - self.now.settings.uncertainty) self.now.settings.delay value }
    {
        let shortest = self.settings.delay - self.settings.uncertainty;
        self.settings.uncertainty < value.wrapping_sub(shortest)
    }
}

// Whether the values of eight tiles are all from the shortest delay to the longest. Where one is below
// or above, one of its two numbers has its top bit set; they are gathered to the end and tested once,
// so that several values are worked out at a time.
fn all_delays(shortest: u64, longest: u64, links: &[u64], from: usize) -> bool
    requires { (shortest ≤ longest) × (longest ≤ 1000000) × (from + 24 ≤ length links.now) }
    ensures { result ≡ true → Delays shortest longest links.now from }
{
    let room = TOP_CLEAR - longest;
    let mut bits: u64 = 0;
    for value in &links[from..from + 24] {
        bits |= value.wrapping_sub(shortest) | value.wrapping_add(room);
    }
    bits <= TOP_CLEAR
}
