// A wall's settings. `Settings::new` hands a record out only where it keeps every limit.
#![tactic(auto)]

pub mod refusal;

ghost use Rattle.std.specs.Prelude.{◌≡◌, ◌≤◌};
ghost use Rattle.settings.specs.Refusal.{outside, answer};
ghost use Rattle.settings.specs.Settings.{settings, settings_cause, checked, drift_cost, step};

use crate::refusal::Refusal;

// Drifts are counted in millionths.
pub const MILLION: u64 = 1_000_000;

#[derive(Clone, Copy)]
pub struct Settings {
    // W, the tiles of a row.
    pub width: u64,
    // R, the rows after row 0.
    pub rows: u64,
    // d, the longest delay of a link.
    pub delay: u64,
    // u, by how much a delay may be shorter.
    pub uncertainty: u64,
    // A, how long a tile holds a pulse.
    pub hold: u64,
    // r, the largest drift of a clock, in parts per million.
    pub drift: u64,
    // h, the unit of the rule.
    pub unit: u64,
}

impl Settings {
    pub const WIDTH_LEAST: u64 = 6;

    pub const WIDTH_MOST: u64 = 256;

    pub const ROWS_MOST: u64 = 1024;

    pub const DELAY_MOST: u64 = 1_000_000;

    pub const HOLD_MOST: u64 = 1_000_000;

    pub const DRIFT_MOST: u64 = 10_000;

    pub const UNIT_MOST: u64 = 62_500;
    // A hold is at least this many units.
    pub const UNITS_HELD: u64 = 16;

    #[tactic(auto, unfolding(crate::specs::Refusal::answer, crate::specs::Settings::checked, crate::specs::Settings::settings))]
    pub fn new(
        w: u64,
        rows: u64,
        d: u64,
        u: u64,
        a: u64,
        r: u64,
        h: u64,
    ) -> Result<Settings, Refusal>
        ensures { result ≡ checked (settings w rows d u a r h) }
    {
        let made = Settings {
            width: w,
            rows,
            delay: d,
            uncertainty: u,
            hold: a,
            drift: r,
            unit: h,
        };
        made.check()?;
        Ok(made)
    }

    // Whether these settings keep every limit: the first that they don't is why they are turned away.
    #[tactic(auto, unfolding(crate::specs::Refusal::answer, crate::specs::Refusal::first, crate::specs::Settings::settings_cause, crate::specs::Settings::settings_tests))]
    pub fn check(self) -> Result<(), Refusal>
        ensures { result ≡ answer (settings_cause self) tt }
    {
        if outside(Self::WIDTH_LEAST, Self::WIDTH_MOST, self.width) {
            return Err(Refusal::Width);
        }
        if outside(1, Self::ROWS_MOST, self.rows) {
            return Err(Refusal::Rows);
        }
        if outside(1, Self::DELAY_MOST, self.delay) {
            return Err(Refusal::Delay);
        }
        if outside(0, self.delay, self.uncertainty) {
            return Err(Refusal::Uncertainty);
        }
        if outside(1, Self::HOLD_MOST, self.hold) {
            return Err(Refusal::Hold);
        }
        if outside(0, Self::DRIFT_MOST, self.drift) {
            return Err(Refusal::Drift);
        }
        if outside(1, Self::UNIT_MOST, self.unit) {
            return Err(Refusal::Unit);
        }
        if self.unit < self.uncertainty + drift_cost(self.drift, self.hold) + 2 {
            return Err(Refusal::UnitCost);
        }
        if self.hold < Self::UNITS_HELD * self.unit {
            return Err(Refusal::UnitsHeld);
        }
        Ok(())
    }
}

// c, what drift costs a hold, in ticks.
fn drift_cost(r: u64, a: u64) -> u64
    requires { (r ≤ 10000) × (a ≤ 1000000) }
    ensures { result ≡ drift_cost r a }
{
    (r * a).div_ceil(MILLION + r)
}

// J, the step of the rule, for a checked unit and drift.
pub fn step(h: u64, r: u64) -> u64
    requires { (h ≤ 62500) × (r ≤ 10000) }
    ensures { result ≡ step h r }
{
    2 * h + (2 * h * r).div_ceil(MILLION)
}

#[tactic(auto, unfolding(crate::specs::Refusal::outside))]
fn outside(low: u64, high: u64, v: u64) -> bool
    ensures { result ≡ outside low high v }
{
    !(low..=high).contains(&v)
}
