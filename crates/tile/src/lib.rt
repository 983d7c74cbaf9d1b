// One tile: P, the correction and the letter of what fixed P, from the stamps of its predecessors.
#![tactic(auto)]

ghost use Rattle.std.specs.Prelude.{◌≡◌, false, ◌≤◌, ◌<◌};
ghost use Rattle.settings.specs.Refusal.{answer};
ghost use Rattle.settings.specs.Settings.{settings_refusal, step_of};
ghost use Rattle.rule.specs.Stamp.{stamp_of, code_of, earliest, latest};
ghost use Rattle.rule.specs.Closed.{Forwardable};
ghost use Rattle.tile.specs.Tile.{late_at, stamp_at, neighbour_stamps, Readable, stamp_cause, tile_cause, answered, forwarded};

use rule::forwarding;
use rule::letter::Letter;
use settings::Settings;
use settings::refusal::Refusal;

// Two arrays and a count, as the requirements ask for; `PastCount` and `LateLimits` speak of the reading beside a mark of
// silence, which an Option would not hold.
#[derive(Clone, Copy)]
pub struct Stamps {
    // Own's stamp, then the neighbours'.
    pub at: [i64; 4],
    // Which of them are silent: their stamps are not read.
    pub silent: [bool; 4],
    // How many neighbours there are: 2 or 3. Places past them are not read.
    pub count: u32,
}

#[derive(Clone, Copy)]
pub struct Forwarded {
    pub p: i64,
    // Own's stamp less P, where own is heard.
    pub correction: Option<i64>,
    // What fixed P.
    pub letter: Letter,
}

impl Stamps {
    // The latest stamp that is accepted.
    pub const LATEST: i64 = forwarding::LATEST as i64;

    // That no stamp is late, and at most one silent.
    fn check(self) -> Result<(), Refusal>
        requires { self.count ≤ 3 }
        ensures { result ≡ answer (stamp_cause self) tt }
    {
        let mut silences: u32 = 0;
        for place in 0..self.count as usize + 1 {
            if self.late(place) {
                return Err(Refusal::Stamp);
            }
            silences += u32::from(self.silent[place]);
        }
        if 1 < silences {
            return Err(Refusal::Silences);
        }
        Ok(())
    }

    // Whether the stamp at a place is heard and is no reading up to the latest.
    fn late(self, place: usize) -> bool
        requires { place < 4 }
        ensures { result ≡ late_at self place }
    {
        let at = self.at[place];
        !self.silent[place] && (at < 0 || Self::LATEST < at)
    }

    // The stamp at a place, as the rule takes it.
    fn code(self, place: usize) -> u64
        requires { (place < 4) × (late_at self place ≡ false) }
        ensures { result ≡ code_of (stamp_at self place) }
    {
        if self.silent[place] {
            return forwarding::SILENT;
        }
        self.at[place] as u64
    }

    // The earliest and the latest of the neighbours' stamps.
    fn least(self) -> u64
        requires { Readable self }
        ensures { result ≡ code_of (earliest (neighbour_stamps self)) }
    {
        let two = self.code(1).min(self.code(2));
        if self.count == 2 {
            return two;
        }
        two.min(self.code(3))
    }

    fn most(self) -> u64
        requires { Readable self }
        ensures { result ≡ code_of (latest (neighbour_stamps self)) }
    {
        let two = self.code(1).max(self.code(2));
        if self.count == 2 {
            return two;
        }
        two.max(self.code(3))
    }
}

// A tile may be turned away for its settings, its neighbours' count, a late stamp or silences.
pub fn forward(settings: Settings, stamps: Stamps) -> Result<Forwarded, Refusal>
    ensures { result ≡ forwarded settings stamps }
{
    check(settings, stamps)?;
    Ok(answered(settings, stamps.code(0), stamps.least(), stamps.most()))
}

// That a tile is accepted.
#[tactic(auto, unfolding(settings::specs::Refusal::answer, settings::specs::Refusal::first, settings::specs::Refusal::or_else, settings::specs::Refusal::outside, crate::specs::Tile::stamp_cause, crate::specs::Tile::tile_cause, crate::specs::Tile::tile_tests))]
fn check(settings: Settings, stamps: Stamps) -> Result<(), Refusal>
    ensures { result ≡ answer (tile_cause settings stamps) tt }
{
    settings.check()?;
    if !(2..=3).contains(&stamps.count) {
        return Err(Refusal::Neighbours);
    }
    stamps.check()
}

// P, the correction and the letter, for checked settings and stamps.
fn answered(settings: Settings, own: u64, least: u64, most: u64) -> Forwarded
    requires settings_value { settings_refusal settings ≡ 0 }
    requires forwardable { Forwardable settings.unit (step_of settings) own least most }
    ensures { result ≡ answered settings (stamp_of own) (stamp_of least) (stamp_of most) }
{
    let fixed = forwarding::adopted(
        settings.unit,
        settings::step(settings.unit, settings.drift),
        own,
        least,
        most,
    );
    let p = fixed.p as i64;
    let letter = fixed.letter;
    if own == forwarding::SILENT {
        return Forwarded {
            p,
            correction: None,
            letter,
        };
    }
    let correction = Some(own as i64 - p);
    Forwarded {
        p,
        correction,
        letter,
    }
}
