// A tile's clock, in whole ticks and readings.
ghost use Rattle.std.specs.Prelude.{◌≡◌, ◌<◌, ◌^◌};
ghost use Rattle.rule.specs.Clock.{Admitted, reads, first_tick};

use settings::MILLION;

#[derive(Clone, Copy)]
pub struct Clock {
    // By how many parts per million it runs fast.
    pub drift: u64,
    // How far into a reading it starts, in millionths.
    pub phase: u64,
}

impl Clock {
    // Further in than this is a reading more.
    pub const PHASE_MOST: u64 = 999_999;

    // What it reads at a tick.
    pub fn reading(self, tick: u64) -> u64
        requires { Admitted self × (tick < 2 ^ 43) }
        ensures { result ≡ reads self.drift self.phase tick }
    {
        (tick * (MILLION + self.drift) + self.phase) / MILLION
    }

    // The first tick at which it reads at least v.
    pub fn first_tick(self, v: u64) -> u64
        requires { Admitted self × (0 < v) × (v < 2 ^ 43) }
        ensures { result ≡ first_tick self.drift self.phase v }
    {
        (v * MILLION - self.phase).div_ceil(MILLION + self.drift)
    }
}
