// Times near each other have their first digits in common, and only the last eight are worked out
// anew for each.
ghost use Rattle.std.specs.Prelude.{◌≡◌, ◌⊎◌, ◌<◌};
ghost use Rattle.tile_lines.specs.Near.{Serves, Right};

use tables::{short, short_length};

// Of the times from `low` on, `span` of them, the first `length` digits stand in `word`. The last
// `digits` are those of the time less `base`, of whose eight digits a shift drops the others.
#[derive(Clone, Copy)]
pub struct Near {
    pub low: u64,
    pub span: u64,
    pub base: u64,
    pub word: u64,
    pub length: usize,
    pub shift: u64,
    pub digits: usize,
}

impl Near {
    // Of no time.
    pub fn none() -> Near
        ensures { Right result × (result.span ≡ 0) }
    {
        Near {
            low: 0,
            span: 0,
            base: 0,
            word: 0,
            length: 0,
            shift: 0,
            digits: 0,
        }
    }

    // This where it serves a time, or what does; nothing for a time of more than twelve digits.
    pub fn to(self, time: u64) -> Near
        requires { Right self }
        ensures { Right result × ((result.span ≡ 0) ⊎ Serves result time) }
    {
        if self.low <= time && time - self.low < self.span {
            return self;
        }
        if time < 100_000_000 {
            return few_digits(time);
        }
        let high = time / 100_000_000;
        if 10_000 <= high {
            return Near::none();
        }
        let length = short_length(high) as usize - 1;
        let word = short(high);
        Near {
            low: high * 100_000_000,
            span: 100_000_000,
            base: high * 100_000_000,
            word,
            length,
            shift: 0,
            digits: 8,
        }
    }
}

// Of a time below 100,000,000: the times of as many digits.
fn few_digits(time: u64) -> Near
    requires { time < 100000000 }
    ensures { Right result × Serves result time }
{
    if time < 10 {
        return Near {
            low: 0,
            span: 10,
            base: 0,
            word: 0,
            length: 0,
            shift: 56,
            digits: 1,
        };
    }
    let power = time.ilog10();
    let low = 10u64.pow(power);
    let digits = power as usize + 1;
    Near {
        low,
        span: low * 9,
        base: 0,
        word: 0,
        length: 0,
        shift: 64 - 8 * digits as u64,
        digits,
    }
}
