// The largest and the smallest gap among words of the state.
ghost use Rattle.std.specs.Prelude.{◌≡◌};
ghost use Rattle.waves.specs.Ends.{with_word, told, ToldWords};

use crate::Extremes;
use crate::half_gap::{HalfGap, OPEN, OVER};
use settings::refusal::Refusal;

// No Option: `OPEN` is below the word of any gap and `OVER` above it, so one max and one min take in each word, the first too.
#[derive(Clone, Copy)]
pub struct Ends {
    // `OPEN` where there is no gap.
    pub largest: u64,
    // `OVER` where there is none.
    pub smallest: u64,
}

impl Ends {
    // Of no gap.
    pub const NONE: Ends = Ends {
        largest: OPEN,
        smallest: OVER,
    };

    // With one word more, which counts where it is a gap's.
    #[tactic(auto, unfolding(settings::specs::Refusal::outside, crate::specs::State::no_gap, crate::specs::Ends::with_word))]
    pub fn with(self, word: u64) -> Ends
        ensures { result ≡ with_word word self }
    {
        if word == OPEN || OVER <= word {
            return self;
        }
        Ends {
            largest: word.max(self.largest),
            smallest: word.min(self.smallest),
        }
    }

    pub fn told(self) -> Result<Extremes, Refusal>
        requires { ToldWords self }
        ensures { result ≡ told self }
    {
        if self.largest == OPEN {
            return Err(Refusal::NoGap);
        }
        Ok(Extremes {
            largest: HalfGap::of(self.largest),
            smallest: HalfGap::of(self.smallest),
        })
    }
}
