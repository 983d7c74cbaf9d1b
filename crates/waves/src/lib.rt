// The last waves of one seam: their largest and smallest signed half gap. `start`, `hand_in` and `ask` are the
// operations: each answers every input, and takes and gives the state by value.
#![tactic(auto)]

mod ends;
pub mod half_gap;

ghost use Rattle.std.specs.Prelude.{◌≡◌, ◌≤◌, ◌<◌};
ghost use Rattle.waves.specs.Wave.{wave};
ghost use Rattle.waves.specs.State.{size, fits, put, following, started, handed, front, asked};
ghost use Rattle.waves.specs.Ends.{ends_of};

use ends::Ends;
use half_gap::{HalfGap, word};
use seam::Seam;
use settings::refusal::Refusal;

// The state of C, `polzaintu_waves` in bindings/c/polzaintu.h, word for word: so numbers, and no Option or Vec. Words 0 to 63 are
// places: 0 for an open wave or none, otherwise the gap in ticks and 2^41. The first n of them are in use. Word 64 is n, word 65 the
// place of the next wave, which is that of the oldest once n are held.
#[derive(Clone, Copy)]
pub struct Waves {
    pub words: [u64; 66],
}

// No Result: the contract speaks of the state of a start that is turned away, too.
#[derive(Clone, Copy)]
pub struct Started {
    // 51; the state then has no place.
    pub refusal: Option<Refusal>,
    pub waves: Waves,
}

#[derive(Clone, Copy)]
pub struct HandedIn {
    pub waves: Waves,
    pub seam: Result<Seam, Refusal>,
}

#[derive(Clone, Copy)]
pub struct Extremes {
    pub largest: HalfGap,
    pub smallest: HalfGap,
}

impl Waves {
    // The most waves that can be held.
    pub const MOST: u64 = 64;
    // The words of n and of the next place.
    const N: usize = 64;

    const NEXT: usize = 65;

    // The last n waves of a seam, and none so far.
    #[tactic(auto, unfolding(settings::specs::Refusal::outside, crate::specs::State::blank, crate::specs::State::started))]
    pub fn start(n: u64) -> Started
        ensures { result ≡ started n }
    {
        let mut words = [0; 66];
        if n < 1 || Waves::MOST < n {
            return Started {
                refusal: Some(Refusal::Waves),
                waves: Waves { words },
            };
        }
        words[Waves::N] = n;
        Started {
            refusal: None,
            waves: Waves { words },
        }
    }

    // Whether there are 1 to 64 places, and the next wave's is one of them.
    #[tactic(auto, unfolding(crate::specs::State::fits, crate::specs::State::size, crate::specs::State::next))]
    pub fn fits(self) -> bool
        ensures { result ≡ fits self }
    {
        let n = self.words[Waves::N];
        n <= Waves::MOST && self.words[Waves::NEXT] < n
    }

    // One wave more, as the seam operation takes it. One that it refuses leaves the state as it was, and so does any where the state
    // does not fit.
    pub fn hand_in(self, left: u64, left_faulty: bool, right: u64, right_faulty: bool) -> HandedIn
        ensures { result ≡ handed self (wave left left_faulty right right_faulty) }
    {
        let seam = seam::join(left, left_faulty, right, right_faulty);
        let waves = match seam {
            Ok(Seam::Closed(_)) => self.put(word(left, right)),
            Ok(Seam::Open(_)) => self.put(half_gap::OPEN),
            Err(_) => self,
        };
        HandedIn { waves, seam }
    }

    // The largest and the smallest half gap of the closed waves held. A state that does not fit holds none.
    pub fn ask(self) -> Result<Extremes, Refusal>
        ensures { result ≡ asked self }
    {
        if self.fits() {
            let ends = self.ends();
            return ends.told();
        }
        Err(Refusal::NoGap)
    }

    // The next place taken.
    fn put(self, word: u64) -> Waves
        ensures { result ≡ put self word }
    {
        if self.fits() {
            let n = self.words[Waves::N];
            let next = self.words[Waves::NEXT];
            let mut words = self.words;
            words[next as usize] = word;
            words[Waves::NEXT] = following(next, n);
            return Waves { words };
        }
        self
    }

    // The ends of the gaps held.
    #[tactic(auto, unfolding(crate::specs::State::size))]
    fn ends(self) -> Ends
        requires { size self ≤ 64 }
        ensures { result ≡ ends_of (front (size self) self.words) }
    {
        let n = self.words[Waves::N] as usize;
        let mut ends = Ends::NONE;
        let held = &self.words[..n];
        for word in held {
            ends = ends.with(*word);
        }
        ends
    }
}

// The place after a place, the first after the last.
fn following(place: u64, n: u64) -> u64
    requires { place < n }
    ensures { result ≡ following place n }
{
    (place + 1) % n
}
