// A closed wave's gap as a word of the state, and as a half gap: whole half ticks, and the floating number of the
// seam's record. A gap of g ticks is a half gap of g half ticks.
ghost use Rattle.std.specs.Prelude.{◌≡◌, false, ◌≤◌};
ghost use Rattle.seam.specs.Seam.{latest};
ghost use Rattle.waves.specs.State.{word_of, no_gap};
ghost use Rattle.waves.specs.Ends.{half_gap_at};

#[derive(Clone, Copy)]
pub struct HalfGap {
    // Right less left, in half ticks.
    pub half_ticks: i64,
    // The same in ticks, as the seam's record holds it.
    pub ticks: f64,
}

// The word of a gap of 0.
const LEVEL: u64 = 2_199_023_255_552;

// The word of an open wave, and of none.
pub const OPEN: u64 = 0;

// A number over the word of any gap.
pub const OVER: u64 = 4_398_046_511_104;

// Of two checked times.
#[tactic(auto, unfolding(crate::specs::State::word_of))]
pub fn word(left: u64, right: u64) -> u64
    requires { (left ≤ latest) × (right ≤ latest) }
    ensures { result ≡ word_of left right }
{
    LEVEL + right - left
}

impl HalfGap {
    pub fn of(word: u64) -> HalfGap
        requires { no_gap word ≡ false }
        ensures { result ≡ half_gap_at word }
    {
        let gap = word as i64 - LEVEL as i64;
        let whole_gap = gap as f64;
        HalfGap {
            half_ticks: gap,
            ticks: whole_gap * 0.5,
        }
    }
}
