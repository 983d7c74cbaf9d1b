// The last waves of a seam for C and Rust: the state is the words of `Waves`, and is written where a call moves it. A
// refusal leaves everything as it was.
#![tactic(auto)]

ghost use Rattle.std.specs.Prelude.{◌≡◌};
ghost use Rattle.settings.specs.Refusal.{number_in};
ghost use Rattle.waves.specs.Wave.{wave};
ghost use Rattle.wave_calls.specs.Answers.{start_number, start_left, wave_number, wave_left, wave_side, wave_halves, ask_number, extremes_half_ticks, extremes_ticks, half_ticks_left, ticks_left};

use layout::UNFIT;
use settings::refusal::Refusal;
use waves::{Extremes, Waves};

#[tactic(auto, unfolding(settings::specs::Refusal::answer, calls::specs::Answers::left, crate::specs::Answers::start_number, crate::specs::Answers::start_left))]
pub fn start(n: u64, words: &mut [u64; 66]) -> u32
    ensures number { result ≡ start_number n }
    ensures words { words.new ≡ start_left n words.old }
{
    let started = Waves::start(n);
    match started.refusal {
        Some(refusal) => refusal.number(),
        None => {
            let waves = started.waves;
            let first = waves.words;
            *words = first;
            0
        }
    }
}

pub fn hand_in(
    words: &mut [u64; 66],
    left: u64,
    left_faulty: bool,
    right: u64,
    right_faulty: bool,
    side: &mut u32,
    halves: &mut [f64; 2],
) -> u32
    ensures number { result ≡ wave_number words.old (wave left left_faulty right right_faulty) }
    ensures words { words.new ≡ wave_left words.old (wave left left_faulty right right_faulty) }
    ensures side { side.new ≡ wave_side words.old (wave left left_faulty right right_faulty) side.old }
    ensures halves { halves.new ≡ wave_halves words.old (wave left left_faulty right right_faulty) halves.old }
{
    let waves = Waves { words: *words };
    if waves.fits() {
        let handed = waves.hand_in(left, left_faulty, right, right_faulty);
        let moved = handed.waves;
        let after = moved.words;
        *words = after;
        return calls::seam_left(handed.seam, side, halves);
    }
    UNFIT
}

pub fn ask(words: &[u64; 66], half_ticks: &mut [i64; 2], ticks: &mut [f64; 2]) -> u32
    ensures number { result ≡ ask_number words.now }
    ensures half_ticks { half_ticks.new ≡ half_ticks_left words.now half_ticks.old }
    ensures ticks { ticks.new ≡ ticks_left words.now ticks.old }
{
    let waves = Waves { words: *words };
    if waves.fits() {
        return extremes_left(waves.ask(), half_ticks, ticks);
    }
    UNFIT
}

// The largest and the smallest, in half ticks and in ticks.
#[tactic(auto, unfolding(settings::specs::Refusal::number_in, calls::specs::Answers::left, crate::specs::Answers::extremes_half_ticks, crate::specs::Answers::extremes_ticks))]
fn extremes_left(
    extremes: Result<Extremes, Refusal>,
    half_ticks: &mut [i64; 2],
    ticks: &mut [f64; 2],
) -> u32
    ensures number { result ≡ number_in extremes }
    ensures half_ticks { half_ticks.new ≡ extremes_half_ticks extremes half_ticks.old }
    ensures ticks { ticks.new ≡ extremes_ticks extremes ticks.old }
{
    match extremes {
        Ok(Extremes { largest, smallest }) => {
            *half_ticks = [largest.half_ticks, smallest.half_ticks];
            *ticks = [largest.ticks, smallest.ticks];
            0
        }
        Err(refusal) => refusal.number(),
    }
}
