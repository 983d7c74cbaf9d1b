// The tile as it runs, for C and Rust: the state is the words of `polzaintu_board` in bindings/c/polzaintu.h, and is
// written where a call moves it. A refusal leaves everything as it was.
#![tactic(auto)]

ghost use Rattle.std.specs.Prelude.{◌≡◌};
ghost use Rattle.board_calls.specs.Words.{stage_in, stage_word, answer_word, senders_in, tile_in, tile_words, fits_in};
ghost use Rattle.board_calls.specs.Answers.{start_number, start_left, pulse_number, pulse_left, close_number, close_left, close_answer, many_left, many_answer};

use board::Board;
use board::stand::{Answer, Stage, Stand};
use counted::Counted;
use layout::{UNFIT, settings_from};
use senders::Senders;
use settings::Settings;

#[tactic(auto, unfolding(crate::specs::Answers::unless_refused, crate::specs::Answers::start_number, crate::specs::Answers::start_left))]
pub fn start(settings: Settings, count: u64, reading: u64, words: &mut [u64; 18]) -> u32
    ensures number { result ≡ start_number settings count reading }
    ensures words { words.new ≡ start_left settings count reading words.old }
{
    let started = Counted::start(settings, count, reading);
    match started.refusal {
        Some(refusal) => refusal.number(),
        None => {
            *words = tile_words(started.tile);
            0
        }
    }
}

pub fn pulse(words: &mut [u64; 18], sender: u64) -> u32
    ensures number { result ≡ pulse_number words.old sender }
    ensures words { words.new ≡ pulse_left words.old sender }
{
    if fits_in(words) {
        let tile = tile_in(words);
        let heard = tile.pulse(sender);
        *words = tile_words(heard.tile);
        return match heard.refusal {
            Some(refusal) => refusal.number(),
            None => 0,
        };
    }
    UNFIT
}

pub fn close(words: &mut [u64; 18], answer: &mut u32) -> u32
    ensures number { result ≡ close_number words.old }
    ensures words { words.new ≡ close_left words.old }
    ensures answer { answer.new ≡ close_answer words.old answer.old }
{
    close_many(words, 1, answer)
}

pub fn close_many(words: &mut [u64; 18], n: u64, answer: &mut u32) -> u32
    ensures number { result ≡ close_number words.old }
    ensures words { words.new ≡ many_left words.old n }
    ensures answer { answer.new ≡ many_answer words.old n answer.old }
{
    if fits_in(words) {
        let tile = tile_in(words);
        let closed = tile.close_many(n);
        let told = closed.answer;
        *words = tile_words(closed.tile);
        *answer = answer_word(told);
        return 0;
    }
    UNFIT
}

// Whether the words are those of a state that fits.
fn fits_in(words: &[u64; 18]) -> bool
    ensures { result ≡ fits_in words.now }
{
    if 2 < words[17] {
        return false;
    }
    let tile = tile_in(words);
    tile.board.fits()
}

fn tile_in(words: &[u64; 18]) -> Counted
    ensures { result ≡ tile_in words.now }
{
    Counted {
        board: Board {
            settings: settings_from(words, 0),
            senders: senders_in(words),
            stand: Stand {
                reading: words[16],
                stage: stage_in(words[17]),
            },
        },
        repeats: [words[12], words[13], words[14], words[15]],
    }
}

fn senders_in(words: &[u64; 18]) -> Senders
    ensures { result ≡ senders_in words.now }
{
    Senders {
        count: words[7],
        stamps: [words[8], words[9], words[10], words[11]],
    }
}

fn tile_words(tile: Counted) -> [u64; 18]
    ensures { result ≡ tile_words tile }
{
    let board = tile.board;
    let repeats = tile.repeats;
    let settings = board.settings;
    let senders = board.senders;
    let stand = board.stand;
    [
        settings.width,
        settings.rows,
        settings.delay,
        settings.uncertainty,
        settings.hold,
        settings.drift,
        settings.unit,
        senders.count,
        senders.stamps[0],
        senders.stamps[1],
        senders.stamps[2],
        senders.stamps[3],
        repeats[0],
        repeats[1],
        repeats[2],
        repeats[3],
        stand.reading,
        stage_word(stand),
    ]
}

fn stage_in(word: u64) -> Stage
    ensures { result ≡ stage_in word }
{
    match word {
        0 => Stage::Running,
        1 => Stage::Pulsed,
        _ => Stage::Ended,
    }
}

fn stage_word(stand: Stand) -> u64
    ensures { result ≡ stage_word stand.stage }
{
    let stage = stand.stage;
    match stage {
        Stage::Running => 0,
        Stage::Pulsed => 1,
        Stage::Ended => 2,
    }
}

fn answer_word(answer: Answer) -> u32
    ensures { result ≡ answer_word answer }
{
    match answer {
        Answer::Waits => 0,
        Answer::Pulsed => 1,
        Answer::Done => 2,
    }
}
