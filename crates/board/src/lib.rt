// The tile as it runs: what a tile knows, event by event, on its own clock. `start`, `pulse`, `close` and `close_many` are
// the operations: each answers every input in constant time, and takes and gives the state by value.
#![tactic(auto)]

pub mod stand;

ghost use Rattle.std.specs.Prelude.{◌≡◌};
ghost use Rattle.settings.specs.Refusal.{answer};
ghost use Rattle.board.specs.State.{fits, runs, started, start_cause, pulsed, closed, closed_many};

use rule::forwarding;
use senders::{LAST, Senders};
use settings::Settings;
use settings::refusal::Refusal;
use stand::{Answer, Stage, Stand, closings};

#[derive(Clone, Copy)]
pub struct Board {
    pub settings: Settings,
    pub senders: Senders,
    pub stand: Stand,
}

// No Result: `RefusedOver` speaks of the state of a start that is turned away.
#[derive(Clone, Copy)]
pub struct Started {
    // 1 to 9, 11 or 12; the state then takes no event.
    pub refusal: Option<Refusal>,
    pub board: Board,
}

// No Result: `WrongKept` speaks of the state after a pulse that is turned away.
#[derive(Clone, Copy)]
pub struct Heard {
    // 54; the state is then what it was.
    pub refusal: Option<Refusal>,
    // Whether it was a repeat: from a sender that was heard before, while the tile runs.
    pub repeat: bool,
    pub board: Board,
}

#[derive(Clone, Copy)]
pub struct Closed {
    pub answer: Answer,
    pub board: Board,
}

impl Board {
    // A tile that opens its first reading and has heard nothing.
    pub fn start(settings: Settings, count: u64, reading: u64) -> Started
        ensures { result ≡ started settings count reading }
    {
        let (refusal, stage) = match check_start(settings, count, reading) {
            Ok(()) => (None, Stage::Running),
            Err(why) => (Some(why), Stage::Ended),
        };
        Started {
            refusal,
            board: Board {
                settings,
                senders: Senders::unheard_of(count),
                stand: Stand { reading, stage },
            },
        }
    }

    // A pulse from a sender at the open reading; own is 0, the neighbours are 1 to their count.
    pub fn pulse(self, sender: u64) -> Heard
        ensures { result ≡ pulsed self sender }
    {
        if !self.runs() {
            return Heard {
                refusal: None,
                repeat: false,
                board: self,
            };
        }
        if self.senders.count < sender {
            return Heard {
                refusal: Some(Refusal::Sender),
                repeat: false,
                board: self,
            };
        }
        let place = sender as usize;
        Heard {
            refusal: None,
            repeat: self.senders.heard(place),
            board: Board {
                senders: self.senders.hear(place, self.stand.reading),
                ..self
            },
        }
    }

    // The open reading is closed.
    pub fn close(self) -> Closed
        ensures { result ≡ closed self }
    {
        self.close_many(1)
    }

    // As many closes, one by one, with no pulse between them. Its answer is `Pulsed` where one of them pulsed.
    pub fn close_many(self, n: u64) -> Closed
        ensures { result ≡ closed_many self n }
    {
        if !self.runs() {
            return Closed {
                answer: Answer::Done,
                board: self,
            };
        }
        let stand = closings(self.senders.due(self.settings), self.stand.reading, n);
        Closed {
            answer: stand.told(),
            board: Board { stand, ..self },
        }
    }

    // Whether it takes events: the state fits, and the run is not over.
    #[tactic(auto, unfolding(crate::specs::State::runs, crate::specs::Stand::is_running))]
    fn runs(self) -> bool
        ensures { result ≡ runs self }
    {
        matches!(self.stand.stage, Stage::Running) && self.fits()
    }

    // Whether the settings pass, the senders fit, and the reading is one that opens.
    pub fn fits(self) -> bool
        ensures { result ≡ fits self }
    {
        self.settings.check().is_ok() && self.senders.fit() && self.stand.reading <= LAST
    }
}

// Why a start is turned away.
#[tactic(auto, unfolding(settings::specs::Refusal::answer, settings::specs::Refusal::or_else, settings::specs::Refusal::first, settings::specs::Refusal::outside, crate::specs::State::start_tests, crate::specs::State::start_cause))]
fn check_start(settings: Settings, count: u64, reading: u64) -> Result<(), Refusal>
    ensures { result ≡ answer (start_cause settings count reading) tt }
{
    settings.check()?;
    if !(2..=3).contains(&count) {
        return Err(Refusal::Neighbours);
    }
    if forwarding::LATEST < reading {
        return Err(Refusal::Stamp);
    }
    Ok(())
}
