// The tile as it runs, with the repeats of each sender counted, which tells which cable chatters. The counts stand beside the tile of crate
// board: each operation is that one's, and a count changes nothing but itself.
#![tactic(auto)]

ghost use Rattle.std.specs.Prelude.{◌≡◌, ◌<◌};
ghost use Rattle.counted.specs.State.{raised, started, pulsed, closed, closed_many};

use board::Board;
use board::stand::Answer;
use settings::Settings;
use settings::refusal::Refusal;

#[derive(Clone, Copy)]
pub struct Counted {
    pub board: Board,
    // The repeats of own and of the neighbours, up to 65,535 each. Places past the count stay 0.
    pub repeats: [u64; 4],
}

// Where a count stays.
pub const MOST: u64 = 65_535;

// No Result: `StartApart` speaks of the tile of any start, of one that is turned away too.
#[derive(Clone, Copy)]
pub struct Started {
    // 1 to 9, 11 or 12; the tile then takes no event.
    pub refusal: Option<Refusal>,
    pub tile: Counted,
}

// No Result: `WrongKept` speaks of the tile after a pulse that is turned away.
#[derive(Clone, Copy)]
pub struct Heard {
    // 54; the tile is then what it was.
    pub refusal: Option<Refusal>,
    pub tile: Counted,
}

#[derive(Clone, Copy)]
pub struct Closed {
    pub answer: Answer,
    pub tile: Counted,
}

impl Counted {
    // A tile that opens its first reading and has heard nothing.
    #[tactic(auto, unfolding(crate::specs::State::started, crate::specs::State::counted))]
    pub fn start(settings: Settings, count: u64, reading: u64) -> Started
        ensures { result ≡ started settings count reading }
    {
        let started = Board::start(settings, count, reading);
        Started {
            refusal: started.refusal,
            tile: Counted {
                board: started.board,
                repeats: [0; 4],
            },
        }
    }

    // A pulse from a sender at the open reading; a repeat is counted.
    pub fn pulse(self, sender: u64) -> Heard
        ensures { result ≡ pulsed self sender }
    {
        let heard = self.board.pulse(sender);
        let repeats = if heard.repeat {
            raised(self.repeats, sender as usize)
        } else {
            self.repeats
        };
        Heard {
            refusal: heard.refusal,
            tile: Counted {
                board: heard.board,
                repeats,
            },
        }
    }

    // The open reading is closed.
    pub fn close(self) -> Closed
        ensures { result ≡ closed self }
    {
        self.close_many(1)
    }

    // As many closes, one by one, with no pulse between them.
    #[tactic(auto, unfolding(crate::specs::State::closed_many, crate::specs::State::uncounted, crate::specs::State::counted))]
    pub fn close_many(self, n: u64) -> Closed
        ensures { result ≡ closed_many self n }
    {
        let closed = self.board.close_many(n);
        Closed {
            answer: closed.answer,
            tile: Counted {
                board: closed.board,
                ..self
            },
        }
    }
}

// A repeat: the count at its sender's place goes up by one, to 65,535 at most.
fn raised(counts: [u64; 4], place: usize) -> [u64; 4]
    requires { place < 4 }
    ensures { result ≡ raised counts place }
{
    let mut raised = counts;
    raised[place] = raised[place].saturating_add(1).min(MOST);
    raised
}
