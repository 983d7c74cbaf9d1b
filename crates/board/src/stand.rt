// Where a tile stands: its open reading, and whether its run is over.
ghost use Rattle.std.specs.Prelude.{◌≡◌, ◌≤◌};
ghost use Rattle.senders.specs.Senders.{last};
ghost use Rattle.board.specs.Stand.{told};
ghost use Rattle.board.specs.Closing.{closings};

use senders::LAST;

#[derive(Clone, Copy)]
pub struct Stand {
    // The open reading, or the one whose close ended the run.
    pub reading: u64,
    pub stage: Stage,
}

#[derive(Clone, Copy)]
pub enum Stage {
    Running,
    // It has pulsed.
    Pulsed,
    // It has closed the last reading without a pulse.
    Ended,
}

#[derive(Clone, Copy)]
pub enum Answer {
    // It pulses now.
    Pulsed,
    // The next reading is open.
    Waits,
    // Its run is over, and it does not pulse now.
    Done,
}

// After so many closes from an open reading, for a pulse that is due at a reading, or at none.
#[tactic(auto, unfolding(crate::specs::Closing::closings, crate::specs::Closing::end_of, crate::specs::Closing::due_by, crate::specs::Stand::stand))]
pub fn closings(due: Option<u64>, reading: u64, n: u64) -> Stand
    requires { reading ≤ last }
    ensures { result ≡ closings due reading n }
{
    // The reading whose close ends the run.
    let end = match due {
        Some(due) => reading.max(due).min(LAST),
        None => LAST,
    };
    if n <= end - reading {
        return Stand {
            reading: reading + n,
            stage: Stage::Running,
        };
    }
    let stage = match due {
        Some(due) if due <= end => Stage::Pulsed,
        _ => Stage::Ended,
    };
    Stand {
        reading: end,
        stage,
    }
}

impl Stand {
    // What closes answer that come here from an open reading.
    #[tactic(auto, unfolding(crate::specs::Stand::told))]
    pub fn told(self) -> Answer
        ensures { result ≡ told self.stage }
    {
        match self.stage {
            Stage::Running => Answer::Waits,
            Stage::Pulsed => Answer::Pulsed,
            Stage::Ended => Answer::Done,
        }
    }
}
