// One call of the row operation, and what it leaves.
ghost use Rattle.std.specs.Prelude.{◌<◌, ◌≤◌, IfSome};

use row::Ends;
use row_inputs::Inputs;
use settings::Settings;
use settings::refusal::Refusal;

// What a call answers and leaves.
#[derive(Clone, Copy)]
pub struct Outcome {
    pub answer: Result<Ends, Refusal>,
    pub row: [u64; 1024],
    // The letters, and dashes in places that are not written.
    pub letters: [u8; 1024],
}

// How much of each array is lent.
#[derive(Clone, Copy)]
pub struct Lent {
    pub times: usize,
    pub marks: usize,
    pub drifts: usize,
    pub phases: usize,
    pub links: usize,
    pub room: usize,
    pub letters: usize,
    ghost within: { (times < 1024) × (marks < 1024) × (drifts < 1024) × (phases < 1024) × (links < 1024) × (room < 1024) × (letters < 1024) },
}

impl Lent {
    // All that a row of a width needs.
    pub fn of_width(w: usize) -> Lent
        requires { w ≤ 256 }
    {
        Lent {
            times: w,
            marks: w.div_ceil(8),
            drifts: w,
            phases: w,
            links: 3 * w + 2,
            room: w,
            letters: w,
        }
    }

    // As a case says, unless an array is to be lent whole or more.
    pub fn of_case([times, marks, drifts, phases, links, room, letters]: [u64; 7]) -> Option<Lent> {
        Some(Lent {
            times: part(times)?,
            marks: part(marks)?,
            drifts: part(drifts)?,
            phases: part(phases)?,
            links: part(links)?,
            room: part(room)?,
            letters: part(letters)?,
        })
    }
}

fn part(length: u64) -> Option<usize>
    ensures { IfSome result (λ n. n < 1024) }
{
    if length < 1024 {
        Some(length as usize)
    } else {
        None
    }
}

// Drifts up to 100 parts per million, so that clocks round.
fn wall(width: u64) -> Settings {
    Settings {
        width,
        rows: 1,
        delay: 1000,
        uncertainty: 10,
        hold: 4000,
        drift: 100,
        unit: 13,
    }
}

// Plans a row of a width that holds the same value throughout before the call.
pub fn plan(width: u64, inputs: &Inputs, lent: Lent, held: u64) -> Outcome {
    let mut row = [held; 1024];
    let mut letters = [b'-'; 1024];
    let answer = row::plan(
        wall(width),
        &inputs.times[..lent.times],
        &inputs.marks[..lent.marks],
        &inputs.drifts[..lent.drifts],
        &inputs.phases[..lent.phases],
        &inputs.links[..lent.links],
        &mut row[..lent.room],
        &mut letters[..lent.letters],
    );
    Outcome {
        answer,
        row,
        letters,
    }
}
