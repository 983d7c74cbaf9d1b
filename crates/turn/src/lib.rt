// A turn of a pass: the step of the part that is due, with its buffers.
#![tactic(auto)]

ghost use Rattle.std.specs.Prelude.{◌+◌, ◌≤◌, length, take};
ghost use Rattle.lines.specs.Row.{step_room};
ghost use Rattle.row.specs.Row.{pulses};
ghost use Rattle.stream.specs.State.{Between, Advanced};
ghost use Rattle.asked.specs.Asked.{HasTables, step_for};

use asked::Asked;
use asked_step::step;
use stream::State;

// A pass between two steps.
#[derive(Clone, Copy)]
pub struct Going {
    pub state: State,
    pub kept: u64,
}

// Takes the step of the due part, or of what is left where the input has ended. `links` is room for link values.
pub fn advance(
    asked: Asked,
    given: &[u64],
    state: State,
    kept: u64,
    input: &[u8],
    links: &mut [u64],
    row: &mut [u64],
    letters: &mut [u8],
    output: &mut [u8],
) -> Going
    requires { HasTables asked given.now × Between state (length input.now) (length output.old) × (770 ≤ length links.old) × (256 ≤ length row.old) × (256 ≤ length letters.old) × (state.text + step_room ≤ length output.old) }
    ensures { Advanced (step_for asked (take 16 given.now)) state kept input.now (pulses row.old letters.old) output.old result.state result.kept (pulses row.new letters.new) output.new }
{
    let wall = state.wall;
    let window = state.window;
    let start = window.start;
    let stop = state.part_end();
    let width = wall.width();
    let mut last = [0u64; 256];
    let mut last_letters = [0u8; 256];
    let told = step(
        asked,
        given,
        wall,
        kept,
        &input[start..stop],
        links,
        &mut last[..width],
        &mut last_letters[..width],
        &mut row[..width],
        &mut letters[..width],
        output,
        state.text,
    );
    let after = told.wall;
    Going {
        state: state.stepped(stop, after, told.end),
        kept: told.kept,
    }
}
