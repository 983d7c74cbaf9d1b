// One pass over a wall file, from a reader to a writer: the part of the file that is due is read, its step is taken, and
// what it tells is handed over, whatever is asked.
#![tactic(auto)]

ghost use Rattle.std.specs.Prelude.{take};
ghost use Rattle.stream.specs.State.{ComesTo};
ghost use Rattle.asked.specs.Asked.{HasTables, step_for};

use asked::Asked;
use std::io::{Read, Write};
use stream::{Outcome, State, finish, ready};
use turn::advance;

// So many bytes are read or written a call, at most.
const BUFFER: usize = 65_536;

// Steps until nothing is due, and answers how that ended; some 64 KB are read or written a call. `given` is what the answer needs: for
// lines the tables that they are written from, for the range the rows asked for, of which the first 16 count. A number is kept from
// step to step: for the range the largest reach of the rows so far.
pub fn run<R: Read, W: Write>(from: &mut R, to: &mut W, asked: Asked, given: &[u64]) -> Outcome
    requires { HasTables asked given.now }
    ensures { ComesTo (step_for asked (take 16 given.now)) 0 result }
{
    let mut input = [0u8; BUFFER];
    let mut output = [0u8; BUFFER];
    let mut links = row_fields::link_space();
    let mut row = [0u64; 256];
    let mut letters = [0u8; 256];
    let mut state = State::start();
    let mut kept = 0;
    loop {
        let due = state.due();
        if due == 0 {
            return finish(to, state, &output);
        }
        match ready(from, to, state, due, &mut input, &output) {
            Ok(made) => {
                let going = advance(
                    asked,
                    given,
                    made,
                    kept,
                    &input,
                    &mut links,
                    &mut row,
                    &mut letters,
                    &mut output,
                );
                state = going.state;
                kept = going.kept;
            }
            Err(failed) => {
                return Outcome {
                    ended: Err(failed),
                    state,
                };
            }
        }
    }
}
