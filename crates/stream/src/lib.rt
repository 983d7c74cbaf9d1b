// A run over a wall file, between two of its steps: what is read and not yet taken, and text not yet handed over.
//
// No contract can say which bytes a reader and a writer of the system move. They come in by `window::take_in` and go out by
// `hand_over`, and nowhere else; these two are the edge of the proof.
#![tactic(auto)]

ghost use Rattle.std.specs.Prelude.{◌≡◌, ◌⊎◌, ◌≤◌, length, take, drop};
ghost use Rattle.stages.specs.Fit.{due_of};
ghost use Rattle.lines.specs.Row.{step_room};
ghost use Rattle.stages.specs.declared.Wall.TheVariants.{Over};
ghost use Rattle.stream.specs.State.{Starts, Between, made_ready, part_end, stepped, finished};

use stages::Wall;
use std::io::{ErrorKind, Read, Write};
use window::Window;

// Why a run stopped.
#[derive(Clone, Copy, Debug, PartialEq, Eq)]
pub enum Failed {
    // A read failed: no end of the file. What was shown before is handed over.
    Read,
    // A write failed, or took nothing.
    Write,
}

// A run between two steps.
#[derive(Clone, Copy)]
pub struct State {
    pub wall: Wall,
    pub window: Window,
    // So many bytes of text stand in the output buffer, not yet handed over.
    pub text: usize,
}

// How a run ended and where: at its last state, or where the turn began whose read or write failed.
#[derive(Clone, Copy)]
pub struct Outcome {
    // Done: the file has ended, or is turned away, and the text is handed over.
    pub ended: Result<(), Failed>,
    pub state: State,
}

impl State {
    // Before the first step.
    pub fn start() -> State
        ensures { Starts result }
    {
        State {
            wall: Wall::New,
            window: Window {
                start: 0,
                end: 0,
                ended: false,
            },
            text: 0,
        }
    }

    // How many bytes the next step is to be given.
    pub fn due(self) -> usize
        ensures due { result ≡ due_of self.wall }
        ensures few { result ≤ 7734 }
    {
        let wall = self.wall;
        wall.due()
    }

    // Where the due part ends in the input buffer, or what there is of it.
    pub fn part_end(self) -> usize
        requires { self.window.start ≤ self.window.end }
        ensures { result ≡ part_end self }
    {
        let window = self.window;
        window.part_end(self.due())
    }

    // After the step of the due part, which ends at `stop`: the bytes behind it are left.
    pub fn stepped(self, stop: usize, wall: Wall, text: usize) -> State
        requires { stop ≡ part_end self }
        ensures { result ≡ stepped self wall text }
    {
        let window = self.window;
        State {
            wall,
            window: Window {
                start: stop,
                end: window.end,
                ended: window.ended,
            },
            text,
        }
    }
}

// Hands the text that is due to the writer, all of it, and answers how much is still due: none, or all where a write
// failed or took nothing. A number and no Result: it becomes the state's, so a run that passed over a failed write could not
// show that there is room for the next step, nor that it is done.
fn hand_over<W: Write>(to: &mut W, text: &[u8], state: State, output: &[u8]) -> usize
    requires { text.now ≡ take state.text output.now }
    ensures { (result ≡ 0) ⊎ (result ≡ length text.now) }
{
    let mut done = 0;
    // A `while`: each write takes as many bytes as it likes.
    while done < text.len() {
        let put = write_some(to, &text[done..], text, done);
        if put == 0 {
            return text.len();
        }
        done += put;
    }
    0
}

// The one write, of the text from `done` on; answers how many bytes it took, none where it failed. One that a signal
// interrupts is taken up again.
fn write_some<W: Write>(to: &mut W, rest: &[u8], text: &[u8], done: usize) -> usize
    requires { rest.now ≡ drop done text.now }
    ensures { result ≤ length rest.now }
{
    for _ in 0..window::SIGNALS_MOST {
        match to.write(rest) {
            Ok(n) => return n,
            Err(e) => {
                if e.kind() != ErrorKind::Interrupted {
                    return 0;
                }
            }
        }
    }
    0
}

// Hands over the last text. Only here a run is done, and the wall is over.
pub fn finish<W: Write>(to: &mut W, state: State, output: &[u8]) -> Outcome
    requires { (state.wall ≡ Over) × (state.text ≤ length output.now) }
    ensures { finished state result.ended result.state }
{
    let last = state.text;
    let left = hand_over(to, &output[..last], state, output);
    if left != 0 {
        return Outcome {
            ended: Err(Failed::Write),
            state,
        };
    }
    Outcome {
        ended: Ok(()),
        state: State {
            text: left,
            ..state
        },
    }
}

// Has the due part in the window, and room for its text. Text is handed over where a read is to come, so that no row
// waits for input that it does not need, and where the room is too small.
pub fn ready<R: Read, W: Write>(
    from: &mut R,
    to: &mut W,
    state: State,
    due: usize,
    input: &mut [u8],
    output: &[u8],
) -> Result<State, Failed>
    requires { Between state (length input.old) (length output.now) × (7734 ≤ length input.old) × (step_room ≤ length output.now) × (due ≡ due_of state.wall) × (due ≤ 7734) }
    ensures { made_ready state input.old (length output.now) result input.new }
{
    let window = state.window;
    let text = state.text;
    if !window.lacks(due) {
        if text <= output.len() - lines::ROOM {
            return Ok(state);
        }
    }
    let left = hand_over(to, &output[..text], state, output);
    if left != 0 {
        return Err(Failed::Write);
    }
    match window::fill(from, window, due, input) {
        Ok(next) => Ok(State {
            wall: state.wall,
            window: next,
            text: left,
        }),
        Err(_) => Err(Failed::Read),
    }
}
