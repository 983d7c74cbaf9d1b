// The bytes that are read and not yet taken, as a window in the input buffer.
#![tactic(auto)]

ghost use Rattle.std.specs.Prelude.{◌≡◌, false, ◌+◌, ◌-◌, ◌≤◌, ◌<◌, min, length, take, drop};
ghost use Rattle.std.specs.Io.{ReadsAtMost};
ghost use Rattle.window.specs.Window.{InBuffer, lacking, Placed, read_on, filled_up};

use std::io;
use std::io::{Error, ErrorKind, Read};

#[derive(Clone, Copy)]
pub struct Window {
    pub start: usize,
    pub end: usize,
    // The input has ended; nothing more is read.
    pub ended: bool,
}

impl Window {
    // Whether the due part is still to be read.
    pub fn lacks(self, due: usize) -> bool
        requires { self.start ≤ self.end }
        ensures { result ≡ lacking self due }
    {
        if self.ended {
            return false;
        }
        self.end - self.start < due
    }

    // Where the due part ends, or what there is of it.
    pub fn part_end(self, due: usize) -> usize
        requires { self.start ≤ self.end }
        ensures { result ≡ self.start + min due (self.end - self.start) }
    {
        self.start + due.min(self.end - self.start)
    }
}

// Reads until the due part is in the window or the input has ended; not at all where nothing is lacking.
pub fn fill<R: Read>(
    from: &mut R,
    window: Window,
    due: usize,
    input: &mut [u8],
) -> io::Result<Window>
    requires { InBuffer window (length input.old) × (due ≤ length input.old) }
    ensures idle { lacking window due ≡ false → (result ≡ Ok window) × (input.new ≡ input.old) }
    ensures filled { filled_up window due input.old result input.new }
{
    if !window.lacks(due) {
        return Ok(window);
    }
    read_part(from, placed(window, due, input), due, input)
}

// The window where it is, or at the front of the buffer where it is empty or the due part does not fit behind its start.
fn placed(window: Window, due: usize, input: &mut [u8]) -> Window
    requires { InBuffer window (length input.old) × (due ≤ length input.old) }
    ensures { Placed window due input.old result input.new }
{
    let Window { start, end, ended } = window;
    if start < end && due <= input.len() - start {
        return window;
    }
    input.copy_within(start..end, 0);
    Window {
        start: 0,
        end: end - start,
        ended,
    }
}

// Reads behind the window, which has room, until the due part is there.
fn read_part<R: Read>(
    from: &mut R,
    window: Window,
    due: usize,
    input: &mut [u8],
) -> io::Result<Window>
    requires { InBuffer window (length input.old) × (window.start + due ≤ length input.old) }
    ensures { filled_up window due input.old result input.new }
{
    let mut window = window;
    // A `while`: each read brings as many bytes as it likes.
    while window.lacks(due) {
        window = take_in(from, window, input)?;
    }
    Ok(window)
}

// Takes bytes in from the reader, behind the window; the edge of the proof on that side. With room there, no byte
// means that the input has ended.
fn take_in<R: Read>(from: &mut R, window: Window, input: &mut [u8]) -> io::Result<Window>
    requires { (window.start ≤ window.end) × (window.end < length input.old) }
    ensures { read_on window input.old result input.new }
{
    let end = window.end;
    let n = read_some(from, &mut input[end..])?;
    Ok(Window {
        start: window.start,
        end: end + n,
        ended: n == 0,
    })
}

// So many signals in a row, without a byte between them, count as a failure: a loop has to end.
pub const SIGNALS_MOST: u64 = 1_000_000_000_000;

// The one read. One that a signal interrupts is taken up again.
fn read_some<R: Read>(from: &mut R, room: &mut [u8]) -> io::Result<usize>
    ensures { ReadsAtMost result room.new }
{
    for _ in 0..SIGNALS_MOST {
        match from.read(room) {
            Ok(n) => return Ok(n),
            Err(e) => {
                if e.kind() != ErrorKind::Interrupted {
                    return Err(e);
                }
            }
        }
    }
    Err(Error::from(ErrorKind::Interrupted))
}
