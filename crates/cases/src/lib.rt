// A file of cases, for test programs: a case to a line, as a letter that says its kind, numbers, a
// colon and a label. A line that is empty or starts with '#' is a comment.
#![tactic(auto)]

mod number;

ghost use Rattle.std.specs.Prelude.{◌≡◌, ◌≢◌, ℕ, ◌≤◌, ◌<◌, length, slice_index, IfSome, IfNone};

use std::alloc::{AllocError, Allocator};
use std::io;
use std::io::{Printer, Read, Write};

// A line that is a case.
#[derive(Clone, Copy)]
pub struct Case<'a> {
    // The letter in front.
    pub kind: u8,
    pub numbers: &'a [u64],
    // What stands after the colon and a space.
    label: &'a [u8],
    line: &'a [u8],
}

impl Case<'_> {
    // Writes the label where the case came out, and the whole line where it did not.
    pub fn report(&self, out: &mut impl Write, right: bool) -> io::Result<()> {
        if right {
            self.write_label(out)?;
            out.write_all(b": ok\n")
        } else {
            wrong(out, self.line)
        }
    }

    pub fn write_label(&self, out: &mut impl Write) -> io::Result<()> {
        out.write_all(self.label)
    }
}

// Reads standard input whole, and hands its cases one after another to `try_case`, which writes what each
// came to. A line that is neither a case nor a comment is reported as wrong.
pub fn run<R, F>(rt: &R, mut try_case: F) -> io::Result<()>
where
    R: Input + Print + Alloc,
    F: FnMut(&mut Printer<'_, R>, &Case<'_>) -> io::Result<()>,
    requires { F.IsAlwaysCallable try_case }
{
    let mut text = Vec::new(rt.alloc());
    rt.reader().read_to_end(&mut text)?;
    let mut out = io::writer(rt);
    for line in text.split(|byte| *byte == b'\n') {
        if is_comment(line) {
            continue;
        }
        match parts(line) {
            Some((kind, words, label)) => match numbers(rt.alloc(), words)? {
                Some(numbers) => try_case(
                    &mut out,
                    &Case {
                        kind,
                        numbers: &numbers,
                        label,
                        line,
                    },
                )?,
                None => wrong(&mut out, line)?,
            },
            None => wrong(&mut out, line)?,
        }
    }
    Ok(())
}

fn is_comment(line: &[u8]) -> bool {
    match line {
        [] => true,
        [kind, ..] => *kind == b'#',
    }
}

fn parts(line: &[u8]) -> Option<(u8, &[u8], &[u8])> {
    let kind = *line.first()?;
    let colon = find(line, 1, b':')?;
    let label = line.get(colon + 2..)?;
    Some((kind, &line[1..colon], label))
}

// The numbers of words with spaces between them, or none where a word is no number.
fn numbers<A: Allocator>(alloc: A, words: &[u8]) -> Result<Option<Vec<u64, A>>, AllocError> {
    let mut numbers = Vec::new(alloc);
    for word in words.split(|byte| *byte == b' ') {
        if word.is_empty() {
            continue;
        }
        let Some(number) = number::read(word) else {
            return Ok(None);
        };
        numbers.push(number)?;
    }
    Ok(Some(numbers))
}

fn wrong(out: &mut impl Write, line: &[u8]) -> io::Result<()> {
    out.write_all(line)?;
    out.write_all(b": WRONG\n")
}

// Where the byte first stands from the start on.
pub fn find(text: &[u8], start: usize, byte: u8) -> Option<usize>
    requires { start ≤ length text.now }
    ensures found { IfSome result (λ at. (start ≤ at) × (at < length text.now) × (slice_index text.now at ≡ byte) × ((k : ℕ) → start ≤ k → k < at → slice_index text.now k ≢ byte)) }
    ensures none { IfNone result ((k : ℕ) → start ≤ k → k < length text.now → slice_index text.now k ≢ byte) }
{
    (start..text.len()).find(|at| text[*at] == byte)
}
