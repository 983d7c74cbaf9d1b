// The words of a call: numbers, then the name of a file. One grammar for every program.
#![tactic(auto)]

ghost use Rattle.std.specs.Prelude.{◌≡◌, true, ◌≤◌, ◌<◌};
ghost use Rattle.std.specs.Char.{is_ascii_digit};
ghost use Rattle.std.specs.List.{list_all};
ghost use Rattle.lines.specs.Promises.{is_digit, all_are, spelt};
ghost use Rattle.arguments.specs.Words.{number_word, option_word, word_of};
ghost use Rattle.arguments.specs.Call.{SomeWord, Called};

use std::env::{Env, FillError};

// What a word is by itself.
#[derive(Clone, Copy)]
enum Word {
    // Digits that spell a number within the limits.
    Number(u64),
    // The name of a file.
    Name,
    Help,
    Version,
    // No word of a call.
    Other,
}

// What a call asks for. A word is named by its place, 1 for the first.
#[derive(Clone, Copy)]
pub enum Call {
    // A wall file on standard input.
    Input,
    // The file that this word names.
    File(usize),
    Help,
    Version,
    // The words end before the numbers that are needed.
    Missing,
    // This word is none that is known, or does not belong where it stands.
    Wrong(usize),
}

// No word has more bytes.
pub const WORD_MOST: usize = 4096;

// The numbers that a call may have in front.
#[derive(Clone, Copy)]
pub struct Limits {
    pub least: u64,
    pub largest: u64,
    // So that a digit more still fits.
    ghost small: { largest ≤ 4398046511104 },
}

// Writes the numbers in front, each within the limits, of which `needed` have to be there, and answers what the call asks for.
pub fn read<E: Env>(env: &E, needed: usize, limits: Limits, numbers: &mut [u64]) -> Call
    ensures { Called needed limits.least limits.largest numbers.old result numbers.new }
{
    // The program's name is one, even where the system gives none.
    let count = word_count(env).max(1);
    for i in 1..count {
        match argument(env, i, limits) {
            Word::Number(n) if i <= numbers.len() => numbers[i - 1] = n,
            Word::Name if needed < i => {
                if i + 1 < count {
                    return Call::Wrong(i + 1);
                }
                return Call::File(i);
            }
            Word::Help if i == 1 => return Call::Help,
            Word::Version if i == 1 => return Call::Version,
            _ => return Call::Wrong(i),
        }
    }
    if count <= needed {
        return Call::Missing;
    }
    Call::Input
}

// How many words there are, the program's name among them. They are counted by asking for each: `Env` tells no count, and `env::args`
// takes memory and turns away a word that is no UTF-8.
pub fn word_count<E: Env>(env: &E) -> usize {
    let mut first = [0u8; 1];
    for i in 0..usize::MAX {
        if let Err(FillError::NotPresent) = env.arg(i, &mut first) {
            return i;
        }
    }
    usize::MAX
}

// The word at a place. One that is too long for the buffer is none that is known.
fn argument<E: Env>(env: &E, i: usize, limits: Limits) -> Word
    ensures { SomeWord limits.least limits.largest result }
{
    let mut buffer = [0u8; WORD_MOST];
    match env.arg(i, &mut buffer) {
        Ok(n) => word_of(&buffer[..n], limits),
        Err(_) => Word::Other,
    }
}

fn word_of(word: &[u8], limits: Limits) -> Word
    ensures { result ≡ word_of limits.least limits.largest word.now }
{
    match word {
        [] => Word::Other,
        [b'-', ..] => option(word),
        _ if all_digits(word) => number(word, limits),
        _ => Word::Name,
    }
}

// Two comparisons: a match on the two texts asks for each of their bytes.
fn option(word: &[u8]) -> Word
    ensures { result ≡ option_word word.now }
{
    if word == b"--help".as_slice() {
        return Word::Help;
    }
    if word == b"--version".as_slice() {
        return Word::Version;
    }
    Word::Other
}

fn all_digits(word: &[u8]) -> bool
    ensures { result ≡ list_all is_ascii_digit word.now }
{
    word.iter().all(|byte| byte.is_ascii_digit())
}

// The number that digits spell. One that passes the limits on the way is not read on.
fn number(word: &[u8], limits: Limits) -> Word
    requires { all_are is_digit word.now ≡ true }
    ensures { result ≡ number_word limits.least limits.largest (spelt 10 word.now) }
{
    let mut n: u64 = 0;
    for byte in word {
        n = n * 10 + u64::from(*byte - b'0');
        if limits.largest < n {
            return Word::Other;
        }
    }
    if n < limits.least {
        return Word::Other;
    }
    Word::Number(n)
}
