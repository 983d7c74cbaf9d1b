// What every program does: where the wall file of a call comes from, the pass over it, and what is said of the call and of what
// failed: the use, the version, a word that is wrong or missing, a file that can't be opened, a read or a write.
#![tactic(auto)]

ghost use Rattle.asked.specs.Asked.{HasTables};

use arguments::{Call, WORD_MOST};
use asked::Asked;
use std::env::Env;
use std::fs::File;
use std::io;
use std::io::{Cursor, Error, ErrorKind, Print, Read, Stdin, Write};
use stream::Failed;

// The system's number for a name that is too long.
const ENAMETOOLONG: i32 = 36;

// The system's number for bytes that are no text.
const EILSEQ: i32 = 84;

// What a wall file is read from.
#[derive(Drop)]
pub enum Source {
    Input(Stdin),
    File(File),
}

impl Read for Source {
    fn read(&mut self, buf: &mut [u8]) -> io::Result<usize> {
        match self {
            Source::Input(input) => input.read(buf),
            Source::File(file) => file.read(buf),
        }
    }
}

// A reader or a writer that keeps why its last call failed.
#[derive(Drop)]
pub struct Noted<T> {
    inner: T,
    failed: Option<Error>,
}

impl<T> Noted<T> {
    pub fn new(inner: T) -> Noted<T> {
        Noted {
            inner,
            failed: None,
        }
    }

    // Where the last call did not fail, it took nothing.
    pub fn why(&self) -> Error {
        self.failed.unwrap_or(Error::from(ErrorKind::WriteZero))
    }
}

impl<R: Read> Read for Noted<R> {
    fn read(&mut self, buf: &mut [u8]) -> io::Result<usize> {
        let done = self.inner.read(buf);
        self.failed = done.err();
        done
    }
}

impl<W: Write> Write for Noted<W> {
    fn write(&mut self, buf: &[u8]) -> io::Result<usize> {
        let done = self.inner.write(buf);
        self.failed = done.err();
        done
    }

    fn flush(&mut self) -> io::Result<()> {
        self.inner.flush()
    }
}

// Which call failed, and why.
#[derive(Clone, Copy)]
pub enum Failure {
    Reading(Error),
    Writing(Error),
}

// A program, by what it says of itself.
#[derive(Clone, Copy)]
pub struct Program<'a> {
    pub name: &'a str,
    // What a call has to have, as `a limit`, and is empty where that is nothing.
    pub needed: &'a str,
    // A line.
    pub usage: &'a str,
    // The lines that `--help` prints behind it.
    pub about: &'a str,
}

impl Program<'_> {
    // Where the wall file that a call asks for is read from, or none where something is said in its place.
    pub fn source(&self, rt: &HostRuntime, call: Call) -> Option<Source> {
        match call {
            Call::Input => return Some(Source::Input(rt.stdin())),
            Call::File(i) => return self.open(rt, i),
            Call::Help => self.told(rt, self.help(rt)),
            Call::Version => self.told(rt, self.version(rt)),
            Call::Missing => self.missing(rt),
            Call::Wrong(i) => self.wrong(rt, i),
        }
        None
    }

    // Writes what is asked of a wall file to standard output, or says what failed.
    pub fn run(&self, rt: &HostRuntime, from: Source, asked: Asked, given: &[u64])
        requires { HasTables asked given.now }
    {
        match write_asked(rt, from, asked, given) {
            Ok(()) => {}
            Err(Failure::Reading(why)) => self.fail(rt, b"reading", why),
            Err(Failure::Writing(why)) => self.fail(rt, b"writing", why),
        }
    }

    // Opens the file that a word names; where it can't be, says why.
    fn open(&self, rt: &HostRuntime, i: usize) -> Option<Source> {
        let mut buffer = [0u8; WORD_MOST];
        let n = rt.arg(i, &mut buffer).unwrap_or(0);
        match open_read(rt, &buffer[..n]) {
            Ok(file) => Some(Source::File(file)),
            Err(e) => {
                self.fail(rt, &buffer[..n], e);
                None
            }
        }
    }

    fn help(&self, rt: &HostRuntime) -> io::Result<()> {
        rt.print(self.usage)?;
        rt.print(self.about)
    }

    // The program's name and the planner's version.
    fn version(&self, rt: &HostRuntime) -> io::Result<()> {
        let name = self.name;
        println!(rt;
            "{name} {}.{}.{}",
            version::MAJOR,
            version::MINOR,
            version::PATCH
        )
    }

    // A write of the program's own words that failed is told as any other.
    fn told(&self, rt: &HostRuntime, written: io::Result<()>) {
        if let Err(e) = written {
            self.fail(rt, b"writing", e);
        }
    }

    // Says what is missing, and the use.
    fn missing(&self, rt: &HostRuntime) {
        let (name, needed, usage) = (self.name, self.needed, self.usage);
        let _ = eprint!(rt; "{name}: {needed} is missing\n{usage}");
    }

    // Says which word is wrong, and the use. One that is too long for the buffer is said to be so.
    fn wrong(&self, rt: &HostRuntime, i: usize) {
        let mut buffer = [0u8; WORD_MOST];
        match rt.arg(i, &mut buffer) {
            Ok(n) => {
                say(rt, self.name.as_bytes());
                say(rt, b": unexpected argument: ");
                say(rt, &buffer[..n]);
                say(rt, b"\n");
                say(rt, self.usage.as_bytes());
            }
            Err(_) => self.fail(rt, b"an argument", Error::from_raw_os_error(ENAMETOOLONG)),
        }
    }

    // Says what failed, and why.
    fn fail(&self, rt: &HostRuntime, what: &[u8], why: Error) {
        say(rt, self.name.as_bytes());
        say(rt, b": ");
        say_failed(rt, what, why);
    }
}

// Writes what is asked of a wall file to standard output, and answers what failed.
pub fn write_asked<R: Read + Drop>(
    rt: &HostRuntime,
    from: R,
    asked: Asked,
    given: &[u64],
) -> Result<(), Failure>
    requires { HasTables asked given.now }
{
    let mut from = Noted::new(from);
    let mut to = Noted::new(rt.stdout());
    let outcome = pass::run(&mut from, &mut to, asked, given);
    match outcome.ended {
        Ok(()) => Ok(()),
        Err(Failed::Read) => Err(Failure::Reading(from.why())),
        Err(Failed::Write) => Err(Failure::Writing(to.why())),
    }
}

// The file of a name. A name that is no UTF-8 names none.
pub fn open_read(rt: &HostRuntime, name: &[u8]) -> io::Result<File> {
    match str::from_utf8(name) {
        Ok(path) => File::open(rt, path),
        Err(_) => Err(Error::from_raw_os_error(EILSEQ)),
    }
}

// A line of what failed, and why.
pub fn say_failed(rt: &HostRuntime, what: &[u8], why: Error) {
    let mut words = Cursor::new([0u8; 256]);
    let _ = write!(words, "{why}");
    let all = words.get_ref();
    let end = (words.position() as usize).min(all.len());
    say(rt, what);
    say(rt, b": ");
    say(rt, plain(&all[..end], why.raw_os_error().is_some()));
    say(rt, b"\n");
}

// The words of an error. The system's have its number behind them, as ` (os error 2)`, which is left out.
fn plain(words: &[u8], numbered: bool) -> &[u8] {
    match words.iter().rposition(|byte| *byte == b'(') {
        Some(at) if numbered && 0 < at => &words[..at - 1],
        _ => words,
    }
}

// Text for standard error, to which nothing can be said of a failure of its own.
fn say(rt: &HostRuntime, text: &[u8]) {
    let _ = Print::write_all(&rt.stderr(), text);
}
