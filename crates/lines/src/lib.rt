// The printed lines: how they are defined, in specs/, and plain writers of bytes, words and numbers. Each
// writer takes the place to write at in a lent buffer and answers where its text ends.
#![tactic(auto)]

ghost use Rattle.std.specs.Prelude.{◌≡◌, [], ◌∷◌, ◌+◌, ◌*◌, ◌≤◌, ◌<◌, length};
ghost use Rattle.lines.specs.Number.{glyph as glyph_of, decimal as decimal_of};
ghost use Rattle.lines.specs.Line.{space, refused_line, line_text};
ghost use Rattle.columns.specs.Wrote.{Wrote};

// Room for the text of any step.
pub const ROOM: usize = 25_152;

pub fn byte(b: u8, out: &mut [u8], at: usize) -> usize
    requires { at + 1 ≤ length out.old }
    ensures { Wrote out.old at (b ∷ []) out.new result }
{
    out[at] = b;
    at + 1
}

pub fn word(text: &[u8], out: &mut [u8], at: usize) -> usize
    requires { at + length text.now ≤ length out.old }
    ensures { Wrote out.old at text.now out.new result }
{
    let end = at + text.len();
    out[at..end].copy_from_slice(text);
    end
}

// The decimal digits of n, as many as it takes.
pub fn decimal(n: u64, out: &mut [u8], at: usize) -> usize
    requires { at + length (decimal_of n) ≤ length out.old }
    ensures { Wrote out.old at (decimal_of n) out.new result }
{
    if n < 10 {
        return byte(glyph(n), out, at);
    }
    let end = decimal(n / 10, out, at);
    byte(glyph(n % 10), out, end)
}

// A space and a number.
pub fn spaced(n: u64, out: &mut [u8], at: usize) -> usize
    requires { at + 1 + length (decimal_of n) ≤ length out.old }
    ensures { Wrote out.old at (space ∷ decimal_of n) out.new result }
{
    let end = byte(b' ', out, at);
    decimal(n, out, end)
}

fn glyph(digit: u64) -> u8
    requires { digit < 10 }
    ensures { result ≡ glyph_of digit }
{
    b'0' + digit as u8
}

// Writes the line of a refusal.
pub fn refused_line(number: u64, offset: u64, out: &mut [u8], at: usize) -> usize
    requires { at + 64 ≤ length out.old }
    ensures { Wrote out.old at (refused_line number offset) out.new result }
{
    let refused = word(b"refused", out, at);
    let numbered = spaced(number, out, refused);
    let placed = word(b" at", out, numbered);
    let end = spaced(offset, out, placed);
    byte(b'\n', out, end)
}

// A line of a word and values, each after a space.
pub fn line(name: &[u8], values: &[u64], out: &mut [u8], at: usize) -> usize
    requires { at + (length name.now + 21 * length values.now + 1) ≤ length out.old }
    ensures text { Wrote out.old at (line_text name.now values.now) out.new result }
    ensures few { result ≤ at + (length name.now + 21 * length values.now + 1) }
{
    let mut end = word(name, out, at);
    for value in values {
        end = spaced(*value, out, end);
    }
    byte(b'\n', out, end)
}
