// The lines of a row's tiles.
#![tactic(auto)]

mod near;

ghost use Rattle.std.specs.Prelude.{◌≡◌, [], ◌∷◌, ◌⊎◌, ◌+◌, ◌*◌, ◌≤◌, ◌<◌, length};
ghost use Rattle.columns.specs.Marks.{mark_bytes};
ghost use Rattle.lines.specs.Number.{decimal};
ghost use Rattle.lines.specs.Line.{space, line_end};
ghost use Rattle.lines.specs.Row.{each_below, tile_text};
ghost use Rattle.tables.specs.Word.{bytes, Tables};
ghost use Rattle.tile_lines.specs.Near.{Serves, Right};
ghost use Rattle.tile_lines.specs.Tile.{Coded, tile_after, code as code_of};
ghost use Rattle.columns.specs.Wrote.{Wrote};

use crate::near::Near;
use columns::marked;
use lines::{byte, decimal, word};
use tables::{COLUMNS, LENGTHS};
use words::head::Head;
use words::{eight_digits, put};

// A code of a tile that is faulty, later than every time.
const FAULTY: u64 = 18_446_744_073_709_551_615;

// Where a line ends, and what served its time.
#[derive(Clone, Copy)]
struct Written {
    near: Near,
    end: usize,
}

// Writes the lines, and the codes of the tiles.
pub fn tiles(
    tables: &[u64],
    width: usize,
    row: u64,
    marks: &[u8],
    times: &[u64],
    letters: &[u8],
    codes: &mut [u64],
    out: &mut [u8],
    at: usize,
) -> usize
    requires tables { Tables tables.now × (width ≤ 256) × (row ≤ 1024) × (length marks.now ≡ mark_bytes width) × (length times.now ≡ width) × (length letters.now ≡ width) }
    requires width_in_bounds { (width ≤ length codes.old) × (at + 34 * width ≤ length out.old) }
    ensures wrote { Wrote out.old at (each_below width (tile_text row marks.now times.now letters.now)) out.new result }
    ensures coded { Coded codes.new marks.now times.now width }
{
    let head = Head::of(116, row);
    let mut near = Near::none();
    let mut end = at;
    for c in 0..width {
        let faulty = marked(marks, c);
        let time = times[c];
        let letter = letters[c];
        codes[c] = code(faulty, time);
        let written = tile(tables, head, near, c, faulty, time, letter, out, end);
        near = written.near;
        end = written.end;
    }
    end
}

fn code(faulty: bool, time: u64) -> u64
    ensures { result ≡ code_of faulty time }
{
    if faulty {
        return FAULTY;
    }
    time
}

// The line of a tile. A faulty one has no letter.
fn tile(
    tables: &[u64],
    head: Head,
    near: Near,
    column: usize,
    faulty: bool,
    time: u64,
    letter: u8,
    out: &mut [u8],
    at: usize,
) -> Written
    requires { Tables tables.now × Right near × (head.length ≤ 7) × (column ≤ 255) × (at + 34 ≤ length out.old) }
    ensures wrote { Wrote out.old at (tile_after (bytes head.length head.word) column faulty time letter) out.new result.end }
    ensures right { Right result.near }
{
    put(head.word, out, at);
    let begun = at + head.length;
    put(tables[COLUMNS + column], out, begun);
    let place = begun + tables[LENGTHS + column] as usize;
    if faulty {
        let end = word(b"-\n", out, place);
        return Written { near, end };
    }
    let served = near.to(time);
    let digits = near_digits(tables, served, time, out, place);
    let end = lettered(letter, out, digits);
    Written { near: served, end }
}

// A space, a letter and the end of the line.
fn lettered(letter: u8, out: &mut [u8], at: usize) -> usize
    requires { at + 3 ≤ length out.old }
    ensures { Wrote out.old at (space ∷ letter ∷ line_end ∷ []) out.new result }
{
    let spaced = byte(b' ', out, at);
    let next = byte(letter, out, spaced);
    byte(b'\n', out, next)
}

// The digits of a time that is served, and of any other.
fn near_digits(tables: &[u64], near: Near, time: u64, out: &mut [u8], at: usize) -> usize
    requires { Tables tables.now × ((near.span ≡ 0) ⊎ Serves near time) × (at + 20 ≤ length out.old) }
    ensures { Wrote out.old at (decimal time) out.new result }
{
    if near.span == 0 {
        return decimal(time, out, at);
    }
    let base = near.base;
    let eight = eight_digits(tables, (time - base) as u32);
    put(near.word, out, at);
    let middle = at + near.length;
    put(eight >> near.shift, out, middle);
    middle + near.digits
}
