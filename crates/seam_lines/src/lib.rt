// The lines of a row's seams.
#![tactic(auto)]

ghost use Rattle.std.specs.Prelude.{◌≡◌, [], ◌∷◌, ◌++◌, ◌+◌, ◌-◌, ◌*◌, ◌≤◌, ◌<◌, length, get_or};
ghost use Rattle.columns.specs.Marks.{marked, mark_bytes};
ghost use Rattle.seam.specs.Seam.{seam_of};
ghost use Rattle.lines.specs.Line.{line_end, halves_words, open_words, side_word};
ghost use Rattle.lines.specs.Row.{each_below, each_of, right_neighbours, seam_text};
ghost use Rattle.tables.specs.Word.{bytes, spaced, Tables};
ghost use Rattle.tile_lines.specs.Tile.{Coded};
ghost use Rattle.seam_lines.specs.Seam.{Numbers, seam_after, run_after};
ghost use Rattle.columns.specs.Wrote.{Wrote};

use columns::marked;
use seam::{Halves, LATEST, Seam, Side};
use settings::refusal::Refusal;
use words::head::Head;
use words::{column, put_first, sixteen_hexadecimal};

// The words of an open seam, the first byte lowest: `open` and a space, a side and the end of the line.
const OPEN: u64 = 0x20_6e65_706f;

const LEFT: u64 = 0x0a_7466_656c;

const RIGHT: u64 = 0x0a74_6867_6972;

const BOTH: u64 = 0x0a_6874_6f62;

// Writes the lines: by left and then right, so 0 and 2 stand after 0 and 1, and W - 3 and W - 1 before the
// last.
pub fn seams(
    tables: &[u64],
    width: usize,
    row: u64,
    marks: &[u8],
    times: &[u64],
    codes: &[u64],
    out: &mut [u8],
    at: usize,
) -> usize
    requires tables { Tables tables.now × (6 ≤ width) × (width ≤ 256) × (row ≤ 1024) × (length marks.now ≡ mark_bytes width) × (length times.now ≡ width) }
    requires width_in_bounds { (width ≤ length codes.now) × Coded codes.now marks.now times.now width × (at + 64 * (width + 1) ≤ length out.old) }
    ensures { Wrote out.old at (each_below width (λ a. each_of (right_neighbours width a) (seam_text row marks.now times.now a))) out.new result }
{
    let head = Head::of(115, row);
    let last = width - 1;
    let a = run(tables, head, marks, times, codes, 1, 1, 2, out, at);
    let b = run(tables, head, marks, times, codes, 2, 2, 3, out, a);
    let c = run(tables, head, marks, times, codes, 1, 2, last, out, b);
    let d = run(tables, head, marks, times, codes, 2, last, width, out, c);
    run(tables, head, marks, times, codes, 1, last, width, out, d)
}

// The lines of the seams of columns as far apart as `gap`, the right ones `from` on and before `to`.
fn run(
    tables: &[u64],
    head: Head,
    marks: &[u8],
    times: &[u64],
    codes: &[u64],
    gap: usize,
    from: usize,
    to: usize,
    out: &mut [u8],
    at: usize,
) -> usize
    requires tables { Tables tables.now × (head.length ≤ 7) × (length times.now ≤ 256) × (length marks.now ≡ mark_bytes (length times.now)) }
    requires times_in_bounds { (length times.now ≤ length codes.now) × Coded codes.now marks.now times.now (length times.now) }
    requires gap_le_from { (gap ≤ from) × (from ≤ to) × (to ≤ length times.now) × (at + 49 * (to - from) ≤ length out.old) }
    ensures { Wrote out.old at (run_after (bytes head.length head.word) marks.now times.now gap from (to - from)) out.new result }
{
    let mut end = at;
    for b in from..to {
        end = seam(tables, head, marks, times, codes, b - gap, b, out, end);
    }
    end
}

// The line of a seam. One that is turned away has none.
fn seam(
    tables: &[u64],
    head: Head,
    marks: &[u8],
    times: &[u64],
    codes: &[u64],
    a: usize,
    b: usize,
    out: &mut [u8],
    at: usize,
) -> usize
    requires tables { Tables tables.now × (head.length ≤ 7) × (a < length times.now) × (b < length times.now) × (length times.now ≤ 256) }
    requires marks_len { (length marks.now ≡ mark_bytes (length times.now)) × (length times.now ≤ length codes.now) × Coded codes.now marks.now times.now (length times.now) × (at + 49 ≤ length out.old) }
    ensures { Wrote out.old at (seam_after (bytes head.length head.word) a b (seam_of (get_or times.now a 0) (marked marks.now a) (get_or times.now b 0) (marked marks.now b))) out.new result }
{
    let answer = joined(marks, times, codes, a, b);
    let words = labels(tables, head, a, b, out, at);
    match answer {
        Ok(Seam::Closed(halves)) => closed_words(tables, halves, out, words),
        Ok(Seam::Open(faulty)) => open_words(faulty, out, words),
        Err(_) => at,
    }
}

// The seam of two columns. Two codes in time are the times of correct tiles, and most are.
fn joined(marks: &[u8], times: &[u64], codes: &[u64], a: usize, b: usize) -> Result<Seam, Refusal>
    requires a_in_bounds { (a < length times.now) × (b < length times.now) × (length times.now ≤ 256) × (length marks.now ≡ mark_bytes (length times.now)) }
    requires times_in_bounds { (length times.now ≤ length codes.now) × Coded codes.now marks.now times.now (length times.now) }
    ensures { result ≡ seam_of (get_or times.now a 0) (marked marks.now a) (get_or times.now b 0) (marked marks.now b) }
{
    let left = codes[a];
    let right = codes[b];
    if left <= LATEST && right <= LATEST {
        return seam::join(left, false, right, false);
    }
    let left_faulty = marked(marks, a);
    let right_faulty = marked(marks, b);
    seam::join(times[a], left_faulty, times[b], right_faulty)
}

// What the line of a seam begins with: the row's head and the two columns.
fn labels(tables: &[u64], head: Head, a: usize, b: usize, out: &mut [u8], at: usize) -> usize
    requires { Tables tables.now × (head.length ≤ 7) × (a ≤ 255) × (b ≤ 255) × (at + 19 ≤ length out.old) }
    ensures wrote { Wrote out.old at (bytes head.length head.word ++ spaced a ++ spaced b) out.new result }
    ensures upper_bound { result ≤ at + 15 }
{
    let first = put_first(head.word, head.length, out, at);
    let second = column(tables, a, out, first);
    column(tables, b, out, second)
}

// The words of a closed seam. The last digits of the half gap are mostly zeros.
fn closed_words(tables: &[u64], halves: Halves, out: &mut [u8], at: usize) -> usize
    requires { Tables tables.now × Numbers halves × (at + 34 ≤ length out.old) }
    ensures { Wrote out.old at (halves_words halves ++ (line_end ∷ [])) out.new result }
{
    let next = sixteen_hexadecimal(tables, f64::to_bits(halves.midpoint), false, b' ', out, at);
    sixteen_hexadecimal(
        tables,
        f64::to_bits(halves.half_gap),
        true,
        b'\n',
        out,
        next,
    )
}

// The words of an open seam.
fn open_words(faulty: Side, out: &mut [u8], at: usize) -> usize
    requires { at + 13 ≤ length out.old }
    ensures { Wrote out.old at (open_words faulty ++ (line_end ∷ [])) out.new result }
{
    let side = side_word(faulty);
    let next = put_first(OPEN, 5, out, at);
    put_first(side.word, side.length, out, next)
}

// The side that is faulty, and the end of the line.
fn side_word(faulty: Side) -> Head
    ensures { (bytes result.length result.word ≡ side_word faulty ++ (line_end ∷ [])) × (result.length ≤ 6) }
{
    match faulty {
        Side::Left => Head {
            word: LEFT,
            length: 5,
        },
        Side::Right => Head {
            word: RIGHT,
            length: 6,
        },
        Side::Both => Head {
            word: BOTH,
            length: 5,
        },
    }
}
