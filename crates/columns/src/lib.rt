// Where a tile's predecessors and links stand. The predecessors of a tile are three or four
// adjacent columns: three, and one more where the column is the third from an end.
//
// A width, a column and marks stay parameters: callers hold them as such, and would build a struct for two or three calls.
#![tactic(auto)]

ghost use Rattle.std.specs.Prelude.{◌≡◌, true, ◌+◌, ◌≤◌, ◌<◌, ◌/◌, length};
ghost use Rattle.columns.specs.Columns.{links_before};
ghost use Rattle.columns.specs.Window.{first_sender, four_senders};
ghost use Rattle.columns.specs.Marks.{marked, mark_bytes};
ghost use Rattle.columns.specs.Plain.{Quiet, Plain};

// The first predecessor's column.
pub fn first_sender(width: usize, c: usize) -> usize
    requires { (6 ≤ width) × (c < width) × (width ≤ 256) }
    ensures { result ≡ first_sender width c }
{
    if c <= 2 {
        return 0;
    }
    if width - 2 <= c {
        return width - 3;
    }
    c - 1
}

// Whether the tile has four predecessors.
pub fn four_senders(width: usize, c: usize) -> bool
    requires { (6 ≤ width) × (c < width) × (width ≤ 256) }
    ensures { result ≡ four_senders width c }
{
    c == 2 || c == width - 3
}

// The place of the tile's first link.
pub fn first_link(width: usize, c: usize) -> usize
    requires { (6 ≤ width) × (c < width) × (width ≤ 256) }
    ensures { result ≡ links_before width c }
{
    if c <= 2 {
        return 3 * c;
    }
    if c <= width - 3 {
        return 3 * c + 1;
    }
    3 * c + 2
}

// Whether a column is marked faulty.
pub fn marked(marks: &[u8], c: usize) -> bool
    requires { c / 8 < length marks.now }
    ensures { result ≡ marked marks.now c }
{
    (marks[c / 8] >> (c % 8)) % 2 == 1
}

// Whether a byte with no mark starts at the column, before the last three columns. None of its eight
// tiles then has two faulty predecessors.
pub fn quiet(width: usize, marks: &[u8], c: usize) -> bool
    requires { (c < width) × (width ≤ 256) × (length marks.now ≡ mark_bytes width) }
    ensures { result ≡ true → Quiet width marks.now c }
{
    c % 8 == 0 && c + 11 <= width && marks[c / 8] == 0
}

// How many tiles from the column on are away from the ends and have correct predecessors only: eight
// where a byte starts and it and the columns beside it hold no mark, else those up to a mark or to the
// next byte.
pub fn plain(width: usize, marks: &[u8], c: usize) -> usize
    requires { (c < width) × (width ≤ 256) × (length marks.now ≡ mark_bytes width) }
    ensures { 0 < result → Plain width marks.now c result }
{
    if c < 3 || width <= c + 3 || marked(marks, c - 1) {
        return 0;
    }
    if quiet(width, marks, c) && !marked(marks, c + 8) {
        return 8;
    }
    if marked(marks, c) {
        return 0;
    }
    stretch(width, marks, c)
}

// The same where the column and the one before it are correct: each further one that is correct makes
// a tile more.
fn stretch(width: usize, marks: &[u8], c: usize) -> usize
    requires { (width ≤ 256) × (length marks.now ≡ mark_bytes width) × Plain width marks.now c 0 }
    ensures { Plain width marks.now c result }
{
    let most = to_next_byte(width, c);
    for n in 0..most {
        if marked(marks, c + n + 1) {
            return n;
        }
    }
    most
}

// How many columns there are up to the next byte of marks, or up to the last three.
fn to_next_byte(width: usize, c: usize) -> usize
    requires { (c + 2 < width) × (width ≤ 256) }
    ensures { c + result + 3 ≤ width }
{
    (8 - c % 8).min(width - 3 - c)
}
