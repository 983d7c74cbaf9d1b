// The lines of a row, written into a lent buffer: its tiles, then its seams.
#![tactic(auto)]

ghost use Rattle.std.specs.Prelude.{◌≡◌, ◌+◌, ◌≤◌, length};
ghost use Rattle.columns.specs.Marks.{mark_bytes};
ghost use Rattle.lines.specs.Row.{row_text, row_room};
ghost use Rattle.columns.specs.Wrote.{Wrote};
ghost use Rattle.tables.specs.Word.{Tables};

use seam_lines::seams;
use tile_lines::tiles;

// Writes the lines of a row: its tiles, then its seams. `table::fill` makes the tables.
pub fn row_lines(
    tables: &[u64],
    width: usize,
    row: u64,
    marks: &[u8],
    times: &[u64],
    letters: &[u8],
    out: &mut [u8],
    at: usize,
) -> usize
    requires tables { Tables tables.now × (6 ≤ width) × (width ≤ 256) × (row ≤ 1024) }
    requires marks_len { (length marks.now ≡ mark_bytes width) × (length times.now ≡ width) × (length letters.now ≡ width) × (at + row_room width ≤ length out.old) }
    ensures { Wrote out.old at (row_text width row marks.now times.now letters.now) out.new result }
{
    let mut codes = [0u64; 256];
    let end = tiles(
        tables, width, row, marks, times, letters, &mut codes, out, at,
    );
    seams(tables, width, row, marks, times, &codes, out, end)
}
