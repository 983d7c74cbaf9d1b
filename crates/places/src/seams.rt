// The seams of a row by their place, 0 to W, in the order of the printed lines: by left column, then right.
ghost use Rattle.std.specs.Prelude.{◌≡◌, ◌≤◌, ◌<◌, length};
ghost use Rattle.columns.specs.Marks.{mark_bytes};
ghost use Rattle.places.specs.Seams.{seam_left, seam_right, columns_of, other_lengths, between, seam_at};

use columns::marked;
use seam::Seam;
use settings::Settings;
use settings::refusal::Refusal;

// The columns of a seam.
#[derive(Clone, Copy)]
pub struct Columns {
    pub left: u64,
    pub right: u64,
}

// A seam of a row with its columns, or the refusal of its times.
#[derive(Clone, Copy)]
pub struct RowSeam {
    pub left: u64,
    pub right: u64,
    pub seam: Result<Seam, Refusal>,
}

// The columns of a row's seam; none where the row has no such seam.
pub fn columns_of(settings: Settings, i: u64) -> Result<Option<Columns>, Refusal>
    ensures { result ≡ columns_of settings i }
{
    settings.check()?;
    let width = settings.width;
    if width < i {
        return Ok(None);
    }
    Ok(Some(Columns {
        left: left(width, i),
        right: right(width, i),
    }))
}

// The seam with its columns, of a row of W times and its marks; none where the row has no such seam.
pub fn row_seam(
    settings: Settings,
    times: &[u64],
    marks: &[u8],
    i: u64,
) -> Result<Option<RowSeam>, Refusal>
    ensures { result ≡ seam_at settings times.now marks.now i }
{
    settings.check()?;
    let width = settings.width;
    if other_lengths(width as usize, times.len(), marks.len()) {
        return Err(Refusal::Lengths);
    }
    if width < i {
        return Ok(None);
    }
    Ok(Some(between(
        times,
        marks,
        left(width, i) as usize,
        right(width, i) as usize,
    )))
}

// The seam of two columns.
fn between(times: &[u64], marks: &[u8], a: usize, b: usize) -> RowSeam
    requires { (length marks.now ≡ mark_bytes (length times.now)) × (a < length times.now) × (b < length times.now) × (length times.now ≤ 256) }
    ensures { result ≡ between times.now marks.now a b }
{
    let left_faulty = marked(marks, a);
    let right_faulty = marked(marks, b);
    RowSeam {
        left: a as u64,
        right: b as u64,
        seam: seam::join(times[a], left_faulty, times[b], right_faulty),
    }
}

// 21: other lengths than the row's.
pub fn other_lengths(width: usize, times: usize, marks: usize) -> bool
    requires { width ≤ 256 }
    ensures { result ≡ other_lengths width times marks }
{
    if times != width {
        return true;
    }
    marks != (width + 7) / 8
}

pub fn left(width: u64, i: u64) -> u64
    requires { (6 ≤ width) × (width ≤ 256) × (i ≤ width) }
    ensures is { result ≡ seam_left width i }
    ensures inside { result < width }
{
    if i < 2 {
        return 0;
    }
    if i + 1 < width {
        return i - 1;
    }
    i - 2
}

pub fn right(width: u64, i: u64) -> u64
    requires { (6 ≤ width) × (width ≤ 256) × (i ≤ width) }
    ensures is { result ≡ seam_right width i }
    ensures inside { result < width }
{
    if i < 2 {
        return i + 1;
    }
    if i < width {
        return i;
    }
    width - 1
}
