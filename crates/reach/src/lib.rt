// How far one broken tile reaches: what a search has to cover. `widest_gap` gives B of a row, `reach`
// the ticks and the columns so many rows later, `reach_in_row` those of a later row. Each answers every input.
#![tactic(auto)]

pub mod survey;

ghost use Rattle.std.specs.Prelude.{◌≡◌, ◌≤◌, ◌<◌, length};
ghost use Rattle.runs.specs.Reach.{widest_gap};
ghost use Rattle.settings.specs.Settings.{settings_refusal};
ghost use Rattle.reach.specs.Span.{first_within};
ghost use Rattle.reach.specs.Search.{gap_of, outside_wall, range_within, reach_of, reach_in_row};

use settings::Settings;
use settings::refusal::Refusal;

// In a later row no pulse differs by more ticks, and none before the first column or after the last.
#[derive(Clone, Copy)]
pub struct Range {
    pub ticks: u64,
    pub first: u64,
    pub last: u64,
}

// The largest gap that a row can have.
pub const GAP_MOST: u64 = rule::forwarding::LATEST;

// B, the largest difference between neighbouring pulses of the row.
pub fn widest_gap(settings: Settings, row: &[u64]) -> Result<u64, Refusal>
    ensures { result ≡ gap_of settings row.now }
{
    settings.check()?;
    if row.len() as u64 != settings.width {
        return Err(Refusal::Lengths);
    }
    Ok(widest(row))
}

// Of a tile of the column, so many rows after its own, where B of its row is the gap; none where that is no later row of the
// wall, no column of it, or a gap that no row has.
pub fn reach(settings: Settings, gap: u64, rows: u64, column: u64) -> Result<Option<Range>, Refusal>
    ensures { result ≡ reach_of settings gap rows column }
{
    settings.check()?;
    Ok(within(settings, gap, rows, column))
}

// Of a tile of the column in row f, in a later row of the wall, where B of row f is the gap.
pub fn reach_in_row(
    settings: Settings,
    gap: u64,
    f: u64,
    later: u64,
    column: u64,
) -> Result<Option<Range>, Refusal>
    ensures { result ≡ reach_in_row settings gap f later column }
{
    settings.check()?;
    if later <= f {
        return Ok(None);
    }
    if settings.rows < later {
        return Ok(None);
    }
    Ok(within(settings, gap, later - f, column))
}

// As `reach`, of settings that pass.
fn within(settings: Settings, gap: u64, rows: u64, column: u64) -> Option<Range>
    requires { settings_refusal settings ≡ 0 }
    ensures { result ≡ range_within settings gap rows column }
{
    if outside(settings, gap, rows, column) {
        return None;
    }
    let width = settings.width;
    let from_end = first(width, width - 1 - column, rows);
    let ticks = 2 * gap + 8 * settings.unit + (rows - 1);
    Some(Range {
        ticks,
        first: first(width, column, rows),
        last: width - 1 - from_end,
    })
}

fn outside(settings: Settings, gap: u64, rows: u64, column: u64) -> bool
    ensures { result ≡ outside_wall settings gap rows column }
{
    if rows == 0 {
        return true;
    }
    if settings.rows < rows {
        return true;
    }
    if settings.width <= column {
        return true;
    }
    GAP_MOST < gap
}

// The first column within so many hops.
fn first(width: u64, column: u64, hops: u64) -> u64
    requires { (2 ≤ width) × (hops ≤ 1024) }
    ensures { result ≡ first_within width column hops }
{
    if hops == 0 {
        return column;
    }
    let from = column.min(width - 2);
    if from < hops + 2 {
        return 0;
    }
    from - hops
}

fn widest(row: &[u64]) -> u64
    requires { (6 ≤ length row.now) × (length row.now ≤ 256) }
    ensures { result ≡ widest_gap (length row.now) row.now }
{
    let width = row.len();
    let first = row[0].abs_diff(row[2]);
    let last = row[width - 3].abs_diff(row[width - 1]);
    let mut most = first.max(last);
    for c in 1..width {
        most = most.max(row[c - 1].abs_diff(row[c]));
    }
    most
}
