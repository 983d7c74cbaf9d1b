// The largest reach over a wall. Its rows are handed in one after the other, from row 0 to the last but
// one, each with the largest reach so far.
ghost use Rattle.std.specs.Prelude.{◌≡◌};
ghost use Rattle.reach.specs.Survey.{surveyed_of};

use crate::{reach, widest_gap};
use settings::Settings;
use settings::refusal::Refusal;

// B of a row, and the largest reach with its own.
#[derive(Clone, Copy)]
pub struct Surveyed {
    pub gap: u64,
    pub largest: u64,
}

// None where that is no row before the last, or has a gap that no row has.
pub fn survey(
    settings: Settings,
    l: u64,
    largest: u64,
    row: &[u64],
) -> Result<Option<Surveyed>, Refusal>
    ensures { result ≡ surveyed_of settings l largest row.now }
{
    let gap = widest_gap(settings, row)?;
    match reach(settings, gap, settings.rows.saturating_sub(l), 0)? {
        Some(range) => Ok(Some(Surveyed {
            gap,
            largest: largest.max(range.ticks),
        })),
        None => Ok(None),
    }
}
