// The forwarding rule on plain numbers, in constant time. A stamp here is 0 to 2^42, or SILENT.
ghost use Rattle.std.specs.Prelude.{◌≡◌, cond, ◌≤◌, ◌<◌, min, max, ltb, leb};
ghost use Rattle.rule.specs.Stamp.{stamp_of};
ghost use Rattle.rule.specs.Letter.{letter};
ghost use Rattle.rule.specs.Closed.{middle, closed_P, Forwardable};
ghost use Rattle.rule.specs.declared.letter.Letter.TheVariants.{Kept, Early, Back, Late};

use crate::letter::Letter;

// Later than every stamp, so that the smaller and the larger of two stamps are the earlier and the
// later one. It is a number and no Option since a link's word is it (C), and a pulse compares stamps as they stand.
pub const SILENT: u64 = u64::MAX;

// The latest stamp that an operation accepts, and the latest time of a seam.
pub const LATEST: u64 = 2_199_023_255_551;

// The stamp that decides, from the earliest to the latest neighbour's.
fn middle(unit: u64, least: u64, most: u64) -> u64
    requires { (0 < unit) × (unit ≤ 62500) × (least ≤ most) × (most ≤ 4398046511104) }
    ensures { result ≡ middle unit least most }
{
    let gap = most - least;
    let half = 8 * unit;
    let turn = 16 * unit;
    if gap < turn {
        return least + gap.saturating_sub(half);
    }
    least + half * (gap / turn) + (gap % turn).saturating_sub(half)
}

// P, the stamp that a tile adopts, and what fixed it.
#[derive(Clone, Copy)]
pub struct Fixed {
    pub p: u64,
    pub letter: Letter,
}

// From own's stamp and the earliest and latest of the neighbours'. Each test gives P and the letter at once.
pub fn adopted(unit: u64, step: u64, own: u64, least: u64, most: u64) -> Fixed
    requires { Forwardable unit step own least most }
    ensures p { result.p ≡ closed_P unit step (stamp_of own) (stamp_of least) (stamp_of most) }
    ensures letter { result.letter ≡ letter unit step (stamp_of own) (stamp_of least) (stamp_of most) }
{
    if own == SILENT {
        let late = most + 3 * unit;
        return Fixed {
            p: late,
            letter: Letter::Late,
        };
    }
    // What own waits for, where it is early.
    let early = least.saturating_sub(3 * unit);
    if most == SILENT {
        return kept_or_early(own, early);
    }
    let decided = middle(unit, least, most) + unit;
    if own < decided {
        return kept_or_early(own, early);
    }
    if own <= decided + step {
        return Fixed {
            p: decided,
            letter: Letter::Middle,
        };
    }
    let back = own - step;
    let late = most + 3 * unit;
    back_or_late(back, late)
}

// Own, or what it waits for.
fn kept_or_early(own: u64, early: u64) -> Fixed
    ensures p { result.p ≡ max own early }
    ensures letter { result.letter ≡ cond (ltb own early) Early Kept }
{
    if own < early {
        Fixed {
            p: early,
            letter: Letter::Early,
        }
    } else {
        Fixed {
            p: own,
            letter: Letter::Kept,
        }
    }
}

// Own less J, or the latest neighbour and 3h where that is earlier.
fn back_or_late(back: u64, late: u64) -> Fixed
    ensures p { result.p ≡ min late back }
    ensures letter { result.letter ≡ cond (leb back late) Back Late }
{
    if back <= late {
        Fixed {
            p: back,
            letter: Letter::Back,
        }
    } else {
        Fixed {
            p: late,
            letter: Letter::Late,
        }
    }
}
