// A seam: two neighbouring tiles of one row, closed with its midpoint and half gap, or open at a
// faulty side. `join` is the operation: it answers every input.
#![tactic(auto)]

ghost use Rattle.std.specs.Prelude.{◌≡◌, ◌≤◌};
ghost use Rattle.seam.specs.Seam.{latest, halves, late, seam_of};

use settings::refusal::Refusal;

// The midpoint and the half gap of a pair of pulse times.
#[derive(Clone, Copy)]
pub struct Halves {
    pub midpoint: f64,
    pub half_gap: f64,
}

// Which tile is faulty.
#[derive(Clone, Copy, Debug, PartialEq, Eq)]
pub enum Side {
    Left,
    Right,
    Both,
}

#[derive(Clone, Copy)]
pub enum Seam {
    Closed(Halves),
    Open(Side),
}

// The latest time that is accepted of a correct tile.
pub const LATEST: u64 = rule::forwarding::LATEST;

#[tactic(auto, unfolding(crate::specs::Seam::late, crate::specs::Seam::joined, crate::specs::Seam::seam_of))]
pub fn join(left: u64, left_faulty: bool, right: u64, right_faulty: bool) -> Result<Seam, Refusal>
    ensures { result ≡ seam_of left left_faulty right right_faulty }
{
    if late(left, left_faulty) || late(right, right_faulty) {
        return Err(Refusal::LateSide);
    }
    Ok(match (left_faulty, right_faulty) {
        (false, false) => Seam::Closed(Halves::of(left, right)),
        (true, false) => Seam::Open(Side::Left),
        (false, true) => Seam::Open(Side::Right),
        (true, true) => Seam::Open(Side::Both),
    })
}

// Whether a tile is correct and its time is over the latest.
#[tactic(auto, unfolding(crate::specs::Seam::late))]
fn late(time: u64, faulty: bool) -> bool
    ensures { result ≡ late time faulty }
{
    !faulty && LATEST < time
}

impl Halves {
    // Of a pair of checked times.
    fn of(left: u64, right: u64) -> Halves
        requires { (left ≤ latest) × (right ≤ latest) }
        ensures { result ≡ halves left right }
    {
        let sum = left as i64 + right as i64;
        let gap = right as i64 - left as i64;
        let whole_sum = sum as f64;
        let whole_gap = gap as f64;
        Halves {
            midpoint: whole_sum * 0.5,
            half_gap: whole_gap * 0.5,
        }
    }
}
