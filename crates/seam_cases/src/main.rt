// Joins the pairs of the wall that is printed whole, odd gaps, both ends of the range, and a seam
// for each way of being open or turned away, as the file `stdin` lists them. Each line says what the
// requirements give, a closed seam's as the bits of the midpoint and of the half gap, and whether
// the operation answered that.
#![tactic(auto)]

use cases::Case;
use seam::{Seam, Side};
use std::io;

fn main(rt: HostRuntime) -> io::Result<()> {
    cases::run(&rt, |out, case| case.report(out, right(case)))
}

// Whether the operation answers what a case says.
fn right(case: &Case<'_>) -> bool {
    let [left, left_faulty, right, right_faulty, first, second] = case.numbers else {
        return false;
    };
    match seam::join(*left, *left_faulty != 0, *right, *right_faulty != 0) {
        Ok(Seam::Closed(halves)) => {
            case.kind == b'c' && bits(halves.midpoint) == *first && bits(halves.half_gap) == *second
        }
        Ok(Seam::Open(faulty)) => case.kind == b'o' && number(faulty) == *first && *second == 0,
        Err(refusal) => {
            case.kind == b'r' && u64::from(refusal.number()) == *first && *second == 0
        }
    }
}

// The number of a side in the file.
fn number(faulty: Side) -> u64 {
    match faulty {
        Side::Left => 1,
        Side::Right => 2,
        Side::Both => 3,
    }
}

// The bit pattern, all ones for what is no number.
fn bits(x: f64) -> u64 {
    if x.is_nan() { u64::MAX } else { x.to_bits() }
}
