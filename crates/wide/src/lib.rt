// The first wide seam of a row: what answers, in the order of the printed lines, and that it is the first. Theorems only but for the
// type of the answer: specs/ has the definitions and the statements, proofs/ their proofs; the operation is `wide_rows::first_wide`.
#![tactic(auto)]

// Its columns, and its half gap in half ticks, the sign dropped.
#[derive(Clone, Copy)]
pub struct Wide {
    pub left: u64,
    pub right: u64,
    pub half_ticks: u64,
}
