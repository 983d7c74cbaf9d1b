// The forwarding rule: a tile's clock, P from the stamps of its predecessors, and the letter of what fixed it.
//
// These are parts that the tile and the row share. They ask that their caller has checked the settings and
// the stamps.
#![tactic(auto)]

pub mod clock;
pub mod forwarding;
pub mod letter;
