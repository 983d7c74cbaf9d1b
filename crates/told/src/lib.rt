// What a step of a wall file tells, whatever is asked: the wall as it then stands, a number that is kept for the
// next step, and text.
#![tactic(auto)]

use stages::Wall;

#[derive(Clone, Copy)]
pub struct Told {
    pub wall: Wall,
    pub kept: u64,
    // Where the text ends.
    pub end: usize,
}
