// Where things of a row stand: its seams in order, a column's mark, a link's value. Each operation answers
// every input.
#![tactic(auto)]

pub mod links;
pub mod marks;
pub mod seams;
