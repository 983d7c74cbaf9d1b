// The first wide seam of a whole wall file: what answers, in the order of what is shown, that it is the first, and what a step tells of it.
// Theorems only: specs/ has the definitions and the statements, proofs/ their proofs.
#![tactic(auto)]
