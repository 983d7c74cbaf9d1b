// Whole runs: lists of row calls, the reach of a broken tile, waves that start later, and how late a pulse can
// be. Theorems only: specs/ has the statements, proofs/ their proofs.
#![tactic(auto)]
