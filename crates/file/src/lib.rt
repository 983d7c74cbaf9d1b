// The wall file as a whole: what is printed of any bytes, and what holds of a file that is accepted. Theorems
// only: specs/ has the definitions and the statements, proofs/ their proofs.
#![tactic(auto)]
