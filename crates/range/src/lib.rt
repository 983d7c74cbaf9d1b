// The search range of a wall file as a whole: what is told of any bytes and of a wall without faults, and that it covers any
// broken tile. Theorems only: specs/ has the definitions and the statements, proofs/ their proofs.
#![tactic(auto)]
