// From the contracts to demand 3: what a client sees of the lent calls, and of the C functions, is a history of the array.
// There is no function here: specs/ says which outcomes the contracts allow and what a run of them is, proofs/ that the promise is kept.
#![tactic(auto)]
