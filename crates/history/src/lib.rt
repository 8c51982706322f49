// Demand 3: whole histories of an array, the plain row that they are held to, and what is promised at their end.
// There is no function here: specs/ says what can happen and what is promised, proofs/ that the promise holds.
#![tactic(auto)]
