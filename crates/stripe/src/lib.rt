// One stripe with at most one open request: the heart of demand 3, for every number of units and every order of steps.
// There is no function here: specs/ says what a stripe holds and what happens to it, proofs/ that nothing is lost.
#![tactic(auto)]
