// The walk of a function's MIR by hand, where no generated proof serves: of a function that takes plain data, and that is lent structs or slices of structs.
// There is no function here: proofs/ has what every such walk shares, and says nothing of any crate. No function needs it now; docs/PORT.md names its
// theorems.
#![tactic(auto)]
