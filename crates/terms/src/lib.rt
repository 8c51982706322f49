// The plain words that every definition above is written in: a set as the bits of a number, the lowest place where a test
// holds, the first row of a table whose test holds, parts of a list; specs/ has the words, and proofs/ their laws. And why a
// call is refused, the one type of errors of all crates.
// Assumes nothing.
#![tactic(auto)]

pub use refusal::Refusal;

mod refusal;
