// For tests alone: the graphs, records and tables as numbers, for a test in another language to call.
// Assumes nothing.
#![tactic(auto)]

mod graphs;
mod records;
