// The text that the layout program reads and writes: what an input asks for, and the line of a stripe. It shows layout 5.
// Assumes nothing.
#![tactic(auto)]

mod input;
mod line;
mod number;

pub use input::{Shape, read_input};
pub use line::write_line;
