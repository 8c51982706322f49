// The graphs: which one a request takes, its steps, and what must come before each. n is the units of a stripe; x, the position missing
// (above n: none); g, the graph's number; done, the done steps; k, a step's number. A graph's number, the mask and the done steps may be
// any numbers.
// Assumes nothing.
#![tactic(auto)]

pub use bits::{after, has, part_of};
pub use choice::choose;
pub use named::{Graph, UnknownGraph};
pub use order::ready_by;
pub use plan::{Judged, Plan};
pub use steps::{Action, step_of};
pub use sums::{sums_to_read, taken_news};

mod bits;
mod choice;
mod named;
mod order;
mod plan;
mod sets;
mod steps;
mod sums;
mod units;
