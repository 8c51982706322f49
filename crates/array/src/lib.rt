// The calls on an array: open, admit, step, collect, scan and rebuild, by a survey of the table, or its length, for whoever lends it.
// (Report and start are lent the state alone, and are methods of it. What is lent goes one by one, as in `calls`, whose header says why.)
// Assumes nothing.
#![tactic(auto)]

pub use admits::admit_by;
pub use collects::collect_by;
pub use opens::open_by;
pub use rebuilds::{rebuild_by, rebuild_image, rebuild_next};
pub use scans::scan_by;
pub use stepping::step_by;

mod admits;
pub mod answers;
mod collects;
mod opens;
mod performs;
mod places;
mod rebuilds;
mod refusals;
mod scans;
mod stepping;
mod sums;
