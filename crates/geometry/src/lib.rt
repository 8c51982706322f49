// The array's shape: its numbers by value, their limits, placement both ways, and where blocks stand.
// Assumes nothing.
#![tactic(auto)]

pub use limits::{LEVEL_4, LEVEL_5, NO_FILL, NO_STRIPE, NONE, legal};
pub use placement::{card_at, missing_at};

mod fill;
mod limits;
mod parts;
mod placement;
mod report;
mod store;

// The numbers an array is opened with: cards (N), stripes (S), bytes in a block (B), request records (K), and the layout (4 or 5).
#[repr(C)]
#[derive(Clone, Copy, Debug, Default, PartialEq, Eq)]
pub struct Geometry {
    pub cards: u64,
    pub stripes: u64,
    pub block: u64,
    pub records: u64,
    pub layout: u64,
}

// An open array: its geometry, the card that is out (255: none), the mark of a lost array (0: not lost), and the fill place, the stripe of the fresh
// card in that sleeve that is filled next (65,535: no fill is under way). (The geometry's numbers stand in it one by one: C lends it so,
// `coppicetune_state`, and the clause of `recorder::coppicetune_scan` names them so.)
#[repr(C)]
#[derive(Clone, Copy, Debug, Default, PartialEq, Eq)]
pub struct State {
    pub cards: u64,
    pub stripes: u64,
    pub block: u64,
    pub records: u64,
    pub layout: u64,
    pub out: u64,
    pub lost: u64,
    pub fill: u64,
}

// Where a block is: its card and its stripe.
#[derive(Clone, Copy, Debug, PartialEq, Eq)]
pub struct Placed {
    pub card: u64,
    pub stripe: u64,
}

// What a card holds in a stripe: a block, by its number, or parity.
#[derive(Clone, Copy, Debug, PartialEq, Eq)]
pub enum Held {
    Block(u64),
    Parity,
}
