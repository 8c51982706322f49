// The request record by value, and what one look finds at it or, record by record, at a table of up to eight.
// Assumes nothing.
#![tactic(auto)]

pub use life::{admitted, free};
pub use phase::Phase;
pub use sound::legal_mask;

mod life;
mod phase;
mod sound;
mod surveys;

// A request record. A free one is all zero. (Numbers, and no enums or Option: C lends it as `coppicetune_record`, and any number can stand there.
// `is_sound` says which are right.)
#[repr(C)]
#[derive(Clone, Copy, PartialEq, Eq, Default, Debug)]
pub struct Record {
    // the number of a Phase
    pub phase: u64,
    // read or write: 0, 1
    pub write: u64,
    pub stripe: u64,
    // bit i is unit i
    pub mask: u64,
    pub graph: u64,
    // the card that was out when the graph was chosen, or 255
    pub chosen: u64,
    // the done steps: bit k is step k
    pub done: u64,
    // the accepted steps since admission
    pub count: u64,
}

// What one look at a table finds: how many records it has, whether it is sound, the stripe that each of up to eight holds (or a number
// that is no stripe's), and the lowest free record (its length where none is free). (Flat, here and in Look, with a number for none: the definitions
// `survey_of` and `look_of`, and those of every call, are of these fields; docs/DECISIONS.md, 27 and 28.)
#[derive(Clone, Copy, PartialEq, Eq, Debug)]
pub struct Survey {
    pub len: u64,
    pub sound: bool,
    pub held: [u64; 8],
    pub free: u64,
}

// What one look at a record finds: whether it is sound, and, of a sound one that is not free, the position that was missing when its
// graph was chosen, the one that is missing now, the graph's steps and the positions that it reads; zeros of any other.
#[derive(Clone, Copy, PartialEq, Eq, Default, Debug)]
pub struct Look {
    pub sound: bool,
    pub x: u64,
    pub out: u64,
    pub steps: u64,
    pub reads: u64,
}
