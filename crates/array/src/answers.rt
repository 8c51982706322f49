// What the calls answer where they are accepted; refused, each answers the refusal. specs/Answers.antt sets out the paper's number and values.
use geometry::State;
use record::Record;

// Of step: done, or chosen afresh with the new graph's number. (The number, as the record holds it: a step answers any record, sound or not, and
// `step_values` is of the number.)
#[derive(Clone, Copy, Debug, PartialEq, Eq)]
pub enum Stepped {
    Done,
    Chosen(u64),
}

// What an accepted call on the table changes: what it answers, the record that stands after it, and its place.
#[derive(Clone, Copy, Debug, PartialEq, Eq)]
pub struct Changed<A> {
    pub answer: A,
    pub place: u64,
    pub record: Record,
}

// What a rebuild step fills: the stripe, and the state after it.
#[derive(Clone, Copy, Debug, PartialEq, Eq)]
pub struct Filled {
    pub stripe: u64,
    pub state: State,
}
