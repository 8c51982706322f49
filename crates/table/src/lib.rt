// The table of request records as the caller lends it: thin functions that count it, read one record, look at all, replace one and free all.
// Assumes nothing.
#![tactic(auto)]

ghost use Rattle.std.specs.Prelude.{◌≡◌, length, get_or, set, replicate, cond};
ghost use Rattle.record.specs.Life.{free};
ghost use Rattle.record.specs.Survey.{survey_but};

use geometry::State;
use record::{Record, Survey};

// A number that is no place of a table that is looked at: a survey that leaves it out leaves no record out. (No Option: `survey_but` is of numbers.)
pub const NO_PLACE: u64 = 8;

// How many records the table has.
pub fn count(table: &[Record]) -> u64
    ensures { result ≡ length table.now }
{
    table.len() as u64
}

// The record at i, and the free record past the end.
pub fn at(table: &[Record], i: u64) -> Record
    ensures { result ≡ get_or table.now i free }
{
    table.get(i as usize).copied().unwrap_or_default()
}

// The record at i is replaced; past the end nothing is. By an index: of what a slice's get_mut lends, a proof knows no element after the write.
pub fn replace(table: &mut [Record], i: u64, r: Record)
    ensures { table.new ≡ set table.old i r }
{
    let i = i as usize;
    if i < table.len() {
        table[i] = r;
    }
}

// What one look at the rest of the table finds, with a record left out; with none, where that is NO_PLACE.
#[tactic(auto, using(record::proofs::Rest::seen_rest, record::proofs::Surveyed::survey_is, record::proofs::Surveyed::to_see_most), unfolding(record::specs::Seen::seen_to))]
pub fn surveyed(table: &[Record], state: State, but: u64) -> Survey
    ensures { result ≡ survey_but state table.now but }
{
    let n = count(table);
    let top = Survey::to_see(state, n) as usize;
    let mut survey = Survey::started(state, n);
    for (i, r) in table[..top].iter().enumerate() {
        survey = survey.seen_but(state, i as u64, *r, but);
    }
    survey
}

// Every record is freed, where that is asked. (By a yes or no, so that open has no branch: docs/DECISIONS.md, 26.)
pub fn freed(table: &mut [Record], asked: bool)
    ensures { table.new ≡ cond asked (replicate (length table.old) free) table.old }
{
    if asked {
        table.fill(record::free());
    }
}
