// Tables, as slices of numbers: a state and a record are eight each, and a state has zeros where its slice is too short.
ghost use Rattle.std.specs.Prelude.{◌≡◌, ◌+◌, ◌*◌, ◌≤◌, length, get_or};
ghost use Rattle.record.specs.Survey.{held_in};
ghost use Rattle.graph_test.specs.Numbers.{state_from, record_from, survey_from};

use geometry::State;
use record::{Record, Survey};

// The number at i, and 0 past the end.
fn at(numbers: &[u64], i: usize) -> u64
    ensures { result ≡ get_or numbers.now i 0 }
{
    numbers.get(i).copied().unwrap_or(0)
}

#[tactic(auto, unfolding(crate::specs::Numbers::state_from))]
fn state(numbers: &[u64]) -> State
    ensures { result ≡ state_from numbers.now }
{
    State {
        cards: at(numbers, 0),
        stripes: at(numbers, 1),
        block: at(numbers, 2),
        records: at(numbers, 3),
        layout: at(numbers, 4),
        out: at(numbers, 5),
        lost: at(numbers, 6),
        fill: at(numbers, 7),
    }
}

// The record of the eight numbers from 8·i on.
#[tactic(auto, unfolding(crate::specs::Numbers::record_from))]
fn record(numbers: &[u64], i: usize) -> Record
    requires { (i ≤ 8) × (8 * i + 8 ≤ length numbers.now) }
    ensures { result ≡ record_from numbers.now i }
{
    let first = 8 * i;
    Record {
        phase: numbers[first],
        write: numbers[first + 1],
        stripe: numbers[first + 2],
        mask: numbers[first + 3],
        graph: numbers[first + 4],
        chosen: numbers[first + 5],
        done: numbers[first + 6],
        count: numbers[first + 7],
    }
}

// What one look at the table of all whole records finds. (By number and no `chunks_exact`: `seen` takes the record's number, and
// `record_from` goes by it.)
fn survey(numbers: &[u64], all: &[u64]) -> Survey
    ensures { result ≡ survey_from numbers.now all.now }
{
    let state = state(numbers);
    let len = (all.len() / 8) as u64;
    let top = Survey::to_see(state, len);
    let mut survey = Survey::started(state, len);
    for i in 0..top {
        let r = record(all, i as usize);
        survey = survey.seen(state, i, r);
    }
    survey
}

#[unsafe(no_mangle)]
pub extern "C" fn table_test_sound(numbers: &[u64], all: &[u64]) -> bool
    ensures { result ≡ (survey_from numbers.now all.now).sound }
{
    survey(numbers, all).sound
}

#[unsafe(no_mangle)]
pub extern "C" fn table_test_lowest_free(numbers: &[u64], all: &[u64]) -> u64
    ensures { result ≡ (survey_from numbers.now all.now).free }
{
    survey(numbers, all).free
}

#[unsafe(no_mangle)]
pub extern "C" fn table_test_held(numbers: &[u64], all: &[u64], stripe: u64) -> bool
    ensures { result ≡ held_in (survey_from numbers.now all.now) stripe }
{
    survey(numbers, all).is_held(stripe)
}
