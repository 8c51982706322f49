// The calls as the caller makes them: lent the table of request records where it stands, and for a report, a start and a rebuild the state. A
// refused call alters nothing that it is lent. (What is lent goes from call to call one by one: each lends by `&` what it leaves alone, which one struct of
// all that is lent would not show.)
// Assumes nothing.
#![tactic(auto)]

ghost use Rattle.std.specs.Prelude.{◌≡◌, eqb, set};
ghost use Rattle.terms.specs.Reply.{done_reply};
ghost use Rattle.array.specs.Admission.{admission};
ghost use Rattle.array.specs.Collection.{collection};
ghost use Rattle.array.specs.Opening.{opening};
ghost use Rattle.array.specs.Rebuilding.{rebuilding};
ghost use Rattle.array.specs.Scan.{scan_reply};
ghost use Rattle.array.specs.Stepping.{stepping};
ghost use Rattle.calls.specs.Lent.{OpeningLent, AdmissionLent, SteppingLent, CollectionLent, RebuildingLent};
ghost use Rattle.geometry.specs.Fill.{StartingIs, starting};
ghost use Rattle.geometry.specs.Report.{ReportingIs, reporting, state_reply};

use array::answers::{Changed, Stepped};
use geometry::{Geometry, State};
use record::Record;
use table::{NO_PLACE, at, count, freed, replace, surveyed};
use terms::Refusal;

// Puts the record that a call changed in its place, and hands on what the call answers.
fn put<A>(table: &mut [Record], changed: Changed<A>) -> A
    ensures answer { result ≡ changed.answer }
    ensures table { table.new ≡ set table.old changed.place changed.«record» }
{
    replace(table, changed.place, changed.record);
    changed.answer
}

// Whether an opening is accepted.
pub fn is_open(answer: Result<State, Refusal>) -> bool
    ensures { result ≡ eqb (state_reply answer).number 0 }
{
    match answer {
        Ok(_) => true,
        Err(_) => false,
    }
}

// Opens an array: the new state. Where it is accepted, every record is freed.
pub fn open(
    geometry: Geometry,
    out: u64,
    table: &mut [Record],
    work: &[u8],
    image: &[u8],
) -> Result<State, Refusal>
    ensures { OpeningLent (opening geometry out table.old work.now image.now) result table.new }
{
    let len = count(table);
    let opened = array::open_by(geometry, out, len, work, image);
    freed(table, is_open(opened));
    opened
}

// Admits a request of a stripe and a mask of units, which takes the lowest free record.
pub fn admit(
    state: State,
    table: &mut [Record],
    work: &mut [u8],
    image: &[u8],
    write: bool,
    stripe: u64,
    mask: u64,
    payload: &[u8],
) -> Result<u64, Refusal>
    ensures { AdmissionLent (admission state table.old work.old image.now write stripe mask payload.now) result table.new work.new }
{
    let survey = surveyed(table, state, NO_PLACE);
    let changed = array::admit_by(state, survey, work, image, write, stripe, mask, payload)?;
    Ok(put(table, changed))
}

// Does step k of record i, or chooses its graph afresh.
pub fn step(
    state: State,
    table: &mut [Record],
    work: &mut [u8],
    image: &mut [u8],
    i: u64,
    k: u64,
) -> Result<Stepped, Refusal>
    ensures { SteppingLent (stepping state table.old work.old image.old i k) result table.new work.new image.new }
{
    let survey = surveyed(table, state, i);
    let r = at(table, i);
    let changed = array::step_by(state, survey, r, work, image, i, k)?;
    Ok(put(table, changed))
}

// Marks a card out, or the array lost, where the state stands.
pub fn report(state: &mut State, card: u64) -> Result<(), Refusal>
    ensures { ReportingIs (reporting state.old card) result state.new }
{
    *state = state.report(card)?;
    Ok(())
}

// Begins a fill of the fresh card in the sleeve that is out, where the state stands.
pub fn start(state: &mut State) -> Result<(), Refusal>
    ensures { StartingIs (starting state.old) result state.new }
{
    *state = state.start()?;
    Ok(())
}

// Collects finished record i, which is freed: a read's units go to the front of the result buffer.
pub fn collect(
    state: State,
    table: &mut [Record],
    work: &[u8],
    i: u64,
    res: &mut [u8],
) -> Result<u64, Refusal>
    ensures { CollectionLent (collection state table.old work.now i res.old) result table.new res.new }
{
    let survey = surveyed(table, state, i);
    let r = at(table, i);
    let changed = array::collect_by(state, survey, r, work, i, res)?;
    Ok(put(table, changed))
}

// Scans the stripes that no open request holds.
#[tactic(auto, using(crate::proofs::BySurvey::scan_lent))]
pub fn scan(state: State, table: &[Record], image: &[u8]) -> Result<(), Refusal>
    ensures { done_reply result ≡ scan_reply state table.now image.now }
{
    let survey = surveyed(table, state, NO_PLACE);
    array::scan_by(state, survey, image)
}

// Fills the stripe at the fill place on the fresh card, and moves the fill on where the state stands. The state is stored before the block is
// written, so that the next call need not wait for the block's way to its card.
pub fn rebuild(state: &mut State, table: &[Record], image: &mut [u8]) -> Result<u64, Refusal>
    ensures { RebuildingLent (rebuilding state.old table.now image.old) result state.new image.new }
{
    let old = *state;
    let survey = surveyed(table, old, NO_PLACE);
    let filled = array::rebuild_next(old, survey, image)?;
    *state = filled.state;
    array::rebuild_image(old, Ok(filled.stripe), image);
    Ok(filled.stripe)
}
