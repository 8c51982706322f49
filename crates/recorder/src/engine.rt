// The whole engine for C programs: the state and the table are lent as structs of C's layout; `recorder_c` takes each slice as a pointer and a length.
// (The numbers of an array come one by one, and whether a request writes as a number, as the header gives them to C.)
// Assumes nothing.
ghost use Rattle.std.specs.Prelude.{not, ◌≡◌, eqb};
ghost use Rattle.array.specs.Admission.{admission};
ghost use Rattle.array.specs.Collection.{collection};
ghost use Rattle.array.specs.Opening.{opening};
ghost use Rattle.array.specs.Rebuilding.{rebuilding};
ghost use Rattle.array.specs.Scan.{scan_reply};
ghost use Rattle.array.specs.Stepping.{stepping};
ghost use Rattle.geometry.specs.Fill.{starting};
ghost use Rattle.geometry.specs.Report.{reporting};
ghost use Rattle.recorder.specs.Packing.{packed};
ghost use Rattle.recorder.specs.Engine.{OpeningPacked, AdmissionPacked, SteppingPacked, ReportingPacked, StartingPacked, CollectionPacked, RebuildingPacked};

use crate::packing::packed;
use geometry::{Geometry, State};
use record::Record;

// Opens an array: the new state goes where the caller's stood, and every record is freed. Refused, it leaves both as they were.
#[tactic(auto, using(crate::proofs::Room::open_room), unfolding(array::specs::Outcomes::opened_state))]
pub fn coppicetune_open(
    state: &mut State,
    table: &mut [Record],
    work: &[u8],
    image: &[u8],
    cards: u64,
    stripes: u64,
    block: u64,
    records: u64,
    layout: u64,
    out: u64,
) -> u64
    ensures { OpeningPacked (opening (record { cards = cards; stripes = stripes; block = block; records = records; layout = layout }) out table.old work.now image.now) state.old result state.new table.new }
{
    let geometry = Geometry {
        cards,
        stripes,
        block,
        records,
        layout,
    };
    // (By a match: of a closure that stores the state, as in `map`, a proof doesn't know that a refusal never ran it.)
    match calls::open(geometry, out, table, work, image) {
        Ok(new) => {
            *state = new;
            packed(Ok(()))
        }
        Err(refusal) => packed::<()>(Err(refusal)),
    }
}

// Admits a request, a read where `write` is 0 and a write where it is any other number.
#[tactic(auto, using(crate::proofs::Room::admit_room))]
pub fn coppicetune_admit(
    state: &State,
    table: &mut [Record],
    work: &mut [u8],
    image: &[u8],
    write: u64,
    stripe: u64,
    mask: u64,
    payload: &[u8],
) -> u64
    ensures { AdmissionPacked (admission state.now table.old work.old image.now (not (eqb write 0)) stripe mask payload.now) result table.new work.new }
{
    packed(calls::admit(
        *state,
        table,
        work,
        image,
        write != 0,
        stripe,
        mask,
        payload,
    ))
}

// Does step k of record i, or chooses its graph afresh.
#[tactic(auto, using(crate::proofs::Room::step_room))]
pub fn coppicetune_step(
    state: &State,
    table: &mut [Record],
    work: &mut [u8],
    image: &mut [u8],
    i: u64,
    k: u64,
) -> u64
    ensures { SteppingPacked (stepping state.now table.old work.old image.old i k) result table.new work.new image.new }
{
    packed(calls::step(*state, table, work, image, i, k))
}

// Marks a card out, or the array lost.
#[tactic(auto, using(crate::proofs::Room::report_room))]
pub fn coppicetune_report(state: &mut State, card: u64) -> u64
    ensures { ReportingPacked (reporting state.old card) result state.new }
{
    packed(calls::report(state, card))
}

// Begins a fill of the fresh card in the sleeve that is out.
#[tactic(auto, using(crate::proofs::Room::start_room))]
pub fn coppicetune_start(state: &mut State) -> u64
    ensures { StartingPacked (starting state.old) result state.new }
{
    packed(calls::start(state))
}

// Collects finished record i, which is freed.
#[tactic(auto, using(crate::proofs::Room::collect_room))]
pub fn coppicetune_collect(
    state: &State,
    table: &mut [Record],
    work: &[u8],
    i: u64,
    res: &mut [u8],
) -> u64
    ensures { CollectionPacked (collection state.now table.old work.now i res.old) result table.new res.new }
{
    packed(calls::collect(*state, table, work, i, res))
}

// Scans the stripes that no open request holds.
#[tactic(auto, using(crate::proofs::Room::scan_room))]
pub fn coppicetune_check(state: &State, table: &[Record], image: &[u8]) -> u64
    ensures { result ≡ packed (scan_reply state.now table.now image.now) }
{
    packed(calls::scan(*state, table, image))
}

// Fills the stripe at the fill place on the fresh card, and moves the fill on.
#[tactic(auto, using(crate::proofs::Room::rebuild_room))]
pub fn coppicetune_rebuild(state: &mut State, table: &[Record], image: &mut [u8]) -> u64
    ensures { RebuildingPacked (rebuilding state.old table.now image.old) result state.new image.new }
{
    packed(calls::rebuild(state, table, image))
}
