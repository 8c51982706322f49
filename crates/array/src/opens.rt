// Open: a geometry and a card that is out, or none, become a state; with none out the parity is right throughout.
// Assumes nothing.
ghost use Rattle.std.specs.Prelude.{◌≡◌};
ghost use Rattle.array.specs.Opening.{opening_by};
ghost use Rattle.array.specs.Outcomes.{OpeningIs};
ghost use Rattle.array.specs.Refusals.{opened};

use crate::places::Legal;
use geometry::{Geometry, NO_FILL, NO_STRIPE, NONE, State};
use parity::scan_but;
use terms::Refusal;

// The state of an accepted opening.
#[tactic(auto, unfolding(crate::specs::Refusals::opened))]
fn opened(g: Geometry, out: u64) -> State
    ensures { result ≡ opened g out }
{
    State {
        cards: g.cards,
        stripes: g.stripes,
        block: g.block,
        records: g.records,
        layout: g.layout,
        out,
        lost: 0,
        fill: NO_FILL,
    }
}

// Opens an array over a table of so many records: the new state. Who lends the table frees every record where it is accepted.
#[tactic(auto, using(crate::proofs::OpeningBy::open_tests))]
pub fn open_by(
    geometry: Geometry,
    out: u64,
    len: u64,
    work: &[u8],
    image: &[u8],
) -> Result<State, Refusal>
    ensures { OpeningIs (opening_by «geometry» out len work.now image.now) result }
{
    let state = opened(geometry, out);
    let legal = Legal::new(state)?;
    if legal.lent_wrong(len, work, image) {
        return Err(Refusal::WrongLength);
    }
    if out == NONE {
        scan_but(state, image, [NO_STRIPE; 8])?;
    }
    Ok(state)
}
