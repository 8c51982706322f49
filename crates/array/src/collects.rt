// Collect: what a finished request read is handed over, and its record freed.
// Assumes nothing.
ghost use Rattle.std.specs.Prelude.{◌≡◌, IfOk};
ghost use Rattle.terms.specs.Reply.{accepted, refused, reply_of};
ghost use Rattle.array.specs.Collection.{collection_by, hand_over};
ghost use Rattle.array.specs.Outcomes.{CollectionIs};
ghost use Rattle.array.specs.Premises.{Keeping};
ghost use Rattle.array.specs.Refusals.{collect_refusal};

use crate::answers::Changed;
use crate::places::{Legal, Row};
use block::carry;
use geometry::State;
use graph::has;
use record::{Record, Survey, free};
use terms::Refusal;

impl Row {
    // Copies the units that the record read, ascending, to the front of the result buffer. (One by one and with a place by hand, as `keep_units`, which says
    // why.)
    #[tactic(auto, using(crate::proofs::Within::within, crate::proofs::Units::turned_all), unfolding(crate::specs::Collection::hand_over))]
    fn hand_over(self, mask: u64, work: &[u8], res: &mut [u8])
        requires { Keeping self.of.state mask res.old work.now }
        ensures { res.new ≡ hand_over self.of.state self.number mask work.now res.old }
    {
        let size = self.of.state.block as usize;
        let mut place: usize = 0;
        for u in 0..self.of.units() {
            if has(u, mask) {
                let at = self.read_at(u);
                carry(res, place, work, at, size);
                place += size;
            }
        }
    }
}

// Whether collect is refused, in the paper's order; if not, the state is within its limits. It isn't lent the image.
#[tactic(auto, using(crate::proofs::LentRows::lent_tests), unfolding(crate::specs::Refusals::collect_refusal, crate::specs::Refusals::collect_rows, crate::specs::Refusals::result_short, terms::specs::Reply::first_row))]
fn collect_check(
    state: State,
    survey: Survey,
    r: Record,
    work: &[u8],
    i: u64,
    res: &[u8],
) -> Result<Legal, Refusal>
    ensures reply { reply_of (λ legal. accepted 0 0) result ≡ refused (collect_refusal state survey r work.now i res.now) }
    ensures same { IfOk result (λ legal. legal.state ≡ state) }
{
    let legal = Legal::new(state)?;
    let sound = legal.sound_with(survey, r, r.is_sound(state));
    legal.check(legal.stores_wrong(survey.len, work), sound)?;
    if state.records <= i {
        return Err(Refusal::OutOfRange);
    }
    if !r.is_finished() {
        return Err(Refusal::WrongPhase);
    }
    if !r.is_write() && res.len() < legal.unit_bytes(r.mask) {
        return Err(Refusal::WrongPayload);
    }
    Ok(legal)
}

// Collects finished record i, which is r, by a survey of the rest of the table: its count of steps, and the freed record, with its place.
#[tactic(auto, using(terms::proofs::Answers::left_refused, crate::proofs::Accepted::collect_rests), unfolding(crate::specs::Collection::collection_by))]
pub fn collect_by(
    state: State,
    survey: Survey,
    r: Record,
    work: &[u8],
    i: u64,
    res: &mut [u8],
) -> Result<Changed<u64>, Refusal>
    ensures { CollectionIs (collection_by state survey r work.now i res.old) result res.new }
{
    let of = collect_check(state, survey, r, work, i, res)?;
    if !r.is_write() {
        let row = Row { of, number: i };
        row.hand_over(r.mask, work, res);
    }
    Ok(Changed {
        answer: r.count,
        place: i,
        record: free(),
    })
}
