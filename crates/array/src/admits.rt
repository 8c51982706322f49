// Admit: a request takes the lowest free record.
// Assumes nothing.
ghost use Rattle.std.specs.Prelude.{◌≡◌, IfOk};
ghost use Rattle.terms.specs.Reply.{accepted, refused, reply_of};
ghost use Rattle.array.specs.Admission.{admission_by, keep_units};
ghost use Rattle.array.specs.Outcomes.{AdmissionIs};
ghost use Rattle.array.specs.Premises.{Keeping};
ghost use Rattle.array.specs.Refusals.{admit_refusal};

use crate::answers::Changed;
use crate::places::{Legal, Row};
use block::carry;
use geometry::State;
use graph::has;
use record::{Survey, admitted, legal_mask};
use terms::Refusal;

impl Row {
    // Copies a write's units, ascending, each to that unit's block to write of the record. (One function for this and `hand_over` would take the
    // side that is packed as a closure over what is lent, and a contract for it: no plainer. The place in the payload runs along by hand: a chain would filter
    // the units, zip them with `chunks_exact` and copy as here.)
    #[tactic(auto, using(crate::proofs::Within::within, crate::proofs::Units::turned_all), unfolding(crate::specs::Admission::keep_units))]
    fn keep_units(self, mask: u64, payload: &[u8], work: &mut [u8])
        requires { Keeping self.of.state mask payload.now work.old }
        ensures { work.new ≡ keep_units self.of.state self.number mask payload.now work.old }
    {
        let size = self.of.state.block as usize;
        let mut from: usize = 0;
        for u in 0..self.of.units() {
            if has(u, mask) {
                let at = self.write_at(u);
                carry(work, at, payload, from, size);
                from += size;
            }
        }
    }
}

// Whether admit is refused, in the paper's order; if not, the state is within its limits.
#[tactic(auto, using(crate::proofs::LentRows::lent_tests, crate::proofs::Within::within), unfolding(crate::specs::Refusals::admit_refusal, crate::specs::Refusals::admit_rows, crate::specs::Refusals::payload_wrong, terms::specs::Reply::first_row))]
fn admit_check(
    state: State,
    survey: Survey,
    work: &[u8],
    image: &[u8],
    write: bool,
    stripe: u64,
    mask: u64,
    payload: &[u8],
) -> Result<Legal, Refusal>
    ensures reply { reply_of (λ legal. accepted 0 0) result ≡ refused (admit_refusal state survey work.now image.now write stripe mask payload.now) }
    ensures same { IfOk result (λ legal. legal.state ≡ state) }
{
    let legal = Legal::new(state)?;
    legal.check(legal.lent_wrong(survey.len, work, image), survey.sound)?;
    if state.stripes <= stripe {
        return Err(Refusal::OutOfRange);
    }
    if !legal_mask(legal.units(), mask) {
        return Err(Refusal::WrongMask);
    }
    let due = if write { legal.unit_bytes(mask) } else { 0 };
    if payload.len() != due {
        return Err(Refusal::WrongPayload);
    }
    if survey.is_held(stripe) {
        return Err(Refusal::StripeHeld);
    }
    if state.records <= survey.free {
        return Err(Refusal::NoFreeRecord);
    }
    Ok(legal)
}

// Admits a request by a survey of the table: the record's number, and the record that is taken, with its place.
#[tactic(auto, using(terms::proofs::Answers::left_refused, crate::proofs::Accepted::admit_rests), unfolding(crate::specs::Admission::admission_by))]
pub fn admit_by(
    state: State,
    survey: Survey,
    work: &mut [u8],
    image: &[u8],
    write: bool,
    stripe: u64,
    mask: u64,
    payload: &[u8],
) -> Result<Changed<u64>, Refusal>
    ensures { AdmissionIs (admission_by state survey work.old image.now write stripe mask payload.now) result work.new }
{
    let of = admit_check(state, survey, work, image, write, stripe, mask, payload)?;
    let place = survey.free;
    if write {
        let row = Row { of, number: place };
        row.keep_units(mask, payload, work);
    }
    Ok(Changed {
        answer: place,
        place,
        record: admitted(state, write, stripe, mask),
    })
}
