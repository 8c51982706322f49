// Rebuild: the stripe at the fill place is filled, and the fill moves on.
// Assumes nothing.
ghost use Rattle.std.specs.Prelude.{◌≡◌};
ghost use Rattle.terms.specs.Reply.{refused, done_reply};
ghost use Rattle.array.specs.Outcomes.{RebuildingIs, RebuildingSaid, written_by};
ghost use Rattle.array.specs.Rebuilding.{rebuilding_by};
ghost use Rattle.array.specs.Refusals.{rebuild_refusal};

use crate::answers::Filled;
use crate::places::Legal;
use geometry::{NO_FILL, State};
use parity::restore;
use record::Survey;
use terms::Refusal;

// Whether rebuild is refused, in the paper's order. It isn't lent the work store.
#[tactic(auto, using(crate::proofs::LentRows::lent_tests), unfolding(crate::specs::Refusals::rebuild_refusal, crate::specs::Refusals::rebuild_rows, terms::specs::Reply::first_row))]
fn rebuild_check(state: State, survey: Survey, image: &[u8]) -> Result<(), Refusal>
    ensures { done_reply result ≡ refused (rebuild_refusal state survey image.now) }
{
    let legal = Legal::new(state)?;
    legal.check(legal.seen_wrong(survey.len, image), survey.sound)?;
    if survey.is_held(state.fill) {
        return Err(Refusal::StripeHeld);
    }
    if state.fill == NO_FILL {
        return Err(Refusal::NoFill);
    }
    Ok(())
}

// What a rebuild step fills, by a survey of the table, and the state with the fill moved on. The block is left to `rebuild_image`: who lends the
// state stores it before the block is written, so that the next step need not wait for the block's way to its card.
#[tactic(auto, using(terms::proofs::Answers::left_refused, crate::proofs::Outcomes::rebuilding_filled), unfolding(crate::specs::Rebuilding::rebuilding_by))]
pub fn rebuild_next(state: State, survey: Survey, image: &[u8]) -> Result<Filled, Refusal>
    ensures { RebuildingSaid (rebuilding_by state survey image.now) state image.now result }
{
    rebuild_check(state, survey, image)?;
    Ok(Filled {
        stripe: state.fill,
        state: state.moved_on(),
    })
}

// Writes the block of a rebuild step of this answer, on the state before the step; nothing where it was refused.
pub fn rebuild_image(state: State, answer: Result<u64, Refusal>, image: &mut [u8])
    ensures { image.new ≡ written_by state answer image.old }
{
    if let Ok(stripe) = answer {
        restore(state, state.out, stripe, image);
    }
}

// Fills the stripe at the fill place on the card that is out, by a survey of the table: the stripe, and the state with the fill moved on.
pub fn rebuild_by(state: State, survey: Survey, image: &mut [u8]) -> Result<Filled, Refusal>
    ensures { RebuildingIs (rebuilding_by state survey image.old) state result image.new }
{
    let filled = rebuild_next(state, survey, image)?;
    rebuild_image(state, Ok(filled.stripe), image);
    Ok(filled)
}
