// Step: a ready step is done, or, where its card is out, the graph is chosen afresh.
// Assumes nothing.
ghost use Rattle.std.specs.Prelude.{◌≡◌, IfOk};
ghost use Rattle.terms.specs.Reply.{accepted, refused, reply_of};
ghost use Rattle.array.specs.Outcomes.{SteppingIs};
ghost use Rattle.array.specs.Refusals.{step_refusal};
ghost use Rattle.array.specs.Stepping.{stepping_by, meets_out};
ghost use Rattle.graph.specs.Asked.{action_step};
ghost use Rattle.graph.specs.Steps.{step_of};
ghost use Rattle.record.specs.Life.{units_of};
ghost use Rattle.record.specs.Look.{look_of};

use crate::answers::{Changed, Stepped};
use crate::performs::Standing;
use crate::places::{Legal, Row};
use geometry::State;
use graph::{Action, ready_by, step_of};
use record::{Look, Record, Survey};
use terms::Refusal;

// Whether step is refused, in the paper's order; if not, the state is within its limits. What a look at the record finds is given, and what step k does.
#[tactic(auto, using(crate::proofs::LentRows::lent_tests, crate::proofs::Within::within, crate::proofs::Accepted::looked), unfolding(crate::specs::Refusals::step_refusal, crate::specs::Refusals::step_rows, terms::specs::Reply::first_row))]
fn step_check(
    state: State,
    survey: Survey,
    r: Record,
    look: Look,
    action: Option<Action>,
    work: &[u8],
    image: &[u8],
    i: u64,
    k: u64,
) -> Result<Legal, Refusal>
    requires { (look ≡ look_of state r) × (action_step action ≡ step_of (units_of state) k) }
    ensures reply { reply_of (λ legal. accepted 0 0) result ≡ refused (step_refusal state survey r work.now image.now i k) }
    ensures same { IfOk result (λ legal. legal.state ≡ state) }
{
    let legal = Legal::new(state)?;
    let sound = legal.sound_with(survey, r, look.sound);
    legal.check(legal.lent_wrong(survey.len, work, image), sound)?;
    if state.records <= i {
        return Err(Refusal::OutOfRange);
    }
    if !r.is_open() {
        return Err(Refusal::WrongPhase);
    }
    if !ready_by(
        legal.units(),
        r.graph,
        look.steps,
        look.reads,
        r.done,
        k,
        action,
    ) {
        return Err(Refusal::StepNotReady);
    }
    Ok(legal)
}

// Whether the step is on position x. (A match and no closures: the kinds of step are three for good.)
#[tactic(auto, unfolding(crate::specs::Stepping::meets_out, graph::specs::Asked::action_step))]
fn meets_out(action: Option<Action>, x: u64) -> bool
    ensures { result ≡ meets_out x (action_step action) }
{
    match action {
        Some(Action::Read(p) | Action::Write(p)) => p == x,
        Some(Action::Sum) | None => false,
    }
}

// Does step k of record i, which is r, by a survey of the rest of the table: whether it is done or chosen afresh, and the record after
// it, with its place.
#[tactic(auto, using(crate::proofs::Accepted::step_rests, crate::proofs::Outcomes::step_outcomes))]
pub fn step_by(
    state: State,
    survey: Survey,
    r: Record,
    work: &mut [u8],
    image: &mut [u8],
    i: u64,
    k: u64,
) -> Result<Changed<Stepped>, Refusal>
    ensures { SteppingIs (stepping_by state survey r work.old image.old i k) result work.new image.new }
{
    let look = r.look(state);
    // (Saturating: a state that is lent may have no card.)
    let action = step_of(state.cards.saturating_sub(1), k);
    let of = step_check(state, survey, r, look, action, work, image, i, k)?;
    if meets_out(action, look.out) {
        let chosen = r.after_choice(state, look.out);
        return Ok(Changed {
            answer: Stepped::Chosen(chosen.graph),
            place: i,
            record: chosen,
        });
    }
    let standing = Standing {
        row: Row { of, number: i },
        r,
        x: look.x,
        reads: look.reads,
    };
    standing.perform(action, work, image);
    Ok(Changed {
        answer: Stepped::Done,
        place: i,
        record: r.after_step(k, look.steps),
    })
}
