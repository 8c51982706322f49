// The start of a fill, and how its place moves on, on a state by value.
// Assumes nothing.
ghost use Rattle.std.specs.Prelude.{◌≡◌};
ghost use Rattle.terms.specs.Reply.{refused, done_reply};
ghost use Rattle.geometry.specs.Fill.{StartedIs, start_refusal, starting, moved_on};

use crate::State;
use crate::limits::{NO_FILL, NONE};
use terms::Refusal;

impl State {
    // Whether a fill may be begun, or why not.
    #[tactic(auto, using(crate::proofs::StateRows::passing), unfolding(crate::specs::Fill::start_refusal, crate::specs::Fill::start_rows, terms::specs::Reply::first_row))]
    fn may_start(self) -> Result<(), Refusal>
        ensures { done_reply result ≡ refused (start_refusal self) }
    {
        self.usable()?;
        if self.out == NONE {
            return Err(Refusal::NoFill);
        }
        if self.fill != NO_FILL {
            return Err(Refusal::FillUnderWay);
        }
        Ok(())
    }

    // Begins a fill: stripe 0 is to be filled first.
    #[tactic(auto, using(terms::proofs::Answers::left_refused), unfolding(crate::specs::Fill::starting))]
    pub fn start(self) -> Result<State, Refusal>
        ensures { StartedIs (starting self) self result }
    {
        self.may_start()?;
        Ok(State { fill: 0, ..self })
    }

    // The state after the stripe at the fill place is filled: the next one comes, and after the last no card is out.
    #[tactic(auto, unfolding(crate::specs::Fill::moved_on))]
    pub fn moved_on(self) -> State
        ensures { result ≡ moved_on self }
    {
        match self.fill.checked_add(1) {
            Some(next) if next < self.stripes => State { fill: next, ..self },
            _ => State {
                fill: NO_FILL,
                out: NONE,
                ..self
            },
        }
    }
}
