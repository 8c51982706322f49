// The report of a failure, on a state by value.
// Assumes nothing.
ghost use Rattle.std.specs.Prelude.{◌≡◌};
ghost use Rattle.geometry.specs.Report.{ReportedIs, state_rows, report_refusal, marked, reporting};
ghost use Rattle.terms.specs.Reply.{refused, first_row, done_reply};

use crate::State;
use crate::limits::{NO_FILL, NONE};
use terms::Refusal;

impl State {
    // Whether a call that is lent the state alone may go on, or why not: refusals 1 and 4.
    #[tactic(auto, unfolding(crate::specs::Report::state_rows, terms::specs::Reply::first_row))]
    pub(crate) fn usable(self) -> Result<(), Refusal>
        ensures { done_reply result ≡ refused (first_row (state_rows self)) }
    {
        if self.beyond() {
            return Err(Refusal::BeyondLimits);
        }
        if self.is_lost() {
            return Err(Refusal::ArrayLost);
        }
        Ok(())
    }

    // Whether a card may be reported, or why not.
    #[tactic(auto, using(crate::proofs::StateRows::passing), unfolding(crate::specs::Report::report_refusal, crate::specs::Report::report_rows, terms::specs::Reply::first_row))]
    fn may_report(self, card: u64) -> Result<(), Refusal>
        ensures { done_reply result ≡ refused (report_refusal self card) }
    {
        self.usable()?;
        if self.cards <= card {
            return Err(Refusal::OutOfRange);
        }
        let whole = self.fill == NO_FILL;
        if card == self.out && whole {
            return Err(Refusal::CardOut);
        }
        Ok(())
    }

    // The state with the card out, with its fill ended where it is a fresh one, or with the array lost where another one is out already.
    #[tactic(auto, unfolding(crate::specs::Report::marked))]
    fn marked(self, card: u64) -> State
        ensures { result ≡ marked self card }
    {
        if self.out == NONE {
            State { out: card, ..self }
        } else if card == self.out {
            State {
                fill: NO_FILL,
                ..self
            }
        } else {
            State { lost: 1, ..self }
        }
    }

    // Marks a card out, or the array lost.
    #[tactic(auto, using(terms::proofs::Answers::left_refused), unfolding(crate::specs::Report::reporting))]
    pub fn report(self, card: u64) -> Result<State, Refusal>
        ensures { ReportedIs (reporting self card) self result }
    {
        self.may_report(card)?;
        Ok(self.marked(card))
    }
}
