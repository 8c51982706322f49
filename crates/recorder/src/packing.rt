// Answers packed as one number, as docs/C-INTERFACE.md says.
// Assumes nothing.
ghost use Rattle.std.specs.Prelude.{◌≡◌};
ghost use Rattle.terms.specs.Reply.{Reply, accepted, reply_of};
ghost use Rattle.array.specs.Answers.{step_values};
ghost use Rattle.geometry.specs.Answers.{said_of_held};
ghost use Rattle.recorder.specs.Packing.{packed, Roomy};

use array::answers::Stepped;
use geometry::{Held, Placed};
use terms::Refusal;

// What an accepted answer says: two values, 0 where it has none.
pub(crate) trait Values {
    ghost says: { Self → Reply };

    fn values(self) -> (u64, u64)
        ensures { says self ≡ accepted result.0 result.1 };
}

// Of open, report, start and a scan: nothing.
impl Values for () {
    ghost says = { λ _. accepted 0 0 };

    fn values(self) -> (u64, u64) {
        (0, 0)
    }
}

// Of admit the record, of collect the count of accepted steps, of rebuild the stripe that was filled.
impl Values for u64 {
    ghost says = { λ value. accepted value 0 };

    fn values(self) -> (u64, u64) {
        (self, 0)
    }
}

// Of step: 0, or the new graph.
impl Values for Stepped {
    ghost says = { step_values };

    fn values(self) -> (u64, u64) {
        match self {
            Stepped::Done => (0, 0),
            Stepped::Chosen(graph) => (graph, 0),
        }
    }
}

// Of place: the card and the stripe.
impl Values for Placed {
    ghost says = { λ placed. accepted placed.card placed.stripe };

    fn values(self) -> (u64, u64) {
        (self.card, self.stripe)
    }
}

// Of block_at: 0 and the block's number, or 1 for parity.
impl Values for Held {
    ghost says = { said_of_held };

    fn values(self) -> (u64, u64) {
        match self {
            Held::Block(number) => (0, number),
            Held::Parity => (1, 0),
        }
    }
}

// An answer's number and values as one number.
#[tactic(auto, unfolding(crate::specs::Packing::packed))]
fn pack(number: u64, first: u64, second: u64) -> u64
    requires { Roomy (record { number = number; first = first; second = second }) }
    ensures { result ≡ packed (record { number = number; first = first; second = second }) }
{
    let middle = first << 16;
    let high = second << 32;
    number + middle + high
}

// An answer as one number: 0 and the values where the call is accepted, else the refusal's number, and of 13 the lowest stripe and the lowest byte in
// it where parity disagrees.
pub(crate) fn packed<A: Values>(answer: Result<A, Refusal>) -> u64
    requires { Roomy (reply_of A.says answer) }
    ensures { result ≡ packed (reply_of A.says answer) }
{
    match answer {
        Ok(accepted) => {
            let (first, second) = accepted.values();
            pack(0, first, second)
        }
        Err(refusal) => {
            let (first, second) = match refusal {
                Refusal::ParityDisagrees { stripe, byte } => (stripe, byte),
                _ => (0, 0),
            };
            pack(refusal.number(), first, second)
        }
    }
}
