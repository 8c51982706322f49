// A graph with what it was chosen by, and its done steps judged.
ghost use Rattle.std.specs.Prelude.{◌&&◌, ◌≡◌, false, true, MatchOption};
ghost use Rattle.graph.specs.Asked.{few_units, judged};
ghost use Rattle.graph.specs.Order.{ready, complete};

use crate::bits::part_of;
use crate::named::Graph;
use crate::order::ready_by;
use crate::sets::Sets;
use crate::steps::step_of;
use crate::units::Few;

// The units of a stripe, a graph's number, the mask, and the position missing: they make the graph's steps and their order. (A number and no
// `Graph`, as a record holds it: it may be no graph's, docs/DECISIONS.md, 61.)
#[derive(Clone, Copy, Debug, PartialEq, Eq)]
pub struct Plan {
    pub units: u64,
    pub graph: u64,
    pub mask: u64,
    pub missing: u64,
}

// Of done steps: whether they belong to the graph, each with its forerunners, and whether none is wanting; with the graph's steps
// and the positions that it reads. (Two truth values, as the definition `judged` has them; all no, and no steps, beyond 7 units.)
#[derive(Clone, Copy, Debug, Default, PartialEq, Eq)]
pub struct Judged {
    pub right: bool,
    pub whole: bool,
    pub steps: u64,
    pub reads: u64,
}

impl Few {
    // Step k is ready, by the graph's steps and reads.
    fn ready(self, done: u64, k: u64) -> bool
        ensures { result ≡ ready self.plan.units self.plan.graph self.plan.mask self.plan.missing done k }
    {
        let Sets { reads, steps } = self.sets();
        let plan = self.plan;
        let action = step_of(plan.units, k);
        ready_by(plan.units, plan.graph, steps, reads, done, k, action)
    }

    // The graph's steps are a part of the done ones.
    fn complete(self, done: u64) -> bool
        ensures { result ≡ complete self.plan.units self.plan.graph self.plan.mask self.plan.missing done }
    {
        part_of(self.sets().steps, done)
    }
}

// Beyond 7 units, the array's limit, each answers no, or the empty set.
impl Plan {
    // The plan, where its units are few.
    #[tactic(auto, unfolding(crate::specs::Asked::few_units))]
    fn few(self) -> Option<Few>
        ensures { MatchOption result (few_units self.units ≡ false) (λ few. (few_units self.units ≡ true) × (few.plan ≡ self)) }
    {
        if self.units > 7 {
            return None;
        }
        let graph = Graph::try_from(self.graph).ok();
        Some(Few { plan: self, graph })
    }

    // Step k is ready: in the graph, not done, and lacks none that must come before.
    pub fn ready(self, done: u64, k: u64) -> bool
        ensures { result ≡ (few_units self.units && ready self.units self.graph self.mask self.missing done k) }
    {
        self.few().is_some_and(|few| few.ready(done, k))
    }

    // No step of the graph is wanting.
    pub fn complete(self, done: u64) -> bool
        ensures { result ≡ (few_units self.units && complete self.units self.graph self.mask self.missing done) }
    {
        self.few().is_some_and(|few| few.complete(done))
    }

    // Judges the done steps. Inlined, since a plan by value is copied for each call: not inlined, a table is found sound in 21 % more
    // instructions.
    #[inline(always)]
    pub fn judge(self, done: u64) -> Judged
        ensures { result ≡ judged self.units self.graph self.mask self.missing done }
    {
        let Some(few) = self.few() else {
            return Judged::default();
        };
        let Sets { reads, steps } = few.sets();
        Judged {
            right: few.in_order(done, reads, steps),
            whole: part_of(steps, done),
            steps,
            reads,
        }
    }
}
