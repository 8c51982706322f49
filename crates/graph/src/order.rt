// The order of a graph's steps, and done sets.
ghost use Rattle.std.specs.Prelude.{true, ◌&&◌, ◌||◌, ◌≡◌, ◌≤◌, eqb};
ghost use Rattle.graph.specs.Asked.{few_units, action_step, part_of, needed_by, ready_by, written, in_order_by};
ghost use Rattle.graph.specs.Steps.{wr, by_graph};

use crate::bits::{below, has, only, part_of};
use crate::named::Graph;
use crate::steps::Action;
use crate::units::Few;

// What must come before the write of position p, by the positions that the graph reads.
#[tactic(auto, unfolding(crate::specs::Asked::needed_by))]
fn needed_to_write(n: u64, g: u64, reading: u64, p: u64) -> u64
    requires { n ≤ 7 }
    ensures { result ≡ needed_by n g reading (wr p) }
{
    if p == n {
        return only(n + 1);
    }
    if p > n {
        return 0;
    }
    match Graph::try_from(g) {
        Ok(Graph::SmallWrite) => only(p),
        Ok(Graph::ReconstructWrite) => reading,
        _ => 0,
    }
}

// What must come before a step, by the positions that the graph reads. (A match and no closures: the kinds of step are three for good.)
#[tactic(auto, unfolding(crate::specs::Asked::needed_by, crate::specs::Asked::action_step))]
fn needed(n: u64, g: u64, reading: u64, action: Option<Action>) -> u64
    requires { n ≤ 7 }
    ensures { result ≡ needed_by n g reading (action_step action) }
{
    match action {
        Some(Action::Sum) => reading,
        Some(Action::Write(p)) => needed_to_write(n, g, reading, p),
        Some(Action::Read(_)) | None => 0,
    }
}

// Step k, which does this action, is ready, by the graph's steps and the positions that it reads; beyond 7 units none is.
// It takes those sets and no `Plan`: a step asks it of what one look at the record found, and that keeps the sets.
#[tactic(auto, unfolding(crate::specs::Asked::ready_by, crate::specs::Asked::few_units))]
pub fn ready_by(
    n: u64,
    g: u64,
    whole: u64,
    reading: u64,
    done: u64,
    k: u64,
    action: Option<Action>,
) -> bool
    ensures { result ≡ (few_units n && ready_by n g whole reading done k (action_step action)) }
{
    n <= 7 && has(k, whole) && !has(k, done) && part_of(needed(n, g, reading, action), done)
}

impl Few {
    // What comes before the done writes of units is done: in graph 3 each has its own read, and in graph 4 all the reads.
    #[tactic(auto, unfolding(crate::specs::Steps::by_graph))]
    fn writes_in_order(self, done: u64, reading: u64) -> bool
        ensures { result ≡ by_graph self.plan.graph true true (part_of (written self.plan.units done) done) (eqb (written self.plan.units done) 0 || part_of reading done) true true true }
    {
        let n = self.plan.units;
        let written = (done >> (n + 2)) & below(n);
        match self.graph {
            Some(Graph::SmallWrite) => part_of(written, done),
            Some(Graph::ReconstructWrite) => written == 0 || part_of(reading, done),
            _ => true,
        }
    }

    // The done steps belong to the graph, each with its forerunners: the exclusive or's are the reads, parity's write has the
    // exclusive or, and a unit's write has those of its graph. The graph's reads and steps are given.
    #[tactic(auto, unfolding(crate::specs::Asked::in_order_by))]
    pub(crate) fn in_order(self, done: u64, reading: u64, whole: u64) -> bool
        ensures { result ≡ in_order_by self.plan.units self.plan.graph reading whole done }
    {
        let sum = self.plan.units + 1;
        part_of(done, whole)
            && (!has(sum, done) || part_of(reading, done))
            && (!has(2 * sum, done) || has(sum, done))
            && self.writes_in_order(done, reading)
    }
}
