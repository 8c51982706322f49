// A plan of few units.
ghost use Rattle.std.specs.Prelude.{◌≡◌, ◌≤◌, ◌<◌, MatchOption};
ghost use Rattle.graph.specs.Named.{number_of_graph};
ghost use Rattle.std.proofs.Props.{props};

use crate::named::Graph;
use crate::plan::Plan;

// A plan of at most 7 units, the array's limit: its sets of steps are words of 64 bits; and the graph of its number, if one has it.
#[derive(Clone, Copy)]
pub(crate) struct Few {
    pub(crate) plan: Plan,
    pub(crate) graph: Option<Graph>,
    pub(crate) ghost few: { plan.units ≤ 7 },
    pub(crate) ghost named: { MatchOption graph (1 ≤ plan.graph → 6 < plan.graph) (λ g. number_of_graph g ≡ plan.graph) } by { Prim.hlevel props },
}
