// What the exclusive or takes, as sets of positions, and where it goes. Beyond 7 units, the array's limit, the sets are empty.
// (By the graph's number, which may be any: `graph_test` gives 0 and 7.)
ghost use Rattle.std.specs.Prelude.{cond, ◌≡◌, ◌+◌};
ghost use Rattle.terms.specs.Sets.{set_of};
ghost use Rattle.graph.specs.Asked.{few_units};
ghost use Rattle.graph.specs.Sums.{takes_new, sums_to_read};

use crate::named::Graph;
use crate::sets::masked_set;

// The positions whose blocks to write it takes: a write's new units.
#[tactic(auto, using(crate::proofs::BySets::news_sets), unfolding(crate::specs::Steps::by_graph, crate::specs::Asked::few_units))]
pub fn taken_news(n: u64, g: u64, mask: u64) -> u64
    ensures { result ≡ cond (few_units n) (set_of (n + 1) (takes_new n g mask)) 0 }
{
    if n > 7 {
        return 0;
    }
    match Graph::try_from(g) {
        Ok(Graph::SmallWrite | Graph::ReconstructWrite | Graph::LargeWrite) => masked_set(n, mask),
        _ => 0,
    }
}

// It goes to the read block of X.
#[tactic(auto, unfolding(crate::specs::Sums::sums_to_read))]
pub fn sums_to_read(g: u64) -> bool
    ensures { result ≡ sums_to_read g }
{
    Graph::try_from(g) == Ok(Graph::DegradedRead)
}
