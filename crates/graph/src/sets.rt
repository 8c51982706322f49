// The sets that a graph is made of, as the bits of a number: positions it reads and writes, and its steps.
ghost use Rattle.std.specs.Prelude.{cond, not, ◌||◌, ◌≡◌, ◌+◌, ◌^◌, ◌≤◌, eqb};
ghost use Rattle.terms.specs.Sets.{set_of};
ghost use Rattle.graph.specs.Asked.{step_set};
ghost use Rattle.graph.specs.Steps.{masked, unmasked, read_base, reads, sums, write_base};

use crate::bits::{below, only};
use crate::named::Graph;
use crate::units::Few;

// The masked units.
#[tactic(auto, using(crate::proofs::Positions::masked_is))]
pub(crate) fn masked_set(n: u64, mask: u64) -> u64
    requires { n ≤ 63 }
    ensures { result ≡ set_of (n + 1) (masked n mask) }
{
    mask & below(n)
}

// The positions that a graph reads, and its steps.
#[derive(Clone, Copy)]
pub(crate) struct Sets {
    pub(crate) reads: u64,
    pub(crate) steps: u64,
}

// The positions that are to be read and to be written, the missing one among them, and the exclusive or as a set of steps.
#[derive(Clone, Copy)]
struct Bases {
    reads: u64,
    writes: u64,
    sum: u64,
}

impl Few {
    // The masked units.
    fn masked(self) -> u64
        ensures { result ≡ set_of (self.plan.units + 1) (masked self.plan.units self.plan.mask) }
    {
        masked_set(self.plan.units, self.plan.mask)
    }

    // The units outside the mask.
    #[tactic(auto, using(crate::proofs::Positions::masked_bound, crate::proofs::Positions::unmasked_is))]
    fn unmasked_set(self) -> u64
        ensures { result ≡ set_of (self.plan.units + 1) (unmasked self.plan.units self.plan.mask) }
    {
        below(self.plan.units) - self.masked()
    }

    // The masked units and parity.
    #[tactic(auto, using(crate::proofs::Positions::masked_and_parity_is))]
    fn masked_and_parity(self) -> u64
        ensures { result ≡ set_of (self.plan.units + 1) (λ p. masked self.plan.units self.plan.mask p || eqb p self.plan.units) }
    {
        self.masked() + only(self.plan.units)
    }

    // Every position but the missing one.
    #[tactic(auto, using(crate::proofs::Positions::present_is))]
    fn present(self) -> u64
        ensures { result ≡ set_of (self.plan.units + 1) (λ p. not (eqb p self.plan.missing)) }
    {
        let all = below(self.plan.units + 1);
        if self.plan.missing <= self.plan.units {
            all - only(self.plan.missing)
        } else {
            all
        }
    }

    // What the graph's sets are made of. One match finds all three: a match for each costs `judge` 17 % more instructions.
    #[tactic(auto, using(crate::proofs::BySets::read_sets, crate::proofs::BySets::write_sets), unfolding(crate::specs::Steps::by_graph, crate::specs::Steps::sums))]
    fn bases(self) -> Bases
        ensures reads { result.reads ≡ set_of (self.plan.units + 1) (read_base self.plan.units self.plan.graph self.plan.mask) }
        ensures writes { result.writes ≡ set_of (self.plan.units + 1) (write_base self.plan.units self.plan.graph self.plan.mask) }
        ensures sum { result.sum ≡ cond (sums self.plan.graph) (2 ^ (self.plan.units + 1)) 0 }
    {
        let n = self.plan.units;
        let sum = only(n + 1);
        let (reads, writes, sum) = match self.graph {
            Some(Graph::PlainRead) => (self.masked(), 0, 0),
            Some(Graph::DegradedRead) => (below(n + 1), 0, sum),
            Some(Graph::SmallWrite) => (self.masked_and_parity(), self.masked_and_parity(), sum),
            Some(Graph::ReconstructWrite) => (self.unmasked_set(), self.masked_and_parity(), sum),
            Some(Graph::LargeWrite) => (0, self.masked_and_parity(), sum),
            Some(Graph::ParityFailed) => (0, self.masked(), 0),
            None => (0, 0, 0),
        };
        Bases { reads, writes, sum }
    }

    // The positions that the graph reads, and its steps: the writes' numbers are above the exclusive or's, and that above the reads'.
    pub(crate) fn sets(self) -> Sets
        ensures reads { result.reads ≡ set_of (self.plan.units + 1) (reads self.plan.units self.plan.graph self.plan.mask self.plan.missing) }
        ensures steps { result.steps ≡ step_set self.plan.units self.plan.graph self.plan.mask self.plan.missing }
    {
        let present = self.present();
        let bases = self.bases();
        let reads = bases.reads & present;
        let writes = bases.writes & present;
        let low = reads + bases.sum;
        let steps = (writes << (self.plan.units + 2)) + low;
        Sets { reads, steps }
    }
}
