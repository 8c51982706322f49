// Which graph a request takes. (By numbers one by one: they are asked before there is a plan.)
ghost use Rattle.std.specs.Prelude.{◌≡◌};
ghost use Rattle.graph.specs.Choice.{unit_out_in, all_units, choose_read, choose_write, choose};
ghost use Rattle.graph.specs.Named.{number_of_graph};

use crate::bits::{below, has};
use crate::named::Graph;

// All n units are in the mask.
#[tactic(auto, unfolding(crate::specs::Choice::all_units))]
fn all_units(n: u64, mask: u64) -> bool
    ensures { result ≡ all_units n mask }
{
    if n < 64 {
        mask == below(n)
    } else {
        n == 64 && mask == u64::MAX
    }
}

// X is in the mask.
#[tactic(auto, unfolding(crate::specs::Choice::unit_out_in, crate::specs::Choice::unit_out))]
fn unit_out_in(n: u64, mask: u64, x: u64) -> bool
    ensures { result ≡ unit_out_in n mask x }
{
    x < n && has(x, mask)
}

// The graph of a read.
#[tactic(auto, unfolding(crate::specs::Choice::choose_read, terms::specs::Reply::first_row))]
fn choose_read(n: u64, mask: u64, x: u64) -> Graph
    ensures { number_of_graph result ≡ choose_read n mask x }
{
    if unit_out_in(n, mask, x) {
        Graph::DegradedRead
    } else {
        Graph::PlainRead
    }
}

// The graph of a write: the tests in the paper's order, one for each row of its table, so that two rows give one graph; the count of
// ones decides small against reconstruct write.
#[tactic(auto, unfolding(crate::specs::Choice::choose_write, crate::specs::Choice::unit_out, terms::specs::Reply::first_row))]
fn choose_write(n: u64, mask: u64, x: u64) -> Graph
    ensures { number_of_graph result ≡ choose_write n mask x }
{
    if x == n {
        return Graph::ParityFailed;
    }
    if all_units(n, mask) {
        return Graph::LargeWrite;
    }
    if unit_out_in(n, mask, x) {
        return Graph::ReconstructWrite;
    }
    if x < n {
        return Graph::SmallWrite;
    }
    if 2 * u64::from(mask.count_ones()) < n {
        return Graph::SmallWrite;
    }
    Graph::ReconstructWrite
}

// The graph that the table chooses.
#[tactic(auto, unfolding(crate::specs::Choice::choose))]
pub fn choose(n: u64, write: bool, mask: u64, x: u64) -> Graph
    ensures { number_of_graph result ≡ choose n write mask x }
{
    if write {
        choose_write(n, mask, x)
    } else {
        choose_read(n, mask, x)
    }
}
