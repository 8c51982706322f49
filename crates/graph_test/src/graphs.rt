// The graphs.
ghost use Rattle.std.specs.Prelude.{cond, ◌&&◌, ◌≡◌, ◌+◌};
ghost use Rattle.terms.specs.Sets.{set_of};
ghost use Rattle.graph.specs.Asked.{few_units, judged};
ghost use Rattle.graph.specs.Choice.{choose};
ghost use Rattle.graph.specs.Order.{ready, complete};
ghost use Rattle.graph.specs.Steps.{step_of};
ghost use Rattle.graph.specs.Sums.{takes_new, sums_to_read};
ghost use Rattle.graph_test.specs.Numbers.{judged_number, kind_of, place_of};

use graph::{Action, Plan};

fn plan(units: u64, graph: u64, mask: u64, missing: u64) -> Plan
    ensures { result ≡ record { units = units; graph = graph; mask = mask; missing = missing } }
{
    Plan {
        units,
        graph,
        mask,
        missing,
    }
}

#[unsafe(no_mangle)]
pub extern "C" fn graph_test_choose(n: u64, write: bool, mask: u64, x: u64) -> u64
    ensures { result ≡ choose n write mask x }
{
    graph::choose(n, write, mask, x).number()
}

#[unsafe(no_mangle)]
pub extern "C" fn graph_test_steps(n: u64, g: u64, mask: u64, x: u64) -> u64
    ensures { result ≡ (judged n g mask x 0).steps }
{
    plan(n, g, mask, x).judge(0).steps
}

#[unsafe(no_mangle)]
pub extern "C" fn graph_test_ready(n: u64, g: u64, mask: u64, x: u64, done: u64, k: u64) -> bool
    ensures { result ≡ (few_units n && ready n g mask x done k) }
{
    plan(n, g, mask, x).ready(done, k)
}

#[unsafe(no_mangle)]
pub extern "C" fn graph_test_complete(n: u64, g: u64, mask: u64, x: u64, done: u64) -> bool
    ensures { result ≡ (few_units n && complete n g mask x done) }
{
    plan(n, g, mask, x).complete(done)
}

// Of done steps: 0 where they are wrong, 1 where a step is wanting, 2 where none is.
#[tactic(auto, unfolding(crate::specs::Numbers::judged_number))]
#[unsafe(no_mangle)]
pub extern "C" fn graph_test_judge(n: u64, g: u64, mask: u64, x: u64, done: u64) -> u64
    ensures { result ≡ judged_number (judged n g mask x done) }
{
    let judged = plan(n, g, mask, x).judge(done);
    match (judged.right, judged.whole) {
        (false, _) => 0,
        (true, false) => 1,
        (true, true) => 2,
    }
}

// What step k does: 1 reads, 2 is the exclusive or, 3 writes, 0 is no step.
#[tactic(auto, unfolding(crate::specs::Numbers::kind_of, graph::specs::Asked::action_step))]
#[unsafe(no_mangle)]
pub extern "C" fn graph_test_kind(n: u64, k: u64) -> u64
    ensures { result ≡ kind_of (step_of n k) }
{
    match graph::step_of(n, k) {
        Some(Action::Read(_)) => 1,
        Some(Action::Sum) => 2,
        Some(Action::Write(_)) => 3,
        None => 0,
    }
}

// The position that step k reads or writes.
#[tactic(auto, unfolding(crate::specs::Numbers::place_of, graph::specs::Asked::action_step))]
#[unsafe(no_mangle)]
pub extern "C" fn graph_test_place(n: u64, k: u64) -> u64
    ensures { result ≡ place_of (step_of n k) }
{
    match graph::step_of(n, k) {
        Some(Action::Read(p) | Action::Write(p)) => p,
        Some(Action::Sum) | None => 0,
    }
}

#[unsafe(no_mangle)]
pub extern "C" fn graph_test_reads(n: u64, g: u64, mask: u64, x: u64) -> u64
    ensures { result ≡ (judged n g mask x 0).reads }
{
    plan(n, g, mask, x).judge(0).reads
}

#[unsafe(no_mangle)]
pub extern "C" fn graph_test_taken_news(n: u64, g: u64, mask: u64) -> u64
    ensures { result ≡ cond (few_units n) (set_of (n + 1) (takes_new n g mask)) 0 }
{
    graph::taken_news(n, g, mask)
}

#[unsafe(no_mangle)]
pub extern "C" fn graph_test_sums_to_read(g: u64) -> bool
    ensures { result ≡ (sums_to_read g) }
{
    graph::sums_to_read(g)
}
