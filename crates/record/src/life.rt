// A request record, at admission, after a step and after a fresh choice.
ghost use Rattle.std.specs.Prelude.{cond, ◌≡◌, ◌-◌};
ghost use Rattle.record.specs.Asked.{ready_in, can_count};
ghost use Rattle.record.specs.Look.{can_mark, after_step, after_choice};
ghost use Rattle.record.specs.Life.{free, units_of, chosen_at, admitted};

use crate::{Phase, Record};
use geometry::State;

// The data units of a stripe, n = N-1.
pub(crate) fn units_of(cards: u64) -> u64
    ensures { result ≡ cards - 1 }
{
    cards.saturating_sub(1)
}

pub(crate) fn units(state: State) -> u64
    ensures { result ≡ units_of state }
{
    units_of(state.cards)
}

// The free record: all zero.
pub fn free() -> Record
    ensures { result ≡ free }
{
    Record::default()
}

// A request at admission: open, its graph chosen, no step done and a count of 0.
#[tactic(auto, unfolding(crate::specs::Life::admitted))]
pub fn admitted(state: State, write: bool, stripe: u64, mask: u64) -> Record
    ensures { result ≡ admitted state write stripe mask }
{
    let n = units(state);
    let chosen_graph = graph::choose(n, write, mask, state.missing_in(stripe)).number();
    Record {
        phase: Phase::Open.number(),
        write: write as u64,
        stripe,
        mask,
        graph: chosen_graph,
        chosen: state.out_in(stripe),
        done: 0,
        count: 0,
    }
}

impl Record {
    // The position that was missing when the graph was chosen; N where none was.
    pub fn chosen_at(self, state: State) -> u64
        ensures { result ≡ chosen_at state self }
    {
        geometry::missing_at(state.cards, state.layout, self.stripe, self.chosen)
    }

    // Its graph in a stripe of so many units, chosen with this position missing.
    pub(crate) fn plan(self, units: u64, missing: u64) -> graph::Plan
        ensures { result ≡ record { units = units; graph = self.graph; mask = self.mask; missing = missing } }
    {
        graph::Plan {
            units,
            graph: self.graph,
            mask: self.mask,
            missing,
        }
    }

    // Step k is ready.
    #[tactic(auto, unfolding(crate::specs::Asked::ready_in))]
    pub fn is_ready(self, state: State, k: u64) -> bool
        ensures { result ≡ ready_in state self k }
    {
        let plan = self.plan(units(state), self.chosen_at(state));
        plan.ready(self.done, k)
    }

    // One more step can be counted.
    #[tactic(auto, using(std::proofs::lemmas::Bool::Decides::nat_tests), unfolding(crate::specs::Asked::can_count))]
    fn can_count(self) -> bool
        ensures { result ≡ can_count self }
    {
        self.count < u64::MAX
    }

    // Step k can be marked done: it is a place of the done set, and not done yet.
    #[tactic(auto, using(std::proofs::lemmas::Bool::Decides::nat_tests), unfolding(crate::specs::Look::can_mark))]
    fn can_mark(self, k: u64) -> bool
        ensures { result ≡ can_mark self k }
    {
        k <= 63 && !graph::has(k, self.done) && self.can_count()
    }

    // The record after its step k is done: finished where none of the steps given is wanting; as it was where k can't be marked.
    #[tactic(auto, using(std::proofs::lemmas::Bool::Decides::nat_tests), unfolding(crate::specs::Look::after_step, crate::specs::Look::can_mark, crate::specs::Asked::can_count, graph::specs::Asked::after_or))]
    pub fn after_step(mut self, k: u64, steps: u64) -> Record
        ensures { result ≡ after_step self k steps }
    {
        if !self.can_mark(k) {
            return self;
        }
        let done = graph::after(self.done, k);
        let phase = if graph::part_of(steps, done) {
            Phase::Finished
        } else {
            Phase::Open
        };
        self.phase = phase.number();
        self.done = done;
        self.count += 1;
        self
    }

    // The record after a fresh choice with this position missing; as it was where no step can be counted.
    #[tactic(auto, using(std::proofs::lemmas::Bool::Decides::nat_tests), unfolding(crate::specs::Look::after_choice, crate::specs::Asked::can_count))]
    pub fn after_choice(mut self, state: State, out: u64) -> Record
        ensures { result ≡ after_choice state self out }
    {
        if !self.can_count() {
            return self;
        }
        let n = units(state);
        self.graph = graph::choose(n, self.is_write(), self.mask, out).number();
        self.phase = Phase::Open.number();
        self.chosen = state.out_in(self.stripe);
        self.done = 0;
        self.count += 1;
        self
    }
}
