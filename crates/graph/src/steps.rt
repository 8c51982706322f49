// What a step does, by its number.
ghost use Rattle.std.specs.Prelude.{◌≡◌};
ghost use Rattle.graph.specs.Asked.{action_step};
ghost use Rattle.graph.specs.Steps.{step_of};

// What a step does: reads a position, is the exclusive or, writes a position.
#[derive(Clone, Copy, Debug, PartialEq, Eq)]
pub enum Action {
    Read(u64),
    Sum,
    Write(u64),
}

// What step k does; nothing where k is no step's number.
#[tactic(auto, unfolding(crate::specs::Asked::action_step, crate::specs::Steps::step_of))]
pub fn step_of(n: u64, k: u64) -> Option<Action>
    ensures { action_step result ≡ step_of n k }
{
    match k.checked_sub(n) {
        None | Some(0) => Some(Action::Read(k)),
        Some(1) => Some(Action::Sum),
        Some(past) if past - 2 <= n => Some(Action::Write(past - 2)),
        Some(_) => None,
    }
}
