// The limits of an array's numbers: refusal 1, and refusal 4 of a lost array.
// Assumes nothing.
ghost use Rattle.std.specs.Prelude.{◌≡◌};
ghost use Rattle.terms.specs.Sets.{within};
ghost use Rattle.geometry.specs.Limits.{legal, legal_layout, beyond, geometry_of, legal_fill, beyond_state, is_lost};

use crate::{Geometry, State};

// The layouts, by their numbers: parity on the last card, and parity rotated. (A layout is a number and no enum: C gives it, and placement answers
// for any number, docs/DECISIONS.md, 48.)
pub const LEVEL_4: u64 = 4;

pub const LEVEL_5: u64 = 5;

// The number that says that no card is out. It is no Option, as C reads and writes it (`coppicetune_state`).
pub const NONE: u64 = 255;

// The number that says that no fill is under way; C reads and writes it too.
pub const NO_FILL: u64 = 65535;

// A number that is no stripe's. (No Option: `survey_of`, `held_in` and `among` are of numbers, of which this one is no stripe's.)
pub const NO_STRIPE: u64 = 1024;

// Whether N, S, B and K are within their limits. (Four numbers, as the definition `legal` has them.)
#[tactic(auto, unfolding(crate::specs::Limits::legal, terms::specs::Sets::within))]
pub fn legal(cards: u64, stripes: u64, block: u64, records: u64) -> bool
    ensures { result ≡ legal cards stripes block records }
{
    (3..=8).contains(&cards)
        && (1..=1024).contains(&stripes)
        && (16..=512).contains(&block)
        && block % 16 == 0
        && (1..=8).contains(&records)
}

// Whether there is a layout of this number.
#[tactic(auto, unfolding(crate::specs::Limits::legal_layout, terms::specs::Sets::within))]
fn legal_layout(layout: u64) -> bool
    ensures { result ≡ legal_layout layout }
{
    (LEVEL_4..=LEVEL_5).contains(&layout)
}

// Whether a fill place is 65,535, or one of S stripes with a card out.
#[tactic(auto, unfolding(crate::specs::Limits::legal_fill))]
fn legal_fill(stripes: u64, out: u64, fill: u64) -> bool
    ensures { result ≡ legal_fill stripes out fill }
{
    fill == NO_FILL || (fill < stripes && out != NONE)
}

impl Geometry {
    // Refusal 1, with the card that is out: whether N, S, B, K, the layout or that card is beyond its limits.
    #[tactic(auto, unfolding(crate::specs::Limits::beyond, crate::specs::Limits::legal_out))]
    pub fn beyond(self, out: u64) -> bool
        ensures { result ≡ beyond self out }
    {
        !(legal(self.cards, self.stripes, self.block, self.records)
            && legal_layout(self.layout)
            && (out < self.cards || out == NONE))
    }
}

// The geometry that an array was opened with.
impl From<State> for Geometry {
    ghost from_gives = { λ state geometry. geometry ≡ geometry_of state };

    fn from(state: State) -> Geometry {
        Geometry {
            cards: state.cards,
            stripes: state.stripes,
            block: state.block,
            records: state.records,
            layout: state.layout,
        }
    }
}

impl State {
    // Refusal 1: whether a number of the state is beyond its limits.
    #[tactic(auto, unfolding(crate::specs::Limits::beyond_state))]
    pub fn beyond(self) -> bool
        ensures { result ≡ beyond_state self }
    {
        Geometry::from(self).beyond(self.out) || !legal_fill(self.stripes, self.out, self.fill)
    }

    // Refusal 4: whether the array is lost.
    pub fn is_lost(self) -> bool
        ensures { result ≡ is_lost self }
    {
        self.lost != 0
    }
}
