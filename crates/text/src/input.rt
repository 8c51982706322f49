// What the layout program is asked for.
ghost use Rattle.std.specs.Prelude.{◌≡◌};
ghost use Rattle.geometry.specs.Answers.{beyond_places, held_reply, block_at_reply};
ghost use Rattle.text.specs.Input.{asked};

use crate::number::read_number;
use geometry::{Geometry, Held, LEVEL_5};
use terms::Refusal;

// The shape of an array whose layout an input asks for.
#[derive(Clone, Copy, Debug, PartialEq, Eq)]
pub struct Shape {
    pub cards: u64,
    pub stripes: u64,
}

impl Shape {
    // Whether N or S is beyond its limits.
    pub(crate) fn beyond(self) -> bool
        ensures { result ≡ beyond_places self.cards self.stripes 5 }
    {
        Geometry::places(self.cards, self.stripes, LEVEL_5).beyond_places()
    }

    // What a card holds in a stripe.
    pub(crate) fn held_at(self, card: u64, stripe: u64) -> Result<Held, Refusal>
        ensures { held_reply result ≡ block_at_reply self.cards self.stripes 5 card stripe }
    {
        Geometry::places(self.cards, self.stripes, LEVEL_5).block_at(card, stripe)
    }
}

// What an input asks for, if it asks for anything that can be shown. N within its limits has one digit, so the space stands second.
pub fn read_input(text: &[u8]) -> Option<Shape>
    ensures { result ≡ asked text.now }
{
    let [first, b' ', second @ .., b'\n'] = text else {
        return None;
    };
    let cards = read_number(&[*first])?;
    let stripes = read_number(second)?;
    let shape = Shape { cards, stripes };
    if shape.beyond() {
        return None;
    }
    Some(shape)
}
