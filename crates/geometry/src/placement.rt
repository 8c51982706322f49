// Placement by the layout's number, both ways, and the one answer to which card is missing in a stripe.
// Assumes nothing.
ghost use Rattle.std.specs.Prelude.{◌≡◌, true, false, IfOk, IfErr, cond, ◌+◌, ◌-◌, ◌*◌, ◌/◌, ◌%◌, ◌≤◌, ◌<◌, leb, ltb};
ghost use Rattle.terms.specs.Reply.{accepted, refused, refusal_reply};
ghost use Rattle.geometry.specs.Level5.{card_at5, position_of5};
ghost use Rattle.geometry.specs.Placement.{card_at, position_of, card_in, missing_at, out_in};
ghost use Rattle.geometry.specs.Answers.{places_of, beyond_places, placed_reply, place_reply, held_reply, block_at_reply};

use crate::{Geometry, Held, LEVEL_4, NO_FILL, NONE, Placed, State};
use terms::Refusal;

// The number so many steps back from x, in a ring of the numbers below `cards`. What is past the last step is taken before the test, so that the
// compiler makes no branch of it.
fn back(cards: u64, by: u64, x: u64) -> u64
    requires { (x < cards) × (by ≤ cards) }
    ensures { result ≡ cond (ltb x by) (cards - by + x) (x - by) }
{
    let past = cards - by;
    if x < by { past + x } else { x - by }
}

// The card of a position of a stripe in layout 5.
#[tactic(auto, using(crate::proofs::Turns::turn_below, crate::proofs::Turns::card_before, crate::proofs::Turns::card_from))]
fn rotated_card(cards: u64, stripe: u64, position: u64) -> u64
    requires { position < cards }
    ensures { result ≡ card_at5 cards stripe position }
{
    back(cards, stripe % cards, position)
}

// The position of a card in a stripe of layout 5.
#[tactic(auto, using(crate::proofs::Turns::turn_below, crate::proofs::Turns::position_before, crate::proofs::Turns::position_from))]
fn rotated_position(cards: u64, stripe: u64, card: u64) -> u64
    requires { card < cards }
    ensures { result ≡ position_of5 cards stripe card }
{
    back(cards, cards - stripe % cards, card)
}

// The card of a position of a stripe, by the layout. (Numbers and no State, here and below: `card_in` and `missing_at`, by which graphs are chosen, are
// of them. And a function for each way, as `card_at` and `position_of` are a definition each: what both share in layout 5 is `back`.)
#[tactic(auto, unfolding(crate::specs::Placement::card_at, crate::specs::Level4::card_at4))]
fn card_of(cards: u64, layout: u64, stripe: u64, position: u64) -> u64
    requires { position < cards }
    ensures { result ≡ card_at cards layout stripe position }
{
    if layout == LEVEL_4 {
        position
    } else {
        rotated_card(cards, stripe, position)
    }
}

// The position of a card in a stripe, by the layout.
#[tactic(auto, unfolding(crate::specs::Placement::position_of, crate::specs::Level4::position_of4))]
fn position_of(cards: u64, layout: u64, stripe: u64, card: u64) -> u64
    requires { card < cards }
    ensures { result ≡ position_of cards layout stripe card }
{
    if layout == LEVEL_4 {
        card
    } else {
        rotated_position(cards, stripe, card)
    }
}

// The card of a position of a stripe, position n being parity; N where there is no such position, as `card_in` says.
#[tactic(auto, unfolding(crate::specs::Placement::card_in))]
pub fn card_at(cards: u64, layout: u64, stripe: u64, position: u64) -> u64
    ensures { result ≡ card_in cards layout stripe position }
{
    if position < cards {
        card_of(cards, layout, stripe, position)
    } else {
        cards
    }
}

// The position of a card in a stripe; N where there is no such card, as `missing_at` says, by which graphs are chosen.
#[tactic(auto, unfolding(crate::specs::Placement::missing_at))]
pub fn missing_at(cards: u64, layout: u64, stripe: u64, card: u64) -> u64
    ensures { result ≡ missing_at cards layout stripe card }
{
    if card < cards {
        position_of(cards, layout, stripe, card)
    } else {
        cards
    }
}

impl State {
    // The card that is missing in a stripe, or 255, as `out_in` says: none is where the stripe is filled.
    #[tactic(auto, unfolding(crate::specs::Placement::out_in, crate::specs::Placement::filled))]
    pub fn out_in(self, stripe: u64) -> u64
        ensures { result ≡ out_in self stripe }
    {
        if self.fill != NO_FILL && stripe < self.fill {
            NONE
        } else {
            self.out
        }
    }

    // The position that is missing in a stripe; N where none is.
    pub fn missing_in(self, stripe: u64) -> u64
        ensures { result ≡ missing_at self.cards self.layout stripe (out_in self stripe) }
    {
        missing_at(self.cards, self.layout, stripe, self.out_in(stripe))
    }
}

// Where a block is, if n blocks make a stripe and the blocks are dealt to so many cards in turn: in stripe L div n, on card L mod that number. The
// range is tested here, in each layout: behind one test for both the compiler joins their remainders, and layout 4 divides once more.
fn dealt(units: u64, stripes: u64, cards: u64, block: u64) -> Result<Placed, Refusal>
    requires { (0 < units) × (0 < cards) × (units * stripes ≤ 7168) }
    ensures { placed_reply result ≡ cond (leb (units * stripes) block) (refused 5) (accepted (block % cards) (block / units)) }
{
    if units * stripes <= block {
        return Err(Refusal::OutOfRange);
    }
    Ok(Placed {
        card: block % cards,
        stripe: block / units,
    })
}

impl Geometry {
    // A geometry of so many cards and stripes and this layout, for placement: B is taken as 16, K as 1.
    pub fn places(cards: u64, stripes: u64, layout: u64) -> Geometry
        ensures { result ≡ places_of cards stripes layout }
    {
        Geometry {
            cards,
            stripes,
            block: 16,
            records: 1,
            layout,
        }
    }

    // Refusal 1 of placement: whether the cards, the stripes or the layout are beyond their limits.
    pub fn beyond_places(self) -> bool
        ensures { result ≡ beyond_places self.cards self.stripes self.layout }
    {
        Geometry::places(self.cards, self.stripes, self.layout).beyond(NONE)
    }

    // Whether placement may be asked of these cards, stripes and layout, or why not.
    fn placeable(self) -> Result<(), Refusal>
        ensures ok { IfOk result (λ done. beyond_places self.cards self.stripes self.layout ≡ false) }
        ensures err { IfErr result (λ r. (beyond_places self.cards self.stripes self.layout ≡ true) × (refusal_reply r ≡ refused 1)) }
    {
        if self.beyond_places() {
            return Err(Refusal::BeyondLimits);
        }
        Ok(())
    }

    // The card and the stripe of a logical block: layout 4 deals the blocks to the first n cards, layout 5 to all N.
    #[tactic(auto, using(crate::proofs::Answered::dealing), unfolding(crate::specs::Answers::place_reply, crate::specs::Answers::place_refusal, terms::specs::Reply::first_row))]
    pub fn place(self, block: u64) -> Result<Placed, Refusal>
        ensures { placed_reply result ≡ place_reply self.cards self.stripes self.layout block }
    {
        self.placeable()?;
        let Geometry {
            cards,
            stripes,
            layout,
            ..
        } = self;
        let units = cards - 1;
        if layout == LEVEL_4 {
            dealt(units, stripes, units, block)
        } else {
            dealt(units, stripes, cards, block)
        }
    }

    // What a card holds in a stripe: a logical block's number, or parity.
    #[tactic(auto, using(crate::proofs::Answered::holding), unfolding(crate::specs::Answers::block_at_reply, crate::specs::Answers::block_at_refusal, terms::specs::Reply::first_row))]
    pub fn block_at(self, card: u64, stripe: u64) -> Result<Held, Refusal>
        ensures { held_reply result ≡ block_at_reply self.cards self.stripes self.layout card stripe }
    {
        self.placeable()?;
        if card >= self.cards || stripe >= self.stripes {
            return Err(Refusal::OutOfRange);
        }
        let units = self.cards - 1;
        let position = position_of(self.cards, self.layout, stripe, card);
        if position == units {
            Ok(Held::Parity)
        } else {
            let number = units * stripe + position;
            Ok(Held::Block(number))
        }
    }
}
