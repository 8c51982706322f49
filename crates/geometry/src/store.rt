// Where blocks stand in the image: card 0's by stripe, then card 1's. Whatever the state's numbers are: 0 where there is no such block, as
// specs/Asked says.
// Assumes nothing.
ghost use Rattle.std.specs.Prelude.{◌≡◌, ◌+◌, ◌*◌, ◌≤◌};
ghost use Rattle.geometry.specs.Store.{legal_state, in_image};
ghost use Rattle.geometry.specs.Asked.{image_size_in, cell_in};

use crate::{State, legal};

// Where a block starts that stands in this column of this row, in rows of so many blocks. (Array has one of its own, in its `places`, which says why.)
#[tactic(auto, using(crate::proofs::Bounds::offset_fits))]
fn offset(row: u64, width: u64, column: u64, block: u64) -> usize
    requires { (row ≤ 8) × (width ≤ 1024) × (column ≤ 1024) × (block ≤ 512) }
    ensures { result ≡ (row * width + column) * block }
{
    ((row * width + column) * block) as usize
}

impl State {
    // Whether N, S, B and K are within their limits.
    fn is_legal(self) -> bool
        ensures { result ≡ legal_state self }
    {
        legal(self.cards, self.stripes, self.block, self.records)
    }

    // Whether a card has a block in a stripe.
    #[tactic(auto, unfolding(crate::specs::Store::in_image))]
    pub fn in_image(self, card: u64, stripe: u64) -> bool
        ensures { result ≡ in_image self card stripe }
    {
        self.is_legal() && card < self.cards && stripe < self.stripes
    }

    // The bytes of an image.
    #[tactic(auto, using(crate::proofs::Bounds::legal_bounds, crate::proofs::Bounds::sizes_fit), unfolding(crate::specs::Asked::image_size_in, crate::specs::Store::image_size))]
    pub fn image_size(self) -> usize
        ensures { result ≡ image_size_in self }
    {
        if self.is_legal() {
            (self.cards * self.stripes * self.block) as usize
        } else {
            0
        }
    }

    // Where the block of a card and a stripe starts in the image.
    #[tactic(auto, using(crate::proofs::Asked::in_image_law), unfolding(crate::specs::Asked::cell_in, crate::specs::Store::cell_at))]
    pub fn cell_at(self, card: u64, stripe: u64) -> usize
        ensures { result ≡ cell_in self card stripe }
    {
        if self.in_image(card, stripe) {
            offset(card, self.stripes, stripe, self.block)
        } else {
            0
        }
    }
}
