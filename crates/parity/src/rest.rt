// A missing block, inferred from the other cards' blocks in its stripe and written to its card.
// Assumes nothing.
ghost use Rattle.std.specs.Prelude.{◌≡◌};
ghost use Rattle.parity.specs.Rest.{restored_in};

use crate::image::Cells;
use block::{ZEROS, carry};
use geometry::State;

// Restores a card's block of a stripe in the image; leaves the image where there is no such block, or it is of another length.
pub fn restore(state: State, card: u64, stripe: u64, image: &mut [u8])
    ensures { image.new ≡ restored_in state image.old card stripe }
{
    if !state.in_image(card, stripe) {
        return;
    }
    let mut sum = ZEROS;
    let Some(cells) = Cells::whole(state, image) else {
        return;
    };
    cells.add_others(&mut sum, card as usize, stripe as usize);
    let size = state.block as usize;
    carry(image, state.cell_at(card, stripe), &sum, 0, size);
}
