// A block handed on as a part of the image that starts in its middle; the empty part, as `cell_part` says, where there is no such block, or where the
// image is of another length.
// Assumes nothing.
ghost use Rattle.std.specs.Prelude.{◌≡◌};
ghost use Rattle.geometry.specs.Asked.{cell_part};

use crate::State;

impl State {
    // The block of a card and a stripe.
    #[tactic(auto, using(crate::proofs::Asked::cutting), unfolding(crate::specs::Asked::cell_part, crate::specs::Store::image_wrong, terms::specs::Lists::part))]
    pub fn cell(self, image: &[u8], card: u64, stripe: u64) -> &[u8]
        ensures { result.now ≡ cell_part self card stripe image.now }
    {
        if self.in_image(card, stripe) && image.len() == self.image_size() {
            let at = self.cell_at(card, stripe);
            &image[at..at + self.block as usize]
        } else {
            &image[..0]
        }
    }
}
