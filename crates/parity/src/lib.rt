// The parity of stripes in the image, the scan for the lowest place where it disagrees, and a missing block restored.
// Assumes nothing.
#![tactic(auto)]

pub use rest::restore;

mod image;
mod rest;

ghost use Rattle.std.specs.Prelude.{◌≡◌};
ghost use Rattle.parity.specs.Scan.{look_reply, idle_scan_reply};
ghost use Rattle.terms.specs.Lists.{among};
ghost use Rattle.terms.specs.Reply.{done_reply};

use geometry::{NO_STRIPE, NONE, State};
use image::Cells;
use terms::Refusal;

// The parity of all stripes but those that are passed over. Refusals 1, 2 and 13. (Eight numbers and no slice, as a survey holds them: docs/DECISIONS.md,
// 25.)
pub fn scan_but(state: State, image: &[u8], skip: [u64; 8]) -> Result<(), Refusal>
    ensures { done_reply result ≡ look_reply state image.now (among skip) }
{
    Cells::new(state, image)?.scan(skip)
}

// The scan of an array with nothing open. Refusals 1, 2, 4, 12 and 13.
pub fn idle_scan(state: State, image: &[u8]) -> Result<(), Refusal>
    ensures { done_reply result ≡ idle_scan_reply state image.now }
{
    let cells = Cells::new(state, image)?;
    if state.is_lost() {
        return Err(Refusal::ArrayLost);
    }
    if state.out != NONE {
        return Err(Refusal::CardOut);
    }
    cells.scan([NO_STRIPE; 8])
}
