// What the functions do that a C program calls, and that `recorder_c` exports under these names: each answers one number, packed as
// docs/C-INTERFACE.md says, and no number traps. Here placement and the scan of an array with nothing open, by numbers and bytes; the whole engine is in `engine`.
// Assumes nothing.
#![tactic(auto)]

ghost use Rattle.std.specs.Prelude.{◌≡◌};
ghost use Rattle.geometry.specs.Answers.{place_reply, block_at_reply};
ghost use Rattle.parity.specs.Scan.{idle_scan_reply};
ghost use Rattle.recorder.specs.Packing.{packed};

use crate::packing::packed;
use geometry::{Geometry, State};

pub mod engine;
mod packing;

// The card and the stripe of a block.
#[tactic(auto, using(crate::proofs::Room::place_room))]
pub fn coppicetune_place(cards: u64, stripes: u64, layout: u64, block: u64) -> u64
    ensures { result ≡ packed (place_reply cards stripes layout block) }
{
    packed(Geometry::places(cards, stripes, layout).place(block))
}

// What a card holds in a stripe: 0 and the block's number, or 1 for parity.
#[tactic(auto, using(crate::proofs::Room::block_at_room))]
pub fn coppicetune_block_at(cards: u64, stripes: u64, layout: u64, card: u64, stripe: u64) -> u64
    ensures { result ≡ packed (block_at_reply cards stripes layout card stripe) }
{
    packed(Geometry::places(cards, stripes, layout).block_at(card, stripe))
}

// The scan of an array with nothing open: parity is right, or the lowest stripe and the lowest byte in it where it disagrees.
#[tactic(auto, using(crate::proofs::Room::idle_room))]
pub fn coppicetune_scan(
    cards: u64,
    stripes: u64,
    block: u64,
    records: u64,
    layout: u64,
    out: u64,
    lost: u64,
    fill: u64,
    image: &[u8],
) -> u64
    ensures { result ≡ packed (idle_scan_reply (record { cards = cards; stripes = stripes; block = block; records = records; layout = layout; out = out; lost = lost; fill = fill }) image.now) }
{
    let state = State {
        cards,
        stripes,
        block,
        records,
        layout,
        out,
        lost,
        fill,
    };
    packed(parity::idle_scan(state, image))
}
