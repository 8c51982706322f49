// The functions of `include/coppicetune.h`, as a static library for C programs: each calls the function of its name in `recorder`, whose clauses it
// repeats. Here placement and the scan of an array with nothing open, by numbers and bytes; the whole engine is in `engine`. (Each function stands
// twice, as a crate is a library or a static library, and `client` rests on `recorder` as a library: docs/DECISIONS.md, 15 and 59.)
// Assumes nothing.
#![tactic(auto)]

ghost use Rattle.std.specs.Prelude.{◌≡◌};
ghost use Rattle.geometry.specs.Answers.{place_reply, block_at_reply};
ghost use Rattle.parity.specs.Scan.{idle_scan_reply};
ghost use Rattle.recorder.specs.Packing.{packed};

mod engine;

// The card and the stripe of a block.
#[unsafe(no_mangle)]
pub extern "C" fn coppicetune_place(cards: u64, stripes: u64, layout: u64, block: u64) -> u64
    ensures { result ≡ packed (place_reply cards stripes layout block) }
{
    recorder::coppicetune_place(cards, stripes, layout, block)
}

// What a card holds in a stripe: 0 and the block's number, or 1 for parity.
#[unsafe(no_mangle)]
pub extern "C" fn coppicetune_block_at(
    cards: u64,
    stripes: u64,
    layout: u64,
    card: u64,
    stripe: u64,
) -> u64
    ensures { result ≡ packed (block_at_reply cards stripes layout card stripe) }
{
    recorder::coppicetune_block_at(cards, stripes, layout, card, stripe)
}

// The scan of an array with nothing open: parity is right, or the lowest stripe and the lowest byte in it where it disagrees.
#[unsafe(no_mangle)]
pub extern "C" fn coppicetune_scan(
    cards: u64,
    stripes: u64,
    block: u64,
    records: u64,
    layout: u64,
    out: u64,
    lost: u64,
    fill: u64,
    image: &[u8],
) -> u64
    ensures { result ≡ packed (idle_scan_reply (record { cards = cards; stripes = stripes; block = block; records = records; layout = layout; out = out; lost = lost; fill = fill }) image.now) }
{
    recorder::coppicetune_scan(
        cards, stripes, block, records, layout, out, lost, fill, image,
    )
}
