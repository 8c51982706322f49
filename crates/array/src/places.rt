// Where blocks stand, and how large the stores are, of a state within its limits. A call of the array has tested once, for all blocks,
// what geometry's functions test at each: so they are not asked here.
// Assumes nothing.
ghost use Rattle.std.specs.Prelude.{true, false, ◌≡◌, ◌+◌, ◌*◌, ◌≤◌, ◌<◌, length, IfOk, IfErr};
ghost use Rattle.terms.specs.Lists.{part};
ghost use Rattle.terms.specs.Reply.{refused, refusal_reply};
ghost use Rattle.geometry.specs.Limits.{beyond_state};
ghost use Rattle.geometry.specs.Store.{image_size, work_size, cell_at, write_at, read_at};
ghost use Rattle.record.specs.Life.{units_of};

use geometry::State;
use terms::Refusal;

// A state within its limits.
#[derive(Clone, Copy)]
pub(crate) struct Legal {
    pub(crate) state: State,
    ghost limits: { beyond_state state ≡ false },
}

// The blocks of a record in the work store.
#[derive(Clone, Copy)]
pub(crate) struct Row {
    pub(crate) of: Legal,
    pub(crate) number: u64,
    ghost below: { number < of.state.records },
}

// Where a block starts that stands in this column of this row, in rows of so many blocks. (Geometry has one of its own behind its tests: to share
// it would take a `pub fn` with a `requires`, which no crate has.)
fn offset(row: u64, width: u64, column: u64, block: u64) -> usize
    requires { (row ≤ 8) × (width ≤ 1024) × (column ≤ 1024) × (block ≤ 512) }
    ensures { result ≡ (row * width + column) * block }
{
    ((row * width + column) * block) as usize
}

impl Legal {
    // A state, where it is within its limits. Refusal 1. (The checks of admit, step and collect say too whose state they hand on: the type says that it is
    // within its limits, and not whose.)
    pub(crate) fn new(state: State) -> Result<Legal, Refusal>
        ensures ok { IfOk result (λ legal. legal.state ≡ state) }
        ensures err { IfErr result (λ refusal. (beyond_state state ≡ true) × (refusal_reply refusal ≡ refused 1)) }
    {
        if state.beyond() {
            return Err(Refusal::BeyondLimits);
        }
        Ok(Legal { state })
    }

    // The units of a stripe: all its positions but parity's.
    #[tactic(auto, using(crate::proofs::Within::within))]
    pub(crate) fn units(self) -> u64
        ensures { result ≡ units_of self.state }
    {
        self.state.cards - 1
    }

    // The bytes of an image.
    #[tactic(auto, using(crate::proofs::Within::within, crate::proofs::Within::products), unfolding(geometry::specs::Store::image_size))]
    pub(crate) fn image_size(self) -> usize
        ensures { result ≡ image_size self.state.cards self.state.stripes self.state.block }
    {
        (self.state.cards * self.state.stripes * self.state.block) as usize
    }

    // The bytes of a work store.
    #[tactic(auto, using(crate::proofs::Within::within, crate::proofs::Within::products), unfolding(geometry::specs::Store::work_size))]
    pub(crate) fn work_size(self) -> usize
        ensures { result ≡ work_size self.state.cards self.state.block self.state.records }
    {
        (2 * self.state.cards * self.state.block * self.state.records) as usize
    }

    // Where the block of a card and a stripe starts in the image.
    #[tactic(auto, using(crate::proofs::Within::within), unfolding(geometry::specs::Store::cell_at))]
    pub(crate) fn cell_at(self, card: u64, stripe: u64) -> usize
        requires { (card < self.state.cards) × (stripe < self.state.stripes) }
        ensures { result ≡ cell_at self.state.stripes self.state.block card stripe }
    {
        offset(card, self.state.stripes, stripe, self.state.block)
    }

    // The block of a card and a stripe: a part of the image that starts in its middle. (Parity's `Cells` has one that holds the image; here it is lent by turns
    // as `&` and `&mut`.)
    #[tactic(auto, using(geometry::proofs::Apart::cell_inside), unfolding(terms::specs::Lists::part))]
    pub(crate) fn cell<'a>(self, image: &'a [u8], card: u64, stripe: u64) -> &'a [u8]
        requires { (card < self.state.cards) × (stripe < self.state.stripes) × (length image.now ≡ image_size self.state.cards self.state.stripes self.state.block) }
        ensures { result.now ≡ part (cell_at self.state.stripes self.state.block card stripe) self.state.block image.now }
    {
        let size = self.state.block as usize;
        let a = self.cell_at(card, stripe);
        let e = a + size;
        &image[a..e]
    }
}

impl Row {
    // Where its block to write of a position starts in the work store.
    #[tactic(auto, using(crate::proofs::Within::within), unfolding(geometry::specs::Store::write_at))]
    pub(crate) fn write_at(self, position: u64) -> usize
        requires { position < self.of.state.cards }
        ensures { result ≡ write_at self.of.state.cards self.of.state.block self.number position }
    {
        let state = self.of.state;
        offset(self.number, 2 * state.cards, position, state.block)
    }

    // Where its block read of a position starts in the work store.
    #[tactic(auto, using(crate::proofs::Within::within), unfolding(geometry::specs::Store::read_at))]
    pub(crate) fn read_at(self, position: u64) -> usize
        requires { position < self.of.state.cards }
        ensures { result ≡ read_at self.of.state.cards self.of.state.block self.number position }
    {
        let state = self.of.state;
        offset(
            self.number,
            2 * state.cards,
            state.cards + position,
            state.block,
        )
    }
}
