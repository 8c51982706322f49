// The blocks of an array's cards as they lie in its image, and where the parity of its stripes disagrees.
// Assumes nothing.
ghost use Rattle.std.specs.Prelude.{true, false, ◌≡◌, ◌+◌, ◌-◌, ◌^◌, ◌≤◌, ◌<◌, MatchOption, IfOk, IfErr};
ghost use Rattle.block.specs.Blocks.{summed, all_zero};
ghost use Rattle.geometry.specs.Limits.{beyond_state};
ghost use Rattle.geometry.specs.Store.{image_wrong, legal_state};
ghost use Rattle.parity.specs.Fitting.{Fitting, LiesIn, beside, image_refusal};
ghost use Rattle.parity.specs.Parity.{cell, looked};
ghost use Rattle.terms.specs.Lists.{among};
ghost use Rattle.terms.specs.Reply.{refused, refusal_reply, done_reply};

use block::{Sum, ZEROS};
use geometry::State;
use terms::Refusal;

// An image that is as long as the numbers of its array say. Whoever makes one has tested once, for all blocks, what geometry's `cell` tests at each.
#[derive(Clone, Copy)]
pub(crate) struct Cells<'a> {
    image: &'a [u8],
    cards: usize,
    stripes: usize,
    size: usize,
    ghost cards_low: { 3 ≤ cards },
    ghost fitting: { Fitting cards stripes size image.now },
}

impl<'a> Cells<'a> {
    // The cells of an image of an array whose numbers are within their limits; none where it is of another length.
    pub(crate) fn whole(state: State, image: &'a [u8]) -> Option<Self>
        requires { legal_state state ≡ true }
        ensures { MatchOption result (image_wrong state image.now ≡ true) (λ c. (image_wrong state image.now ≡ false) × LiesIn state image.now c.cards c.stripes c.size c.image.now) }
    {
        if image.len() != state.image_size() {
            return None;
        }
        Some(Cells {
            image,
            cards: state.cards as usize,
            stripes: state.stripes as usize,
            size: state.block as usize,
        })
    }

    // The cells of any array's image. Refusals 1 and 2.
    pub(crate) fn new(state: State, image: &'a [u8]) -> Result<Self, Refusal>
        ensures ok { IfOk result (λ c. (beyond_state state ≡ false) × (image_wrong state image.now ≡ false) × LiesIn state image.now c.cards c.stripes c.size c.image.now) }
        ensures err { IfErr result (λ r. refusal_reply r ≡ refused (image_refusal state image.now)) }
    {
        if state.beyond() {
            return Err(Refusal::BeyondLimits);
        }
        Cells::whole(state, image).ok_or(Refusal::WrongLength)
    }

    // The block of a card in a stripe: a part of the image that starts in its middle. (Each that is given a stripe asks that it is one: a stripe is a number
    // of the scan's loop, which no field holds.)
    fn cell(self, card: usize, stripe: usize) -> &'a [u8]
        requires { (stripe < self.stripes) × (card < self.cards) }
        ensures { result.now ≡ cell self.entry.stripes self.entry.size self.entry.image.now stripe card }
    {
        let a = (card * self.stripes + stripe) * self.size;
        let e = a + self.size;
        &self.image[a..e]
    }

    // Adds the blocks of the first N cards beside one in a stripe to the sum, all in one pass, and tells whether its bytes there are all zero. The
    // inner loop has a number of turns that the compiler knows, and there is no way out of the outer one, which vectorises. (By index, as `block::add`.)
    fn add_beside<const N: usize>(self, sum: &mut Sum, but: usize, stripe: usize) -> bool
        requires { (stripe < self.stripes) × (N ≤ self.cards) × (but < self.cards → N < self.cards) }
        ensures { (sum.new ≡ summed N (λ k. cell self.entry.stripes self.entry.size self.entry.image.now stripe (beside but k)) sum.old) × (result ≡ all_zero self.entry.size sum.new) }
    {
        let mut any: u8 = 0;
        for i in 0..self.size {
            let mut byte = sum[i];
            for k in 0..N {
                byte ^= self.cell(beside(but, k), stripe)[i];
            }
            sum[i] = byte;
            any |= byte;
        }
        any == 0
    }

    // Adds the blocks of all cards but one in a stripe to the sum.
    // (A match as in `scan`, since a pass takes the number as a constant. One match for both, of two functions, would need a trait or a macro.)
    pub(crate) fn add_others(self, sum: &mut Sum, but: usize, stripe: usize)
        requires { (stripe < self.stripes) × (but < self.cards) }
        ensures { sum.new ≡ summed (self.entry.cards - 1) (λ k. cell self.entry.stripes self.entry.size self.entry.image.now stripe (beside but k)) sum.old }
    {
        match self.cards {
            3 => self.add_beside::<2>(sum, but, stripe),
            4 => self.add_beside::<3>(sum, but, stripe),
            5 => self.add_beside::<4>(sum, but, stripe),
            6 => self.add_beside::<5>(sum, but, stripe),
            7 => self.add_beside::<6>(sum, but, stripe),
            _ => self.add_beside::<7>(sum, but, stripe),
        };
    }

    // The lowest stripe that is not passed over, and the lowest byte in it, where parity disagrees: stripes ascending, bytes ascending. One sum
    // serves all stripes: where a stripe is right, it is again the 512 zero bytes that the next one starts from. Loops that are left by a label are
    // the form that is named for this place (docs/DECISIONS.md, 21).
    fn scan_all<const N: usize>(self, skip: [u64; 8]) -> Result<(), Refusal>
        requires { N ≡ self.cards }
        ensures { done_reply result ≡ looked self.entry.cards self.entry.stripes self.entry.size self.entry.image.now (among skip) }
    {
        let mut answer = Ok(());
        let mut sum = ZEROS;
        'scan: for stripe in 0..self.stripes {
            if is_passed(&skip, stripe as u64) {
                continue;
            }
            // beside the number after the last card's are all of them; with N in its place a pass over 8 cards took 29 % more instructions
            if self.add_beside::<N>(&mut sum, self.cards, stripe) {
                continue;
            }
            for (byte, b) in sum[..self.size].iter().enumerate() {
                if *b != 0 {
                    let (stripe, byte) = (stripe as u64, byte as u64);
                    answer = Err(Refusal::ParityDisagrees { stripe, byte });
                    break 'scan;
                }
            }
        }
        answer
    }

    // The same, by the number of the cards: a loop for each of them, which has nothing to test at a stripe.
    pub(crate) fn scan(self, skip: [u64; 8]) -> Result<(), Refusal>
        ensures { done_reply result ≡ looked self.entry.cards self.entry.stripes self.entry.size self.entry.image.now (among skip) }
    {
        match self.cards {
            3 => self.scan_all::<3>(skip),
            4 => self.scan_all::<4>(skip),
            5 => self.scan_all::<5>(skip),
            6 => self.scan_all::<6>(skip),
            7 => self.scan_all::<7>(skip),
            _ => self.scan_all::<8>(skip),
        }
    }
}

// Whether a stripe is among those to pass over.
#[tactic(auto, using(crate::proofs::Passing::is_among))]
fn is_passed(skip: &[u64; 8], stripe: u64) -> bool
    ensures { result ≡ among skip.now stripe }
{
    skip.contains(&stripe)
}

// The k-th card beside one, ascending.
fn beside(card: usize, k: usize) -> usize
    requires { k + 1 < 2 ^ 64 }
    ensures { result ≡ beside card k }
{
    if k < card { k } else { k + 1 }
}
