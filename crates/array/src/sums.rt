// The exclusive or of a record's blocks: each sum starts from a block of 512 zero bytes, of which B are used.
// Assumes nothing.
ghost use Rattle.std.specs.Prelude.{◌≡◌, ◌+◌, ◌*◌, ◌≤◌, ◌<◌, length};
ghost use Rattle.array.specs.Sums.{taken_if, block_sum};
ghost use Rattle.block.specs.Blocks.{summed, carried};
ghost use Rattle.geometry.specs.Store.{work_size};

use crate::places::Row;
use block::{Sum, ZEROS, add, carry};

// Adds the blocks of a set of positions, which stand one behind the other from a place on. (`chunks_exact` would take the part cut out first and
// `enumerate` for the positions: no plainer. And `graph::has` tests that p is below 64 too: with it a small write takes 1 % more instructions.)
#[tactic(auto, using(crate::proofs::Adding::block_ends), unfolding(terms::specs::Lists::part))]
fn add_taken(sum: &mut Sum, taken: u64, first: usize, cards: u64, size: usize, work: &[u8])
    requires { (cards ≤ 8) × (first + cards * size ≤ length work.now) }
    ensures { sum.new ≡ summed cards (taken_if taken first size work.now) sum.old }
{
    for p in 0..cards {
        if (taken >> p) % 2 == 1 {
            let at = first + p as usize * size;
            add(sum, &work[at..at + size]);
        }
    }
}

impl Row {
    // Puts the sum of the record's blocks, read and to write, into the work store at a place.
    #[tactic(auto, using(crate::proofs::Within::within))]
    pub(crate) fn sum_blocks(self, reads: u64, news: u64, at: usize, work: &mut [u8])
        requires { length work.old ≡ work_size self.of.state.cards self.of.state.block self.of.state.records }
        ensures { work.new ≡ carried work.old at (block_sum self.of.state self.number reads news work.old) 0 self.of.state.block }
    {
        let state = self.of.state;
        let size = state.block as usize;
        let read = self.read_at(0);
        let new = self.write_at(0);
        let mut sum = ZEROS;
        add_taken(&mut sum, reads, read, state.cards, size, work);
        add_taken(&mut sum, news, new, state.cards, size, work);
        carry(work, at, &sum, 0, size);
    }
}
