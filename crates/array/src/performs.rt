// What a done step does: a read copies its card's block to the work store, the exclusive or adds blocks up there, a write copies a
// block to its card.
// Assumes nothing.
ghost use Rattle.std.specs.Prelude.{◌≡◌, ◌<◌, true};
ghost use Rattle.array.specs.Premises.{Lengths, Within, read_by};
ghost use Rattle.array.specs.Stepping.{work_after, image_after, sum_at};
ghost use Rattle.geometry.specs.Placement.{card_in};
ghost use Rattle.graph.specs.Asked.{action_step};
ghost use Rattle.graph.specs.Steps.{rd, xr, wr};
ghost use Rattle.graph.specs.Sums.{sums_to_read};
ghost use Rattle.record.specs.Life.{chosen_at};

use crate::places::Row;
use block::{carry, copy};
use geometry::card_at;
use graph::{Action, sums_to_read, taken_news};
use record::Record;

// An open record whose steps may be done, with X and the positions that its graph reads, as a look at it finds them.
#[derive(Clone, Copy)]
pub(crate) struct Standing {
    pub(crate) row: Row,
    pub(crate) r: Record,
    pub(crate) x: u64,
    pub(crate) reads: u64,
    ghost stripe_below: { r.stripe < row.of.state.stripes },
    ghost x_is: { x ≡ chosen_at row.of.state r },
    ghost reads_are: { reads ≡ read_by row.of.state r },
    ghost x_below: { sums_to_read r.graph ≡ true → x < row.of.state.cards },
}

// (Each method that is lent both stores says that they are of their lengths: they are lent by turns as `&` and `&mut`, so that no field could hold
// them.)
impl Standing {
    // The card of a position in the record's stripe.
    fn card(self, p: u64) -> u64
        ensures { result ≡ card_in self.row.of.state.cards self.row.of.state.layout self.r.stripe p }
    {
        let state = self.row.of.state;
        card_at(state.cards, state.layout, self.r.stripe, p)
    }

    // Copies the card's block of a position to the record's read block.
    fn read(self, p: u64, work: &mut [u8], image: &[u8])
        requires { (Lengths self.row.of.state work.old image.now) × (p < self.row.of.state.cards) }
        ensures { work.new ≡ work_after self.row.of.state self.row.number self.r (rd p) work.old image.now }
    {
        let size = self.row.of.state.block as usize;
        let at = self.row.read_at(p);
        let end = at + size;
        copy(
            &mut work[at..end],
            self.row.of.cell(image, self.card(p), self.r.stripe),
        );
    }

    // Copies the record's block to write of a position to its card.
    fn write(self, p: u64, work: &[u8], image: &mut [u8])
        requires { (Lengths self.row.of.state work.now image.old) × (p < self.row.of.state.cards) }
        ensures { image.new ≡ image_after self.row.of.state self.row.number self.r (wr p) work.now image.old }
    {
        let size = self.row.of.state.block as usize;
        let at = self.row.of.cell_at(self.card(p), self.r.stripe);
        let from = self.row.write_at(p);
        carry(image, at, work, from, size);
    }

    // Where the exclusive or goes: to the read block of X in graph 2, else to the last block to write.
    #[tactic(auto, using(crate::proofs::Within::within), unfolding(crate::specs::Stepping::sum_at))]
    fn sum_at(self) -> usize
        ensures { result ≡ sum_at self.row.of.state self.row.number self.r }
    {
        if sums_to_read(self.r.graph) {
            self.row.read_at(self.x)
        } else {
            self.row.write_at(self.row.of.units())
        }
    }

    // Adds up the blocks that the record's graph takes.
    #[tactic(auto, using(crate::proofs::Within::within))]
    fn sum(self, work: &mut [u8], image: &[u8])
        requires { Lengths self.row.of.state work.old image.now }
        ensures { work.new ≡ work_after self.row.of.state self.row.number self.r xr work.old image.now }
    {
        let at = self.sum_at();
        let news = taken_news(self.row.of.units(), self.r.graph, self.r.mask);
        self.row.sum_blocks(self.reads, news, at, work);
    }

    // Does a step of the record: the work store and the image after it. (A match and no closures: the kinds are three for good, and `work_after` and
    // `image_after` are by the same cases.)
    #[tactic(auto, unfolding(graph::specs::Asked::action_step, crate::specs::Stepping::work_after, crate::specs::Stepping::image_after))]
    pub(crate) fn perform(self, action: Option<Action>, work: &mut [u8], image: &mut [u8])
        requires { (Lengths self.row.of.state work.old image.old) × Within self.row.of.state.cards (action_step action) }
        ensures works { work.new ≡ work_after self.row.of.state self.row.number self.r (action_step action) work.old image.old }
        ensures images { image.new ≡ image_after self.row.of.state self.row.number self.r (action_step action) work.old image.old }
    {
        match action {
            Some(Action::Read(p)) => self.read(p, work, image),
            Some(Action::Sum) => self.sum(work, image),
            Some(Action::Write(p)) => self.write(p, work, image),
            None => {}
        }
    }
}
