// The race desk: all that goes from call to call, lent to the library's calls, and told as they are made.
use crate::told;
use crate::told::{Refused, Step};
use crate::touch::Touch;
use geometry::{Geometry, LEVEL_5, NONE, State};
use record::Record;
use std::io;

// More steps than any graph has.
const STEPS: u64 = 17;

// The race's array: five cards, five stripes, a touch in each block of 16 bytes, two requests at a time.
const SHAPE: Geometry = Geometry {
    cards: 5,
    stripes: 5,
    block: 16,
    records: 2,
    layout: LEVEL_5,
};

// The mask of a block's unit alone.
pub(crate) fn unit_of(block: u64) -> u64 {
    1 << (block % 4)
}

// The state, the table, the work store and the image.
// (What prints goes beside the desk: a desk that held it would be generic over it, and so would each scene's desk.)
#[derive(Clone, Copy)]
pub struct Desk {
    state: State,
    records: [Record; 2],
    work: [u8; 320],
    image: [u8; 400],
}

impl Desk {
    // Opens the array over blank cards.
    pub(crate) fn open(rt: &impl Print) -> io::Result<Option<Desk>> {
        let mut records = [record::free(); 2];
        let work = [0u8; 320];
        let image = [0u8; 400];
        let answer = calls::open(SHAPE, NONE, &mut records, &work, &image);
        told::opened(rt, answer)?;
        Ok(
            answer.ok().map(|state| Desk {
                state,
                records,
                work,
                image,
            }),
        )
    }

    // The card of a block.
    pub(crate) fn card_of(&self, block: u64) -> u64 {
        geometry::card_at(self.state.cards, self.state.layout, block / 4, block % 4)
    }

    // Record i.
    fn record(&self, i: u64) -> Record {
        table::at(&self.records, i)
    }

    // Step k of record i.
    fn named(&self, i: u64, k: u64) -> Step {
        Step {
            state: self.state,
            stripe: self.record(i).stripe,
            k,
        }
    }

    // The lowest ready step of record i.
    fn next(&self, i: u64) -> Option<u64> {
        let record = self.record(i);
        (0..STEPS).find(|&k| record.is_ready(self.state, k))
    }

    // The highest done step of record i.
    fn last(&self, i: u64) -> Option<u64> {
        let record = self.record(i);
        (0..STEPS).rev().find(|&k| graph::has(k, record.done))
    }

    // The highest done step of record i and its lowest ready one.
    pub(crate) fn last_and_next(&self, i: u64) -> Option<(Step, Step)> {
        Some((self.named(i, self.last(i)?), self.named(i, self.next(i)?)))
    }

    // Admits a request of some units of the stripe of a block, and answers its record's place.
    pub(crate) fn admit(
        &mut self,
        rt: &impl Print,
        block: u64,
        write: bool,
        mask: u64,
        payload: &[u8],
    ) -> io::Result<Option<u64>> {
        match calls::admit(
            self.state,
            &mut self.records,
            &mut self.work,
            &self.image,
            write,
            block / 4,
            mask,
            payload,
        ) {
            Ok(i) => {
                if write {
                    told::taken(rt, i, self.record(i))?;
                } else {
                    told::asked(rt, block, i, self.record(i))?;
                }
                Ok(Some(i))
            }
            Err(refusal) => {
                println!(rt; "  {}", Refused(refusal))?;
                Ok(None)
            }
        }
    }

    // Takes step k of record i, and tells what came of it where it is aloud.
    // (A bool: whether is all that is asked.)
    fn step(&mut self, rt: &impl Print, i: u64, k: u64, aloud: bool) -> io::Result<()> {
        let answer = calls::step(
            self.state,
            &mut self.records,
            &mut self.work,
            &mut self.image,
            i,
            k,
        );
        if aloud {
            told::stepped(rt, self.named(i, k), answer)?;
        }
        Ok(())
    }

    // Takes the lowest ready step of record i, again and again while there is one, at most so many times.
    pub(crate) fn run(
        &mut self,
        rt: &impl Print,
        i: u64,
        most: u64,
        aloud: bool,
    ) -> io::Result<()> {
        for _ in 0..most {
            let Some(k) = self.next(i) else {
                return Ok(());
            };
            self.step(rt, i, k, aloud)?;
        }
        Ok(())
    }

    // The rest of a write, and its collection.
    pub(crate) fn finish(&mut self, rt: &impl Print, i: u64, aloud: bool) -> io::Result<()> {
        self.run(rt, i, STEPS, aloud)?;
        let answer = calls::collect(self.state, &mut self.records, &self.work, i, &mut []);
        told::collected(rt, answer)
    }

    // A write of some units of the stripe of a block, from its first step to its last.
    pub(crate) fn write(
        &mut self,
        rt: &impl Print,
        block: u64,
        mask: u64,
        sent: &[u8],
        aloud: bool,
    ) -> io::Result<()> {
        match self.admit(rt, block, true, mask, sent)? {
            Some(i) => self.finish(rt, i, aloud),
            None => Ok(()),
        }
    }

    // A read of one block from its first step to its last, told beside what was sent; answers whether it gives that.
    pub(crate) fn read(&mut self, rt: &impl Print, block: u64, sent: &Touch) -> io::Result<bool> {
        let Some(i) = self.admit(rt, block, false, unit_of(block), b"")? else {
            return Ok(false);
        };
        self.run(rt, i, STEPS, false)?;
        let mut held = [0u8; 16];
        let answer = calls::collect(self.state, &mut self.records, &self.work, i, &mut held);
        told::given(rt, answer, &held, sent)?;
        Ok(held == *sent)
    }

    // A write that is refused, since another request holds its stripe, and alters nothing.
    pub(crate) fn turn_away(
        &mut self,
        rt: &impl Print,
        block: u64,
        sent: &Touch,
    ) -> io::Result<()> {
        let records = self.records;
        let work = self.work;
        self.admit(rt, block, true, unit_of(block), sent)?;
        told::kept(rt, self.records == records, self.work == work)
    }

    // Takes a rebuild step, and tells what came of it.
    pub(crate) fn rebuild(&mut self, rt: &impl Print) -> io::Result<()> {
        let answer = calls::rebuild(&mut self.state, &self.records, &mut self.image);
        told::rebuilt(rt, answer, self.state.out)
    }

    // Scans the stripes that no open request holds.
    pub(crate) fn scan(&self, rt: &impl Print) -> io::Result<()> {
        told::scanned(rt, calls::scan(self.state, &self.records, &self.image))
    }

    // Reports a card, whose bytes turn to noise.
    pub(crate) fn report(&mut self, rt: &impl Print, card: u64) -> io::Result<()> {
        told::accepted(rt, "reported", calls::report(&mut self.state, card))?;
        rt.println("  its bytes are noise from now on")?;
        self.noise(card);
        Ok(())
    }

    // Starts the fill of a card, whose bytes are noise.
    pub(crate) fn start(&mut self, rt: &impl Print, card: u64) -> io::Result<()> {
        told::accepted(rt, "start", calls::start(&mut self.state))?;
        self.noise(card);
        Ok(())
    }

    // Turns every block of a card to noise.
    fn noise(&mut self, card: u64) {
        let noise = [0xa5u8; 80];
        block::carry(&mut self.image, self.state.cell_at(card, 0), &noise, 0, 80);
    }

    // What a card holds, or held, in a stripe, inferred from the other cards.
    pub(crate) fn inferred(&self, card: u64, stripe: u64) -> Touch {
        let mut image = self.image;
        parity::restore(self.state, card, stripe, &mut image);
        let mut held = [0u8; 16];
        block::copy(&mut held, self.state.cell(&image, card, stripe));
        held
    }
}
