// The checked examples of document 01 that are not starred, each asked of the library's own calls: one line each, with what came out.
// N = 5 and S = 5 unless said.
#![tactic(auto)]

ghost use Rattle.std.specs.Prelude.{◌≡◌};
ghost use Rattle.terms.specs.Reply.{accepted, reply_of};
ghost use Rattle.geometry.specs.Answers.{place_reply};

use geometry::{Geometry, LEVEL_5, NONE, Placed};
use record::Record;
use std::fmt;
use terms::Refusal;

// What came out: where a block is, a graph by its number, or that the call was accepted.
#[derive(Clone, Copy)]
enum Said {
    At(Placed),
    Graph(u64),
    Accepted,
}

impl fmt::Display for Said {
    fn fmt<W: fmt::Write>(&self, f: &mut fmt::Formatter<W>) -> fmt::Result {
        match *self {
            Said::At(place) => write!(f, "card {}, stripe {}", place.card, place.stripe),
            Said::Graph(number) => write!(f, "graph {number}"),
            Said::Accepted => f.write_str("accepted"),
        }
    }
}

// A geometry with one record, in layout 5.
fn shape(cards: u64, stripes: u64, block: u64) -> Geometry {
    Geometry {
        cards,
        stripes,
        block,
        records: 1,
        layout: LEVEL_5,
    }
}

// Where a block is, or why not.
fn place(block: u64) -> Result<Said, Refusal>
    ensures { (reply_of (λ said. accepted 0 0) result).number ≡ (place_reply 5 5 5 block).number }
{
    let place = Geometry::places(5, 5, LEVEL_5).place(block)?;
    Ok(Said::At(place))
}

// How an array of this geometry opens, lent what is right for 5 cards, 5 stripes and blocks of 16 bytes.
fn open(geometry: Geometry) -> Result<Said, Refusal> {
    let mut records = [record::free()];
    calls::open(geometry, NONE, &mut records, &[0u8; 160], &[0u8; 400])?;
    Ok(Said::Accepted)
}

// The record of a request of stripe 0, on an array of zeros with a card out or none.
fn ask(out: u64, write: bool, mask: u64, payload: &[u8]) -> Result<Record, Refusal> {
    let mut records = [record::free()];
    let mut work = [0u8; 160];
    let image = [0u8; 400];
    let state = calls::open(shape(5, 5, 16), out, &mut records, &work, &image)?;
    calls::admit(
        state,
        &mut records,
        &mut work,
        &image,
        write,
        0,
        mask,
        payload,
    )?;
    Ok(records[0])
}

// The graph of a write of all four units.
fn graph(out: u64) -> Result<Said, Refusal> {
    let record = ask(out, true, 15, &[0u8; 64])?;
    Ok(Said::Graph(record.graph))
}

// Whether a read of a mask is admitted.
fn read(mask: u64) -> Result<Said, Refusal> {
    ask(NONE, false, mask, b"")?;
    Ok(Said::Accepted)
}

// Tells what came out of an example, and of a refusal the paper's number. A write that fails is passed over.
fn tell(rt: &impl Print, name: &str, answer: Result<Said, Refusal>) {
    let _ = match answer {
        Ok(said) => println!(rt; "{name}: {said}"),
        Err(refusal) => println!(rt; "{name}: refused by {}", refusal.number()),
    };
}

fn main(rt: HostRuntime) {
    tell(&rt, "block 19", place(19));
    tell(&rt, "block 20", place(20));
    tell(&rt, "none out, m=4", graph(NONE));
    tell(
        &rt,
        "parity out, m=4",
        graph(geometry::card_at(5, LEVEL_5, 0, 4)),
    );
    tell(&rt, "N=2", open(shape(2, 5, 16)));
    tell(&rt, "N=9", open(shape(9, 5, 16)));
    tell(&rt, "B=24", open(shape(5, 5, 24)));
    tell(&rt, "S=0", open(shape(5, 0, 16)));
    tell(&rt, "S=1025", open(shape(5, 1025, 16)));
    tell(&rt, "mask 0", read(0));
    tell(&rt, "mask 16", read(16));
    tell(&rt, "mask 15", read(15));
}
