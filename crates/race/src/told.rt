// What the calls answered, told in words.
use crate::touch::{Touch, text};
use array::answers::Stepped;
use geometry::{NONE, State};
use graph::{Action, Graph};
use record::Record;
use std::{fmt, io};
use terms::Refusal;

// That a call is refused: by the paper's number, and why; or where parity disagrees.
#[derive(Clone, Copy)]
pub(crate) struct Refused(pub Refusal);

impl fmt::Display for Refused {
    fn fmt<W: fmt::Write>(&self, f: &mut fmt::Formatter<W>) -> fmt::Result {
        let refusal = self.0;
        if let Refusal::ParityDisagrees { stripe, byte } = refusal {
            return write!(f, "parity disagrees in stripe {stripe}, byte {byte}");
        }
        write!(f, "refused by {} ({refusal})", refusal.number())
    }
}

// A graph's number and its name.
#[derive(Clone, Copy)]
struct Numbered(u64);

impl fmt::Display for Numbered {
    fn fmt<W: fmt::Write>(&self, f: &mut fmt::Formatter<W>) -> fmt::Result {
        let number = self.0;
        match Graph::try_from(number) {
            Ok(graph) => write!(f, "graph {number} ({graph})"),
            Err(_) => Ok(()),
        }
    }
}

// Step k of a request on a stripe: what it does, and on which card.
#[derive(Clone, Copy)]
pub(crate) struct Step {
    pub state: State,
    pub stripe: u64,
    pub k: u64,
}

impl Step {
    // The card of a position.
    fn card(&self, p: u64) -> u64 {
        geometry::card_at(self.state.cards, self.state.layout, self.stripe, p)
    }
}

impl fmt::Display for Step {
    fn fmt<W: fmt::Write>(&self, f: &mut fmt::Formatter<W>) -> fmt::Result {
        write!(f, "step {}", self.k)?;
        let Some(n) = self.state.cards.checked_sub(1) else {
            return Ok(());
        };
        match graph::step_of(n, self.k) {
            Some(Action::Read(p)) if p == n => {
                write!(f, ", read parity from card {}", self.card(p))
            }
            Some(Action::Read(p)) => write!(f, ", read unit {p} from card {}", self.card(p)),
            Some(Action::Sum) => f.write_str(", exclusive or"),
            Some(Action::Write(p)) if p == n => {
                write!(f, ", write parity to card {}", self.card(p))
            }
            Some(Action::Write(p)) => write!(f, ", write unit {p} to card {}", self.card(p)),
            None => Ok(()),
        }
    }
}

// What open answered, with the array's numbers.
pub(crate) fn opened(rt: &impl Print, answer: Result<State, Refusal>) -> io::Result<()> {
    print!(rt; "The board opens: ")?;
    match answer {
        Ok(state) => println!(rt;
            "{} cards, {} stripes, blocks of {} bytes, {} records",
            state.cards, state.stripes, state.block, state.records
        ),
        Err(refusal) => rt.println(Refused(refusal)),
    }
}

// That a write was admitted as record i, with its stripe and its graph.
pub(crate) fn taken(rt: &impl Print, i: u64, r: Record) -> io::Result<()> {
    println!(rt;
        "  admitted as record {i}: stripe {}, {}",
        r.stripe,
        Numbered(r.graph)
    )
}

// That a read of a block was admitted as record i, with its graph.
pub(crate) fn asked(rt: &impl Print, block: u64, i: u64, r: Record) -> io::Result<()> {
    print!(rt; "  block {block}: record {i}, {}", Numbered(r.graph))
}

// What step answered.
pub(crate) fn stepped(
    rt: &impl Print,
    step: Step,
    answer: Result<Stepped, Refusal>,
) -> io::Result<()> {
    print!(rt; "  {step}: ")?;
    match answer {
        Ok(Stepped::Done) => rt.println("done"),
        Ok(Stepped::Chosen(g)) => {
            println!(rt; "that card is out, chosen afresh: {}", Numbered(g))
        }
        Err(refusal) => rt.println(Refused(refusal)),
    }
}

// What a report or a start answered.
pub(crate) fn accepted(rt: &impl Print, what: &str, answer: Result<(), Refusal>) -> io::Result<()> {
    match answer {
        Ok(()) => println!(rt; "  {what}: accepted"),
        Err(refusal) => println!(rt; "  {what}: {}", Refused(refusal)),
    }
}

// What a rebuild step answered, with the card that is out after it.
pub(crate) fn rebuilt(rt: &impl Print, answer: Result<u64, Refusal>, out: u64) -> io::Result<()> {
    match answer {
        Ok(stripe) => println!(rt; "Rebuild: stripe {stripe} is filled")?,
        Err(refusal) => println!(rt; "Rebuild: {}", Refused(refusal))?,
    }
    if out == NONE {
        rt.println("  no card is out")?;
    }
    Ok(())
}

// What collect answered of a write.
pub(crate) fn collected(rt: &impl Print, answer: Result<u64, Refusal>) -> io::Result<()> {
    match answer {
        Ok(steps) => println!(rt; "  collected, steps: {steps}"),
        Err(refusal) => println!(rt; "  {}", Refused(refusal)),
    }
}

// What collect answered of a read, what came back, and whether it is what was sent.
pub(crate) fn given(
    rt: &impl Print,
    answer: Result<u64, Refusal>,
    held: &Touch,
    sent: &Touch,
) -> io::Result<()> {
    match answer {
        Ok(steps) => {
            print!(rt; ", steps: {steps}, gives ")?;
            compared(rt, held, sent)
        }
        Err(refusal) => rt.println(Refused(refusal)),
    }
}

// A touch as it is held, and whether it is what was sent.
pub(crate) fn compared(rt: &impl Print, held: &Touch, sent: &Touch) -> io::Result<()> {
    let how = if held == sent {
        "as sent"
    } else {
        "NOT AS SENT"
    };
    println!(rt; "{}, {how}", text(held))
}

// What a scan answered.
pub(crate) fn scanned(rt: &impl Print, answer: Result<(), Refusal>) -> io::Result<()> {
    match answer {
        Ok(()) => rt.println("The scan: parity is right"),
        Err(refusal) => println!(rt; "The scan: {}", Refused(refusal)),
    }
}

// Whether a refused call left the table and the work store as they were.
pub(crate) fn kept(rt: &impl Print, table: bool, work: bool) -> io::Result<()> {
    rt.println(if !table {
        "  THE TABLE IS ALTERED"
    } else if !work {
        "  THE WORK STORE IS ALTERED"
    } else {
        "  the table is as it was, so is the work store"
    })
}

// How many touches came back as they were sent.
pub(crate) fn came_back(rt: &impl Print, same: u64, all: usize) -> io::Result<()> {
    if same == all as u64 {
        println!(rt; "Every touch came back: {same} of {all}")
    } else {
        println!(rt; "TOUCHES ARE LOST: {same} of {all}")
    }
}
