// The refusals of document 01, and of Q-1 of document 02: why a call was refused.
// Assumes nothing.
ghost use Rattle.std.specs.Prelude.{◌≡◌, Some};
ghost use Rattle.terms.specs.Reasons.{reason};
ghost use Rattle.terms.specs.Reply.{number_of};

use std::error::Error;
use std::fmt;

// Why a call was refused, in the order of the paper's numbers, from 1 on.
#[derive(Clone, Copy, Debug, PartialEq, Eq)]
pub enum Refusal {
    // a number of the array or the card out is beyond its limits
    BeyondLimits,
    // what is lent is of another length
    WrongLength,
    UnsoundTable,
    ArrayLost,
    // a block, card, stripe or record number is out of range
    OutOfRange,
    // the mask is zero or names a unit that there is not
    WrongMask,
    // the payload or the result buffer is of a wrong length
    WrongPayload,
    StripeHeld,
    NoFreeRecord,
    // the record is not open, or for collect not finished
    WrongPhase,
    StepNotReady,
    CardOut,
    // the lowest stripe, and the lowest byte in it, where parity disagrees
    ParityDisagrees { stripe: u64, byte: u64 },
    // no card is out, or no fill is begun
    NoFill,
    FillUnderWay,
}

impl Refusal {
    // The paper's number. (A match: one case has values, so an enum's own numbers don't serve.)
    pub fn number(self) -> u64
        ensures { result ≡ number_of self }
    {
        match self {
            Refusal::BeyondLimits => 1,
            Refusal::WrongLength => 2,
            Refusal::UnsoundTable => 3,
            Refusal::ArrayLost => 4,
            Refusal::OutOfRange => 5,
            Refusal::WrongMask => 6,
            Refusal::WrongPayload => 7,
            Refusal::StripeHeld => 8,
            Refusal::NoFreeRecord => 9,
            Refusal::WrongPhase => 10,
            Refusal::StepNotReady => 11,
            Refusal::CardOut => 12,
            Refusal::ParityDisagrees { .. } => 13,
            Refusal::NoFill => 14,
            Refusal::FillUnderWay => 15,
        }
    }
}

impl fmt::Display for Refusal {
    ghost output = { λ r. Some (reason r) };

    fn fmt<W: fmt::Write>(&self, f: &mut fmt::Formatter<W>) -> fmt::Result {
        f.write_str(match self {
            Refusal::BeyondLimits => "beyond the limits",
            Refusal::WrongLength => "lent a wrong length",
            Refusal::UnsoundTable => "the table is not sound",
            Refusal::ArrayLost => "the array is lost",
            Refusal::OutOfRange => "out of range",
            Refusal::WrongMask => "no units, or none such",
            Refusal::WrongPayload => "a payload or result of a wrong length",
            Refusal::StripeHeld => "the stripe is held",
            Refusal::NoFreeRecord => "no record is free",
            Refusal::WrongPhase => "the record is not open, or not finished",
            Refusal::StepNotReady => "that step is not ready",
            Refusal::CardOut => "a card is out",
            Refusal::ParityDisagrees { .. } => "parity disagrees",
            Refusal::NoFill => "no card is out, or no fill is begun",
            Refusal::FillUnderWay => "a fill is under way",
        })
    }
}

impl Error for Refusal {}
