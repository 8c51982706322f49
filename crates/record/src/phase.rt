// A request's phase, and what a record's phase and kind say.
ghost use Rattle.std.specs.Prelude.{◌≡◌};
ghost use Rattle.record.specs.Life.{is_free, is_open, is_finished, is_write};
ghost use Rattle.record.specs.Phase.{number_of};

use crate::Record;

// A record is free, or of a request that is open or finished. (No TryFrom: nothing asks which phase a number is, only whether it is one.)
#[derive(Clone, Copy, PartialEq, Eq, Debug)]
pub enum Phase {
    Free = 0,
    Open = 1,
    Finished = 2,
}

impl Phase {
    // The number that stands for it in a record.
    pub fn number(self) -> u64
        ensures { result ≡ number_of self }
    {
        self as u64
    }
}

impl Record {
    // The record is free. (A function for each phase, as the definitions `is_free`, `is_open` and `is_finished` are.)
    pub fn is_free(self) -> bool
        ensures { result ≡ is_free self }
    {
        self.phase == Phase::Free.number()
    }

    // Its request is open.
    pub fn is_open(self) -> bool
        ensures { result ≡ is_open self }
    {
        self.phase == Phase::Open.number()
    }

    // Its request is finished.
    pub fn is_finished(self) -> bool
        ensures { result ≡ is_finished self }
    {
        self.phase == Phase::Finished.number()
    }

    // Its request is a write.
    pub fn is_write(self) -> bool
        ensures { result ≡ is_write self }
    {
        self.write == 1
    }
}
