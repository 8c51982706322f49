// The six graphs of document 01, by name and by number.
ghost use Rattle.std.specs.Prelude.{◌≡◌, ◌++◌, Some, codes, decimal};
ghost use Rattle.graph.specs.Named.{number_of_graph, name_of_graph, Numbered};

use std::error::Error;
use std::fmt;

// How a request is carried out: which of its stripe's units are read, and which are written.
#[derive(Clone, Copy, Debug, PartialEq, Eq)]
pub enum Graph {
    PlainRead = 1,
    DegradedRead,
    SmallWrite,
    ReconstructWrite,
    LargeWrite,
    ParityFailed,
}

impl Graph {
    // Its number, 1 to 6.
    pub fn number(self) -> u64
        ensures { result ≡ number_of_graph self }
    {
        self as u64
    }
}

// A number that is no graph's.
#[derive(Clone, Copy, Debug, PartialEq, Eq)]
pub struct UnknownGraph(pub u64);

impl TryFrom<u64> for Graph {
    type Error = UnknownGraph;

    ghost try_from_gives = { Numbered };

    fn try_from(number: u64) -> Result<Self, UnknownGraph> {
        match number {
            1 => Ok(Graph::PlainRead),
            2 => Ok(Graph::DegradedRead),
            3 => Ok(Graph::SmallWrite),
            4 => Ok(Graph::ReconstructWrite),
            5 => Ok(Graph::LargeWrite),
            6 => Ok(Graph::ParityFailed),
            _ => Err(UnknownGraph(number)),
        }
    }
}

impl fmt::Display for Graph {
    ghost output = { λ graph. Some (name_of_graph graph) };

    fn fmt<W: fmt::Write>(&self, f: &mut fmt::Formatter<W>) -> fmt::Result {
        f.write_str(match self {
            Graph::PlainRead => "plain read",
            Graph::DegradedRead => "degraded read",
            Graph::SmallWrite => "small write",
            Graph::ReconstructWrite => "reconstruct write",
            Graph::LargeWrite => "large write",
            Graph::ParityFailed => "parity failed",
        })
    }
}

impl fmt::Display for UnknownGraph {
    ghost output = { λ unknown. Some (codes "no graph has the number " ++ decimal unknown.0) };

    fn fmt<W: fmt::Write>(&self, f: &mut fmt::Formatter<W>) -> fmt::Result {
        write!(f, "no graph has the number {}", self.0)
    }
}

impl Error for UnknownGraph {}
