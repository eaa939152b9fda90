//! Why a run stopped.

ghost use Rattle.std.specs.Prelude.{◌≡◌};
ghost use Rattle.swim_sync.specs.declared.stop.Why.TheVariants as why;
ghost use Rattle.swim_sync.specs.Fault.{why_number};

use std::alloc::AllocError;
use thiserror::Error;

/// Where a run of events stopped, and why. What the events before did remains.
#[derive(Clone, Copy, Debug, PartialEq, Eq, Error)]
#[error("stopped after {done} events: {why}")]
pub struct Stop {
    /// How many events happened, which is the index, from 0, of the one that did not.
    pub done: usize,
    /// Why that event did not happen.
    pub why: Why,
}

/// Why an event did not happen. The event changed nothing.
#[derive(Clone, Copy, Debug, PartialEq, Eq, Error)]
pub enum Why {
    /// A number in the event is not that of a node.
    #[error("there is no such node")]
    NoSuchNode,
    /// The event is an exchange of a node with itself.
    #[error("a node cannot exchange with itself")]
    SameNode,
    /// A table that the event sends keeps more than 131,072 records (own).
    #[error("a table has more than 131,072 records")]
    TooManyRecords,
    /// Memory ran out.
    #[error("out of memory")]
    Memory,
}

impl Why {
    /// The number that identifies the fault in reports: 26, 27, 23, or 10 if out of memory (own).
    pub fn number(&self) -> u32
        ensures { result ≡ why_number self.now }
    {
        match self {
            Why::NoSuchNode => 26,
            Why::SameNode => 27,
            Why::TooManyRecords => 23,
            Why::Memory => 10,
        }
    }
}

impl From<AllocError> for Why {
    ghost from_gives = { λ _ fault. fault ≡ why.Memory };

    fn from(_error: AllocError) -> Why {
        Why::Memory
    }
}
