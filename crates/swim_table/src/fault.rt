//! Why a table has no dump, and why a member makes no refutation.

ghost use Rattle.std.specs.Prelude.{◌≡◌};
ghost use Rattle.swim_table.specs.declared.fault.EncodeFault.TheVariants as encode;
ghost use Rattle.swim_table.specs.declared.fault.RefuteFault.TheVariants as refute;
ghost use Rattle.swim_table.specs.Fault.{encode_number, refute_number};

use std::alloc::AllocError;
use thiserror::Error;

/// Why a table has no dump. Each reason has a number, which reports use.
#[derive(Clone, Copy, Debug, PartialEq, Eq, Error)]
pub enum EncodeFault {
    /// The dump would have more than 131,072 records (own).
    #[error("the table has more than 131,072 records")]
    TooManyRecords,
    /// Out of memory.
    #[error("out of memory")]
    Memory,
}

impl EncodeFault {
    /// The number that reports use for the fault: 23, or 10 if out of memory (own).
    pub fn number(&self) -> u32
        ensures { result ≡ encode_number self.now }
    {
        match self {
            EncodeFault::TooManyRecords => 23,
            EncodeFault::Memory => 10,
        }
    }
}

impl From<AllocError> for EncodeFault {
    ghost from_gives = { λ _ fault. fault ≡ encode.Memory };

    fn from(_error: AllocError) -> EncodeFault {
        EncodeFault::Memory
    }
}

/// Why a member that others accuse makes no refutation. Each reason has a number, which reports
/// use.
#[derive(Clone, Copy, Debug, PartialEq, Eq, Error)]
pub enum RefuteFault {
    /// A refutation is due, but there is no incarnation above 4,294,967,295.
    #[error("there is no greater incarnation")]
    Exhausted,
    /// The member's top is a Confirm or a Leave, at this incarnation. It is final.
    #[error("the member is gone since incarnation {inc}")]
    Gone { inc: u32 },
    /// Out of memory.
    #[error("out of memory")]
    Memory,
}

impl RefuteFault {
    /// The number that reports use for the fault: 24, 25, or 10 if out of memory (own).
    pub fn number(&self) -> u32
        ensures { result ≡ refute_number self.now }
    {
        match self {
            RefuteFault::Exhausted => 24,
            RefuteFault::Gone { .. } => 25,
            RefuteFault::Memory => 10,
        }
    }
}

impl From<AllocError> for RefuteFault {
    ghost from_gives = { λ _ fault. fault ≡ refute.Memory };

    fn from(_error: AllocError) -> RefuteFault {
        RefuteFault::Memory
    }
}
