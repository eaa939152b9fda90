//! Why wrapped bytes were refused.

ghost use Rattle.std.specs.Prelude.{◌≡◌};
ghost use Rattle.memberlist_wrap.specs.declared.fault.WrapFault.TheVariants.{Memory};
ghost use Rattle.memberlist_wrap.specs.Reasons.{fault_of_map, fault_of_label};
ghost use Rattle.memberlist_wrap.specs.Fault.{wrap_number};

use memberlist_cipher::LabelFault;
use std::alloc::{AllocError, AllocFailed};
use swim_wire::WireFault;
use thiserror::Error;

/// Why wrapped bytes were refused. Each reason has a number, which reports show.
#[derive(Clone, Copy, Debug, PartialEq, Eq, Error)]
pub enum WrapFault {
    /// The bytes of a wrapper or of a compression end too soon.
    #[error("the bytes end too early")]
    Ended,
    /// There are bytes after the end of a compression or of its map.
    #[error("there are bytes after the end")]
    Trailing,
    /// A code of a compression is not in the dictionary yet.
    #[error("a compression has a code that is not in the dictionary")]
    BadCode,
    /// The bytes after a checksum have a different one.
    #[error("the checksum is wrong")]
    BadChecksum,
    /// The first byte of a compression is not followed by its map.
    #[error("the map of a compression is invalid")]
    BadMap,
    /// A compression that is not LZW.
    #[error("the compression is not LZW")]
    BadAlgo,
    /// A label of no bytes.
    #[error("the label is empty")]
    BadLabel,
    /// The result is longer than the limit.
    #[error("the wrapped bytes exceed the limit")]
    TooLarge,
    /// There are more nested wrappers than are removed.
    #[error("more than 4 wrappers are nested")]
    TooDeep,
    /// Out of memory.
    #[error("out of memory")]
    Memory,
}

impl WrapFault {
    /// The number of the fault in reports.
    pub fn number(&self) -> u32
        ensures { result ≡ wrap_number self.now }
    {
        match self {
            WrapFault::Ended => 40,
            WrapFault::Trailing => 41,
            WrapFault::BadCode => 42,
            WrapFault::BadChecksum => 43,
            WrapFault::BadMap => 44,
            WrapFault::BadAlgo => 45,
            WrapFault::BadLabel => 46,
            WrapFault::TooLarge => 47,
            WrapFault::TooDeep => 48,
            WrapFault::Memory => 49,
        }
    }
}

impl From<AllocError> for WrapFault {
    ghost from_gives = { λ _ fault. fault ≡ Memory };

    fn from(_error: AllocError) -> WrapFault {
        WrapFault::Memory
    }
}

impl<T: Drop> From<AllocFailed<T>> for WrapFault {
    ghost from_gives = { λ _ fault. fault ≡ Memory };

    fn from(_error: AllocFailed<T>) -> WrapFault {
        WrapFault::Memory
    }
}

/// The map of a compression has one number, which is `Algo`, and its `Buf` may be as long as all
/// the bytes.
impl From<WireFault> for WrapFault {
    ghost from_gives = { λ wire fault. fault ≡ fault_of_map wire };

    fn from(wire: WireFault) -> WrapFault {
        match wire {
            WireFault::Ended | WireFault::TooLong => WrapFault::Ended,
            WireFault::Trailing => WrapFault::Trailing,
            WireFault::OutOfRange => WrapFault::BadAlgo,
            WireFault::Memory => WrapFault::Memory,
            _ => WrapFault::BadMap,
        }
    }
}

impl From<LabelFault> for WrapFault {
    ghost from_gives = { λ label fault. fault ≡ fault_of_label label };

    fn from(label: LabelFault) -> WrapFault {
        match label {
            LabelFault::Ended => WrapFault::Ended,
            LabelFault::Empty => WrapFault::BadLabel,
        }
    }
}
