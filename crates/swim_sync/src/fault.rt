//! Why an exchange was refused.

ghost use Rattle.std.specs.Prelude.{◌≡◌};
ghost use Rattle.swim_sync.specs.declared.fault.SyncFault.TheVariants.{Memory};
ghost use Rattle.swim_sync.specs.Fault.{sync_number, fault_of_wire, fault_of_encode, fault_of_push};

use std::alloc::AllocError;
use swim_pack::PushFault;
use swim_table::EncodeFault;
use swim_wire::WireFault;
use thiserror::Error;

/// Why an exchange, or a half of one, was refused. Each fault has a number that identifies it in
/// reports.
#[derive(Clone, Copy, Debug, PartialEq, Eq, Error)]
pub enum SyncFault {
    /// The other member's stream was refused. This is never for running out of memory.
    #[error("the stream of the other member was refused: {0}")]
    Wire(WireFault),
    /// The member's own table keeps more than 131,072 records (own).
    #[error("the table has more than 131,072 records")]
    TooManyRecords,
    /// The outlet failed.
    #[error("the output could not be written")]
    Push,
    /// Memory ran out.
    #[error("out of memory")]
    Memory,
}

impl SyncFault {
    /// The number that identifies the fault in reports: that of the stream's fault, 23, 29, or 10
    /// if out of memory (own).
    pub fn number(&self) -> u32
        ensures { result ≡ sync_number self.now }
    {
        match self {
            SyncFault::Wire(fault) => fault.number(),
            SyncFault::TooManyRecords => 23,
            SyncFault::Push => 29,
            SyncFault::Memory => 10,
        }
    }
}

impl From<WireFault> for SyncFault {
    ghost from_gives = { λ wire fault. fault ≡ fault_of_wire wire };

    fn from(wire: WireFault) -> SyncFault {
        match wire {
            WireFault::Memory => SyncFault::Memory,
            fault => SyncFault::Wire(fault),
        }
    }
}

impl From<EncodeFault> for SyncFault {
    ghost from_gives = { λ encode fault. fault ≡ fault_of_encode encode };

    fn from(encode: EncodeFault) -> SyncFault {
        match encode {
            EncodeFault::TooManyRecords => SyncFault::TooManyRecords,
            EncodeFault::Memory => SyncFault::Memory,
        }
    }
}

impl From<PushFault> for SyncFault {
    ghost from_gives = { λ push fault. fault ≡ fault_of_push push };

    fn from(push: PushFault) -> SyncFault {
        match push {
            PushFault::Fault => SyncFault::Push,
            PushFault::Memory => SyncFault::Memory,
        }
    }
}

impl From<AllocError> for SyncFault {
    ghost from_gives = { λ _ fault. fault ≡ Memory };

    fn from(_error: AllocError) -> SyncFault {
        SyncFault::Memory
    }
}
