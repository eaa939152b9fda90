//! Why a step fails.

ghost use Rattle.std.specs.Prelude.{◌≡◌};
ghost use Rattle.memberlist_member.specs.declared.fault.StepFault.TheVariants.{Memory};

use std::alloc::AllocError;
use thiserror::Error;

/// Why a step fails.
#[derive(Clone, Copy, Debug, PartialEq, Eq, Error)]
pub enum StepFault {
    /// Out of memory.
    #[error("out of memory")]
    Memory,
    /// The metadata have more than 512 bytes, or the message fits no datagram.
    #[error("too long")]
    TooLong,
}

impl From<AllocError> for StepFault {
    ghost from_gives = { λ _ fault. fault ≡ Memory };

    fn from(_error: AllocError) -> StepFault {
        StepFault::Memory
    }
}
