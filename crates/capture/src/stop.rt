//! Why a reader returns no record.

ghost use Rattle.std.specs.Prelude.{◌≡◌};
ghost use Rattle.capture.specs.declared.stop.Stop.TheVariants as stop;
ghost use Rattle.capture.specs.declared.capture_fault.CaptureFault.TheVariants as faults;
ghost use Rattle.capture.specs.Taking.{stop_of_pull};

use crate::CaptureFault;
use std::alloc::AllocError;
use swim_pack::PullFault;

/// Why a reader returns no record.
#[derive(Clone, Copy, PartialEq, Eq)]
pub(crate) enum Stop {
    /// The capture ends after its last record.
    End,
    /// Reading the capture stopped.
    Fault(CaptureFault),
}

impl From<PullFault> for Stop {
    ghost from_gives = { λ pulled stop. stop ≡ stop_of_pull pulled };

    fn from(pulled: PullFault) -> Stop {
        match pulled {
            PullFault::Ended => Stop::Fault(CaptureFault::Cut),
            PullFault::Fault => Stop::Fault(CaptureFault::Device),
        }
    }
}

impl From<AllocError> for Stop {
    ghost from_gives = { λ _ made. made ≡ stop.Fault faults.Memory };

    fn from(_error: AllocError) -> Stop {
        Stop::Fault(CaptureFault::Memory)
    }
}
