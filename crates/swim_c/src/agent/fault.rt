//! The statuses of an agent's faults.

ghost use Rattle.std.specs.Prelude.{◌≡◌};
ghost use Rattle.swim_c.specs.AgentOpening.{config_number, step_number};

use crate::status::{BAD_MULTIPLIER, MEMORY, SHORT_DATAGRAMS, TOO_LONG};
use memberlist_member::{ConfigFault, StepFault};

/// The status of what the member did not heed.
pub fn step_status(fault: StepFault) -> u32
    ensures { result ≡ step_number fault }
{
    match fault {
        StepFault::Memory => MEMORY,
        StepFault::TooLong => TOO_LONG,
    }
}

/// The status of a configuration in which no interval is 0.
pub fn config_status(fault: ConfigFault) -> u32
    ensures { result ≡ config_number fault }
{
    match fault {
        ConfigFault::NoInterval | ConfigFault::BadMultiplier => BAD_MULTIPLIER,
        ConfigFault::ShortDatagrams => SHORT_DATAGRAMS,
    }
}
