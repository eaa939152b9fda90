//! Why an exchange was refused and why an event did not happen, as a report says it.

ghost use Rattle.std.specs.Prelude.{◌≡◌};
ghost use Rattle.swimtab.specs.Faults.{what_of_sync, what_of_why};

use swim_program::What;
use swim_sync::{SyncFault, Why};

/// Why an exchange was refused. An outlet that failed is a device.
pub(crate) fn what_of_sync(fault: SyncFault) -> What
    ensures { result ≡ what_of_sync fault }
{
    match fault {
        SyncFault::Wire(fault) => What::from(fault),
        SyncFault::TooManyRecords => What::too_many_records(),
        SyncFault::Push => What::Device,
        SyncFault::Memory => What::Memory,
    }
}

/// Why an event did not happen.
pub(crate) fn what_of_why(why: Why) -> What
    ensures { result ≡ what_of_why why }
{
    match why {
        Why::Memory => What::Memory,
        _ => What::Refused {
            number: why.number(),
            found: None,
        },
    }
}
