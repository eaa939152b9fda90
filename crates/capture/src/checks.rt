//! Checks of a capture's numbers that read no further bytes.

ghost use Rattle.std.specs.Prelude.{◌≡◌, ◌≤◌};
ghost use Rattle.swim_pack.specs.Composing.{ReadsAs, same};
ghost use Rattle.swim_pack.specs.Ends.{Source};
ghost use Rattle.capture.specs.Pcapng.{order_in, room_in, room_behind, same_total, clock_in, has_place};
ghost use Rattle.capture.specs.Taking.{stop_cause, checked_version};

use crate::CaptureFault;
use crate::clock::{Clock, clock_of};
use crate::order::Order;
use crate::stop::Stop;

/// The most interfaces of a section.
const MAX_INTERFACES: usize = 4096;

/// Checks that the major version of a format is this one.
pub(crate) fn check_version(wanted: u16, major: u16) -> Result<(), Stop>
    ensures { (at : Source) → ReadsAs stop_cause (λ _. tt) (checked_version wanted major)
        at at result }
{
    if major == wanted {
        Ok(())
    } else {
        Err(Stop::Fault(CaptureFault::Version { major }))
    }
}

/// The order given by a byte-order magic, read with the highest byte first.
pub(crate) fn order_in(magic: u32) -> Result<Order, Stop>
    ensures { (at : Source) → ReadsAs stop_cause same (order_in magic) at at result }
{
    Order::told_by(magic).ok_or(Stop::Fault(CaptureFault::NotCapture))
}

/// How many bytes a block of this total length has after `fields` bytes of fields.
pub(crate) fn room_in(fields: u32, total: u32) -> Result<u32, Stop>
    requires { fields ≤ 20 }
    ensures { (at : Source) → ReadsAs stop_cause same (room_in fields total) at at result }
{
    let odd = total % 4;
    if odd != 0 {
        return Err(Stop::Fault(CaptureFault::BadBlock));
    }
    let least = fields + 12;
    if total < least {
        return Err(Stop::Fault(CaptureFault::BadBlock));
    }
    Ok(total - least)
}

/// How many bytes of the room of a block are left after the captured ones.
pub(crate) fn room_behind(captured: u32, room: u32) -> Result<u32, Stop>
    ensures { (at : Source) → ReadsAs stop_cause same (room_behind captured room) at at result }
{
    if room < captured {
        return Err(Stop::Fault(CaptureFault::BadBlock));
    }
    Ok(room - captured)
}

/// Checks that the total length of a block is repeated at its end.
pub(crate) fn check_total(again: u32, total: u32) -> Result<(), Stop>
    ensures { (at : Source) → ReadsAs stop_cause (λ _. tt) (same_total again total)
        at at result }
{
    if again == total {
        Ok(())
    } else {
        Err(Stop::Fault(CaptureFault::BadBlock))
    }
}

/// Checks that a section with this many interfaces has room for one more.
pub(crate) fn check_place(count: usize) -> Result<(), Stop>
    ensures { (at : Source) → ReadsAs stop_cause (λ _. tt) (has_place count) at at result }
{
    if count < MAX_INTERFACES {
        Ok(())
    } else {
        Err(Stop::Fault(CaptureFault::TooManyInterfaces))
    }
}

/// The clock given by the options of an interface.
pub(crate) fn clock_in(order: Order, options: &[u8]) -> Result<Clock, Stop>
    ensures { (at : Source) → ReadsAs stop_cause same (clock_in order options.now) at at result }
{
    clock_of(order, options).ok_or(Stop::Fault(CaptureFault::BadBlock))
}
