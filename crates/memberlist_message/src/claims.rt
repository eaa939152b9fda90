//! The packets of messages that make claims, within the limits of claims.

ghost use Rattle.std.specs.Prelude.{◌≡◌, ◌≤◌, Ok, length, IfOk, MatchResult};
ghost use Rattle.swim_claim.specs.Limits.{max_name_len};
ghost use Rattle.memberlist_message.specs.Claims.{alive_of, suspect_of, dead_of, name_of, from_of, details_of};
ghost use Rattle.memberlist_message.specs.Reading.{IsFault};
ghost use Rattle.memberlist_message.specs.Values.{slots_of};

use crate::fields::{Values, long, raw, short};
use std::alloc::Global;
use swim_claim::{Claim, Details, Name};
use swim_wire::{Packet, WireFault};

/// The longest name of a member in bytes.
const MAX_NAME_LEN: usize = 1024;

/// The packet of an alive message with these values.
pub(crate) fn packet_of_alive(alloc: Global, values: &Values) -> Result<Packet, WireFault>
    ensures { MatchResult result (λ packet. alive_of (slots_of values.now) ≡ Ok packet)
        (IsFault (alive_of (slots_of values.now))) }
{
    let [incarnation, node, addr, port, meta, vsn, ..] = values;
    let name = name_of(alloc, raw(node))?;
    let inc = long(incarnation);
    let details = details_of(alloc, raw(addr), short(port), raw(meta), raw(vsn))?;
    Ok(Packet::new(Claim::Alive { name, inc, details }, Vec::new(alloc)))
}

/// The packet of a suspect message with these values.
pub(crate) fn packet_of_suspect(alloc: Global, values: &Values) -> Result<Packet, WireFault>
    ensures { MatchResult result (λ packet. suspect_of (slots_of values.now) ≡ Ok packet)
        (IsFault (suspect_of (slots_of values.now))) }
{
    let [incarnation, node, accuser, ..] = values;
    let name = name_of(alloc, raw(node))?;
    let inc = long(incarnation);
    let from = from_of(alloc, raw(accuser))?;
    Ok(Packet::new(Claim::Suspect { name, inc }, from))
}

/// The packet of a dead message with these values. If the member says so itself, it has left.
pub(crate) fn packet_of_dead(alloc: Global, values: &Values) -> Result<Packet, WireFault>
    ensures { MatchResult result (λ packet. dead_of (slots_of values.now) ≡ Ok packet)
        (IsFault (dead_of (slots_of values.now))) }
{
    let [incarnation, node, accuser, ..] = values;
    let name = name_of(alloc, raw(node))?;
    let inc = long(incarnation);
    let from = from_of(alloc, raw(accuser))?;
    let claim = if from.as_slice() == name.bytes() {
        Claim::Leave { name, inc }
    } else {
        Claim::Confirm { name, inc }
    };
    Ok(Packet::new(claim, from))
}

/// The name of the member that a claim is about.
fn name_of(alloc: Global, bytes: &[u8]) -> Result<Name, WireFault>
    ensures { MatchResult result (λ name. name_of bytes.now ≡ Ok name)
        (IsFault (name_of bytes.now)) }
{
    let named = Name::copied(alloc, bytes)?;
    Ok(named?)
}

/// The name of the member that makes a claim.
fn from_of(alloc: Global, bytes: &[u8]) -> Result<Vec<u8>, WireFault>
    ensures exact { MatchResult result (λ from. from_of bytes.now ≡ Ok from.items)
        (IsFault (from_of bytes.now)) }
    ensures short { IfOk result (λ from. length from.items ≤ max_name_len) }
{
    if bytes.len() > MAX_NAME_LEN {
        return Err(WireFault::TooLong);
    }
    Ok(bytes.to_vec(alloc)?)
}

/// The details that an Alive gives.
fn details_of(
    alloc: Global,
    addr: &[u8],
    port: u16,
    meta: &[u8],
    vsn: &[u8],
) -> Result<Details, WireFault>
    ensures { MatchResult result (λ details. details_of
        (record { addr = addr.now; port = port; meta = meta.now; vsn = vsn.now }) ≡ Ok details)
        (IsFault (details_of
        (record { addr = addr.now; port = port; meta = meta.now; vsn = vsn.now }))) }
{
    let meta = meta.to_vec(alloc)?;
    Ok(Details::of(addr, port, meta, vsn)?)
}
