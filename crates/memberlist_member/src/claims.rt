//! The claims that a member makes.

ghost use Rattle.std.specs.Prelude.{◌≡◌, [], IfOk, Some, false};
ghost use Rattle.swim_claim.specs.declared.claim.Claim.TheVariants as claim;
ghost use Rattle.memberlist_view.specs.Heard.{accuser_of};
ghost use Rattle.memberlist_member.specs.Claims.{dead_by, packet_of};
ghost use Rattle.memberlist_member.specs.Saying.{said_in_table, said_of};

use std::alloc::{AllocError, Global};
use swim_claim::{Claim, Details, Name};
use swim_wire::Packet;

/// That a member is alive, with these details: it says so itself.
pub(crate) fn alive(alloc: Global, name: Name, inc: u32, details: Details) -> Packet
    ensures { result ≡ packet_of (claim.Alive name inc details) [] }
{
    Packet::new(Claim::Alive { name, inc, details }, Vec::new(alloc))
}

/// That a member is suspected by this one.
pub(crate) fn suspect(alloc: Global, name: Name, inc: u32, by: &Name) -> Result<Packet, AllocError>
    ensures { IfOk result (λ packet. packet ≡ packet_of (claim.Suspect name inc) by.now) }
{
    let from = by.bytes().to_vec(alloc)?;
    Ok(Packet::new(Claim::Suspect { name, inc }, from))
}

/// That a member is dead, says this one; if it says so itself, it has left (`deadNode`).
pub(crate) fn dead(alloc: Global, name: Name, inc: u32, by: &Name) -> Result<Packet, AllocError>
    ensures says { IfOk result (λ packet. packet ≡ packet_of (dead_by name inc by.now) by.now) }
    ensures named { accuser_of by.now ≡ Some by.now }
{
    let from = by.bytes().to_vec(alloc)?;
    if *name.bytes() == *by.bytes() {
        Ok(Packet::new(Claim::Leave { name, inc }, from))
    } else {
        Ok(Packet::new(Claim::Confirm { name, inc }, from))
    }
}

/// What a record of another member's table says to this one (`mergeState`): one that is dead there is
/// only suspected, and as nobody else is named, it counts as this member's own suspicion.
pub(crate) fn merged(alloc: Global, claim: Claim, by: &Name) -> Result<Packet, AllocError>
    ensures { IfOk result (λ packet. said_of packet false ≡ said_in_table by.now claim) }
{
    match claim {
        Claim::Alive { name, inc, details } => Ok(alive(alloc, name, inc, details)),
        Claim::Suspect { name, inc } | Claim::Confirm { name, inc } => suspect(
            alloc, name, inc, by,
        ),
        Claim::Leave { name, inc } => {
            let from = name.bytes().to_vec(alloc)?;
            Ok(Packet::new(Claim::Leave { name, inc }, from))
        }
    }
}
