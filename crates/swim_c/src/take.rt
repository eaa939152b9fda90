//! Taking in a packet or a compound packet.

ghost use Rattle.std.specs.Prelude.{◌≡◌, ◌≢◌, false, IfOk, IfErr, OnOk, OnErr, IsErrOf};
ghost use Rattle.swim_wire.specs.declared.fault.WireFault.TheVariants.{Memory};
ghost use Rattle.swim_c.specs.Taking.{TakesDatagram, IsNoDatagram, HearingAsks, TakeDone};
ghost use Rattle.swim_c.specs.Watching.{NotesChanges, Noted, TellsChange, TellsNews};

use crate::status::DONE;
use crate::watching::Watched;
use std::alloc::Global;
use swim_wire::{Datagram, WireFault};

/// The result of taking in bytes.
#[repr(C)]
#[derive(Clone, Copy)]
pub struct Taken {
    pub status: u32,
    /// Whether the node's table changed.
    pub news: bool,
}

impl Taken {
    pub fn refused(status: u32) -> Taken
        ensures { result ≡ record { status = status; news = false } }
    {
        Taken {
            status,
            news: false,
        }
    }
}

/// Takes in all claims of a packet or compound packet, or none.
pub fn hear(alloc: Global, held: &mut Watched, bytes: &[u8]) -> Taken
    ensures takes { TakeDone bytes.now result.status held.old.node held.new.node }
    ensures news { TellsNews result.status result.news held.old.node held.new.node }
    ensures noted { Noted held.old.changes held.new.changes
        result.status held.old.node held.new.node }
{
    match take_datagram(alloc, held, bytes) {
        Ok(news) => Taken { status: DONE, news },
        Err(fault) => Taken::refused(fault.number()),
    }
}

fn take_datagram(alloc: Global, held: &mut Watched, bytes: &[u8]) -> Result<bool, WireFault>
    ensures takes { OnOk result (TakesDatagram bytes.now held.old.node held.new.node) }
    ensures news { IfOk result (λ news.
        TellsChange news held.old.node.table held.new.node.table) }
    ensures noted { OnOk result (NotesChanges held.old.changes held.new.changes
        held.old.node.table held.new.node.table) }
    ensures refused { IfErr result (λ fault. fault ≢ Memory → IsNoDatagram bytes.now fault) }
    ensures memory { IsErrOf result Memory → HearingAsks bytes.now }
    ensures unchanged { OnErr result (held.new ≡ held.old) }
{
    let datagram = Datagram::decode(alloc, bytes)?;
    let news = held.take_datagram(alloc, datagram)?;
    Ok(news)
}
