//! What a message says about members.

ghost use Rattle.std.specs.Prelude.{◌≡◌, Some, None, IfOk, map, [], true};
ghost use Rattle.swimwatch.specs.Told.{told_text, packet_told, record_told, heard_of};

use memberlist_view::{Heard, Said};
use std::alloc::{AllocError, Global};
use swim_claim::Claim;
use swim_wire::Packet;

/// A claim, who made it, and in which kind of message it came.
#[derive(Drop)]
pub(crate) struct Told<'a> {
    pub(crate) claim: &'a Claim,
    /// Who says so; empty if nobody is named.
    pub(crate) from: &'a [u8],
    /// Whether it came in a record of a push/pull stream, rather than a packet.
    pub(crate) is_record: bool,
    /// Whether a new name joins by it: a packet's always does, a record only if it is the sender's
    /// own in a stream that joins.
    pub(crate) joins: bool,
}

impl<'a> Told<'a> {
    ghost use Rattle.swimwatch.specs.Told.{told_text, packet_told, record_told, heard_of};

    /// What a packet says.
    pub(crate) fn of_packet(packet: &'a Packet) -> Told<'a>
        ensures { told_text result ≡ packet_told packet.now }
    {
        Told {
            claim: packet.claim(),
            from: packet.from_name(),
            is_record: false,
            joins: true,
        }
    }

    /// What a record of a stream says.
    pub(crate) fn of_record(claim: &'a Claim, joins: bool) -> Told<'a>
        ensures { told_text result ≡ record_told claim.now joins }
    {
        Told {
            claim,
            from: &[],
            is_record: true,
            joins,
        }
    }

    /// What is heard about the member at this time.
    pub(crate) fn heard(&self, alloc: Global, time: u64) -> Result<Heard, AllocError>
        ensures { IfOk result (λ heard. heard ≡ heard_of time (told_text self.now)) }
    {
        let claim = self.claim.try_clone(alloc)?;
        if self.is_record {
            return Ok(Heard {
                time,
                said: Said::of_record(claim, self.joins),
            });
        }
        let said = Said::of_packet(alloc, claim, self.from)?;
        Ok(Heard { time, said })
    }
}
