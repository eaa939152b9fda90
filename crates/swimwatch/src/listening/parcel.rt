//! What a datagram and a segment have in common.

ghost use Rattle.std.specs.Prelude.{◌≡◌, IfSome, IfNone};
ghost use Rattle.capture.specs.Packets.{transport_text};
ghost use Rattle.capture.specs.Packets.TransportText.{unreachable};
ghost use Rattle.capture.specs.Unreachable.{UnreachableText};
ghost use Rattle.swimwatch.specs.Filtered.{IsParcelOf};

use crate::heard::sent::Proto;
use capture::Transport;

/// What a datagram and a segment have in common.
#[derive(Clone, Copy)]
pub(crate) struct Parcel<'a> {
    pub(crate) proto: Proto,
    pub(crate) source: u16,
    pub(crate) destination: u16,
    /// The sequence number of a segment, and 0 of a datagram.
    pub(crate) seq: u32,
    pub(crate) payload: &'a [u8],
}

impl<'a> Parcel<'a> {
    /// None if it is a refusal of a packet.
    pub(crate) fn of(transport: &Transport<'a>) -> Option<Parcel<'a>>
        ensures some { IfSome result (IsParcelOf (transport_text transport.now)) }
        ensures none { IfNone result ((u : UnreachableText)
            × (transport_text transport.now ≡ unreachable u)) }
    {
        match transport {
            Transport::Udp(datagram) => Some(Parcel {
                proto: Proto::Udp,
                source: datagram.source,
                destination: datagram.destination,
                seq: 0,
                payload: datagram.payload,
            }),
            Transport::Tcp(segment) => Some(Parcel {
                proto: Proto::Tcp,
                source: segment.source,
                destination: segment.destination,
                seq: segment.seq,
                payload: segment.payload,
            }),
            Transport::Unreachable(_) => None,
        }
    }
}
