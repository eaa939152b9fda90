//! Frames in tunnels.

ghost use Rattle.std.specs.Prelude.{◌≡◌};
ghost use Rattle.std.specs.Option.{option_map};
ghost use Rattle.capture.specs.Packets.{transport_text, vxlan_frame, geneve_frame, frame_in};

use crate::Transport;
use byteorder::{BigEndian, ByteOrder};

/// The port of VXLAN (RFC 7348, 8).
const VXLAN: u16 = 4789;

/// The port of Geneve (RFC 8926, 3.3).
const GENEVE: u16 = 6081;

/// The frame after a header of VXLAN, if it is one.
fn read_vxlan(payload: &[u8]) -> Option<&[u8]>
    ensures { option_map (λ frame. frame.now) result ≡ vxlan_frame payload.now }
{
    if payload.len() < 8 {
        return None;
    }
    if payload[0] / 8 % 2 == 1 {
        Some(&payload[8..])
    } else {
        None
    }
}

/// The frame after a header of Geneve and its options, if it is one of a frame of Ethernet.
fn read_geneve(payload: &[u8]) -> Option<&[u8]>
    ensures { option_map (λ frame. frame.now) result ≡ geneve_frame payload.now }
{
    if payload.len() < 8 {
        return None;
    }
    let len = 8 + usize::from(payload[0] % 64) * 4;
    if payload.len() < len {
        return None;
    }
    if payload[0] / 64 == 0 && payload[1] < 128 && BigEndian::read_u16(&payload[2..]) == 0x6558 {
        Some(&payload[len..])
    } else {
        None
    }
}

/// The frame of Ethernet in a tunnel, if it is one.
pub(crate) fn tunneled(transport: Transport) -> Option<&[u8]>
    ensures { option_map (λ frame. frame.now) result ≡ frame_in (transport_text transport.entry) }
{
    match transport {
        Transport::Udp(datagram) => match datagram.destination {
            VXLAN => read_vxlan(datagram.payload),
            GENEVE => read_geneve(datagram.payload),
            _ => None,
        },
        Transport::Tcp(_) | Transport::Unreachable(_) => None,
    }
}
