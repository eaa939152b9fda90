//! Datagrams of UDP and segments of TCP.

ghost use Rattle.std.specs.Prelude.{◌≡◌, IfOk, IfErr, Ok, Err};
ghost use Rattle.capture.specs.Packets.{udp_of, udp_text, tcp_of, tcp_text};

use crate::NotCarried;
use byteorder::{BigEndian, ByteOrder};

/// A datagram of UDP.
#[derive(Clone, Copy)]
pub struct Datagram<'a> {
    /// The source port.
    pub source: u16,
    /// The destination port.
    pub destination: u16,
    /// What it carries.
    pub payload: &'a [u8],
}

/// A segment of TCP.
#[derive(Clone, Copy)]
pub struct Segment<'a> {
    /// The source port.
    pub source: u16,
    /// The destination port.
    pub destination: u16,
    /// The sequence number of its first byte, or of its SYN.
    pub seq: u32,
    /// Whether it opens the flow.
    pub syn: bool,
    /// Whether it ends the flow.
    pub fin: bool,
    /// Whether its sender pushes what it has sent so far, as at the end of a message.
    pub psh: bool,
    /// Whether it resets the flow.
    pub rst: bool,
    /// What it carries.
    pub payload: &'a [u8],
}

/// The datagram in the body of a packet.
#[tactic(auto, unfolding(crate::specs::Packets::udp_of))]
pub(crate) fn read_udp(bytes: &[u8]) -> Result<Datagram, NotCarried>
    ensures ok { IfOk result (λ d. udp_of bytes.now ≡ Ok (udp_text d)) }
    ensures err { IfErr result (λ fault. udp_of bytes.now ≡ Err fault) }
{
    if bytes.len() < 8 {
        return Err(NotCarried::Malformed);
    }
    let size = usize::from(BigEndian::read_u16(&bytes[4..]));
    if size < 8 {
        return Err(NotCarried::Malformed);
    }
    if bytes.len() < size {
        return Err(NotCarried::Malformed);
    }
    Ok(Datagram {
        source: BigEndian::read_u16(bytes),
        destination: BigEndian::read_u16(&bytes[2..]),
        payload: &bytes[8..size],
    })
}

/// The segment in the body of a packet.
#[tactic(auto, unfolding(crate::specs::Packets::tcp_of))]
pub(crate) fn read_tcp(bytes: &[u8]) -> Result<Segment, NotCarried>
    ensures ok { IfOk result (λ s. tcp_of bytes.now
        ≡ Ok (tcp_text s)) }
    ensures err { IfErr result (λ fault. tcp_of bytes.now ≡ Err fault) }
{
    if bytes.len() < 20 {
        return Err(NotCarried::Malformed);
    }
    let header = usize::from(bytes[12] / 16 * 4);
    if header < 20 {
        return Err(NotCarried::Malformed);
    }
    if bytes.len() < header {
        return Err(NotCarried::Malformed);
    }
    let flags = bytes[13];
    Ok(Segment {
        source: BigEndian::read_u16(bytes),
        destination: BigEndian::read_u16(&bytes[2..]),
        seq: BigEndian::read_u32(&bytes[4..]),
        syn: flags / 2 % 2 == 1,
        fin: flags % 2 == 1,
        psh: flags / 8 % 2 == 1,
        rst: flags / 4 % 2 == 1,
        payload: &bytes[header..],
    })
}
