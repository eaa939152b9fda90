//! Refusals of packets whose port no process has.

ghost use Rattle.std.specs.Prelude.{◌≡◌};
ghost use Rattle.std.specs.Option.{option_map};
ghost use Rattle.capture.specs.Unreachable.{unreachable_text, has_ports, quoted4_of, quoted6_of, unreachable4_of, unreachable6_of};

use byteorder::{BigEndian, ByteOrder};

/// The packet that a host refused since no process has its port (ICMP port unreachable), as the
/// refusal quotes it.
#[derive(Clone, Copy)]
pub struct Unreachable<'a> {
    /// Its protocol: TCP (6) or UDP (17).
    pub protocol: u8,
    /// The source address, 4 or 16 bytes.
    pub source: &'a [u8],
    /// The destination address.
    pub destination: &'a [u8],
    /// The source port.
    pub source_port: u16,
    /// The destination port, which no process has.
    pub destination_port: u16,
}

/// Whether packets of this protocol begin with two ports.
fn has_ports(protocol: u8) -> bool
    ensures { result ≡ has_ports protocol }
{
    protocol == 6 || protocol == 17
}

/// The start of an IPv4 packet (RFC 791, 3.1) that a refusal quotes, if it reaches to the ports.
#[tactic(auto, unfolding(crate::specs::Unreachable::quoted4_of))]
fn read_quoted4(packet: &[u8]) -> Option<Unreachable>
    ensures { option_map unreachable_text result ≡ quoted4_of packet.now }
{
    if packet.len() < 20 {
        return None;
    }
    let header = usize::from(packet[0] % 16 * 4);
    if packet[0] / 16 != 4 || header < 20 || packet.len() < header + 4 {
        return None;
    }
    if !has_ports(packet[9]) {
        return None;
    }
    Some(Unreachable {
        protocol: packet[9],
        source: &packet[12..16],
        destination: &packet[16..20],
        source_port: BigEndian::read_u16(&packet[header..]),
        destination_port: BigEndian::read_u16(&packet[header + 2..]),
    })
}

/// The start of an IPv6 packet (RFC 8200, 3) that a refusal quotes, if it reaches to the ports.
#[tactic(auto, unfolding(crate::specs::Unreachable::quoted6_of))]
fn read_quoted6(packet: &[u8]) -> Option<Unreachable>
    ensures { option_map unreachable_text result ≡ quoted6_of packet.now }
{
    if packet.len() < 44 {
        return None;
    }
    if packet[0] / 16 != 6 || !has_ports(packet[6]) {
        return None;
    }
    Some(Unreachable {
        protocol: packet[6],
        source: &packet[8..24],
        destination: &packet[24..40],
        source_port: BigEndian::read_u16(&packet[40..]),
        destination_port: BigEndian::read_u16(&packet[42..]),
    })
}

/// The packet that a message of ICMP for IPv4 refuses (RFC 792), if it is a port unreachable.
#[tactic(auto, unfolding(crate::specs::Unreachable::unreachable4_of))]
pub(crate) fn read_unreachable4(body: &[u8]) -> Option<Unreachable>
    ensures { option_map unreachable_text result ≡ unreachable4_of body.now }
{
    if body.len() < 8 {
        return None;
    }
    match (body[0], body[1]) {
        (3, 3) => read_quoted4(&body[8..]),
        _ => None,
    }
}

/// The packet that a message of ICMPv6 refuses (RFC 4443, 3.1), if it is a port unreachable.
#[tactic(auto, unfolding(crate::specs::Unreachable::unreachable6_of))]
pub(crate) fn read_unreachable6(body: &[u8]) -> Option<Unreachable>
    ensures { option_map unreachable_text result ≡ unreachable6_of body.now }
{
    if body.len() < 8 {
        return None;
    }
    match (body[0], body[1]) {
        (1, 4) => read_quoted6(&body[8..]),
        _ => None,
    }
}
