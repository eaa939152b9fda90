//! Frames, and what they carry.

ghost use Rattle.std.specs.Prelude.{◌≡◌, IfOk, IfErr, Ok, Err};
ghost use Rattle.capture.specs.Packets.{version_of, is_tag, other_type, other_protocol, family_of, behind_type};
ghost use Rattle.capture.specs.Packets.{packet_in, transport_of, transport_text, plain_of, carried_of, carried_text};
ghost use Rattle.capture.specs.Packets.{frame_in, inside};

use crate::network::{Version, read_ip};
use crate::transport::{read_tcp, read_udp};
use crate::tunnel::tunneled;
use crate::unreachable::{read_unreachable4, read_unreachable6};
use crate::{Carried, Link, NotCarried, Transport};
use byteorder::{BigEndian, ByteOrder, LittleEndian};

/// The IP version of an EtherType.
fn version(kind: u16) -> Option<Version>
    ensures { result ≡ version_of kind }
{
    match kind {
        0x800 => Some(Version::Ip4),
        0x86dd => Some(Version::Ip6),
        _ => None,
    }
}

/// Whether an EtherType is that of a tag.
fn is_type_of_tag(kind: u16) -> bool
    ensures { result ≡ is_tag kind }
{
    kind == 0x8100 || kind == 0x88a8 || kind == 0x9100
}

/// Why a packet of another EtherType is left out.
fn other_type(kind: u16) -> NotCarried
    ensures { result ≡ other_type kind }
{
    if kind == 0x8847 || kind == 0x8848 {
        NotCarried::Mpls
    } else {
        NotCarried::NotIp
    }
}

/// Why a packet of another protocol is left out.
fn other_protocol(protocol: u8) -> NotCarried
    ensures { result ≡ other_protocol protocol }
{
    match protocol {
        47 => NotCarried::Gre,
        4 | 41 => NotCarried::IpInIp,
        _ => NotCarried::OtherProtocol,
    }
}

/// The IP version of an address family.
fn family(number: u32) -> Option<Version>
    ensures { result ≡ family_of number }
{
    match number {
        2 => Some(Version::Ip4),
        10 | 24 | 28 | 30 => Some(Version::Ip6),
        _ => None,
    }
}

/// The packet after an EtherType, or after any number of tags.
fn read_type(bytes: &[u8]) -> Result<(Version, &[u8]), NotCarried>
    ensures ok { IfOk result (λ packet. behind_type bytes.now
        ≡ Ok (packet.0, packet.1.now)) }
    ensures err { IfErr result (λ fault. behind_type bytes.now ≡ Err fault) }
{
    let mut rest = bytes;
    loop {
        if rest.len() < 2 {
            return Err(NotCarried::Cut);
        }
        let kind = BigEndian::read_u16(rest);
        if let Some(version) = version(kind) {
            return Ok((version, &rest[2..]));
        }
        if !is_type_of_tag(kind) {
            return Err(other_type(kind));
        }
        if rest.len() < 4 {
            return Err(NotCarried::Cut);
        }
        rest = &rest[4..];
    }
}

/// The packet after an address family, in either byte order.
#[tactic(auto, unfolding(crate::specs::Packets::packet_in))]
fn read_family(bytes: &[u8]) -> Result<(Version, &[u8]), NotCarried>
    ensures ok { IfOk result (λ packet. packet_in Link.Loopback bytes.now
        ≡ Ok (packet.0, packet.1.now)) }
    ensures err { IfErr result (λ fault. packet_in Link.Loopback bytes.now ≡ Err fault) }
{
    if bytes.len() < 4 {
        return Err(NotCarried::Cut);
    }
    if let Some(version) = family(BigEndian::read_u32(bytes)) {
        return Ok((version, &bytes[4..]));
    }
    match family(LittleEndian::read_u32(bytes)) {
        Some(version) => Ok((version, &bytes[4..])),
        None => Err(NotCarried::NotIp),
    }
}

/// The packet in a frame of this link.
#[tactic(auto, unfolding(crate::specs::Packets::packet_in))]
fn read_frame(link: Link, bytes: &[u8]) -> Result<(Version, &[u8]), NotCarried>
    ensures ok { IfOk result (λ packet. packet_in link bytes.now
        ≡ Ok (packet.0, packet.1.now)) }
    ensures err { IfErr result (λ fault. packet_in link bytes.now ≡ Err fault) }
{
    match link {
        Link::Raw => Ok((Version::Either, bytes)),
        Link::Loopback => read_family(bytes),
        Link::Ethernet => {
            if bytes.len() < 12 {
                return Err(NotCarried::Cut);
            }
            read_type(&bytes[12..])
        }
        Link::Cooked => {
            if bytes.len() < 14 {
                return Err(NotCarried::Cut);
            }
            read_type(&bytes[14..])
        }
        Link::Cooked2 => {
            if bytes.len() < 20 {
                return Err(NotCarried::Cut);
            }
            let kind = BigEndian::read_u16(bytes);
            match version(kind) {
                Some(version) => Ok((version, &bytes[20..])),
                None => Err(other_type(kind)),
            }
        }
    }
}

/// What the body of a packet of this protocol is.
#[tactic(auto, unfolding(crate::specs::Packets::transport_of))]
fn read_transport(protocol: u8, body: &[u8]) -> Result<Transport, NotCarried>
    ensures ok { IfOk result (λ t. transport_of protocol body.now ≡ Ok (transport_text t)) }
    ensures err { IfErr result (λ fault. transport_of protocol body.now ≡ Err fault) }
{
    match protocol {
        17 => Ok(Transport::Udp(read_udp(body)?)),
        6 => Ok(Transport::Tcp(read_tcp(body)?)),
        1 => Ok(Transport::Unreachable(read_unreachable4(body).ok_or(NotCarried::OtherProtocol)?)),
        58 => Ok(Transport::Unreachable(read_unreachable6(body).ok_or(NotCarried::OtherProtocol)?)),
        _ => Err(other_protocol(protocol)),
    }
}

/// What the packet in a frame of this link carries, and between which addresses.
#[tactic(auto, unfolding(crate::specs::Packets::plain_of))]
fn read_plain(link: Link, bytes: &[u8]) -> Result<Carried, NotCarried>
    ensures ok { IfOk result (λ c. plain_of link bytes.now ≡ Ok (carried_text c)) }
    ensures err { IfErr result (λ fault. plain_of link bytes.now ≡ Err fault) }
{
    let (version, packet) = read_frame(link, bytes)?;
    let packet = read_ip(version, packet)?;
    let transport = read_transport(packet.protocol, packet.body)?;
    Ok(Carried {
        source: packet.source,
        destination: packet.destination,
        transport,
    })
}

/// What the frame in a tunnel carries, or the content itself if it is no tunnel.
fn read_inside(content: Carried) -> Result<Carried, NotCarried>
    ensures ok { IfOk result (λ c. inside (frame_in (transport_text content.entry.transport))
        (carried_text content.entry) ≡ Ok (carried_text c)) }
    ensures err { IfErr result (λ fault. inside (frame_in (transport_text content.entry.transport))
        (carried_text content.entry) ≡ Err fault) }
{
    match tunneled(content.transport) {
        Some(frame) => read_plain(Link::Ethernet, frame),
        None => Ok(content),
    }
}

/// What a frame of this link carries, and between which addresses. It takes no memory and checks no
/// checksum.
///
/// Ethernet has any number of tags (IEEE 802.1Q), IPv4 any options and its total length, or 0 for
/// all of the frame (RFC 791, 3.1), IPv6 any number of extension headers (RFC 8200, 4), and UDP its
/// own length within IP's (RFC 768). Of ICMP it reads the port unreachable, by which a host refuses
/// a packet (RFC 792: type 3, code 3; RFC 4443, 3.1: type 1, code 4). If it is a datagram of VXLAN
/// (RFC 7348) or Geneve (RFC 8926) with a frame of Ethernet, the result is what that frame carries,
/// and so for a tunnel in it; a third one is a datagram.
///
/// # Errors
///
/// - `Cut` if the bytes end before the link's header, IP's header or the length in IP's header.
/// - `Mpls` if the link names MPLS (RFC 3032).
/// - `NotIp` if the link names another protocol than IP, or none and the version is not 4 or 6.
/// - `Fragment` if the packet is not whole: more fragments follow or its offset is not 0
///   (RFC 791, 3.1; RFC 8200, 4.5). A fragment header of a whole packet is skipped (RFC 6946).
/// - `Gre` if IP carries GRE (RFC 2784), and `IpInIp` if it carries IP (RFC 2003, RFC 4213).
/// - `OtherProtocol` if IP carries something else: neither UDP nor TCP, nor a port unreachable that
///   quotes one of them as far as its ports.
/// - `Malformed` if the version is not the one that the link names, or a header is longer than
///   what contains it or shorter than it can be.
///
/// The first of them that holds, for the outermost frame that has one.
#[tactic(auto, unfolding(crate::specs::Packets::carried_of))]
pub fn carried(link: Link, bytes: &[u8]) -> Result<Carried, NotCarried>
    ensures ok { IfOk result (λ c. carried_of link bytes.now ≡ Ok (carried_text c)) }
    ensures err { IfErr result (λ fault. carried_of link bytes.now ≡ Err fault) }
{
    let outer = read_plain(link, bytes)?;
    let middle = read_inside(outer)?;
    read_inside(middle)
}
