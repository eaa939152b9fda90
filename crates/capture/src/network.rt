//! Packets of IP.

ghost use Rattle.std.specs.Prelude.{◌≡◌, ◌≤◌, length, IfOk, IfErr, Ok, Err};
ghost use Rattle.capture.specs.Packets.{ip4_of, ip6_of, ip_of, ip_text, ip4_total, is_extension, extension_len};
ghost use Rattle.capture.specs.Packets.{is_ip6_fragment, behind_extensions};

use crate::NotCarried;
use byteorder::{BigEndian, ByteOrder};

/// The IP version that a frame gives for its packet.
#[derive(Clone, Copy)]
pub(crate) enum Version {
    /// IPv4.
    Ip4,
    /// IPv6.
    Ip6,
    /// The frame gives none.
    Either,
}

/// A packet of IP.
#[derive(Clone, Copy)]
pub(crate) struct IpPacket<'a> {
    /// The source address, 4 or 16 bytes.
    pub(crate) source: &'a [u8],
    /// The destination address.
    pub(crate) destination: &'a [u8],
    /// The protocol of its body.
    pub(crate) protocol: u8,
    /// What follows its headers.
    pub(crate) body: &'a [u8],
}

/// The length of the IPv4 packet at the start of the bytes.
fn total_len(bytes: &[u8]) -> usize
    requires { 20 ≤ length bytes.now }
    ensures { result ≡ ip4_total bytes.now }
{
    match BigEndian::read_u16(&bytes[2..]) {
        0 => bytes.len(),
        total => usize::from(total),
    }
}

/// The IPv4 packet at the start of the bytes.
#[tactic(auto, unfolding(crate::specs::Packets::ip4_of))]
fn read_ip4(bytes: &[u8]) -> Result<IpPacket, NotCarried>
    ensures ok { IfOk result (λ p. ip4_of bytes.now ≡ Ok (ip_text p)) }
    ensures err { IfErr result (λ fault. ip4_of bytes.now ≡ Err fault) }
{
    if bytes.len() < 20 {
        return Err(NotCarried::Cut);
    }
    let header = usize::from(bytes[0] % 16 * 4);
    if header < 20 {
        return Err(NotCarried::Malformed);
    }
    let total = total_len(bytes);
    if total < header {
        return Err(NotCarried::Malformed);
    }
    if 0 < BigEndian::read_u16(&bytes[6..]) % 16384 {
        return Err(NotCarried::Fragment);
    }
    if bytes.len() < total {
        return Err(NotCarried::Cut);
    }
    Ok(IpPacket {
        source: &bytes[12..16],
        destination: &bytes[16..20],
        protocol: bytes[9],
        body: &bytes[header..total],
    })
}

/// Whether this is the number of an extension header.
fn extends(next: u8) -> bool
    ensures { result ≡ is_extension next }
{
    next == 0 || next == 43 || next == 44 || next == 51 || next == 60
}

/// Whether the extension header with this number, at the start of the bytes, belongs to a fragment
/// that is not the whole packet.
fn divides(next: u8, body: &[u8]) -> bool
    requires { 8 ≤ length body.now }
    ensures { result ≡ is_ip6_fragment next body.now }
{
    let place = BigEndian::read_u16(&body[2..]);
    next == 44 && (0 < place / 8 || place % 2 == 1)
}

/// The length of the extension header with this number at the start of the bytes.
fn header_len(next: u8, body: &[u8]) -> usize
    requires { 8 ≤ length body.now }
    ensures { result ≡ extension_len next body.now }
{
    let count = usize::from(body[1]);
    match next {
        44 => 8,
        51 => (count + 2) * 4,
        _ => (count + 1) * 8,
    }
}

/// The protocol and the bytes after any number of extension headers.
fn read_extensions(mut next: u8, body: &[u8]) -> Result<(u8, &[u8]), NotCarried>
    ensures ok { IfOk result (λ found. behind_extensions next body.now
        ≡ Ok (found.0, found.1.now)) }
    ensures err { IfErr result (λ fault. behind_extensions next body.now ≡ Err fault) }
{
    let mut rest = body;
    while extends(next) {
        if rest.len() < 8 {
            return Err(NotCarried::Malformed);
        }
        if divides(next, rest) {
            return Err(NotCarried::Fragment);
        }
        let len = header_len(next, rest);
        if rest.len() < len {
            return Err(NotCarried::Malformed);
        }
        next = rest[0];
        rest = &rest[len..];
    }
    Ok((next, rest))
}

/// The IPv6 packet at the start of the bytes.
#[tactic(auto, unfolding(crate::specs::Packets::ip6_of))]
fn read_ip6(bytes: &[u8]) -> Result<IpPacket, NotCarried>
    ensures ok { IfOk result (λ p. ip6_of bytes.now ≡ Ok (ip_text p)) }
    ensures err { IfErr result (λ fault. ip6_of bytes.now ≡ Err fault) }
{
    if bytes.len() < 40 {
        return Err(NotCarried::Cut);
    }
    let end = 40 + usize::from(BigEndian::read_u16(&bytes[4..]));
    if bytes.len() < end {
        return Err(NotCarried::Cut);
    }
    let (protocol, body) = read_extensions(bytes[6], &bytes[40..end])?;
    Ok(IpPacket {
        source: &bytes[8..24],
        destination: &bytes[24..40],
        protocol,
        body,
    })
}

/// The IP packet at the start of the bytes, whose version the frame gives.
#[tactic(auto, unfolding(crate::specs::Packets::ip_of))]
pub(crate) fn read_ip(version: Version, bytes: &[u8]) -> Result<IpPacket, NotCarried>
    ensures ok { IfOk result (λ p. ip_of version bytes.now ≡ Ok (ip_text p)) }
    ensures err { IfErr result (λ fault. ip_of version bytes.now ≡ Err fault) }
{
    if bytes.len() < 1 {
        return Err(NotCarried::Cut);
    }
    match (version, bytes[0] / 16) {
        (Version::Ip4 | Version::Either, 4) => read_ip4(bytes),
        (Version::Ip6 | Version::Either, 6) => read_ip6(bytes),
        (Version::Either, _) => Err(NotCarried::NotIp),
        _ => Err(NotCarried::Malformed),
    }
}
