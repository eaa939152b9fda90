//! Where a member is.

ghost use Rattle.std.specs.Prelude.{◌≡◌, ◌≤◌, ◌↔◌, IfOk, IsSome, IsSomeAnd, length};
ghost use Rattle.std.specs.Net.Socket.{socket_ip, socket_port};
ghost use Rattle.swim_claim.specs.Details.{IsAddress};
ghost use Rattle.memberlist_member.specs.Places.{HasOctets};

use byteorder::{BigEndian, ByteOrder};
use std::alloc::{AllocError, Global};
use std::net::{IpAddr, Ipv4Addr, Ipv6Addr, SocketAddr};
use swim_claim::Details;

/// The address of 4 or 16 bytes; an IPv4 address in an IPv6 one is the IPv4 address.
pub(crate) fn ip_of(bytes: &[u8]) -> Option<IpAddr>
    ensures { IsSome result ↔ IsAddress bytes.now }
{
    match bytes.len() {
        4 => Some(IpAddr::from(Ipv4Addr::from_bits(BigEndian::read_u32(bytes)))),
        16 => Some(IpAddr::from(Ipv6Addr::from_bits(BigEndian::read_u128(bytes))).to_canonical()),
        _ => None,
    }
}

/// Where a member with these details is: details always have a place.
pub(crate) fn place_of(details: &Details) -> Option<SocketAddr>
    ensures { IsSomeAnd result (λ place. socket_port place ≡ details.now.port) }
{
    Some(SocketAddr::new(ip_of(details.addr())?, details.port()))
}

/// The bytes of an address.
pub(crate) fn bytes_of(alloc: Global, place: &SocketAddr) -> Result<Vec<u8>, AllocError>
    ensures few { IfOk result (λ bytes. length bytes.items ≤ 16) }
    ensures octets { IfOk result (λ bytes. HasOctets (socket_ip place.now) bytes.items) }
{
    match place {
        SocketAddr::V4(at) => at.ip().octets().to_vec(alloc),
        SocketAddr::V6(at) => at.ip().octets().to_vec(alloc),
    }
}
