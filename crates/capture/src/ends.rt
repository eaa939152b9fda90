//! Both endpoints of a flow.

ghost use Rattle.std.specs.Prelude.{◌↔◌, IsSome, IfSome};
ghost use Rattle.capture.specs.Endpoints.{IsAddress, HasAddressLen, AreEndsOf};
ghost use Rattle.capture.specs.Packets.{tcp_text};

use crate::Segment;
use byteorder::{BigEndian, ByteOrder};
use std::net::{IpAddr, Ipv4Addr, Ipv6Addr, SocketAddr};

/// Both endpoints of one direction of a TCP connection.
#[derive(Clone, Copy, PartialEq, Eq, PartialOrd, Ord)]
pub struct Ends {
    /// The source.
    pub source: SocketAddr,
    /// The destination.
    pub destination: SocketAddr,
}

/// The address with these bytes: 4 of IPv4, or 16 of IPv6. `None` if there are neither 4 nor 16.
pub fn address(bytes: &[u8]) -> Option<IpAddr>
    ensures some { IsSome result ↔ HasAddressLen bytes.now }
    ensures is { IfSome result (IsAddress bytes.now) }
{
    match bytes.len() {
        4 => Some(IpAddr::from(Ipv4Addr::from_bits(BigEndian::read_u32(bytes)))),
        16 => Some(IpAddr::from(Ipv6Addr::from_bits(BigEndian::read_u128(bytes)))),
        _ => None,
    }
}

impl Ends {
    /// The endpoints of a segment between these addresses. `None` if one has neither 4 nor 16
    /// bytes.
    pub fn of(source: &[u8], destination: &[u8], segment: &Segment) -> Option<Ends>
        ensures is { IfSome result (AreEndsOf source.now destination.now (tcp_text segment.now)) }
        ensures some { IsSome result ↔ (HasAddressLen source.now × HasAddressLen destination.now) }
    {
        Some(Ends {
            source: SocketAddr::new(address(source)?, segment.source),
            destination: SocketAddr::new(address(destination)?, segment.destination),
        })
    }
}
