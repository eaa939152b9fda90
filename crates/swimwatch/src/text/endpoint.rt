//! Where packets come from and go to.

ghost use Rattle.std.specs.Prelude.{◌↔◌, IsSome, IfSome};
ghost use Rattle.capture.specs.Endpoints.{HasAddressLen};
ghost use Rattle.swimwatch.specs.Places.{IsPlace, StandFor};

use capture::address;
use std::net::{IpAddr, SocketAddr};

/// The first 12 of 16 bytes that represent an address of IPv4 (RFC 4291, 2.5.5.2).
const MAPPED: [u8; 12] = [0, 0, 0, 0, 0, 0, 0, 0, 0, 0, 0xff, 0xff];

/// The endpoint with these address bytes and this port, if they are an address: 4 bytes of IPv4 or
/// 16 of IPv6. Sixteen bytes that represent an IPv4 address are that address: a member that binds
/// all its addresses announces its own in this form.
pub(crate) fn endpoint(addr: &[u8], port: u16) -> Option<SocketAddr>
    ensures is { IfSome result (IsPlace addr.now port) }
    ensures some { IsSome result ↔ HasAddressLen addr.now }
{
    Some(SocketAddr::new(address(represented(addr))?, port))
}

/// The four bytes of an IPv4 address in place of sixteen that represent it.
fn represented(addr: &[u8]) -> &[u8]
    ensures { StandFor addr.now result.now }
{
    match addr.strip_prefix(&MAPPED) {
        Some(four) if four.len() == 4 => four,
        _ => addr,
    }
}

/// This endpoint, with an IPv4 address in place of sixteen bytes that represent one.
pub(crate) fn plain(end: SocketAddr) -> SocketAddr {
    match end.ip() {
        IpAddr::V6(ip) => endpoint(&ip.octets(), end.port()).unwrap_or(end),
        IpAddr::V4(_) => end,
    }
}
