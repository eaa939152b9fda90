//! Numbers, names and places of members.

use crate::failure::Failure;
use memberlist_view::MemberName;
use std::alloc::Global;
use std::net::{IpAddr, Ipv4Addr, SocketAddr};
use swim_claim::{Details, Name};

/// The port of each member.
const PORT: u16 = 7946;

/// The address of a member.
fn address(number: u32) -> u32 {
    0x0a00_0000 | (number & 0xff_ffff)
}

/// Where the member with this number is.
pub(crate) fn place(number: u32) -> SocketAddr {
    SocketAddr::new(IpAddr::from(Ipv4Addr::from_bits(address(number))), PORT)
}

/// The number of the member at this place.
pub(crate) fn number_at(place: SocketAddr) -> Option<u32> {
    match place {
        SocketAddr::V4(at) => Some(at.ip().to_bits() & 0xff_ffff),
        SocketAddr::V6(_) => None,
    }
}

/// The name of the member with this number.
pub(crate) fn name(alloc: Global, number: u32) -> Result<Name, Failure> {
    Ok(Name::new(number.to_be_bytes().to_vec(alloc)?)?)
}

/// The number of the member with this name.
pub(crate) fn number_of(name: &MemberName) -> Option<u32> {
    match name.name().bytes() {
        [a, b, c, d] => Some(u32::from_be_bytes([*a, *b, *c, *d])),
        _ => None,
    }
}

/// Its details.
pub(crate) fn details(alloc: Global, number: u32) -> Result<Details, Failure> {
    let meta = Vec::new(alloc);
    Ok(Details::of(
        &address(number).to_be_bytes(),
        PORT,
        meta,
        &[1, 5, 2, 2, 5, 4],
    )?)
}
