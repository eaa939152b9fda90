//! Where a member is, as a program in another language says it.

ghost use Rattle.std.specs.Prelude.{◌↔◌, Decides, IsSome};
ghost use Rattle.std.specs.List.{All};
ghost use Rattle.swim_c.specs.AgentOuts.{IsPlace, IsPlaceOf};

use crate::copy::copy_front;
use std::alloc::{AllocError, Global};
use std::net::{IpAddr, Ipv4Addr, Ipv6Addr, SocketAddr};

/// An address of 4 or 16 bytes, and a port.
#[repr(C)]
#[derive(Clone, Copy)]
pub struct Place {
    pub addr: [u8; 16],
    pub addr_len: u8,
    pub port: u16,
}

impl Place {
    /// Nowhere.
    pub fn none() -> Place {
        Place {
            addr: [0; 16],
            addr_len: 0,
            port: 0,
        }
    }

    /// This place.
    pub fn of(place: &SocketAddr) -> Place
        ensures { IsPlaceOf place.now result }
    {
        let mut made = Place::none();
        made.port = place.port();
        match place.ip() {
            IpAddr::V4(ip) => {
                made.addr_len = 4;
                copy_front(&ip.octets(), &mut made.addr);
            }
            IpAddr::V6(ip) => {
                made.addr_len = 16;
                made.addr = ip.octets();
            }
        }
        made
    }

    /// The place; none if its address does not have 4 or 16 bytes.
    pub fn socket_addr(&self) -> Option<SocketAddr>
        ensures { IsSome result ↔ IsPlace self.now }
    {
        let [a, b, c, d, ..] = self.addr;
        match self.addr_len {
            4 => Some(SocketAddr::new(IpAddr::V4(Ipv4Addr::new(a, b, c, d)), self.port)),
            16 => Some(SocketAddr::new(IpAddr::V6(Ipv6Addr::from_octets(self.addr)), self.port)),
            _ => None,
        }
    }
}

/// Whether the address of each has 4 or 16 bytes.
pub fn are_sound(places: &[Place]) -> bool
    ensures { Decides result (All IsPlace places.now) }
{
    places.iter().all(|place| place.socket_addr().is_some())
}

/// These places.
pub fn socket_addrs(alloc: Global, places: &[Place]) -> Result<Vec<SocketAddr>, AllocError> {
    let mut found = Vec::new(alloc);
    for place in places {
        if let Some(at) = place.socket_addr() {
            found.push(at)?;
        }
    }
    Ok(found)
}
