//! What a frame carries.

use crate::transport::{Datagram, Segment};
use crate::unreachable::Unreachable;

/// What a packet carries.
#[derive(Clone, Copy)]
pub enum Transport<'a> {
    /// A datagram.
    Udp(Datagram<'a>),
    /// A segment.
    Tcp(Segment<'a>),
    /// The refusal of a packet since no process has its port.
    Unreachable(Unreachable<'a>),
}

/// What a frame carries, and between which addresses, as parts of the frame's bytes.
#[derive(Clone, Copy)]
pub struct Carried<'a> {
    /// The source address, 4 or 16 bytes.
    pub source: &'a [u8],
    /// The destination address.
    pub destination: &'a [u8],
    /// What it carries.
    pub transport: Transport<'a>,
}
