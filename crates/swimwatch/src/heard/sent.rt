//! What crossed the network: one packet, or one direction of a connection.

use std::net::SocketAddr;

/// How bytes were sent.
#[derive(Clone, Copy, PartialEq, Eq)]
pub(crate) enum Proto {
    Udp,
    Tcp,
}

impl Proto {
    /// Its name in lines and JSON.
    pub(crate) fn name(self) -> &'static str {
        match self {
            Proto::Udp => "udp",
            Proto::Tcp => "tcp",
        }
    }
}

/// When something was sent, between which endpoints, and how.
#[derive(Clone, Copy)]
pub(crate) struct Sent {
    /// Microseconds since the start of 1970.
    pub(crate) time: u64,
    pub(crate) source: SocketAddr,
    pub(crate) destination: SocketAddr,
    pub(crate) proto: Proto,
}
