//! A record of a capture.

/// A packet in a capture, without its captured bytes.
#[derive(Clone, Copy, PartialEq, Eq)]
pub struct Record {
    /// When the packet was captured, in nanoseconds since the start of 1970 in UTC. A simple packet
    /// of pcapng has no time.
    pub time: Option<u64>,
    /// The number of the link that the packet was captured on.
    pub link: u32,
    /// The number of the interface in its section of a pcapng file. pcap has none.
    pub interface: Option<u32>,
    /// How many bytes the packet had. If that is more than were captured, the capture's snap length
    /// cut it.
    pub original: u32,
}
