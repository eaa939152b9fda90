//! Why reading a capture stopped.

use thiserror::Error;

/// Why reading a capture stopped.
#[derive(Clone, Copy, Debug, PartialEq, Eq, Error)]
pub enum CaptureFault {
    /// The first bytes are not those of a supported capture format.
    #[error("this is neither a pcap nor a pcapng capture")]
    NotCapture,
    /// The version of the format is not supported. Supported are 2 of pcap and 1 of pcapng.
    #[error("version {major} of the capture format is not supported")]
    Version { major: u16 },
    /// A record claims more than 262,144 captured bytes (own).
    #[error("a record claims {length} captured bytes; the limit is 262,144")]
    TooLong { length: u32 },
    /// A block's lengths are not multiples of 4, do not agree, or leave no room for what it holds.
    #[error("the lengths of a block do not agree")]
    BadBlock,
    /// A packet names an interface that its section has not described.
    #[error("a packet names interface {interface}, which is not described")]
    UnknownInterface { interface: u32 },
    /// A section describes more than 4,096 interfaces (own).
    #[error("a section describes more than 4,096 interfaces")]
    TooManyInterfaces,
    /// 2^64 - 1 blocks in a row contain no record (own).
    #[error("too many blocks in a row hold no record")]
    NoRecord,
    /// The capture ends in the middle of a header, a record or a block.
    #[error("the capture ends in the middle of a record")]
    Cut,
    /// The inlet failed.
    #[error("the capture could not be read")]
    Device,
    /// Out of memory.
    #[error("out of memory")]
    Memory,
}
