//! Why a packet or a stream is refused.

ghost use Rattle.std.specs.Prelude.{◌≡◌};
ghost use Rattle.memberlist_transport.specs.declared.fault.PacketFault.TheVariants.{Memory};

use memberlist_cipher::CipherFault;
use memberlist_wrap::WrapFault;
use std::alloc::AllocError;
use thiserror::Error;

/// The number of the fault of a packet or a stream that is not encrypted, if there are keys (own).
pub const UNENCRYPTED: u32 = 59;

/// Why a packet is refused (own).
#[derive(Clone, Copy, Debug, PartialEq, Eq, Error)]
pub enum PacketFault {
    /// It wraps nothing.
    #[error("{0}")]
    Wrapped(WrapFault),
    /// The unwrapped bytes start with this byte, and are not a message of packets: they are
    /// encrypted, broken, or of another kind.
    #[error("not a message (first byte {0:02x})")]
    NoMessage(u8),
    /// It is encrypted, and none of the keys decrypts it.
    #[error("no key decrypts the packet")]
    NoKeyFits,
    /// It is not encrypted, there are keys, and only what is encrypted is read.
    #[error("the packet is not encrypted")]
    Unencrypted,
    /// Out of memory.
    #[error("out of memory")]
    Memory,
}

impl From<AllocError> for PacketFault {
    ghost from_gives = { λ _ fault. fault ≡ Memory };

    fn from(_error: AllocError) -> PacketFault {
        PacketFault::Memory
    }
}

/// Why a stream is refused (own).
#[derive(Clone, Copy, Debug, PartialEq, Eq, Error)]
pub enum StreamFault {
    /// It wraps nothing.
    #[error("{0}")]
    Wrapped(WrapFault),
    /// It is encrypted, and none of the keys decrypts it: this is the fault of the last one.
    #[error("{0}")]
    Closed(CipherFault),
    /// It is not encrypted, there are keys, and only what is encrypted is read.
    #[error("the stream is not encrypted")]
    Unencrypted,
    /// The unwrapped bytes start with this byte, and are not a push/pull stream.
    #[error("not a push/pull stream (first byte {0:02x})")]
    NoStream(u8),
    /// It wraps no bytes.
    #[error("the stream is empty")]
    Empty,
    /// Out of memory.
    #[error("out of memory")]
    Memory,
}
