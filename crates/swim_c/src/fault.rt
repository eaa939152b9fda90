//! The statuses of wrapped and encrypted bytes.

ghost use Rattle.std.specs.Prelude.{◌≡◌};
ghost use Rattle.swim_c.specs.Statuses.{cipher_status, wrap_status, packet_status, stream_status};

use crate::status::{ENDED, MEMORY, UNENCRYPTED};
use memberlist_cipher::CipherFault;
use memberlist_transport::{PacketFault, StreamFault};
use memberlist_wrap::WrapFault;
use swim_wire::WireFault;

/// The status for bytes or keys that the cipher refuses.
pub fn cipher_status(fault: CipherFault) -> u32
    ensures { result ≡ cipher_status fault }
{
    match fault {
        CipherFault::Memory => MEMORY,
        fault => fault.number(),
    }
}

fn wrap_status(fault: WrapFault) -> u32
    ensures { result ≡ wrap_status fault }
{
    match fault {
        WrapFault::Memory => MEMORY,
        fault => fault.number(),
    }
}

/// The status for a packet without a message.
pub fn packet_status(fault: PacketFault) -> u32
    ensures { result ≡ packet_status fault }
{
    match fault {
        PacketFault::Wrapped(fault) => wrap_status(fault),
        PacketFault::NoMessage(found) => WireFault::WrongType { found }.number(),
        PacketFault::NoKeyFits => CipherFault::WrongTag.number(),
        PacketFault::Unencrypted => UNENCRYPTED,
        PacketFault::Memory => MEMORY,
    }
}

/// The status for what one side of a connection sends, without a message. What ends too soon has
/// one status, wherever it does.
pub fn stream_status(fault: StreamFault) -> u32
    ensures { result ≡ stream_status fault }
{
    match fault {
        StreamFault::Wrapped(WrapFault::Ended) => ENDED,
        StreamFault::Wrapped(fault) => wrap_status(fault),
        StreamFault::Closed(CipherFault::TooShort) => ENDED,
        StreamFault::Closed(fault) => cipher_status(fault),
        StreamFault::Unencrypted => UNENCRYPTED,
        StreamFault::NoStream(found) => WireFault::WrongType { found }.number(),
        StreamFault::Empty => ENDED,
        StreamFault::Memory => MEMORY,
    }
}
