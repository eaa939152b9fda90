//! The bytes of a packet's message, whatever they are.

ghost use Rattle.std.specs.Prelude.{◌≡◌, ◌≢◌, ◌⊎◌, ℕ, List, IfOk, IfErr};
ghost use Rattle.memberlist_wrap.specs.Wrapping.{Unwraps};
ghost use Rattle.memberlist_transport.specs.Packet.{max_message_len};
ghost use Rattle.memberlist_transport.specs.Unwrapped.{IsInside};

use crate::fault::PacketFault;
use crate::in_the_clear::InTheClear;
use crate::packet::{MAX_MESSAGE_LEN, clear_message};
use memberlist_cipher::CipherFault;
use memberlist_keyring::Keyring;
use memberlist_wrap::{WrapFault, unwrap};
use std::alloc::Global;

/// The bytes of a packet's message, decrypted with the first key that works and unwrapped, whatever
/// they are: memberlist's `ingestPacket` in net.go. With keys a packet that none of them decrypts
/// is read in the clear only if `clear` accepts it. Neither the message nor anything compressed or
/// encrypted has more than 1,048,576 bytes.
///
/// # Errors
///
/// `Wrapped` if the bytes, or those that a key decrypts, wrap nothing, with the cause. If there are
/// keys, none decrypts the packet, and `clear` refuses packets in the clear: `Unencrypted` if it is
/// a message in the clear, as [`crate::open_packet`] reads one, and else `NoKeyFits`. `Memory` if
/// out of memory.
pub fn unwrap_packet(
    alloc: Global,
    keys: &Keyring,
    clear: InTheClear,
    bytes: &[u8],
) -> Result<Vec<u8>, PacketFault>
    // They are the bytes in the packet.
    ensures inside { IfOk result (λ inner. IsInside clear keys.now bytes.now inner.items) }

    // If it is refused, and not because memory ran out, there are none in it.
    ensures refuses { IfErr result (λ fault. fault ≢ PacketFault.Memory
        → (inner : List ℕ) → ¬ IsInside clear keys.now bytes.now inner) }
{
    if keys.is_empty() {
        return unwrapped(alloc, bytes);
    }
    match keys.open(alloc, bytes) {
        Ok(plain) => unwrapped(alloc, &plain),
        Err(CipherFault::Memory) => Err(PacketFault::Memory),
        Err(_) => if clear.is_accepted(keys) {
            unwrapped(alloc, bytes)
        } else {
            Err(why_closed(alloc, bytes))
        },
    }
}

/// The bytes in wrappers.
fn unwrapped(alloc: Global, bytes: &[u8]) -> Result<Vec<u8>, PacketFault>
    ensures ok { IfOk result (λ inner. Unwraps max_message_len bytes.now inner.items) }
    ensures err { IfErr result (λ fault. fault ≢ PacketFault.Memory
        → (inner : List ℕ) → ¬ Unwraps max_message_len bytes.now inner) }
{
    match unwrap(alloc, bytes, MAX_MESSAGE_LEN) {
        Ok(inner) => Ok(inner),
        Err(WrapFault::Memory) => Err(PacketFault::Memory),
        Err(fault) => Err(PacketFault::Wrapped(fault)),
    }
}

/// Why a packet that no key decrypts is refused.
fn why_closed(alloc: Global, bytes: &[u8]) -> PacketFault {
    match clear_message(alloc, bytes) {
        Ok(_) => PacketFault::Unencrypted,
        Err(PacketFault::Memory) => PacketFault::Memory,
        Err(_) => PacketFault::NoKeyFits,
    }
}
