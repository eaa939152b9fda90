//! The message of a packet.

ghost use Rattle.std.specs.Prelude.{◌≡◌, ◌≢◌, ◌<◌, ◌⊎◌, ℕ, true, false, Ok, Err, MatchBool, IsOk, IfOk, IfErr};
ghost use Rattle.memberlist_transport.specs.declared.message.Message.{Message};
ghost use Rattle.memberlist_transport.specs.Message.{IsMessage, IsNoMessage};
ghost use Rattle.memberlist_transport.specs.InTheClear.{AcceptsClear};
ghost use Rattle.memberlist_transport.specs.Packet.{Holds, HoldsClear, Fails, FailsClear, IsUnclearResult, HoldsOpened, FailsOpened};

use crate::fault::PacketFault;
use crate::in_the_clear::InTheClear;
use crate::message::{Message, kind_that_claims};
use memberlist_cipher::CipherFault;
use memberlist_keyring::Keyring;
use memberlist_wrap::{WrapFault, unwrap, unwrap_in_place};
use std::alloc::Global;
use swim_wire::{WireFault, decode_claimless};

/// The most bytes of a packet's message (own).
pub const MAX_MESSAGE_LEN: usize = 1_048_576;

/// The message of a packet: checksums, compressions and labels are removed, as in memberlist's
/// `net.go` (`handleCommand`), `util.go` and `label.go`. Bytes that are not a message in the clear
/// and start as an encrypted packet are first decrypted with the keys, if there are any. Neither a
/// message nor anything compressed or encrypted has more than 1,048,576 bytes. If there are keys,
/// a message in the clear is read only if `clear` accepts it.
///
/// # Errors
///
/// `Wrapped` if the bytes wrap nothing, with the cause. `NoMessage`, with the first unwrapped byte,
/// if the unwrapped bytes are not empty, do not start as a suspect, alive or dead message or a
/// compound packet, and are not a whole message of a kind that makes no claims. If that byte is
/// below 2, a version of encryption, and there are keys: `NoKeyFits` if none decrypts the bytes,
/// and else these errors for the decrypted bytes. `Unencrypted` if it is a message in the clear,
/// there are keys, and `clear` refuses it. `Memory` if out of memory.
pub fn open_packet(
    alloc: Global,
    keys: &Keyring,
    clear: InTheClear,
    bytes: &[u8],
) -> Result<Message, PacketFault>
    // It is the message of the packet.
    ensures holds { IfOk result (Holds clear keys.now bytes.now) }

    // If it is refused, and not because memory ran out, it has no message, and the refusal says
    // why.
    ensures refuses { IfErr result (λ fault. fault ≢ PacketFault.Memory
        → (message : Message) → ¬ Holds clear keys.now bytes.now message) }
    ensures reason { IfErr result (λ fault. fault ≢ PacketFault.Memory
        → Fails clear keys.now bytes.now fault) }
{
    message_of_packet(alloc, keys, clear, bytes)
}

fn message_of_packet(
    alloc: Global,
    keys: &Keyring,
    clear: InTheClear,
    bytes: &[u8],
) -> Result<Message, PacketFault>
    ensures holds { IfOk result (Holds clear keys.now bytes.now) }
    ensures reason { IfErr result (λ fault. fault ≢ PacketFault.Memory
        → Fails clear keys.now bytes.now fault) }
{
    let plain = clear_message(alloc, bytes);
    if keys.is_empty() || !is_unclear(&plain) {
        return if_accepted(plain, clear.is_accepted(keys));
    }
    opened_message(alloc, keys, bytes)
}

/// The message in the clear, if such messages are read.
fn if_accepted(
    plain: Result<Message, PacketFault>,
    is_accepted: bool,
) -> Result<Message, PacketFault>
    ensures ok { IfOk result (λ message. (is_accepted ≡ true) × (plain ≡ Ok message)) }
    ensures err { IfErr result (λ fault. (plain ≡ Err fault)
        ⊎ ((is_accepted ≡ false) × IsOk plain × (fault ≡ PacketFault.Unencrypted))) }
{
    match plain {
        Ok(message) => if is_accepted {
            Ok(message)
        } else {
            Err(PacketFault::Unencrypted)
        },
        Err(fault) => Err(fault),
    }
}

/// Whether there is a version of encryption in place of a message (memberlist's `security.go`).
fn is_unclear(clear: &Result<Message, PacketFault>) -> bool
    ensures { MatchBool result (IsUnclearResult clear.now) (¬ IsUnclearResult clear.now) }
{
    match clear {
        Err(PacketFault::NoMessage(first)) => *first < 2,
        _ => false,
    }
}

/// The message in bytes that a key may decrypt.
fn opened_message(alloc: Global, keys: &Keyring, bytes: &[u8]) -> Result<Message, PacketFault>
    ensures holds { IfOk result (HoldsOpened keys.now bytes.now) }
    ensures reason { IfErr result (λ fault. fault ≢ PacketFault.Memory
        → FailsOpened keys.now bytes.now fault) }
{
    match keys.open(alloc, bytes) {
        Ok(inner) => clear_message(alloc, &inner),
        Err(CipherFault::Memory) => Err(PacketFault::Memory),
        Err(_) => Err(PacketFault::NoKeyFits),
    }
}

/// The message in bytes without keys.
pub(crate) fn clear_message(alloc: Global, bytes: &[u8]) -> Result<Message, PacketFault>
    ensures holds { IfOk result (HoldsClear bytes.now) }
    ensures reason { IfErr result (λ fault. fault ≢ PacketFault.Memory
        → FailsClear bytes.now fault) }
{
    match unwrap_in_place(bytes, MAX_MESSAGE_LEN) {
        Ok(Some(inner)) => message_of(alloc, inner),
        Ok(None) => decompressed_message(alloc, bytes),
        Err(fault) => Err(PacketFault::Wrapped(fault)),
    }
}

/// The same if a compression has to be removed.
fn decompressed_message(alloc: Global, bytes: &[u8]) -> Result<Message, PacketFault>
    ensures holds { IfOk result (HoldsClear bytes.now) }
    ensures reason { IfErr result (λ fault. fault ≢ PacketFault.Memory
        → FailsClear bytes.now fault) }
{
    match unwrap(alloc, bytes, MAX_MESSAGE_LEN) {
        Ok(inner) => message_of(alloc, &inner),
        Err(WrapFault::Memory) => Err(PacketFault::Memory),
        Err(fault) => Err(PacketFault::Wrapped(fault)),
    }
}

/// The message in a packet's unwrapped bytes.
fn message_of(alloc: Global, bytes: &[u8]) -> Result<Message, PacketFault>
    ensures holds { IfOk result (IsMessage bytes.now) }
    ensures reason { IfErr result (λ fault. fault ≢ PacketFault.Memory
        → (first : ℕ) × (fault ≡ PacketFault.NoMessage first) × IsNoMessage bytes.now first) }
{
    let Some((first, _)) = bytes.split_first() else {
        return Ok(Message::Empty);
    };
    let first = *first;
    if let Some(kind) = kind_that_claims(first) {
        return Ok(Message::Claims(kind, bytes.to_vec(alloc)?));
    }
    match decode_claimless(alloc, bytes) {
        Ok(kind) => Ok(Message::Claimless(kind)),
        Err(WireFault::Memory) => Err(PacketFault::Memory),
        Err(_) => Err(PacketFault::NoMessage(first)),
    }
}
