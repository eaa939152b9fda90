//! The push/pull stream of a connection.

ghost use Rattle.std.specs.Prelude.{◌≡◌, ◌≢◌, ◌⊎◌, List, ℕ, true, false, Ok, Err, IsOk, IfOk, IfErr, MatchBool};
ghost use Rattle.memberlist_cipher.specs.declared.fault.CipherFault.{CipherFault};
ghost use Rattle.memberlist_cipher.specs.Refusal.{StreamCause};
ghost use Rattle.memberlist_keyring.specs.Cutting.{IsRefused};
ghost use Rattle.memberlist_keyring.specs.Opening.{OpensStream, OpensStreamFirst};
ghost use Rattle.memberlist_wrap.specs.Wrapping.{Unwraps};
ghost use Rattle.memberlist_transport.specs.InTheClear.{AcceptsClear};
ghost use Rattle.memberlist_transport.specs.Stream.{BeginsAsStream, BeginsAsSealed, IsStreamIn, IsClearStream};
ghost use Rattle.memberlist_transport.specs.Stream.{ReasonFor, ReasonForClear, fault_of_start};

use crate::fault::StreamFault;
use crate::in_the_clear::InTheClear;
use memberlist_cipher::CipherFault;
use memberlist_keyring::Keyring;
use memberlist_wrap::{WrapFault, unwrap};
use std::alloc::Global;
use swim_wire::PUSH_PULL_MESSAGE;

/// The first byte of an encrypted stream, as in memberlist's `net.go`.
const ENCRYPTED: u8 = 10;

/// The push/pull stream in one direction of a TCP connection, unwrapped, and decrypted with the
/// keys if it is encrypted and there are any, as in memberlist's `net.go` (`readStream`). Only its
/// first byte is checked to be that of such a stream. Neither it nor anything compressed or
/// encrypted has more than `limit` bytes. If there are keys, a stream in the clear is read only if
/// `clear` accepts it.
///
/// # Errors
///
/// `Wrapped`, with the fault of [`memberlist_wrap::unwrap`], if the bytes wrap nothing within the
/// limit; `NoStream`, with the first unwrapped byte, if the unwrapped bytes are not a push/pull
/// stream, and `Empty` if there are none. If it is encrypted and there are keys: `Closed` with the
/// fault of the last of them, and else these errors for the decrypted bytes. `Unencrypted` if it is
/// a stream in the clear, there are keys, and `clear` refuses it. `Memory` if out of memory.
pub fn open_stream(
    alloc: Global,
    keys: &Keyring,
    clear: InTheClear,
    bytes: &[u8],
    limit: usize,
) -> Result<Vec<u8>, StreamFault>
    // It is the stream in the bytes.
    ensures unwraps { IfOk result (λ stream.
        IsStreamIn limit clear keys.now bytes.now stream.items) }

    // If they are refused, and not because memory ran out, they hold none, and the refusal says
    // why.
    ensures refuses { IfErr result (λ fault. fault ≢ StreamFault.Memory
        → (stream : List ℕ) → ¬ IsStreamIn limit clear keys.now bytes.now stream) }
    ensures reason { IfErr result (λ fault. fault ≢ StreamFault.Memory
        → ReasonFor limit clear keys.now bytes.now fault) }
{
    stream_in(alloc, keys, clear, bytes, limit)
}

fn stream_in(
    alloc: Global,
    keys: &Keyring,
    clear: InTheClear,
    bytes: &[u8],
    limit: usize,
) -> Result<Vec<u8>, StreamFault>
    ensures unwraps { IfOk result (λ stream.
        IsStreamIn limit clear keys.now bytes.now stream.items) }
    ensures reason { IfErr result (λ fault. fault ≢ StreamFault.Memory
        → ReasonFor limit clear keys.now bytes.now fault) }
{
    match unwrap(alloc, bytes, limit) {
        Ok(message) => stream_behind(alloc, keys, clear, bytes, message, limit),
        Err(WrapFault::Memory) => Err(StreamFault::Memory),
        Err(cause) => Err(StreamFault::Wrapped(cause)),
    }
}

/// The same for bytes that wrap this message.
fn stream_behind(
    alloc: Global,
    keys: &Keyring,
    clear: InTheClear,
    bytes: &[u8],
    message: Vec<u8>,
    limit: usize,
) -> Result<Vec<u8>, StreamFault>
    requires { Unwraps limit bytes.now message.items }
    ensures unwraps { IfOk result (λ stream.
        IsStreamIn limit clear keys.now bytes.now stream.items) }
    ensures reason { IfErr result (λ fault. fault ≢ StreamFault.Memory
        → ReasonFor limit clear keys.now bytes.now fault) }
{
    if keys.is_empty() || !is_sealed(&message) {
        return if_accepted(stream_of(message), clear.is_accepted(keys));
    }
    drop(message);
    opened_stream(alloc, keys, bytes, limit)
}

/// The stream in the clear, if such streams are read.
fn if_accepted(
    plain: Result<Vec<u8>, StreamFault>,
    is_accepted: bool,
) -> Result<Vec<u8>, StreamFault>
    ensures ok { IfOk result (λ stream. (is_accepted ≡ true) × (plain ≡ Ok stream)) }
    ensures err { IfErr result (λ fault. (plain ≡ Err fault)
        ⊎ ((is_accepted ≡ false) × IsOk plain × (fault ≡ StreamFault.Unencrypted))) }
{
    match plain {
        Ok(stream) => if is_accepted {
            Ok(stream)
        } else {
            Err(StreamFault::Unencrypted)
        },
        Err(fault) => Err(fault),
    }
}

/// Whether the message starts as an encrypted stream.
pub(crate) fn is_sealed(message: &[u8]) -> bool
    ensures { MatchBool result (BeginsAsSealed message.now) (¬ BeginsAsSealed message.now) }
{
    match message.split_first() {
        Some((first, _)) => *first == ENCRYPTED,
        None => false,
    }
}

/// The stream in bytes that a key decrypts.
fn opened_stream(
    alloc: Global,
    keys: &Keyring,
    bytes: &[u8],
    limit: usize,
) -> Result<Vec<u8>, StreamFault>
    ensures ok { IfOk result (λ stream. (inner : List ℕ) × OpensStreamFirst keys.now bytes.now inner
        × IsClearStream limit inner stream.items) }
    ensures err { IfErr result (λ fault. fault ≢ StreamFault.Memory
        → ((cause : CipherFault) × ((inner : List ℕ) → ¬ OpensStream keys.now bytes.now inner)
        × IsRefused StreamCause keys.now bytes.now cause × (fault ≡ StreamFault.Closed cause))
        ⊎ ((inner : List ℕ) × OpensStreamFirst keys.now bytes.now inner
        × ReasonForClear limit inner fault)) }
{
    match keys.open_stream(alloc, bytes) {
        Ok(inner) => clear_stream(alloc, &inner, limit),
        Err(CipherFault::Memory) => Err(StreamFault::Memory),
        Err(cause) => Err(StreamFault::Closed(cause)),
    }
}

/// The stream in bytes in the clear.
fn clear_stream(alloc: Global, bytes: &[u8], limit: usize) -> Result<Vec<u8>, StreamFault>
    ensures ok { IfOk result (λ stream. IsClearStream limit bytes.now stream.items) }
    ensures err { IfErr result (λ fault. fault ≢ StreamFault.Memory
        → ReasonForClear limit bytes.now fault) }
{
    match unwrap(alloc, bytes, limit) {
        Ok(message) => stream_of(message),
        Err(WrapFault::Memory) => Err(StreamFault::Memory),
        Err(cause) => Err(StreamFault::Wrapped(cause)),
    }
}

/// The message, if it is a push/pull stream.
fn stream_of(message: Vec<u8>) -> Result<Vec<u8>, StreamFault>
    ensures ok { IfOk result (λ stream. BeginsAsStream stream.items
        × (stream.items ≡ message.items)) }
    ensures err { IfErr result (λ fault. (¬ BeginsAsStream message.items)
        × (fault ≡ fault_of_start message.items)) }
{
    let Some((first, _)) = message.split_first() else {
        return Err(StreamFault::Empty);
    };
    let found = *first;
    if found == PUSH_PULL_MESSAGE {
        Ok(message)
    } else {
        Err(StreamFault::NoStream(found))
    }
}
