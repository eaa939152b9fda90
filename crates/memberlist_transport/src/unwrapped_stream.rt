//! The bytes of a message in one direction of a connection, whatever they are.

ghost use Rattle.std.specs.Prelude.{◌≡◌, ◌≢◌, ◌<◌, ℕ, List, length, IfOk, IfErr};
ghost use Rattle.memberlist_keyring.specs.Opening.{OpensStreamFirst};
ghost use Rattle.memberlist_wrap.specs.Wrapping.{Unwraps};
ghost use Rattle.memberlist_transport.specs.Unwrapped.{IsInsideStream, IsInsideReply};

use crate::fault::StreamFault;
use crate::in_the_clear::InTheClear;
use crate::reply::begins_as_label;
use crate::stream::is_sealed;
use memberlist_cipher::{CipherFault, labelled};
use memberlist_keyring::Keyring;
use memberlist_wrap::{WrapFault, unwrap};
use std::alloc::Global;

/// The bytes of the message that one side of a TCP connection sends, in a cluster with this label,
/// decrypted and unwrapped, whatever they are: a push/pull, a ping, an ack, a user message or an
/// error. Bytes that do not start with a label are read as [`crate::open_reply`] reads them. The
/// label has at most 255 bytes. If there are keys, a message in the clear is read only if `clear`
/// accepts it; without keys, an encrypted one is given as it is. Neither the message nor anything
/// compressed or encrypted has more than `limit` bytes.
///
/// # Errors
///
/// `Wrapped`, with the cause, if the bytes, or those that a key decrypts, wrap nothing within the
/// limit. If there are keys: `Unencrypted` if it is a message in the clear and `clear` refuses it,
/// `Empty` if then there are no bytes of it, and `Closed`, with the fault of the last key, if it is encrypted and none decrypts it. `Memory`
/// if out of memory.
///
/// Source: `readStream` and `decryptRemoteState` in memberlist's net.go.
pub fn unwrap_reply(
    alloc: Global,
    keys: &Keyring,
    clear: InTheClear,
    label: &[u8],
    bytes: &[u8],
    limit: usize,
) -> Result<Vec<u8>, StreamFault>
    requires few { length label.now < 256 }

    // They are the bytes of the message.
    ensures inside { IfOk result (λ inner.
        IsInsideReply limit clear keys.now label.now bytes.now inner.items) }

    // If they are refused, and not because memory ran out, they hold none.
    ensures refuses { IfErr result (λ fault. fault ≢ StreamFault.Memory
        → (inner : List ℕ) → ¬ IsInsideReply limit clear keys.now label.now bytes.now inner) }
{
    if begins_as_label(bytes) || label.is_empty() {
        return unwrap_stream(alloc, keys, clear, bytes, limit);
    }
    match labelled(alloc, label, bytes) {
        Ok(whole) => unwrap_stream(alloc, keys, clear, &whole, limit),
        Err(_) => Err(StreamFault::Memory),
    }
}

fn unwrap_stream(
    alloc: Global,
    keys: &Keyring,
    clear: InTheClear,
    bytes: &[u8],
    limit: usize,
) -> Result<Vec<u8>, StreamFault>
    ensures inside { IfOk result (λ inner.
        IsInsideStream limit clear keys.now bytes.now inner.items) }
    ensures refuses { IfErr result (λ fault. fault ≢ StreamFault.Memory
        → (inner : List ℕ) → ¬ IsInsideStream limit clear keys.now bytes.now inner) }
{
    let message = unwrapped(alloc, bytes, limit)?;
    if keys.is_empty() {
        return Ok(message);
    }
    if is_sealed(&message) {
        return opened(alloc, keys, bytes, limit);
    }
    if clear.is_accepted(keys) {
        Ok(message)
    } else {
        Err(why_unread(&message))
    }
}

/// Why a message that does not begin as an encrypted one is not read. Of no bytes nothing is known
/// yet: the label of a stream may come before the rest.
fn why_unread(message: &[u8]) -> StreamFault {
    if message.is_empty() {
        StreamFault::Empty
    } else {
        StreamFault::Unencrypted
    }
}

/// The bytes in wrappers of what a key decrypts.
fn opened(alloc: Global, keys: &Keyring, bytes: &[u8], limit: usize) -> Result<Vec<u8>, StreamFault>
    ensures ok { IfOk result (λ inner. (plain : List ℕ) × OpensStreamFirst keys.now bytes.now plain
        × Unwraps limit plain inner.items) }
    ensures err { IfErr result (λ fault. fault ≢ StreamFault.Memory → (plain inner : List ℕ)
        → OpensStreamFirst keys.now bytes.now plain → ¬ Unwraps limit plain inner) }
{
    match keys.open_stream(alloc, bytes) {
        Ok(plain) => unwrapped(alloc, &plain, limit),
        Err(CipherFault::Memory) => Err(StreamFault::Memory),
        Err(cause) => Err(StreamFault::Closed(cause)),
    }
}

/// The bytes in wrappers.
fn unwrapped(alloc: Global, bytes: &[u8], limit: usize) -> Result<Vec<u8>, StreamFault>
    ensures ok { IfOk result (λ inner. Unwraps limit bytes.now inner.items) }
    ensures err { IfErr result (λ fault. fault ≢ StreamFault.Memory
        → (inner : List ℕ) → ¬ Unwraps limit bytes.now inner) }
{
    match unwrap(alloc, bytes, limit) {
        Ok(inner) => Ok(inner),
        Err(WrapFault::Memory) => Err(StreamFault::Memory),
        Err(cause) => Err(StreamFault::Wrapped(cause)),
    }
}
