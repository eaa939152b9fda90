//! The push/pull stream that replies to another one.

ghost use Rattle.std.specs.Prelude.{◌≢◌, ◌<◌, List, ℕ, length, IfOk, IfErr, MatchBool};
ghost use Rattle.memberlist_transport.specs.Reply.{BeginsAsLabel, IsReplyIn, ReasonForReply};

use crate::fault::StreamFault;
use crate::in_the_clear::InTheClear;
use crate::stream::open_stream;
use memberlist_cipher::{LABEL, labelled};
use memberlist_keyring::Keyring;
use std::alloc::Global;

/// The push/pull stream with which a member of a cluster with this label replies to one, decrypted
/// and unwrapped like [`open_stream`] does. In memberlist only the side that opens a connection
/// writes the label, but the side that replies authenticates it too. So bytes that do not start
/// with a label are read as if the cluster's came first; an empty one means no label. The label has
/// at most 255 bytes.
///
/// # Errors
///
/// Those of [`open_stream`], for the bytes with the label before them.
///
/// Source: `encryptLocalState` and `sendLocalState` in memberlist's net.go, and
/// `labelWrappedTransport` in its transport.go.
pub fn open_reply(
    alloc: Global,
    keys: &Keyring,
    clear: InTheClear,
    label: &[u8],
    bytes: &[u8],
    limit: usize,
) -> Result<Vec<u8>, StreamFault>
    requires few { length label.now < 256 }

    // It is the stream in the bytes after the label.
    ensures unwraps { IfOk result (λ stream.
        IsReplyIn limit clear keys.now label.now bytes.now stream.items) }

    // If they are refused, and not because memory ran out, they hold none, and the refusal says
    // why.
    ensures refuses { IfErr result (λ fault. fault ≢ StreamFault.Memory
        → (stream : List ℕ) → ¬ IsReplyIn limit clear keys.now label.now bytes.now stream) }
    ensures reason { IfErr result (λ fault. fault ≢ StreamFault.Memory
        → ReasonForReply limit clear keys.now label.now bytes.now fault) }
{
    if begins_as_label(bytes) || label.is_empty() {
        return open_stream(alloc, keys, clear, bytes, limit);
    }
    match labelled(alloc, label, bytes) {
        Ok(whole) => open_stream(alloc, keys, clear, &whole, limit),
        Err(_) => Err(StreamFault::Memory),
    }
}

/// Whether the bytes start as a label does.
pub(crate) fn begins_as_label(bytes: &[u8]) -> bool
    ensures { MatchBool result (BeginsAsLabel bytes.now) (¬ BeginsAsLabel bytes.now) }
{
    match bytes.split_first() {
        Some((first, _)) => *first == LABEL,
        None => false,
    }
}
