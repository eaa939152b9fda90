//! Packets and streams as a real cluster sends them, encrypted and labelled.

ghost use Rattle.std.specs.Prelude.{◌≡◌, MatchBool};
ghost use Rattle.swim_c.specs.Keyring.{keys_of};
ghost use Rattle.swim_c.specs.Sealing.{PacketSealed, StreamSealed, ReplySealed};

use crate::cluster_keys::ClusterKeys;
use crate::copy::Written;
use crate::keyring::KeyringHandle;
use crate::sealing::{seal_out, seal_stream_out};
use std::alloc::Global;

/// Writes a packet with this message to the buffer, encrypted with the first key and this nonce.
/// The label comes before it and is authenticated with it; an empty one is not written. Never use a
/// nonce twice with one key, for packets or streams. Without a key the message is written in the
/// clear, after its label. The keyring does not change.
///
/// # Statuses
///
/// If the status is not 0, the buffer is unchanged.
///
/// - 51 if the label has more than 255 bytes, or what is to be encrypted more than 2^36 - 32.
/// - 66 if the buffer is too small. The length is then that of the packet.
/// - 10 if out of memory.
#[unsafe(no_mangle)]
pub extern "C" fn swimtab_raw_seal(
    alloc: Global,
    keyring: &mut KeyringHandle,
    nonce: &[u8; 12],
    label: &[u8],
    message: &[u8],
    out: &mut [u8],
) -> Written
    ensures stays { keyring.new.keys ≡ keyring.old.keys }
    ensures seals { PacketSealed (keys_of keyring.old.keys).keyring nonce.now label.now message.now
        out.old out.new result.status result.len }
{
    let Some(held) = keyring.take(alloc) else {
        let none = ClusterKeys::none(alloc);
        return seal_out(alloc, &none.keyring, nonce, label, message, out);
    };
    let written = seal_out(alloc, &held.keyring, nonce, label, message, out);
    keyring.put(held);
    written
}

/// Writes a stream with this message to the buffer, encrypted with the first key and this nonce, as
/// [`swimtab_raw_seal`] does a packet. The side that opens a connection writes the label before its
/// stream. A reply is written without it; with a key it authenticates the label all the same.
///
/// # Statuses
///
/// If the status is not 0, the buffer is unchanged.
///
/// - 51 if the label has more than 255 bytes, or what is to be encrypted more than 268,435,427.
/// - 66 if the buffer is too small. The length is then that of the stream.
/// - 10 if out of memory.
#[unsafe(no_mangle)]
pub extern "C" fn swimtab_raw_seal_stream(
    alloc: Global,
    keyring: &mut KeyringHandle,
    nonce: &[u8; 12],
    label: &[u8],
    reply: bool,
    message: &[u8],
    out: &mut [u8],
) -> Written
    ensures stays { keyring.new.keys ≡ keyring.old.keys }
    ensures seals { MatchBool reply
        (ReplySealed (keys_of keyring.old.keys).keyring nonce.now label.now message.now
        out.old out.new result.status result.len)
        (StreamSealed (keys_of keyring.old.keys).keyring nonce.now label.now message.now
        out.old out.new result.status result.len) }
{
    let Some(held) = keyring.take(alloc) else {
        let none = ClusterKeys::none(alloc);
        return seal_stream_out(alloc, &none.keyring, nonce, label, reply, message, out);
    };
    let written = seal_stream_out(alloc, &held.keyring, nonce, label, reply, message, out);
    keyring.put(held);
    written
}
