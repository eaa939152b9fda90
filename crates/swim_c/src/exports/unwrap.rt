//! Packets and streams as a real cluster sends them, unwrapped and decrypted.

ghost use Rattle.std.specs.Prelude.{◌≡◌};
ghost use Rattle.swim_c.specs.Keyring.{keys_of};
ghost use Rattle.swim_c.specs.Unwrapping.{GivesMessage, GivesNewMessage, Lacks, LacksNew, PacketUnwrapped, StreamUnwrapped};

use crate::buffer::Buffer;
use crate::cluster_keys::ClusterKeys;
use crate::keyring::KeyringHandle;
use crate::unwrapping::{Unwrapped, unwrap_new, unwrap_out, unwrap_stream_new, unwrap_stream_out};
use std::alloc::Global;

/// Writes the message of a packet to the buffer, whatever it is, and tells its kind: its first byte.
/// It removes checksums, compressions and labels, and decrypts with the keys; with keys a packet
/// that none decrypts is read in the clear only if that is accepted. Without keys an encrypted
/// packet is given as it is, and looks like a ping or an indirect ping. Neither the message, nor what
/// is compressed or encrypted, has more than 1,048,576 bytes. The keyring does not change; a handle
/// without one has no key.
///
/// # Statuses
///
/// If the status is not 0, the buffer is unchanged.
///
/// - 16 if it begins like no message, and 1 if it is empty.
/// - 40 to 48 if the wrappers are invalid (docs/faults.md).
/// - 54 if there are keys, and none decrypts it.
/// - 59 if it is in the clear, there are keys, and what is in the clear is not accepted.
/// - 66 if the buffer is too small. The kind and the length are then told.
/// - 10 if out of memory.
#[unsafe(no_mangle)]
pub extern "C" fn swimtab_raw_unwrap(
    alloc: Global,
    keyring: &mut KeyringHandle,
    packet: &[u8],
    out: &mut [u8],
) -> Unwrapped
    ensures stays { keyring.new.keys ≡ keyring.old.keys }
    ensures unwraps { PacketUnwrapped (keys_of keyring.old.keys) packet.now
        (GivesMessage out.old out.new result.status result.kind result.len)
        (Lacks out.old out.new result.status result.kind result.len) }
{
    let Some(held) = keyring.take(alloc) else {
        return unwrap_out(alloc, &ClusterKeys::none(alloc), packet, out);
    };
    let unwrapped = unwrap_out(alloc, &held, packet, out);
    keyring.put(held);
    unwrapped
}

/// Makes the buffer keep the message of a packet, as `swimtab_raw_unwrap` writes it. Frees what the
/// buffer kept before.
///
/// # Statuses
///
/// Those of `swimtab_raw_unwrap`, except 66. If the status is not 0, the buffer is unchanged.
#[unsafe(no_mangle)]
pub extern "C" fn swimtab_raw_unwrap_new(
    alloc: Global,
    keyring: &mut KeyringHandle,
    packet: &[u8],
    buffer: &mut Buffer,
) -> Unwrapped
    ensures stays { keyring.new.keys ≡ keyring.old.keys }
    ensures unwraps { PacketUnwrapped (keys_of keyring.old.keys) packet.now
        (GivesNewMessage buffer.old buffer.new result.status result.kind)
        (LacksNew buffer.old buffer.new result.status result.kind) }
{
    let Some(held) = keyring.take(alloc) else {
        return unwrap_new(alloc, &ClusterKeys::none(alloc), packet, buffer);
    };
    let unwrapped = unwrap_new(alloc, &held, packet, buffer);
    keyring.put(held);
    unwrapped
}

/// Writes the message in what one side of a TCP connection sends to the buffer, whatever it is, and
/// tells its kind: a push/pull stream, a ping, an ack, a user message, an error. It removes
/// checksums, compressions and labels, and decrypts with the keys. Neither the message, nor what is
/// compressed or encrypted, has more than 268,435,456 bytes. The keyring does not change; a handle
/// without one has no key.
///
/// The side that replies does not write the label before its stream, but authenticates it. So bytes
/// that do not begin with a label are read as if they began with this one, the cluster's; an empty
/// one means no label.
///
/// # Statuses
///
/// If the status is not 0, the buffer is unchanged.
///
/// - 1 if the bytes end too soon, or there are none: with more of them there may be a message.
/// - 16 if it begins like no message; without keys, also if it is encrypted.
/// - 41 to 48 if the wrappers are invalid, and 51 to 57 if it is encrypted and no key decrypts it:
///   the fault of the last key (docs/faults.md).
/// - 59 if it is in the clear, there are keys, and what is in the clear is not accepted.
/// - 51 if the label has more than 255 bytes.
/// - 66 if the buffer is too small. The kind and the length are then told.
/// - 10 if out of memory.
#[unsafe(no_mangle)]
pub extern "C" fn swimtab_raw_unwrap_stream(
    alloc: Global,
    keyring: &mut KeyringHandle,
    label: &[u8],
    stream: &[u8],
    out: &mut [u8],
) -> Unwrapped
    ensures stays { keyring.new.keys ≡ keyring.old.keys }
    ensures unwraps { StreamUnwrapped (keys_of keyring.old.keys) label.now stream.now
        (GivesMessage out.old out.new result.status result.kind result.len)
        (Lacks out.old out.new result.status result.kind result.len) }
{
    let Some(held) = keyring.take(alloc) else {
        return unwrap_stream_out(alloc, &ClusterKeys::none(alloc), label, stream, out);
    };
    let unwrapped = unwrap_stream_out(alloc, &held, label, stream, out);
    keyring.put(held);
    unwrapped
}

/// Makes the buffer keep the message in what one side of a TCP connection sends, as
/// `swimtab_raw_unwrap_stream` writes it. Frees what the buffer kept before.
///
/// # Statuses
///
/// Those of `swimtab_raw_unwrap_stream`, except 66. If the status is not 0, the buffer is unchanged.
#[unsafe(no_mangle)]
pub extern "C" fn swimtab_raw_unwrap_stream_new(
    alloc: Global,
    keyring: &mut KeyringHandle,
    label: &[u8],
    stream: &[u8],
    buffer: &mut Buffer,
) -> Unwrapped
    ensures stays { keyring.new.keys ≡ keyring.old.keys }
    ensures unwraps { StreamUnwrapped (keys_of keyring.old.keys) label.now stream.now
        (GivesNewMessage buffer.old buffer.new result.status result.kind)
        (LacksNew buffer.old buffer.new result.status result.kind) }
{
    let Some(held) = keyring.take(alloc) else {
        return unwrap_stream_new(alloc, &ClusterKeys::none(alloc), label, stream, buffer);
    };
    let unwrapped = unwrap_stream_new(alloc, &held, label, stream, buffer);
    keyring.put(held);
    unwrapped
}
