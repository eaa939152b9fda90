//! Unwrapping and decrypting packets and streams, as a real cluster sends them, into a buffer.

ghost use Rattle.std.specs.Prelude.{◌≡◌, ◌≢◌, ◌<◌, ℕ, List, length, IfOk, IfErr};
ghost use Rattle.memberlist_transport.specs.Unwrapped.{IsInsideReply};
ghost use Rattle.swim_c.specs.Unwrapping.{kind_in, max_stream_len, GivesMessage, GivesNewMessage, Lacks, LacksNew};
ghost use Rattle.swim_c.specs.Unwrapping.{PacketUnwrapped, StreamUnwrapped};

use crate::buffer::Buffer;
use crate::cluster_keys::ClusterKeys;
use crate::copy::copy_out;
use crate::fault::{packet_status, stream_status};
use crate::kept::Kept;
use crate::status::{DONE, ENDED, MEMORY, WRONG_TYPE};
use memberlist_cipher::{CipherFault, MAX_LABEL_LEN};
use memberlist_transport::{StreamFault, unwrap_packet, unwrap_reply};
use std::alloc::Global;

/// The most bytes of a stream, and of what is compressed or encrypted in it (own).
const MAX_STREAM_LEN: usize = 268_435_456;

/// The result of unwrapping.
#[repr(C)]
#[derive(Clone, Copy)]
pub struct Unwrapped {
    pub status: u32,
    /// The kind of the message: its first byte, or 0.
    pub kind: u32,
    /// The length of the message.
    pub len: usize,
}

impl Unwrapped {
    fn refused(status: u32) -> Unwrapped
        ensures { result ≡ record { status = status; kind = 0; len = 0 } }
    {
        Unwrapped {
            status,
            kind: 0,
            len: 0,
        }
    }
}

/// Writes the message of a packet to the buffer, whatever it is.
pub fn unwrap_out(alloc: Global, keys: &ClusterKeys, packet: &[u8], out: &mut [u8]) -> Unwrapped
    ensures { PacketUnwrapped keys.now packet.now
        (GivesMessage out.old out.new result.status result.kind result.len)
        (Lacks out.old out.new result.status result.kind result.len) }
{
    match unwrap_packet(alloc, &keys.keyring, keys.clear, packet) {
        Ok(message) => message_out(&message, out),
        Err(fault) => Unwrapped::refused(packet_status(fault)),
    }
}

/// Makes the buffer keep the message of a packet.
pub fn unwrap_new(
    alloc: Global,
    keys: &ClusterKeys,
    packet: &[u8],
    buffer: &mut Buffer,
) -> Unwrapped
    ensures { PacketUnwrapped keys.now packet.now
        (GivesNewMessage buffer.old buffer.new result.status result.kind)
        (LacksNew buffer.old buffer.new result.status result.kind) }
{
    match unwrap_packet(alloc, &keys.keyring, keys.clear, packet) {
        Ok(message) => keep_message(alloc, message, buffer),
        Err(fault) => Unwrapped::refused(packet_status(fault)),
    }
}

/// Writes the message in what one side of a connection sends, in a cluster with this label, to the
/// buffer.
pub fn unwrap_stream_out(
    alloc: Global,
    keys: &ClusterKeys,
    label: &[u8],
    bytes: &[u8],
    out: &mut [u8],
) -> Unwrapped
    ensures { StreamUnwrapped keys.now label.now bytes.now
        (GivesMessage out.old out.new result.status result.kind result.len)
        (Lacks out.old out.new result.status result.kind result.len) }
{
    if label.len() > MAX_LABEL_LEN {
        return Unwrapped::refused(CipherFault::TooLong.number());
    }
    match message_of_stream(alloc, keys, label, bytes) {
        Ok(message) => message_out(&message, out),
        Err(fault) => Unwrapped::refused(stream_status(fault)),
    }
}

/// Makes the buffer keep the message in what one side of a connection sends.
pub fn unwrap_stream_new(
    alloc: Global,
    keys: &ClusterKeys,
    label: &[u8],
    bytes: &[u8],
    buffer: &mut Buffer,
) -> Unwrapped
    ensures { StreamUnwrapped keys.now label.now bytes.now
        (GivesNewMessage buffer.old buffer.new result.status result.kind)
        (LacksNew buffer.old buffer.new result.status result.kind) }
{
    if label.len() > MAX_LABEL_LEN {
        return Unwrapped::refused(CipherFault::TooLong.number());
    }
    match message_of_stream(alloc, keys, label, bytes) {
        Ok(message) => keep_message(alloc, message, buffer),
        Err(fault) => Unwrapped::refused(stream_status(fault)),
    }
}

fn message_of_stream(
    alloc: Global,
    keys: &ClusterKeys,
    label: &[u8],
    bytes: &[u8],
) -> Result<Vec<u8>, StreamFault>
    requires { length label.now < 256 }
    ensures inside { IfOk result (λ inner. IsInsideReply max_stream_len keys.now.clear
        keys.now.keyring label.now bytes.now inner.items) }
    ensures refuses { IfErr result (λ fault. fault ≢ StreamFault.Memory → (inner : List ℕ)
        → ¬ IsInsideReply max_stream_len keys.now.clear keys.now.keyring label.now bytes.now inner) }
{
    unwrap_reply(
        alloc,
        &keys.keyring,
        keys.clear,
        label,
        bytes,
        MAX_STREAM_LEN,
    )
}

/// The kind of a message, or the status if it has none.
fn kind_of(message: &[u8]) -> Result<u32, u32>
    ensures { result ≡ kind_in message.now }
{
    match message.split_first() {
        None => Err(ENDED),
        Some((first, _)) => match *first {
            0..=8 | 11 | 13 => Ok(u32::from(*first)),
            _ => Err(WRONG_TYPE),
        },
    }
}

/// Writes a message to the buffer, and tells its kind.
fn message_out(message: &[u8], out: &mut [u8]) -> Unwrapped
    ensures { GivesMessage out.old out.new result.status result.kind result.len message.now }
{
    match kind_of(message) {
        Ok(kind) => {
            let written = copy_out(message, out);
            Unwrapped {
                status: written.status,
                kind,
                len: written.len,
            }
        }
        Err(status) => Unwrapped::refused(status),
    }
}

/// Makes the buffer keep a message, and tells its kind.
fn keep_message(alloc: Global, message: Vec<u8>, buffer: &mut Buffer) -> Unwrapped
    ensures { GivesNewMessage buffer.old buffer.new result.status result.kind message.items }
{
    let kind = match kind_of(&message) {
        Ok(kind) => kind,
        Err(status) => return Unwrapped::refused(status),
    };
    let len = message.len();
    match Kept::boxed(alloc, message) {
        Ok(kept) => {
            buffer.fill(alloc, kept);
            Unwrapped {
                status: DONE,
                kind,
                len,
            }
        }
        Err(_) => Unwrapped {
            status: MEMORY,
            kind,
            len: 0,
        },
    }
}
