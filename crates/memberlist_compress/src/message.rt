//! Messages compressed as memberlist sends them.

ghost use Rattle.std.specs.Prelude.{◌≡◌, ℕ, List, [], ◌∷◌, ◌+◌, ◌*◌, ◌^◌, ◌<◌, ◌≤◌, length, IfOk};
ghost use Rattle.memberlist_wrap.specs.Wrapping.{Wrapper, Wrapped};
ghost use Rattle.memberlist_wrap.specs.Wrapping.Wrapper.{compression};
ghost use Rattle.memberlist_compress.specs.Compressed.{IsCompression, IsSent};

use crate::lzw_encode;
use crate::map::{AROUND, write_map};
use std::alloc::{AllocError, Global};

/// A message that can be compressed has fewer bytes than this, so that 32 bits have the length of
/// its compression. memberlist refuses streams of more than 20 MiB.
pub const COMPRESSIBLE: usize = 0x4000_0000;

/// The first byte of a compression, as in memberlist's net.go.
const COMPRESSION: u8 = 9;

/// A compression of the message, as memberlist writes it: the byte 9, and a map with the compressed
/// bytes. So memberlist sends each stream where it compresses. The message must have fewer bytes
/// than [`COMPRESSIBLE`].
///
/// Source: memberlist's util.go, `compressPayload`, and net.go, `rawSendMsgStream`.
///
/// # Errors
///
/// `AllocError` if memory ran out.
pub fn compressed(alloc: Global, message: &[u8]) -> Result<Vec<u8>, AllocError>
    requires { length message.now < 2 ^ 30 }

    ensures compresses { IfOk result (λ made. IsCompression made.items message.now) }
    // If the message is within a limit, it is what the one wrapper contains.
    ensures wraps { IfOk result (λ made. (limit : ℕ) → length message.now ≤ limit
        → Wrapped limit (compression ∷ []) made.items message.now) }
    ensures short { IfOk result (λ made. length made.items ≤ 2 * length message.now + 20) }
{
    let packed = lzw_encode(alloc, message)?;
    let mut out = Vec::with_capacity(alloc, 1 + AROUND + packed.len())?;
    out.extend_from_slice(&[COMPRESSION])?;
    write_map(&mut out, &packed)?;
    Ok(out)
}

/// What memberlist sends as a packet for the message where it compresses: a compression of it if
/// that is shorter, and else the message. Not compressed is also a message of [`COMPRESSIBLE`]
/// bytes or more.
///
/// Source: memberlist's net.go, `rawSendMsgPacket`.
///
/// # Errors
///
/// `AllocError` if memory ran out.
pub fn compressed_if_shorter(alloc: Global, message: Vec<u8>) -> Result<Vec<u8>, AllocError>
    ensures sends { IfOk result (λ sent. IsSent message.items sent.items) }
    // If the message is within a limit, it is what at most one wrapper contains.
    ensures wraps { IfOk result (λ sent. (limit : ℕ) → length message.items ≤ limit
        → (ws : List Wrapper) × (length ws ≤ 1) × Wrapped limit ws sent.items message.items) }
    ensures short { IfOk result (λ sent. length sent.items ≤ length message.items) }
{
    if message.len() >= COMPRESSIBLE {
        return Ok(message);
    }
    let made = compressed(alloc, &message)?;
    if made.len() < message.len() {
        Ok(made)
    } else {
        Ok(message)
    }
}
