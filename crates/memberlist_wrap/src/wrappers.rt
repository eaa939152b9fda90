//! Removes nested wrappers.

ghost use Rattle.std.specs.Prelude.{◌≡◌, ◌≢◌, ◌≤◌, ℕ, List, length, drop, IfSome, IfOk, IfErr, IsErrOf};
ghost use Rattle.memberlist_wrap.specs.Reasons.{ReasonForIn, AsksMemory};
ghost use Rattle.memberlist_wrap.specs.Peeling.{Holds, PackedUnwraps, PackedFails};
ghost use Rattle.memberlist_wrap.specs.Wrapping.{Wrapper, Wraps, Unwraps, UnwrapsIn};

use crate::outer::{Outer, take_off};
use crate::{WrapFault, lzw_decode};
use std::alloc::Global;
use swim_wire::decode_compression;

/// The most nested wrappers that are removed.
pub const MAX_DEPTH: u8 = 4;

/// What checksums and labels contain.
#[derive(Clone, Copy)]
enum Core<'a> {
    /// A message.
    Message(&'a [u8]),
    /// A compression: its map, and how many wrappers may be in it.
    Compression(&'a [u8], u8),
}

/// The message in the wrapped bytes: checksums, labels and compressions are removed, in any order.
/// Bytes that do not start with a wrapper are the message. Neither the message nor anything
/// compressed has more than `limit` bytes. Each layer's memory is freed before the next one's is
/// allocated.
///
/// Source: memberlist's net.go, util.go and label.go; the limits, and that nothing may follow, are
/// this project's rules.
///
/// # Errors
///
/// The first of these that holds, from the outer wrapper on: `TooDeep` if there are more than 4
/// wrappers, `Ended` if one is cut short, `BadChecksum` if a checksum does not match, `BadLabel` if
/// a label is empty, `BadMap`, `BadAlgo` and `Trailing` if the map of a compression is invalid,
/// names an unknown compression or is followed by bytes, and those of `lzw_decode`. `TooLarge` if
/// what is compressed, or the message, has more than `limit` bytes. `Memory` if out of memory:
/// memory is allocated once the wrappers up to a compression, or to the message, are removed.
pub fn unwrap(alloc: Global, bytes: &[u8], limit: usize) -> Result<Vec<u8>, WrapFault>
    ensures unwraps { IfOk result (λ message. Unwraps limit bytes.now message.items) }

    // If they are refused, and not because memory ran out, they wrap nothing within the limits, and
    // the refusal says why.
    ensures limits { IfErr result (λ fault. fault ≢ WrapFault.Memory
        → (message : List ℕ) → ¬ Unwraps limit bytes.now message) }
    ensures reason { IfErr result (λ fault. fault ≢ WrapFault.Memory
        → ReasonForIn 4 limit fault bytes.now) }
    // If they are refused, and not because of memory or the limits, they wrap nothing at all.
    ensures refuses { IfErr result (λ fault. fault ≢ WrapFault.Memory → fault ≢ WrapFault.TooLarge
        → fault ≢ WrapFault.TooDeep
        → (any : ℕ) (ws : List Wrapper) (message : List ℕ) → ¬ Wraps any ws bytes.now message) }
    // Memory is allocated once the wrappers up to a compression, or to the message, are removed.
    ensures memory { IsErrOf result WrapFault.Memory → AsksMemory 4 limit bytes.now }
{
    unwrap_slice(alloc, bytes, limit)
}

/// The message in the wrapped bytes, as a part of them: checksums and labels are removed. `None` if
/// a compression is among the wrappers. It takes no memory.
///
/// # Errors
///
/// The first of these that holds, from the outer wrapper on: those of [`unwrap`] up to the first
/// compression, and `TooLarge` if the message has more than `limit` bytes.
pub fn unwrap_in_place(bytes: &[u8], limit: usize) -> Result<Option<&[u8]>, WrapFault>
    ensures unwraps { IfOk result (λ found. IfSome found (λ message.
        Unwraps limit bytes.now message.now)) }
    ensures reason { IfErr result (λ fault. ReasonForIn 4 limit fault bytes.now) }
    ensures no_memory { ¬ IsErrOf result WrapFault.Memory }
{
    match peel(bytes, MAX_DEPTH)? {
        Core::Message(message) if message.len() <= limit => Ok(Some(message)),
        Core::Message(_) => Err(WrapFault::TooLarge),
        Core::Compression(_, _) => Ok(None),
    }
}

fn unwrap_slice(alloc: Global, bytes: &[u8], limit: usize) -> Result<Vec<u8>, WrapFault>
    ensures ok { IfOk result (λ message. UnwrapsIn 4 limit bytes.now message.items) }
    ensures err { IfErr result (λ fault. fault ≢ WrapFault.Memory
        → ReasonForIn 4 limit fault bytes.now) }
    ensures memory { IsErrOf result WrapFault.Memory → AsksMemory 4 limit bytes.now }
{
    match peel(bytes, MAX_DEPTH)? {
        Core::Message(message) => if message.len() > limit {
            Err(WrapFault::TooLarge)
        } else {
            Ok(message.to_vec(alloc)?)
        },
        Core::Compression(map, depth) => {
            let packed = decode_compression(alloc, map)?;
            unwrap_packed(alloc, packed, limit, depth)
        }
    }
}

/// The message in compressed bytes. These are freed before more is read, and so is what they
/// decompress to, if it contains another compression; if not, it becomes the message in place.
fn unwrap_packed(
    alloc: Global,
    packed: Vec<u8>,
    limit: usize,
    depth: u8,
) -> Result<Vec<u8>, WrapFault>
    ensures ok { IfOk result (λ message. PackedUnwraps depth limit packed.items message.items) }
    ensures err { IfErr result (λ fault. fault ≢ WrapFault.Memory
        → PackedFails depth limit fault packed.items) }
{
    let layer = lzw_decode(alloc, &packed, limit)?;
    drop(packed);
    match peel(&layer, depth)? {
        Core::Message(message) => {
            let start = layer.len() - message.len();
            Ok(without_front(layer, start))
        }
        Core::Compression(map, left) => {
            let inner = decode_compression(alloc, map)?;
            drop(layer);
            unwrap_packed(alloc, inner, limit, left)
        }
    }
}

/// What checksums and labels contain, at most `depth` of them.
fn peel(bytes: &[u8], depth: u8) -> Result<Core, WrapFault>
    ensures ok { IfOk result (Holds depth bytes.now) }
    ensures err { IfErr result (λ fault. (limit : ℕ) → ReasonForIn depth limit fault bytes.now) }
    ensures no_memory { ¬ IsErrOf result WrapFault.Memory }
{
    match take_off(bytes, depth)? {
        Outer::Nothing => Ok(Core::Message(bytes)),
        Outer::Compression(map) => Ok(Core::Compression(map, depth - 1)),
        Outer::Layer(inner) => peel(inner, depth - 1),
    }
}

/// The bytes from this place on, in the same memory.
fn without_front(mut bytes: Vec<u8>, start: usize) -> Vec<u8>
    requires { start ≤ length bytes.items }
    ensures { result.items ≡ drop start bytes.items }
{
    let len = bytes.len() - start;
    bytes.rotate_left(start);
    bytes.truncate(len);
    bytes
}
