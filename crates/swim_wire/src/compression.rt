//! The map of a compressed message.

ghost use Rattle.std.specs.Prelude.{◌≡◌, ◌≢◌, ℕ, List, IfOk, IfErr};
ghost use Rattle.swim_pack.specs.Composing.{ReadsAs};
ghost use Rattle.swim_wire.specs.Compression.{CompressionText, ShowsUnlessMemory, compression_at, whole_compression};
ghost use Rattle.swim_wire.specs.Reading.{wire_cause, raw_in};
ghost use Rattle.swim_wire.specs.Slots.{slots_of};

use crate::WireFault;
use crate::layout::{Field, Key, Limit};
use crate::map::{Value, Values, read_map};
use std::alloc::Global;
use swim_pack::{Inlet, SliceInlet};

/// The compressed bytes in the map of a compressed message (memberlist's `compress`): `Algo`, which
/// is 0 for LZW, and `Buf`, the bytes. An absent `Algo` is 0 and an absent `Buf` is empty. In
/// total it takes less memory than the map has bytes.
///
/// # Errors
///
/// The first of these that holds: the faults of the map, as its count, its keys and values are
/// read, with `OutOfRange` for an `Algo` above 0 and `TooLong` for a `Buf` longer than all the
/// bytes; `Trailing` if bytes follow. `Memory` comes if the allocation for `Buf` failed.
pub fn decode_compression(alloc: Global, bytes: &[u8]) -> Result<Vec<u8>, WireFault>
    // The bytes are the map of these compressed bytes.
    ensures reads { IfOk result (λ packed. CompressionText bytes.now packed.items) }

    // If refused for a reason other than memory, the bytes are not such a map.
    ensures refuses { IfErr result (λ fault. fault ≢ WireFault.Memory
        → (packed : List ℕ) → ¬ CompressionText bytes.now packed) }
    // Which error is returned.
    ensures exact { ShowsUnlessMemory (λ packed. packed.items)
        (whole_compression bytes.now) result }
{
    decode_whole_compression(alloc, bytes)
}

fn decode_whole_compression(alloc: Global, bytes: &[u8]) -> Result<Vec<u8>, WireFault>
    ensures { ShowsUnlessMemory (λ packed. packed.items) (whole_compression bytes.now) result }
{
    let mut inlet = SliceInlet::new(bytes);
    let packed = read_compression(alloc, &mut inlet, bytes.len())?;
    if inlet.rest().is_empty() {
        Ok(packed)
    } else {
        Err(WireFault::Trailing)
    }
}

/// Reads the map. The only number allowed for `Algo` is that of LZW.
fn read_compression<I: Inlet>(
    alloc: Global,
    inlet: &mut I,
    limit: usize,
) -> Result<Vec<u8>, WireFault>
    ensures { ReadsAs wire_cause (λ packed. packed.items) (compression_at limit)
        (I.seen inlet.old) (I.seen inlet.new) result }
{
    let layout = [
        Field {
            key: Key::Algo,
            limit: Limit::Number(0),
        },
        Field {
            key: Key::Buf,
            limit: Limit::Raw(limit),
        },
    ];
    Ok(packed_of(alloc, read_map(Some(alloc), inlet, &layout)?))
}

fn packed_of(alloc: Global, values: Values) -> Vec<u8>
    ensures { result.items ≡ raw_in (slots_of values) 1 }
{
    let [_, packed, ..] = values;
    match packed {
        Some(Value::Raw(bytes)) => bytes,
        _ => Vec::new(alloc),
    }
}
