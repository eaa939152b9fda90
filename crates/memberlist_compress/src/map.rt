//! The map of a compression.

ghost use Rattle.std.specs.Prelude.{◌≡◌, ◌++◌, ◌^◌, ◌<◌, length, OnOk};
ghost use Rattle.memberlist_compress.specs.Compressed.{map_bytes, raw_bytes};

use std::alloc::AllocError;
use swim_pack::{write_map_len, write_raw, write_uint};

/// What `Algo` is for LZW, as in memberlist's util.go.
const LZW: u64 = 0;

/// The first byte of text with 4 bytes of length.
const LONG_TEXT: u8 = 0xdb;

/// The most bytes of a map besides the compressed ones.
pub(crate) const AROUND: usize = 16;

/// Appends the map of a compression with these compressed bytes, as go-msgpack writes it in its old
/// form.
pub(crate) fn write_map(out: &mut Vec<u8>, packed: &[u8]) -> Result<(), AllocError>
    requires { length packed.now < 2 ^ 32 }
    ensures { OnOk result (out.new.items ≡ out.old.items ++ map_bytes packed.now) }
{
    write_map_len(out, 2)?;
    write_raw(out, b"Algo")?;
    write_uint(out, LZW)?;
    write_raw(out, b"Buf")?;
    write_long_raw(out, packed)
}

/// Appends bytes as text, with 1, 3 or 5 bytes before them.
fn write_long_raw(out: &mut Vec<u8>, bytes: &[u8]) -> Result<(), AllocError>
    requires { length bytes.now < 2 ^ 32 }
    ensures { OnOk result (out.new.items ≡ out.old.items ++ raw_bytes bytes.now) }
{
    if bytes.len() < 0x1_0000 {
        return write_raw(out, bytes);
    }
    out.extend_from_slice(&[LONG_TEXT])?;
    out.extend_from_slice(&(bytes.len() as u32).to_be_bytes())?;
    out.extend_from_slice(bytes)
}
