//! Compresses as Go's compress/lzw does, the lowest bit first and literals of 8 bits.

ghost use Rattle.std.specs.Prelude.{◌+◌, ◌*◌, ◌≤◌, length, IfOk};
ghost use Rattle.memberlist_wrap.specs.Lzw.{Lzw};

use crate::encoder::Encoder;
use std::alloc::{AllocError, Global};

/// Compresses the bytes. Besides the result the encoder takes 65,536 bytes of memory, for the slots
/// of its table.
///
/// Source: Go's compress/lzw, writer.go: it begins with a clear code, takes the longest word that
/// has a code, and resets the dictionary where the next code would be 4095.
///
/// # Errors
///
/// `AllocError` if memory ran out.
pub fn lzw_encode(alloc: Global, bytes: &[u8]) -> Result<Vec<u8>, AllocError>
    ensures compresses { IfOk result (λ made. Lzw made.items bytes.now) }
    ensures short { IfOk result (λ made. length made.items ≤ 2 * length bytes.now + 3) }
{
    let mut encoder = Encoder::new(alloc)?;
    encoder.write(bytes)?;
    encoder.finish()
}
