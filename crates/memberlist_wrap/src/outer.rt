//! The outer wrapper of bytes.

ghost use Rattle.std.specs.Prelude.{◌≡◌, ◌↔◌, ◌⊎◌, ℕ, IsTrue, IfOk, IfErr, IsErrOf};
ghost use Rattle.memberlist_wrap.specs.Reasons.{ChecksumFails, FailsHere};
ghost use Rattle.memberlist_wrap.specs.Peeling.{Shows};
ghost use Rattle.memberlist_wrap.specs.Wrapping.{CheckedText};

use crate::{WrapFault, crc32};
use byteorder::{BigEndian, ByteOrder};
use memberlist_cipher::{LABEL, split_label};

/// The first byte of a compression, as in memberlist's net.go.
const COMPRESSION: u8 = 9;

/// The first byte of a checksum.
const CHECKSUM: u8 = 12;

/// What the outer wrapper of bytes contains.
#[derive(Clone, Copy)]
pub(crate) enum Outer<'a> {
    /// There is no wrapper.
    Nothing,
    /// What a checksum or a label contains.
    Layer(&'a [u8]),
    /// The map of a compression.
    Compression(&'a [u8]),
}

/// What the outer wrapper of the bytes contains, if `depth` allows removing it.
pub(crate) fn take_off(bytes: &[u8], depth: u8) -> Result<Outer, WrapFault>
    ensures ok { IfOk result (Shows depth bytes.now) }
    ensures err { IfErr result (λ fault. (limit : ℕ) → FailsHere depth limit fault bytes.now) }
    ensures no_memory { ¬ IsErrOf result WrapFault.Memory }
{
    let Some((first, rest)) = bytes.split_first() else {
        return Ok(Outer::Nothing);
    };
    let kind = *first;
    if !is_kind(kind) {
        return Ok(Outer::Nothing);
    }
    if depth == 0 {
        return Err(WrapFault::TooDeep);
    }
    match kind {
        COMPRESSION => Ok(Outer::Compression(rest)),
        CHECKSUM => Ok(Outer::Layer(checked(rest)?)),
        _ => {
            let (_, inner) = split_label(bytes)?;
            Ok(Outer::Layer(inner))
        }
    }
}

/// Whether a wrapper starts with this byte.
fn is_kind(first: u8) -> bool
    ensures { IsTrue result ↔ ((first ≡ 9) ⊎ (first ≡ 12) ⊎ (first ≡ 244)) }
{
    first == COMPRESSION || first == CHECKSUM || first == LABEL
}

/// The bytes after a checksum, if the checksum is theirs.
fn checked(bytes: &[u8]) -> Result<&[u8], WrapFault>
    ensures ok { IfOk result (λ inner. CheckedText bytes.now inner.now) }
    ensures err { IfErr result (λ fault. ChecksumFails fault bytes.now) }
    ensures no_memory { ¬ IsErrOf result WrapFault.Memory }
{
    if bytes.len() < 4 {
        return Err(WrapFault::Ended);
    }
    let (front, rest) = bytes.split_at(4);
    if BigEndian::read_u32(front) != crc32(rest) {
        return Err(WrapFault::BadChecksum);
    }
    Ok(rest)
}
