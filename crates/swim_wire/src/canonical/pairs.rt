//! Maps appended to a vector: a count, and then each key and its value.

ghost use Rattle.std.specs.Prelude.{◌≡◌, ◌<◌, ◌++◌, ◌∷◌, length, OnOk};
ghost use Rattle.std.specs.List.{AllByRecursion};
ghost use Rattle.swim_wire.specs.Pairs.{map_text, pair_text, pair_of, pairs_of, IsShort};

use crate::layout::Key;
use std::alloc::AllocError;
use swim_pack::{write_map_len, write_raw, write_uint};

/// A value to write.
#[derive(Clone, Copy)]
pub(crate) enum Written<'a> {
    Number(u64),
    Raw(&'a [u8]),
}

/// Appends a type byte, then a map of these pairs. A failed call may leave a part of it.
pub(crate) fn write_message(
    out: &mut Vec<u8>,
    first: u8,
    pairs: &[(Key, Written)],
) -> Result<(), AllocError>
    requires few { length pairs.now < 16 }
    requires short { AllByRecursion (λ pair. IsShort pair.1) pairs.now }
    ensures { OnOk result
        (out.new.items ≡ out.old.items ++ first ∷ map_text (pairs_of pairs.now)) }
{
    out.extend_from_slice(&[first])?;
    append_map(out, pairs)
}

/// Appends a map of these pairs. A failed call may leave a part of it.
#[inline(always)]
fn append_map(out: &mut Vec<u8>, pairs: &[(Key, Written)]) -> Result<(), AllocError>
    requires few { length pairs.now < 16 }
    requires short { AllByRecursion (λ pair. IsShort pair.1) pairs.now }
    ensures { OnOk result (out.new.items ≡ out.old.items ++ map_text (pairs_of pairs.now)) }
{
    write_map_len(out, pairs.len() as u32)?;
    for (key, value) in pairs {
        append_pair(out, *key, *value)?;
    }
    Ok(())
}

/// Appends a key and its value. A failed call may leave the key.
#[inline(always)]
fn append_pair(out: &mut Vec<u8>, key: Key, value: Written) -> Result<(), AllocError>
    requires { IsShort value }
    ensures { OnOk result
        (out.new.items ≡ out.old.items ++ pair_text (pair_of (key, value.entry))) }
{
    write_raw(out, key.text())?;
    match value {
        Written::Number(number) => write_uint(out, number),
        Written::Raw(bytes) => write_raw(out, bytes),
    }
}
