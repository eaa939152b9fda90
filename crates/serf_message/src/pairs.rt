//! Maps as Serf writes them: a count, and then each key and its value.

ghost use Rattle.std.specs.Prelude.{◌≡◌, ◌<◌, ◌++◌, length, OnOk};
ghost use Rattle.std.specs.List.{AllByRecursion, flat_map};
ghost use Rattle.serf_message.specs.Writing.{entry_text, entries_text, entry_of, entries_of, FitsTwoBytes};

use crate::layout::Key;
use crate::write::{write_bytes, write_float, write_signed};
use std::alloc::AllocError;
use swim_pack::{write_bool, write_map_len, write_raw, write_uint};

/// A value to write.
#[derive(Clone, Copy)]
pub(crate) enum Written<'a> {
    Number(u64),
    Signed(i64),
    /// The bits of a number with a floating point.
    Float(u64),
    Text(&'a [u8]),
    Bytes(&'a [u8]),
    Flag(bool),
    /// A value in its bytes.
    Whole(&'a [u8]),
}

/// Appends a map of these fields. A failed call may leave a part of it.
pub(crate) fn write_fields(out: &mut Vec<u8>, pairs: &[(Key, Written)]) -> Result<(), AllocError>
    requires few { length pairs.now < 16 }
    requires short { AllByRecursion (λ pair. FitsTwoBytes pair.1) pairs.now }
    ensures { OnOk result (out.new.items ≡ out.old.items ++ entries_text (entries_of pairs.now)) }
{
    write_map_len(out, pairs.len() as u32)?;
    append_pairs(out, pairs)
}

/// Appends each field. A failed call may leave some.
fn append_pairs(out: &mut Vec<u8>, pairs: &[(Key, Written)]) -> Result<(), AllocError>
    requires { AllByRecursion (λ pair. FitsTwoBytes pair.1) pairs.now }
    ensures { OnOk result
        (out.new.items ≡ out.old.items ++ flat_map entry_text (entries_of pairs.now)) }
{
    for (key, value) in pairs {
        append_pair(out, *key, *value)?;
    }
    Ok(())
}

/// Appends a key and its value. A failed call may leave the key.
fn append_pair(out: &mut Vec<u8>, key: Key, value: Written) -> Result<(), AllocError>
    requires { FitsTwoBytes value }
    ensures { OnOk result
        (out.new.items ≡ out.old.items ++ entry_text (entry_of (key, value.entry))) }
{
    write_raw(out, key.text())?;
    match value {
        Written::Number(number) => write_uint(out, number),
        Written::Signed(number) => write_signed(out, number),
        Written::Float(bits) => write_float(out, bits),
        Written::Text(text) => write_raw(out, text),
        Written::Bytes(bytes) => write_bytes(out, bytes),
        Written::Flag(flag) => write_bool(out, flag),
        Written::Whole(bytes) => out.extend_from_slice(bytes),
    }
}
