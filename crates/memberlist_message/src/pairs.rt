//! Maps as memberlist writes them: a count, and then each key and its value.

ghost use Rattle.std.specs.Prelude.{◌≡◌, ◌<◌, ◌++◌, ◌∷◌, length, count_by, OnOk};
ghost use Rattle.std.specs.List.{AllByRecursion, flat_map};
ghost use Rattle.memberlist_message.specs.Writing.{is_optional, is_zero, is_written, entry_text, entries_text};
ghost use Rattle.memberlist_message.specs.Writing.{entry_of, entries_of, spelled, IsShort};

use crate::layout::Key;
use std::alloc::AllocError;
use swim_pack::{write_bool, write_map_len, write_raw, write_uint};

/// A value to write.
#[derive(Clone, Copy)]
pub(crate) enum Written<'a> {
    Number(u64),
    Raw(&'a [u8]),
    Flag(bool),
}

/// Appends a type byte, then a map of these fields but for those that memberlist leaves out. A
/// failed call may leave a part of it.
pub(crate) fn write_message(
    out: &mut Vec<u8>,
    first: u8,
    pairs: &[(Key, Written)],
) -> Result<(), AllocError>
    requires few { length pairs.now < 16 }
    requires short { AllByRecursion (λ pair. IsShort pair.1) pairs.now }
    ensures { OnOk result
        (out.new.items ≡ out.old.items ++ first ∷ entries_text (entries_of pairs.now)) }
{
    out.extend_from_slice(&[first])?;
    write_map_len(out, count_written(pairs))?;
    append_pairs(out, pairs)
}

/// How many of the fields are written.
fn count_written(pairs: &[(Key, Written)]) -> u32
    requires { length pairs.now < 16 }
    ensures exact { result ≡ count_by is_written (entries_of pairs.now) }
    ensures few { result < 16 }
{
    pairs
        .iter()
        .filter(|(key, value)| is_written(*key, *value))
        .count() as u32
}

/// Appends each field that is written. A failed call may leave some.
fn append_pairs(out: &mut Vec<u8>, pairs: &[(Key, Written)]) -> Result<(), AllocError>
    requires { AllByRecursion (λ pair. IsShort pair.1) pairs.now }
    ensures { OnOk result
        (out.new.items ≡ out.old.items ++ flat_map entry_text (entries_of pairs.now)) }
{
    for (key, value) in pairs {
        append_pair(out, *key, *value)?;
    }
    Ok(())
}

/// Whether a field is written: one with `omitempty` in net.go is not if it is zero.
fn is_written(key: Key, value: Written) -> bool
    ensures { result ≡ is_written (entry_of (key, value.entry)) }
{
    !(is_optional(key) && is_zero(value))
}

/// Whether the field has `omitempty` in net.go.
fn is_optional(key: Key) -> bool
    ensures { result ≡ is_optional key }
{
    match key {
        Key::SourceAddr | Key::SourceNode | Key::SourcePort => true,
        _ => false,
    }
}

fn is_zero(value: Written) -> bool
    ensures { result ≡ is_zero (spelled value.entry) }
{
    match value {
        Written::Number(number) => number == 0,
        Written::Raw(bytes) => bytes.is_empty(),
        Written::Flag(flag) => !flag,
    }
}

/// Appends a key and its value, if the field is written. A failed call may leave the key.
fn append_pair(out: &mut Vec<u8>, key: Key, value: Written) -> Result<(), AllocError>
    requires { IsShort value }
    ensures { OnOk result
        (out.new.items ≡ out.old.items ++ entry_text (entry_of (key, value.entry))) }
{
    if !is_written(key, value) {
        return Ok(());
    }
    write_raw(out, key.text())?;
    match value {
        Written::Number(number) => write_uint(out, number),
        Written::Raw(bytes) => write_raw(out, bytes),
        Written::Flag(flag) => write_bool(out, flag),
    }
}
