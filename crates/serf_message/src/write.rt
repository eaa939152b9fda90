//! Values at the end of a vector, as go-msgpack writes them in its old form. A failed call may leave
//! a part of a list.

ghost use Rattle.std.specs.Prelude.{◌≡◌, ◌<◌, ◌≤◌, ◌^◌, ◌++◌, ◌∷◌, length, map, OnOk};
ghost use Rattle.std.specs.List.{AllByRecursion, flat_map};
ghost use Rattle.swim_pack.specs.Spelling.{raw_text};
ghost use Rattle.serf_message.specs.KeyMessages.{texts_text};
ghost use Rattle.serf_message.specs.Writing.{bytes_text, negative_text, signed_text, list_len_text, map_len_text};
ghost use Rattle.serf_message.specs.Writing.{float_text, list_text, IsShortList};

use std::alloc::AllocError;
use swim_pack::{write_raw, write_uint};

/// Appends bytes, or nil for none.
pub(crate) fn write_bytes(out: &mut Vec<u8>, bytes: &[u8]) -> Result<(), AllocError>
    requires { length bytes.now < 2 ^ 16 }
    ensures { OnOk result (out.new.items ≡ out.old.items ++ bytes_text bytes.now) }
{
    if bytes.is_empty() {
        return out.extend_from_slice(&[0xc0]);
    }
    write_raw(out, bytes)
}

/// Appends a number with a sign in the fewest bytes.
pub(crate) fn write_signed(out: &mut Vec<u8>, number: i64) -> Result<(), AllocError>
    ensures { OnOk result (out.new.items ≡ out.old.items ++ signed_text number) }
{
    if number < 0 {
        write_negative(out, (-1 - number) as u64)
    } else {
        write_uint(out, number as u64)
    }
}

/// Appends the number `-1 - below` in the fewest bytes.
#[tactic(auto, unfolding(crate::specs::Writing::negative_text))]
fn write_negative(out: &mut Vec<u8>, below: u64) -> Result<(), AllocError>
    requires { below < 2 ^ 63 }
    ensures { OnOk result (out.new.items ≡ out.old.items ++ negative_text below) }
{
    match below {
        0..0x20 => out.extend_from_slice(&[0xff - below as u8]),
        0x20..0x80 => out.extend_from_slice(&[0xd0, 0xff - below as u8]),
        0x80..0x8000 => write_behind(out, 0xd1, &(0xffff - below as u16).to_be_bytes()),
        0x8000..0x8000_0000 => write_behind(out, 0xd2, &(0xffff_ffff - below as u32).to_be_bytes()),
        _ => write_behind(out, 0xd3, &(0xffff_ffff_ffff_ffff - below).to_be_bytes()),
    }
}

/// Appends a number of 64 bits with a floating point, of these bits.
pub(crate) fn write_float(out: &mut Vec<u8>, bits: u64) -> Result<(), AllocError>
    ensures { OnOk result (out.new.items ≡ out.old.items ++ float_text bits) }
{
    write_behind(out, 0xcb, &bits.to_be_bytes())
}

/// Appends a first byte, and bytes behind it.
fn write_behind(out: &mut Vec<u8>, first: u8, bytes: &[u8]) -> Result<(), AllocError>
    ensures { OnOk result (out.new.items ≡ out.old.items ++ first ∷ bytes.now) }
{
    out.extend_from_slice(&[first])?;
    out.extend_from_slice(bytes)
}

/// Appends the number of values of a list.
pub(crate) fn write_list_len(out: &mut Vec<u8>, count: usize) -> Result<(), AllocError>
    requires { count < 2 ^ 16 }
    ensures { OnOk result (out.new.items ≡ out.old.items ++ list_len_text count) }
{
    if count < 16 {
        return out.extend_from_slice(&[0x90 + count as u8]);
    }
    write_behind(out, 0xdc, &(count as u16).to_be_bytes())
}

/// Appends the number of pairs of a map.
pub(crate) fn write_map_len(out: &mut Vec<u8>, count: usize) -> Result<(), AllocError>
    requires { count < 2 ^ 16 }
    ensures { OnOk result (out.new.items ≡ out.old.items ++ map_len_text count) }
{
    if count < 16 {
        return out.extend_from_slice(&[0x80 + count as u8]);
    }
    write_behind(out, 0xde, &(count as u16).to_be_bytes())
}

/// Appends a list of bytes, or nil for none.
pub(crate) fn write_list(out: &mut Vec<u8>, list: &[Vec<u8>]) -> Result<(), AllocError>
    requires { IsShortList (map (λ v. v.items) list.now) }
    ensures { OnOk result
        (out.new.items ≡ out.old.items ++ list_text (map (λ v. v.items) list.now)) }
{
    if list.is_empty() {
        return out.extend_from_slice(&[0xc0]);
    }
    write_list_len(out, list.len())?;
    write_each_bytes(out, list)
}

/// Appends each of these values of bytes.
fn write_each_bytes(out: &mut Vec<u8>, list: &[Vec<u8>]) -> Result<(), AllocError>
    requires { AllByRecursion (λ x. length x < 2 ^ 16) (map (λ v. v.items) list.now) }
    ensures { OnOk result
        (out.new.items ≡ out.old.items ++ flat_map bytes_text (map (λ v. v.items) list.now)) }
{
    for value in list {
        write_bytes(out, value)?;
    }
    Ok(())
}

/// Appends a list of texts, or nil for none.
pub(crate) fn write_texts(out: &mut Vec<u8>, list: &[Vec<u8>]) -> Result<(), AllocError>
    requires { IsShortList (map (λ v. v.items) list.now) }
    ensures { OnOk result
        (out.new.items ≡ out.old.items ++ texts_text (map (λ v. v.items) list.now)) }
{
    if list.is_empty() {
        return out.extend_from_slice(&[0xc0]);
    }
    write_list_len(out, list.len())?;
    write_each_text(out, list)
}

/// Appends each of these texts.
pub(crate) fn write_each_text(out: &mut Vec<u8>, list: &[Vec<u8>]) -> Result<(), AllocError>
    requires { AllByRecursion (λ x. length x < 2 ^ 16) (map (λ v. v.items) list.now) }
    ensures { OnOk result
        (out.new.items ≡ out.old.items ++ flat_map raw_text (map (λ v. v.items) list.now)) }
{
    for value in list {
        write_raw(out, value)?;
    }
    Ok(())
}
