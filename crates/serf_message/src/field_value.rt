//! The value of a field.

ghost use Rattle.std.specs.Prelude.{◌≡◌, Ok, Err, MatchResult};
ghost use Rattle.std.specs.Option.{option_map};
ghost use Rattle.serf_message.specs.Reading.{number_value_at};
ghost use Rattle.serf_message.specs.Slots.{huge_or_zero, long_or_zero, short_or_zero, tiny_or_zero, signed_or_zero};
ghost use Rattle.serf_message.specs.Slots.{raw_or_empty, flag_or_false};
ghost use Rattle.serf_message.specs.Values.{slot_of};

use crate::fault::SerfFault;
use crate::heads::{next_float, next_number};
use crate::layout::Kind;
use crate::signed::next_signed;
use std::alloc::Global;

/// The value of a field.
#[derive(Drop)]
pub(crate) enum Value {
    Huge(u64),
    Long(u32),
    Short(u16),
    Tiny(u8),
    Signed(i64),
    Raw(Vec<u8>),
    Flag(bool),
}

/// A number of this kind, and the bytes after it. Values of other kinds are no numbers.
#[tactic(auto, unfolding(crate::specs::Reading::number_value_at))]
pub(crate) fn next_number_value(bytes: &[u8], kind: Kind) -> Result<(Value, &[u8]), SerfFault>
    ensures { MatchResult result
        (λ read. number_value_at kind bytes.now ≡ Ok (slot_of read.0, read.1.now))
        (λ fault. number_value_at kind bytes.now ≡ Err fault) }
{
    match kind {
        Kind::Uint64 => {
            let (number, rest) = next_number(bytes, 0xffff_ffff_ffff_ffff)?;
            Ok((Value::Huge(number), rest))
        }
        Kind::Uint32 => {
            let (number, rest) = next_number(bytes, 0xffff_ffff)?;
            Ok((Value::Long(number as u32), rest))
        }
        Kind::Uint16 => {
            let (number, rest) = next_number(bytes, 0xffff)?;
            Ok((Value::Short(number as u16), rest))
        }
        Kind::Uint8 => {
            let (number, rest) = next_number(bytes, 0xff)?;
            Ok((Value::Tiny(number as u8), rest))
        }
        Kind::Int64 => {
            let (number, rest) = next_signed(bytes)?;
            Ok((Value::Signed(number), rest))
        }
        Kind::Float => {
            let (bits, rest) = next_float(bytes)?;
            Ok((Value::Huge(bits), rest))
        }
        Kind::Text | Kind::Bytes | Kind::Flag | Kind::Whole => Err(SerfFault::NotNumber),
    }
}

/// The number, or 0 if none was read.
pub(crate) fn huge(value: &Option<Value>) -> u64
    ensures { result ≡ huge_or_zero (option_map slot_of value.now) }
{
    match value {
        Some(Value::Huge(number)) => *number,
        _ => 0,
    }
}

/// The number, or 0 if none was read.
pub(crate) fn long(value: &Option<Value>) -> u32
    ensures { result ≡ long_or_zero (option_map slot_of value.now) }
{
    match value {
        Some(Value::Long(number)) => *number,
        _ => 0,
    }
}

/// The number, or 0 if none was read.
pub(crate) fn short(value: &Option<Value>) -> u16
    ensures { result ≡ short_or_zero (option_map slot_of value.now) }
{
    match value {
        Some(Value::Short(number)) => *number,
        _ => 0,
    }
}

/// The number, or 0 if none was read.
pub(crate) fn tiny(value: &Option<Value>) -> u8
    ensures { result ≡ tiny_or_zero (option_map slot_of value.now) }
{
    match value {
        Some(Value::Tiny(number)) => *number,
        _ => 0,
    }
}

/// The number, or 0 if none was read.
pub(crate) fn signed(value: &Option<Value>) -> i64
    ensures { result ≡ signed_or_zero (option_map slot_of value.now) }
{
    match value {
        Some(Value::Signed(number)) => *number,
        _ => 0,
    }
}

/// The text or bytes, or none if none were read.
pub(crate) fn raw(value: &Option<Value>) -> &[u8]
    ensures { result.now ≡ raw_or_empty (option_map slot_of value.now) }
{
    match value {
        Some(Value::Raw(bytes)) => bytes,
        _ => &[],
    }
}

/// The text or bytes, or none if none were read.
pub(crate) fn into_raw(alloc: Global, value: Option<Value>) -> Vec<u8>
    ensures { result.items ≡ raw_or_empty (option_map slot_of value) }
{
    match value {
        Some(Value::Raw(bytes)) => bytes,
        _ => Vec::new(alloc),
    }
}

/// The truth value, or false if none was read.
pub(crate) fn flag(value: &Option<Value>) -> bool
    ensures { result ≡ flag_or_false (option_map slot_of value.now) }
{
    match value {
        Some(Value::Flag(flag)) => *flag,
        _ => false,
    }
}
