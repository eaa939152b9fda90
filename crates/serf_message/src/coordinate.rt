//! Network coordinates, which the payload of an ack carries.

ghost use Rattle.std.specs.Prelude.{◌≡◌, ◌<◌, ◌^◌, ◌++◌, Ok, length, MatchResult, IfOk, OnOk};
ghost use Rattle.std.specs.List.{flat_map};
ghost use Rattle.serf_message.specs.Coordinates.{coordinate_of, coordinate_after, coordinate_from, coordinate_value};
ghost use Rattle.serf_message.specs.Coordinates.{coordinate_bytes, floats_text};
ghost use Rattle.serf_message.specs.Reading.{IsFault, float_at};
ghost use Rattle.serf_message.specs.Many.{many_at, listed};
ghost use Rattle.serf_message.specs.Values.{slots_of};
ghost use Rattle.serf_message.specs.Writing.{float_text};

use crate::fault::SerfFault;
use crate::field_value::huge;
use crate::fields::{Values, raw_at, read_all_fields};
use crate::heads::next_float;
use crate::layout::{COORDINATE, Key};
use crate::many::{append, next_list_len};
use crate::pairs::{Written, write_fields};
use crate::write::{write_float, write_list_len};
use std::alloc::{AllocError, Global};

/// The first byte of the payload of an ack (Serf's `PingVersion`).
const VERSION: u8 = 1;

/// Serf's `coordinate.Coordinate`. Each number is the bits of one with a floating point, of 64 bits
/// as IEEE 754 has them; `f64::from_bits` gives it.
#[derive(Drop, Debug)]
pub struct Coordinate {
    /// The place, in seconds, as Serf has it in 8 numbers.
    pub vec: Vec<u64>,
    /// How little the place is trusted.
    pub error: u64,
    /// What is added to a distance, in seconds.
    pub adjustment: u64,
    /// What the way to the place costs, in seconds.
    pub height: u64,
}

/// The coordinate in the payload of an ack, as Serf decodes it (ping_delegate.go,
/// `NotifyPingComplete`): byte 1, and one value with the fields.
///
/// # Errors
///
/// The first of these that holds: `Ended` if there are no bytes; `WrongVersion` if the first is not
/// 1; the faults of the value, as its bytes are read: `NotMap` if it is no map, no array and not
/// nil, `NotRaw` if a key is no text, `NotFloat` if a field is no number with a floating point,
/// `NotValue` if the value of an unknown key or the vector is not MessagePack, and `Ended` if the
/// bytes end before the value does; `Trailing` if there are bytes behind it; `NotList` and `NotFloat`
/// if the vector is no list of such numbers. `Memory` comes if an allocation failed.
pub fn decode_coordinate(alloc: Global, payload: &[u8]) -> Result<Coordinate, SerfFault>
    ensures { MatchResult result (λ c. coordinate_of payload.now ≡ Ok (coordinate_value c))
        (IsFault (coordinate_of payload.now)) }
{
    let Some((first, body)) = payload.split_first() else {
        return Err(SerfFault::Ended);
    };
    match *first {
        VERSION => coordinate_after(alloc, body),
        found => Err(SerfFault::WrongVersion { found }),
    }
}

/// The coordinate in the bytes behind the version.
#[tactic(auto, unfolding(crate::specs::Coordinates::coordinate_after))]
fn coordinate_after(alloc: Global, body: &[u8]) -> Result<Coordinate, SerfFault>
    ensures { MatchResult result (λ c. coordinate_after body.now ≡ Ok (coordinate_value c))
        (IsFault (coordinate_after body.now)) }
{
    let values = read_all_fields(alloc, body, &COORDINATE)?;
    coordinate_from(alloc, values)
}

/// The coordinate of these fields.
#[tactic(auto, unfolding(crate::specs::Coordinates::coordinate_from))]
fn coordinate_from(alloc: Global, values: Values) -> Result<Coordinate, SerfFault>
    ensures { MatchResult result (λ c. coordinate_from (slots_of values) ≡ Ok (coordinate_value c))
        (IsFault (coordinate_from (slots_of values))) }
{
    let vec = list_of_floats(alloc, raw_at(&values, 0))?;
    let [_, error, adjustment, height, ..] = values;
    Ok(Coordinate {
        vec,
        error: huge(&error),
        adjustment: huge(&adjustment),
        height: huge(&height),
    })
}

/// The list of numbers with a floating point that is this value, or an empty one if there are no
/// bytes.
fn list_of_floats(alloc: Global, whole: &[u8]) -> Result<Vec<u64>, SerfFault>
    ensures { MatchResult result (λ list. listed float_at whole.now ≡ Ok list.items)
        (IsFault (listed float_at whole.now)) }
{
    if whole.is_empty() {
        return Ok(Vec::new(alloc));
    }
    let (count, rest) = next_list_len(whole)?;
    let (list, _) = many_floats(alloc, rest, count)?;
    Ok(list)
}

/// This many numbers with a floating point.
fn many_floats(alloc: Global, bytes: &[u8], count: u32) -> Result<(Vec<u64>, &[u8]), SerfFault>
    ensures { MatchResult result
        (λ read. many_at float_at count bytes.now ≡ Ok (read.0.items, read.1.now))
        (IsFault (many_at float_at count bytes.now)) }
{
    let mut list = Vec::new(alloc);
    let mut rest = bytes;
    for _ in 0..count {
        let (value, after) = next_float(rest)?;
        append(&mut list, value)?;
        rest = after;
    }
    Ok((list, rest))
}

/// The payload of an ack with this coordinate, whose vector has at most 65,535 numbers.
///
/// # Errors
///
/// `AllocError` if memory ran out.
pub fn encode_coordinate(alloc: Global, coordinate: &Coordinate) -> Result<Vec<u8>, AllocError>
    requires { length coordinate.now.vec.items < 2 ^ 16 }
    ensures { IfOk result
        (λ bytes. bytes.items ≡ coordinate_bytes (coordinate_value coordinate.now)) }
{
    let mut vec = Vec::new(alloc);
    write_floats(&mut vec, &coordinate.vec)?;
    let mut out = Vec::new(alloc);
    out.extend_from_slice(&[VERSION])?;
    write_fields(
        &mut out,
        &[
            (Key::Adjustment, Written::Float(coordinate.adjustment)),
            (Key::Error, Written::Float(coordinate.error)),
            (Key::Height, Written::Float(coordinate.height)),
            (Key::Vec, Written::Whole(&vec)),
        ],
    )?;
    Ok(out)
}

/// Appends a list of numbers with a floating point. A failed call may leave a part of it.
fn write_floats(out: &mut Vec<u8>, list: &[u64]) -> Result<(), AllocError>
    requires { length list.now < 2 ^ 16 }
    ensures { OnOk result (out.new.items ≡ out.old.items ++ floats_text list.now) }
{
    write_list_len(out, list.len())?;
    write_each_float(out, list)
}

/// Appends each of these numbers. A failed call may leave some.
fn write_each_float(out: &mut Vec<u8>, list: &[u64]) -> Result<(), AllocError>
    ensures { OnOk result (out.new.items ≡ out.old.items ++ flat_map float_text list.now) }
{
    for bits in list {
        write_float(out, *bits)?;
    }
    Ok(())
}
