//! The fields of a message, from a map or an array.

ghost use Rattle.std.specs.Prelude.{◌≡◌, ◌<◌, ◌≤◌, ℕ, List, Ok, length, MatchResult, IfSome};
ghost use Rattle.std.specs.Option.{option_map};
ghost use Rattle.serf_message.specs.Reading.{IsFault, alone, without_rest, in_map, in_list, fields_at, fields_in};
ghost use Rattle.serf_message.specs.Reading.{fields_of, pairs_at, pair_at, elements_at, place_of, slot_at, value_at};
ghost use Rattle.serf_message.specs.Slots.{no_slots, raw_in};
ghost use Rattle.serf_message.specs.Values.{slot_of, slots_of};
ghost use Rattle.serf_message.specs.declared.fields.TheConstants.{SLOTS};

use crate::fault::SerfFault;
use crate::field_value::{Value, into_raw, next_number_value, raw};
use crate::form::{Count, Form, form_of};
use crate::heads::{next_byte, next_count, next_flag, next_text};
use crate::layout::{Field, Kind};
use crate::lists::next_field_bytes;
use crate::passing::{after_values, next_whole};
use std::alloc::Global;

/// The maximum number of fields of a message.
const SLOTS: usize = 11;

/// The values of the fields, each at the index of its field in the layout. One that was not read is
/// zero.
pub(crate) type Values = [Option<Value>; SLOTS];

/// The values of fields of which none was read.
fn no_values() -> Values
    ensures { slots_of result ≡ no_slots }
{
    [
        None, None, None, None, None, None, None, None, None, None, None,
    ]
}

/// Reads the fields of a message from bytes that hold nothing else.
pub(crate) fn read_all_fields(
    alloc: Global,
    bytes: &[u8],
    layout: &[Field],
) -> Result<Values, SerfFault>
    requires { length layout.now ≤ SLOTS }
    ensures { MatchResult result (λ values.
        alone (fields_at layout.now bytes.now) ≡ Ok (slots_of values))
        (IsFault (alone (fields_at layout.now bytes.now))) }
{
    let (values, rest) = read_fields(alloc, bytes, layout)?;
    if !rest.is_empty() {
        return Err(SerfFault::Trailing);
    }
    Ok(values)
}

/// Reads the fields of a struct from the bytes of its value. If there are none, all are zero.
#[tactic(auto, unfolding(crate::specs::Reading::fields_in))]
pub(crate) fn read_fields_in(
    alloc: Global,
    whole: &[u8],
    layout: &[Field],
) -> Result<Values, SerfFault>
    requires { length layout.now ≤ SLOTS }
    ensures { MatchResult result (λ values. fields_in layout.now whole.now ≡ Ok (slots_of values))
        (IsFault (fields_in layout.now whole.now)) }
{
    if whole.is_empty() {
        return Ok(no_values());
    }
    let (values, _) = read_fields(alloc, whole, layout)?;
    Ok(values)
}

/// Reads the fields of a message from the value at the start of the bytes: a map of them by their
/// names, an array of them in Serf's order, or nil, which leaves all zero (go-msgpack's `kStruct`).
/// Returns the bytes behind the value, too.
#[tactic(auto, unfolding(crate::specs::Reading::fields_at))]
pub(crate) fn read_fields<'a>(
    alloc: Global,
    bytes: &'a [u8],
    layout: &[Field],
) -> Result<(Values, &'a [u8]), SerfFault>
    requires { length layout.now ≤ SLOTS }
    ensures { MatchResult result (λ read.
        fields_at layout.now bytes.now ≡ Ok (slots_of read.0, read.1.now))
        (IsFault (fields_at layout.now bytes.now)) }
{
    let (first, rest) = next_byte(bytes)?;
    fields_of(alloc, rest, form_of(first), layout)
}

/// The fields of a message after the first byte of a value of this form.
#[tactic(auto, unfolding(crate::specs::Reading::fields_of))]
fn fields_of<'a>(
    alloc: Global,
    bytes: &'a [u8],
    form: Option<Form>,
    layout: &[Field],
) -> Result<(Values, &'a [u8]), SerfFault>
    requires { length layout.now ≤ SLOTS }
    ensures { MatchResult result (λ read.
        fields_of layout.now form bytes.now ≡ Ok (slots_of read.0, read.1.now))
        (IsFault (fields_of layout.now form bytes.now)) }
{
    match form {
        Some(Form::Nil) => Ok((no_values(), bytes)),
        Some(Form::Map(count)) => fields_in_map(alloc, bytes, count, layout),
        Some(Form::List(count)) => fields_in_list(alloc, bytes, count, layout),
        _ => Err(SerfFault::NotMap),
    }
}

/// The fields in a map, from its count on.
#[tactic(auto, unfolding(crate::specs::Reading::in_map))]
fn fields_in_map<'a>(
    alloc: Global,
    bytes: &'a [u8],
    count: Count,
    layout: &[Field],
) -> Result<(Values, &'a [u8]), SerfFault>
    requires { length layout.now ≤ SLOTS }
    ensures { MatchResult result (λ read.
        in_map layout.now count bytes.now ≡ Ok (slots_of read.0, read.1.now))
        (IsFault (in_map layout.now count bytes.now)) }
{
    let mut values = no_values();
    let (pairs, rest) = next_count(bytes, count)?;
    let rest = read_pairs(alloc, rest, pairs, layout, &mut values)?;
    Ok((values, rest))
}

/// The fields in an array, from its count on.
#[tactic(auto, unfolding(crate::specs::Reading::in_list))]
fn fields_in_list<'a>(
    alloc: Global,
    bytes: &'a [u8],
    count: Count,
    layout: &[Field],
) -> Result<(Values, &'a [u8]), SerfFault>
    requires { length layout.now ≤ SLOTS }
    ensures { MatchResult result (λ read.
        in_list layout.now count bytes.now ≡ Ok (slots_of read.0, read.1.now))
        (IsFault (in_list layout.now count bytes.now)) }
{
    let mut values = no_values();
    let (elements, rest) = next_count(bytes, count)?;
    let rest = read_elements(alloc, rest, elements, layout, &mut values)?;
    Ok((values, rest))
}

/// Reads this many keys and their values, and returns the bytes after them.
fn read_pairs<'a>(
    alloc: Global,
    bytes: &'a [u8],
    pairs: u32,
    layout: &[Field],
    values: &mut Values,
) -> Result<&'a [u8], SerfFault>
    requires { length layout.now ≤ SLOTS }
    ensures { MatchResult result (λ rest. pairs_at layout.now pairs (slots_of values.old) bytes.now
        ≡ Ok (slots_of values.new, rest.now))
        (IsFault (pairs_at layout.now pairs (slots_of values.old) bytes.now)) }
{
    let mut rest = bytes;
    for _ in 0..pairs {
        rest = read_pair(alloc, rest, layout, values)?;
    }
    Ok(rest)
}

/// Reads a key and its value, and returns the bytes after them.
fn read_pair<'a>(
    alloc: Global,
    bytes: &'a [u8],
    layout: &[Field],
    values: &mut Values,
) -> Result<&'a [u8], SerfFault>
    requires { length layout.now ≤ SLOTS }
    ensures { MatchResult result (λ rest. pair_at layout.now (slots_of values.old) bytes.now
        ≡ Ok (slots_of values.new, rest.now))
        (IsFault (pair_at layout.now (slots_of values.old) bytes.now)) }
{
    let (key, rest) = next_text(bytes)?;
    match place_of(layout, key) {
        Some(place) => read_slot(alloc, rest, layout[place].kind, values, place),
        None => after_values(rest, 1),
    }
}

/// Reads this many elements of an array: the fields in order, and then values that are passed over.
/// Returns the bytes after them.
fn read_elements<'a>(
    alloc: Global,
    bytes: &'a [u8],
    elements: u32,
    layout: &[Field],
    values: &mut Values,
) -> Result<&'a [u8], SerfFault>
    requires { length layout.now ≤ SLOTS }
    ensures { MatchResult result (λ rest.
        elements_at layout.now 0 elements (slots_of values.old) bytes.now
        ≡ Ok (slots_of values.new, rest.now))
        (IsFault (elements_at layout.now 0 elements (slots_of values.old) bytes.now)) }
{
    let mut rest = bytes;
    let mut left = elements;
    for (place, field) in layout.iter().enumerate() {
        if left == 0 {
            return Ok(rest);
        }
        rest = read_slot(alloc, rest, field.kind, values, place)?;
        left -= 1;
    }
    after_values(rest, left)
}

/// The index of a key in the layout.
fn place_of(layout: &[Field], key: &[u8]) -> Option<usize>
    ensures place { result ≡ place_of layout.now key.now }
    ensures within { IfSome result (λ place. place < length layout.now) }
{
    layout.iter().position(|field| field.key.text() == key)
}

/// Reads the value of the field at this index, and returns the bytes after it.
#[tactic(auto, unfolding(crate::specs::Reading::slot_at))]
fn read_slot<'a>(
    alloc: Global,
    bytes: &'a [u8],
    kind: Kind,
    values: &mut Values,
    place: usize,
) -> Result<&'a [u8], SerfFault>
    requires { place < SLOTS }
    ensures { MatchResult result (λ rest. slot_at kind (slots_of values.old) place bytes.now
        ≡ Ok (slots_of values.new, rest.now))
        (IsFault (slot_at kind (slots_of values.old) place bytes.now)) }
{
    let old = values[place].take();
    let (value, rest) = next_field(alloc, bytes, kind, old)?;
    values[place] = Some(value);
    Ok(rest)
}

/// The value of a field of this kind over its earlier one, and the bytes after it.
#[tactic(auto, unfolding(crate::specs::Reading::value_at))]
fn next_field(
    alloc: Global,
    bytes: &[u8],
    kind: Kind,
    old: Option<Value>,
) -> Result<(Value, &[u8]), SerfFault>
    ensures { MatchResult result (λ read. value_at kind (option_map slot_of old) bytes.now
        ≡ Ok (slot_of read.0, read.1.now))
        (IsFault (value_at kind (option_map slot_of old) bytes.now)) }
{
    match kind {
        Kind::Uint64 | Kind::Uint32 | Kind::Uint16 | Kind::Uint8 | Kind::Int64 | Kind::Float =>
            next_number_value(bytes, kind),
        Kind::Text => {
            let (text, rest) = next_text(bytes)?;
            Ok((Value::Raw(text.to_vec(alloc)?), rest))
        }
        Kind::Bytes => {
            let (raw, rest) = next_field_bytes(alloc, bytes, into_raw(alloc, old))?;
            Ok((Value::Raw(raw), rest))
        }
        Kind::Flag => {
            let (flag, rest) = next_flag(bytes)?;
            Ok((Value::Flag(flag), rest))
        }
        Kind::Whole => {
            let (whole, rest) = next_whole(bytes)?;
            Ok((Value::Raw(whole.to_vec(alloc)?), rest))
        }
    }
}

/// The bytes of the field at this index, or none if none were read.
pub(crate) fn raw_at(values: &Values, place: usize) -> &[u8]
    requires { place < SLOTS }
    ensures { result.now ≡ raw_in (slots_of values.now) place }
{
    raw(&values[place])
}
