//! The fields of a message, from a map or an array.

ghost use Rattle.std.specs.Prelude.{◌≡◌, ◌<◌, ◌≤◌, ℕ, List, Ok, length, MatchResult, OnOk, IfSome};
ghost use Rattle.std.specs.Option.{option_map};
ghost use Rattle.std.specs.Str.{bytes_eq};
ghost use Rattle.memberlist_message.specs.Reading.{IsFault, without_rest, in_map, in_list, fields_at, fields_of};
ghost use Rattle.memberlist_message.specs.Reading.{pairs_at, pair_at, elements_at, place_of, slot_at, value_at};
ghost use Rattle.memberlist_message.specs.Slots.{long_or_zero, short_or_zero, raw_or_empty, flag_or_false};
ghost use Rattle.memberlist_message.specs.Values.{bytes_in, slot_of, slots_of};
ghost use Rattle.memberlist_message.specs.declared.fields.TheConstants.{SLOTS};

use crate::form::{Count, Form, form_of};
use crate::heads::{next_byte, next_count, next_flag, next_number, next_text};
use crate::layout::{Field, Kind};
use crate::lists::next_field_bytes;
use crate::passing::after_values;
use crate::raw::Raw;
use std::alloc::Global;
use swim_wire::WireFault;

/// The maximum number of fields of a message.
const SLOTS: usize = 8;

/// The value of a field.
#[derive(Drop)]
pub(crate) enum Value<'a> {
    Long(u32),
    Short(u16),
    Raw(Raw<'a>),
    Flag(bool),
}

/// The values of the fields, each at the index of its field in the layout. One that was not read is
/// zero.
pub(crate) type Values<'a> = [Option<Value<'a>>; SLOTS];

/// Reads the fields of a message from the value at the start of the bytes: a map of them by their
/// names, an array of them in memberlist's order, or nil, which leaves all zero (go-msgpack's
/// `kStruct`). What is behind the value is left.
#[tactic(auto, unfolding(crate::specs::Reading::fields_at))]
pub(crate) fn read_fields<'a>(
    alloc: Global,
    bytes: &'a [u8],
    layout: &[Field],
) -> Result<Values<'a>, WireFault>
    requires { length layout.now ≤ SLOTS }
    ensures { MatchResult result (λ values.
        without_rest (fields_at layout.now bytes.now) ≡ Ok (slots_of values))
        (IsFault (without_rest (fields_at layout.now bytes.now))) }
{
    let (first, rest) = next_byte(bytes)?;
    fields_of(alloc, rest, form_of(first), layout)
}

/// The fields of a message after the first byte of a value of this form.
#[tactic(auto, unfolding(crate::specs::Reading::fields_of))]
fn fields_of<'a>(
    alloc: Global,
    bytes: &'a [u8],
    form: Option<Form>,
    layout: &[Field],
) -> Result<Values<'a>, WireFault>
    requires { length layout.now ≤ SLOTS }
    ensures { MatchResult result (λ values.
        without_rest (fields_of layout.now form bytes.now) ≡ Ok (slots_of values))
        (IsFault (without_rest (fields_of layout.now form bytes.now))) }
{
    match form {
        Some(Form::Nil) => Ok([None, None, None, None, None, None, None, None]),
        Some(Form::Map(count)) => fields_in_map(alloc, bytes, count, layout),
        Some(Form::List(count)) => fields_in_list(alloc, bytes, count, layout),
        _ => Err(WireFault::NotMap),
    }
}

/// The fields in a map, from its count on.
#[tactic(auto, unfolding(crate::specs::Reading::in_map))]
fn fields_in_map<'a>(
    alloc: Global,
    bytes: &'a [u8],
    count: Count,
    layout: &[Field],
) -> Result<Values<'a>, WireFault>
    requires { length layout.now ≤ SLOTS }
    ensures { MatchResult result (λ values.
        without_rest (in_map layout.now count bytes.now) ≡ Ok (slots_of values))
        (IsFault (without_rest (in_map layout.now count bytes.now))) }
{
    let mut values = [None, None, None, None, None, None, None, None];
    let (pairs, rest) = next_count(bytes, count)?;
    read_pairs(alloc, rest, pairs, layout, &mut values)?;
    Ok(values)
}

/// The fields in an array, from its count on.
#[tactic(auto, unfolding(crate::specs::Reading::in_list))]
fn fields_in_list<'a>(
    alloc: Global,
    bytes: &'a [u8],
    count: Count,
    layout: &[Field],
) -> Result<Values<'a>, WireFault>
    requires { length layout.now ≤ SLOTS }
    ensures { MatchResult result (λ values.
        without_rest (in_list layout.now count bytes.now) ≡ Ok (slots_of values))
        (IsFault (without_rest (in_list layout.now count bytes.now))) }
{
    let mut values = [None, None, None, None, None, None, None, None];
    let (elements, rest) = next_count(bytes, count)?;
    read_elements(alloc, rest, elements, layout, &mut values)?;
    Ok(values)
}

/// Reads this many keys and their values, and returns the bytes after them.
fn read_pairs<'a>(
    alloc: Global,
    bytes: &'a [u8],
    pairs: u32,
    layout: &[Field],
    values: &mut Values<'a>,
) -> Result<&'a [u8], WireFault>
    requires fits { length layout.now ≤ SLOTS }
    requires long { length values.old ≡ SLOTS }
    ensures { MatchResult result (λ rest. pairs_at layout.now pairs (slots_of values.old) bytes.now
        ≡ Ok (slots_of values.new, rest.now))
        (IsFault (pairs_at layout.now pairs (slots_of values.old) bytes.now)) }
{
    let mut rest = bytes;
    for _ in 0..pairs {
        rest = read_pair(alloc, rest, layout, values)?;
    }
    Ok(rest)
}

/// Reads a key and its value, and returns the bytes after them.
fn read_pair<'a>(
    alloc: Global,
    bytes: &'a [u8],
    layout: &[Field],
    values: &mut Values<'a>,
) -> Result<&'a [u8], WireFault>
    requires fits { length layout.now ≤ SLOTS }
    requires long { length values.old ≡ SLOTS }
    ensures exact { MatchResult result (λ rest. pair_at layout.now (slots_of values.old) bytes.now
        ≡ Ok (slots_of values.new, rest.now))
        (IsFault (pair_at layout.now (slots_of values.old) bytes.now)) }
    ensures kept { OnOk result (length values.new ≡ length values.old) }
{
    let (key, rest) = next_text(bytes)?;
    match place_of(layout, key) {
        Some(place) => read_slot(alloc, rest, layout[place].kind, values, place),
        None => after_values(rest, 1),
    }
}

/// Reads this many elements of an array: the fields in order, and then values that are passed over.
/// Returns the bytes after them.
fn read_elements<'a>(
    alloc: Global,
    bytes: &'a [u8],
    elements: u32,
    layout: &[Field],
    values: &mut Values<'a>,
) -> Result<&'a [u8], WireFault>
    requires fits { length layout.now ≤ SLOTS }
    requires long { length values.old ≡ SLOTS }
    ensures { MatchResult result (λ rest.
        elements_at layout.now 0 elements (slots_of values.old) bytes.now
        ≡ Ok (slots_of values.new, rest.now))
        (IsFault (elements_at layout.now 0 elements (slots_of values.old) bytes.now)) }
{
    let mut rest = bytes;
    let mut left = elements;
    for (place, field) in layout.iter().enumerate() {
        if left == 0 {
            return Ok(rest);
        }
        rest = read_slot(alloc, rest, field.kind, values, place)?;
        left -= 1;
    }
    after_values(rest, left)
}

/// The index of a key in the layout.
fn place_of(layout: &[Field], key: &[u8]) -> Option<usize>
    ensures place { result ≡ place_of layout.now key.now }
    ensures within { IfSome result (λ place. place < length layout.now) }
{
    layout
        .iter()
        .position(|field| is_text(field.key.text(), key))
}

/// Whether a key is this text. Most keys differ in their first byte, which is compared first.
fn is_text(text: &[u8], key: &[u8]) -> bool
    ensures { result ≡ bytes_eq text.now key.now }
{
    text.first() == key.first() && text == key
}

/// Reads the value of the field at this index, and returns the bytes after it.
#[tactic(auto, unfolding(crate::specs::Reading::slot_at))]
fn read_slot<'a>(
    alloc: Global,
    bytes: &'a [u8],
    kind: Kind,
    values: &mut Values<'a>,
    place: usize,
) -> Result<&'a [u8], WireFault>
    requires fits { place < SLOTS }
    requires long { length values.old ≡ SLOTS }
    ensures exact { MatchResult result (λ rest. slot_at kind (slots_of values.old) place bytes.now
        ≡ Ok (slots_of values.new, rest.now))
        (IsFault (slot_at kind (slots_of values.old) place bytes.now)) }
    ensures kept { OnOk result (length values.new ≡ length values.old) }
{
    let old = values[place].take();
    let (value, rest) = next_field(alloc, bytes, kind, old)?;
    values[place] = Some(value);
    Ok(rest)
}

/// The value of a field of this kind over its earlier one, and the bytes after it.
#[tactic(auto, unfolding(crate::specs::Reading::value_at))]
fn next_field<'a>(
    alloc: Global,
    bytes: &'a [u8],
    kind: Kind,
    old: Option<Value<'a>>,
) -> Result<(Value<'a>, &'a [u8]), WireFault>
    ensures { MatchResult result (λ read. value_at kind (option_map slot_of old.entry) bytes.now
        ≡ Ok (slot_of read.0, read.1.now))
        (IsFault (value_at kind (option_map slot_of old.entry) bytes.now)) }
{
    match kind {
        Kind::Uint32 => {
            let (number, rest) = next_number(bytes, 0xffff_ffff)?;
            Ok((Value::Long(number as u32), rest))
        }
        Kind::Uint16 => {
            let (number, rest) = next_number(bytes, 0xffff)?;
            Ok((Value::Short(number as u16), rest))
        }
        Kind::Text => {
            let (text, rest) = next_text(bytes)?;
            Ok((Value::Raw(Raw::Part(text)), rest))
        }
        Kind::Bytes => {
            let (raw, rest) = next_field_bytes(alloc, bytes, earlier(old))?;
            Ok((Value::Raw(raw), rest))
        }
        Kind::Flag => {
            let (flag, rest) = next_flag(bytes)?;
            Ok((Value::Flag(flag), rest))
        }
    }
}

/// The number, or 0 if none was read.
pub(crate) fn long(value: &Option<Value>) -> u32
    ensures { result ≡ long_or_zero (option_map slot_of value.now) }
{
    match value {
        Some(Value::Long(number)) => *number,
        _ => 0,
    }
}

/// The number, or 0 if none was read.
pub(crate) fn short(value: &Option<Value>) -> u16
    ensures { result ≡ short_or_zero (option_map slot_of value.now) }
{
    match value {
        Some(Value::Short(number)) => *number,
        _ => 0,
    }
}

/// The text or bytes, or none if none were read.
pub(crate) fn raw<'a>(value: &'a Option<Value>) -> &'a [u8]
    ensures { result.now ≡ raw_or_empty (option_map slot_of value.now) }
{
    match value {
        Some(Value::Raw(bytes)) => bytes.bytes(),
        _ => &[],
    }
}

/// The text or bytes that were read earlier, or none.
fn earlier<'a>(value: Option<Value<'a>>) -> Raw<'a>
    ensures { bytes_in result ≡ raw_or_empty (option_map slot_of value.entry) }
{
    match value {
        Some(Value::Raw(bytes)) => bytes,
        _ => Raw::Part(&[]),
    }
}

/// The truth value, or false if none was read.
pub(crate) fn flag(value: &Option<Value>) -> bool
    ensures { result ≡ flag_or_false (option_map slot_of value.now) }
{
    match value {
        Some(Value::Flag(flag)) => *flag,
        _ => false,
    }
}
