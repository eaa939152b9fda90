//! Maps of a layout.

ghost use Rattle.std.specs.Prelude.{◌≡◌, ◌<◌, ◌≤◌, length, take, IfOk, IfSome, IsNone, IsErrOf, position};
ghost use Rattle.std.specs.Str.{bytes_eq};
ghost use Rattle.swim_pack.specs.Composing.{ReadsAs, same, lift};
ghost use Rattle.swim_pack.specs.Reading.{raw_at};
ghost use Rattle.swim_wire.specs.Asking.{ValueAsks, PairAsks, MapAsks};
ghost use Rattle.swim_wire.specs.Checks.{ReasonForStart};
ghost use Rattle.swim_wire.specs.Fault.{fault_of_key};
ghost use Rattle.swim_wire.specs.Reading.{wire_cause, value_at, key_at, pair_at, map_at};
ghost use Rattle.swim_wire.specs.Keys.{key_text};
ghost use Rattle.swim_wire.specs.Slots.{Fits, FitsEach, CanRead, CanReadEach, spelled, slots_of, layout_of};
ghost use Rattle.swim_wire.specs.Layout.{number_or_zero, raw_or_empty, flag_or_false};
ghost use Rattle.swim_wire.specs.declared.map.TheConstants.{SLOTS};
ghost use Rattle.std.specs.Option.{option_map};

use crate::WireFault;
use crate::layout::{Field, Limit};
use std::alloc::Global;
use swim_pack::{Inlet, PackFault, read_bool, read_key, read_map_len, read_raw, read_uint};

/// The maximum number of keys in a layout.
const SLOTS: usize = 8;

/// A value of a map.
#[derive(Drop)]
pub(crate) enum Value {
    Number(u64),
    Raw(Vec<u8>),
    Flag(bool),
}

/// The values of a map, each at the index of its key in the layout. An absent key has none.
pub(crate) type Values = [Option<Value>; SLOTS];

/// Reads a map of the layout: its count, and then each key and its value. A layout without text and
/// bytes takes no memory.
pub(crate) fn read_map<I: Inlet>(
    alloc: Option<Global>,
    inlet: &mut I,
    layout: &[Field],
) -> Result<Values, WireFault>
    requires few { length layout.now ≤ SLOTS }
    requires memory { CanReadEach alloc layout.now }
    ensures exact { ReadsAs wire_cause slots_of (map_at (layout_of layout.now))
        (I.seen inlet.old) (I.seen inlet.new) result }
    ensures within { IfOk result (FitsEach layout.now) }
    ensures memory { IsErrOf result WireFault.Memory
        → ReasonForStart (MapAsks (layout_of layout.now)) (I.seen inlet.old) }
    ensures no_memory { IsNone alloc → ¬ IsErrOf result WireFault.Memory }
{
    let count = read_map_len(inlet, layout.len() as u32)?;
    let mut values = [None, None, None, None, None, None, None, None];
    for _ in 0..count {
        read_pair(alloc, inlet, layout, &mut values)?;
    }
    Ok(values)
}

fn read_pair<I: Inlet>(
    alloc: Option<Global>,
    inlet: &mut I,
    layout: &[Field],
    values: &mut Values,
) -> Result<(), WireFault>
    requires few { length layout.now ≤ SLOTS }
    requires memory { CanReadEach alloc layout.now }
    requires within { FitsEach layout.now values.old }
    ensures exact { ReadsAs wire_cause (λ _. slots_of values.new)
        (pair_at (layout_of layout.now) (slots_of values.old))
        (I.seen inlet.old) (I.seen inlet.new) result }
    ensures within { FitsEach layout.now values.new }
    ensures memory { IsErrOf result WireFault.Memory
        → ReasonForStart (PairAsks (layout_of layout.now)) (I.seen inlet.old) }
    ensures no_memory { IsNone alloc → ¬ IsErrOf result WireFault.Memory }
{
    let place = read_place(inlet, layout)?;
    if values[place].is_some() {
        return Err(WireFault::DuplicateKey);
    }
    values[place] = Some(read_value(alloc, inlet, layout[place].limit)?);
    Ok(())
}

/// Reads a key, and returns its index in the layout.
fn read_place<I: Inlet>(inlet: &mut I, layout: &[Field]) -> Result<usize, WireFault>
    ensures exact { ReadsAs wire_cause same (key_at (layout_of layout.now))
        (I.seen inlet.old) (I.seen inlet.new) result }
    ensures within { IfOk result (λ place. place < length layout.now) }
    ensures no_memory { ¬ IsErrOf result WireFault.Memory }
{
    let mut text = [0; 12];
    let len = read_key_text(inlet, &mut text)?;
    place_of(layout, &text[..len]).ok_or(WireFault::UnknownKey)
}

/// Reads the text of a key. One that is too long is not a key of any layout.
fn read_key_text<I: Inlet>(inlet: &mut I, text: &mut [u8; 12]) -> Result<usize, WireFault>
    ensures exact { ReadsAs wire_cause (λ len. take len text.new) (lift fault_of_key (raw_at 12))
        (I.seen inlet.old) (I.seen inlet.new) result }
    ensures fits { IfOk result (λ len. len ≤ 12) }
    ensures no_memory { ¬ IsErrOf result WireFault.Memory }
{
    match read_key(inlet, text) {
        Ok(len) => Ok(len),
        Err(fault) => Err(fault_of_key(fault)),
    }
}

fn fault_of_key(fault: PackFault) -> WireFault
    ensures { result ≡ fault_of_key fault }
{
    match fault {
        PackFault::TooLong => WireFault::UnknownKey,
        _ => WireFault::from(fault),
    }
}

/// The index of a key in the layout.
fn place_of(layout: &[Field], key: &[u8]) -> Option<usize>
    ensures place { result ≡ position (λ field. bytes_eq (key_text field.key) key.now) layout.now }
    ensures within { IfSome result (λ place. place < length layout.now) }
{
    layout.iter().position(|field| field.key.text() == key)
}

/// Reads the value after a key.
fn read_value<I: Inlet>(
    alloc: Option<Global>,
    inlet: &mut I,
    limit: Limit,
) -> Result<Value, WireFault>
    requires { CanRead alloc limit }
    ensures exact { ReadsAs wire_cause spelled (value_at limit)
        (I.seen inlet.old) (I.seen inlet.new) result }
    ensures within { IfOk result (Fits limit) }
    ensures memory { IsErrOf result WireFault.Memory
        → ReasonForStart (ValueAsks limit) (I.seen inlet.old) }
    ensures no_memory { IsNone alloc → ¬ IsErrOf result WireFault.Memory }
{
    match limit {
        Limit::Number(max) => Ok(Value::Number(read_uint(inlet, max)?)),
        Limit::Raw(limit) => Ok(Value::Raw(read_raw(alloc.unwrap(), inlet, limit)?)),
        Limit::Flag => Ok(Value::Flag(read_bool(inlet)?)),
    }
}

/// The number, or 0 if its key is absent.
pub(crate) fn uint(value: &Option<Value>) -> u64
    ensures { result ≡ number_or_zero (option_map spelled value.now) }
{
    match value {
        Some(Value::Number(number)) => *number,
        _ => 0,
    }
}

/// The text or bytes, or none if their key is absent.
pub(crate) fn raw(value: &Option<Value>) -> &[u8]
    ensures { result.now ≡ raw_or_empty (option_map spelled value.now) }
{
    match value {
        Some(Value::Raw(bytes)) => bytes,
        _ => &[],
    }
}

/// The truth value, or false if its key is absent.
pub(crate) fn flag(value: &Option<Value>) -> bool
    ensures { result ≡ flag_or_false (option_map spelled value.now) }
{
    match value {
        Some(Value::Flag(flag)) => *flag,
        _ => false,
    }
}
