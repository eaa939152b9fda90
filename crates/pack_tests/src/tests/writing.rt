//! Values by their canonical spellings, as they are written and read back.

use crate::tests::reading::{Kind, read};
use crate::tests::{assert_answer, assert_bytes};
use std::alloc::{AllocError, Global};
use std::process::Abort;
use std::test::Fail;
use swim_pack::{
    PackFault, SliceInlet, put_bool, put_map_len, put_raw, put_uint, raw_len, read_raw, uint_len,
    write_bool, write_map_len, write_raw, write_uint,
};

#[derive(Clone, Copy)]
enum Value<'a> {
    Number(u64),
    Truth(bool),
    Bytes(&'a [u8]),
    Pairs(u32),
}

impl Value<'_> {
    fn write(self, out: &mut Vec<u8>) -> Result<(), AllocError> {
        match self {
            Value::Number(number) => write_uint(out, number),
            Value::Truth(truth) => write_bool(out, truth),
            Value::Bytes(bytes) => write_raw(out, &bytes[..bytes.len().min(65535)]),
            Value::Pairs(pairs) => write_map_len(out, pairs.min(15)),
        }
    }
}

/// Puts it after the first byte of the buffer, which has room. Returns the place after it.
fn put(value: Value<'_>, out: &mut [u8]) -> usize {
    match value {
        Value::Number(number) if uint_len(number) < out.len() => put_uint(out, 1, number),
        Value::Truth(truth) if 1 < out.len() => put_bool(out, 1, truth),
        Value::Bytes(bytes) if bytes.len() < 40 && raw_len(bytes) < out.len() => put_raw(
            out, 1, bytes,
        ),
        Value::Pairs(pairs) if pairs < 16 && 1 < out.len() => put_map_len(out, 1, pairs),
        _ => 0,
    }
}

/// Asserts that the value is put after a byte, and nothing after it is changed.
fn assert_put(rt: &impl Abort, value: Value<'_>, text: &[u8]) {
    let mut out = [9; 48];
    let end = put(value, &mut out);
    assert_eq!(rt; end, 1 + text.len().min(47));
    let (front, back) = out.split_at(end);
    assert_bytes(rt, front.get(1..).unwrap_or(&[]), text);
    assert!(rt; back.iter().all(|byte| *byte == 9));
}

/// Writes it. If out of memory the vector stays as it was, and the second call writes it.
fn written(value: Value<'_>, out: &mut Vec<u8>) -> Result<(), AllocError> {
    let len = out.len();
    match value.write(out) {
        Err(_) if out.len() == len => value.write(out),
        answer => answer,
    }
}

/// Asserts that the value is written as the head and then the tail.
fn assert_written(
    rt: &impl Abort,
    alloc: Global,
    value: Value<'_>,
    head: &[u8],
    tail: &[u8],
) -> Result<(), AllocError> {
    let mut out = Vec::new(alloc);
    written(value, &mut out)?;
    let (front, back) = out.split_at(head.len().min(out.len()));
    assert_bytes(rt, front, head);
    assert_bytes(rt, back, tail);
    Ok(())
}

/// Values with their spellings, except long bytes.
const VALUES: &[(Value<'static>, &[u8])] = &[
    (Value::Number(0), b"\x00"),
    (Value::Number(127), b"\x7f"),
    (Value::Number(128), b"\xcc\x80"),
    (Value::Number(255), b"\xcc\xff"),
    (Value::Number(256), b"\xcd\x01\x00"),
    (Value::Number(7946), b"\xcd\x1f\x0a"),
    (Value::Number(65535), b"\xcd\xff\xff"),
    (Value::Number(131072), b"\xce\x00\x02\x00\x00"),
    (Value::Number(4294967295), b"\xce\xff\xff\xff\xff"),
    (
        Value::Number(4294967296),
        b"\xcf\x00\x00\x00\x01\x00\x00\x00\x00",
    ),
    (Value::Truth(false), b"\xc2"),
    (Value::Truth(true), b"\xc3"),
    (Value::Bytes(b""), b"\xa0"),
    (Value::Bytes(b"Node"), b"\xa4Node"),
    (Value::Pairs(6), b"\x86"),
    (Value::Pairs(15), b"\x8f"),
];

const LONG: [u8; 65535] = [0x6e; 65535];

#[test]
fn each_value_has_its_canonical_spelling(rt: HostRuntime) -> Result<(), Fail> {
    for (value, text) in VALUES {
        assert_written(&rt, rt.alloc(), *value, text, b"")?;
        assert_put(&rt, *value, text);
    }
    for (len, head) in [
        (31, b"\xbf".as_slice()),
        (32, b"\xda\x00\x20"),
        (65535, b"\xda\xff\xff"),
    ] {
        let bytes = &LONG[..len];
        assert_written(&rt, rt.alloc(), Value::Bytes(bytes), head, bytes)?;
    }
    Ok(())
}

/// Four values, one after the other.
fn four_values(alloc: Global) -> Result<Vec<u8>, AllocError> {
    let mut out = Vec::new(alloc);
    for value in [
        Value::Number(7946),
        Value::Bytes(b""),
        Value::Pairs(6),
        Value::Truth(false),
    ] {
        written(value, &mut out)?;
    }
    Ok(out)
}

/// Reads bytes, and returns how many there are.
fn raw_read(alloc: Global, inlet: &mut SliceInlet<'_>) -> Result<u64, PackFault> {
    Ok(read_raw(alloc, inlet, 0)?.len() as u64)
}

/// Asserts that the four values are read back, and nothing is left after them.
fn assert_read_back(rt: &impl Abort, alloc: Global, bytes: &[u8]) -> Result<(), PackFault> {
    let mut inlet = SliceInlet::new(bytes);
    assert_answer(rt, read(Kind::Number, &mut inlet, 65535), (0, 7946), bytes);
    assert_answer(rt, (0, raw_read(alloc, &mut inlet)?), (0, 0), bytes);
    assert_answer(rt, read(Kind::Pairs, &mut inlet, 6), (0, 6), bytes);
    assert_answer(rt, read(Kind::Truth, &mut inlet, 0), (0, 0), bytes);
    assert_bytes(rt, inlet.rest(), b"");
    Ok(())
}

#[test]
fn written_values_are_read_back(rt: HostRuntime) -> Result<(), Fail> {
    let out = four_values(rt.alloc())?;
    assert_bytes(&rt, &out, b"\xcd\x1f\x0a\xa0\x86\xc2");
    assert_read_back(&rt, rt.alloc(), &out)?;
    Ok(())
}

#[test]
fn a_refused_tail_takes_its_head_back(rt: HostRuntime) -> Result<(), Fail> {
    // There is room for the three bytes of the head, and for no byte after them.
    let mut out = match Vec::with_capacity(rt.alloc(), 3) {
        Ok(out) => out,
        Err(_) => return Ok(()),
    };
    written(Value::Bytes(&[7; 40]), &mut out)?;
    assert_answer(&rt, (0, out.len() as u64), (0, 43), b"");
    Ok(())
}
