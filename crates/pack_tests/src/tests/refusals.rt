//! What a refusal has consumed: no more than decides it.

use crate::tests::reading::{Kind, read};
use crate::tests::{assert_answer, assert_bytes};
use std::alloc::Global;
use std::process::Abort;
use swim_pack::{SliceInlet, read_raw};

/// Asserts that the bytes are refused with this fault, and what is left after them.
fn assert_left(rt: &impl Abort, kind: Kind, bytes: &[u8], max: u64, fault: u32, rest: &[u8]) {
    let mut inlet = SliceInlet::new(bytes);
    assert_answer(rt, read(kind, &mut inlet, max), (fault, 0), bytes);
    assert_bytes(rt, inlet.rest(), rest);
}

/// Bytes, the number of the fault, and what is left.
const NUMBERS: &[(&[u8], u32, &[u8])] = &[
    (b"\xa0!", 2, b"!"),
    (b"\xcd\x00\x06!", 3, b"!"),
    (b"\xd0\x80!", 2, b"!"),
    (b"\x06!", 3, b"!"),
    (b"\xcd\x1f", 1, b"\x1f"),
];

#[test]
fn a_refused_number_or_truth_value_leaves_what_is_behind_it(rt: HostRuntime) {
    for (bytes, fault, rest) in NUMBERS {
        assert_left(&rt, Kind::Number, bytes, 5, *fault, rest);
    }
    assert_left(&rt, Kind::Truth, b"\x00!", 0, 4, b"!");
}

/// Asserts that the bytes of this length or less are refused with the fault, or because memory runs
/// out, and what is left after them.
fn assert_raw_left(
    rt: &impl Abort,
    alloc: Global,
    bytes: &[u8],
    limit: usize,
    fault: u32,
    rest: &[u8],
) {
    let mut inlet = SliceInlet::new(bytes);
    let found = match read_raw(alloc, &mut inlet, limit) {
        Ok(_) => 0,
        Err(found) => found.number(),
    };
    if found != 10 {
        assert_answer(rt, (found, 0), (fault, 0), bytes);
    }
    assert_bytes(rt, inlet.rest(), rest);
}

const KEYS: &[(&[u8], u32, &[u8])] = &[
    (b"\x01!", 5, b"!"),
    (b"\xadNode", 6, b"Node"),
    (b"\xda\x02\x01Node", 6, b"Node"),
    (b"\xa4Nod", 1, b"Nod"),
];

const COUNTS: &[(&[u8], u32, &[u8])] = &[
    (b"\x90!", 7, b"!"),
    (b"\x84!", 8, b"!"),
    (b"\xdf\x00\x00\x00\x04!", 8, b"!"),
    (b"\xde\x00", 1, b"\x00"),
];

#[test]
fn a_refused_length_or_count_leaves_what_is_behind_it(rt: HostRuntime) {
    for (bytes, fault, rest) in KEYS {
        assert_left(&rt, Kind::Key, bytes, 0, *fault, rest);
        assert_raw_left(&rt, rt.alloc(), bytes, 12, *fault, rest);
    }
    for (bytes, fault, rest) in COUNTS {
        assert_left(&rt, Kind::Pairs, bytes, 3, *fault, rest);
    }
}

#[test]
fn a_length_within_the_limit_asks_for_little(rt: HostRuntime) {
    let bytes = b"\xda\x04\x00Node";
    assert_raw_left(&rt, rt.alloc(), bytes, 1024, 1, b"Node");
}
