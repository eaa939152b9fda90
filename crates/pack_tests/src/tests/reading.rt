//! Values by their spellings, as they are read or refused.
//!
//! Faults are written as their numbers: 1 if the bytes end, 2 not a number, 3 out of range, 4 not a
//! truth value, 5 not bytes, 6 too long, 7 not a map, 8 too many pairs, 9 if the inlet fails.

use crate::tests::fakes::Pieces;
use crate::tests::{answer, assert_answer, assert_bytes};
use std::alloc::Global;
use std::process::Abort;
use swim_pack::{
    FromRead, Inlet, PackFault, SliceInlet, StopInlet, read_bool, read_key, read_map_len, read_raw,
    read_uint,
};

#[derive(Clone, Copy)]
pub(crate) enum Kind {
    Number,
    Truth,
    Pairs,
    Key,
}

/// Reads a truth value, as 1 or 0.
fn truth<I: Inlet>(inlet: &mut I) -> Result<u64, PackFault> {
    Ok(u64::from(read_bool(inlet)?))
}

/// Reads a count of pairs, of at most `max`.
fn pairs<I: Inlet>(inlet: &mut I, max: u64) -> Result<u64, PackFault> {
    let max = if max > 0xffff_ffff {
        u32::MAX
    } else {
        max as u32
    };
    Ok(u64::from(read_map_len(inlet, max)?))
}

/// Reads a key, as its length.
fn key<I: Inlet>(inlet: &mut I) -> Result<u64, PackFault> {
    Ok(read_key(inlet, &mut [0; 12])? as u64)
}

/// Reads a value of this kind, of at most `max` if it is a number or a count. Returns the number of
/// the fault, and the value.
pub(crate) fn read<I: Inlet>(kind: Kind, inlet: &mut I, max: u64) -> (u32, u64) {
    answer(match kind {
        Kind::Number => read_uint(inlet, max),
        Kind::Truth => truth(inlet),
        Kind::Pairs => pairs(inlet, max),
        Kind::Key => key(inlet),
    })
}

fn assert_read(rt: &impl Abort, kind: Kind, bytes: &[u8], max: u64, wanted: (u32, u64)) {
    let found = read(kind, &mut SliceInlet::new(bytes), max);
    assert_answer(rt, found, wanted, bytes);
}

/// Asserts that each of these bytes is read as such a value: the bytes, the maximum, the number of
/// the fault, and the value.
fn assert_reads(rt: &impl Abort, kind: Kind, rows: &[(&[u8], u64, u32, u64)]) {
    for (bytes, max, fault, value) in rows {
        assert_read(rt, kind, bytes, *max, (*fault, *value));
    }
}

/// Each is read if it is the maximum.
const NUMBERS: &[(&[u8], u64, u32, u64)] = &[
    (b"\x00", 0, 0, 0),
    (b"\x7f", 127, 0, 127),
    (b"\xc0", 0, 0, 0),
    (b"\xcc\x05", 5, 0, 5),
    (b"\xcc\xff", 255, 0, 255),
    (b"\xcd\x1f\x0a", 7946, 0, 7946),
    (b"\xce\x00\x00\x1f\x0a", 7946, 0, 7946),
    (b"\xcf\x00\x00\x00\x00\x00\x00\x1f\x0a", 7946, 0, 7946),
    (
        b"\xcf\xff\xff\xff\xff\xff\xff\xff\xff",
        u64::MAX,
        0,
        u64::MAX,
    ),
    (b"\xd0\x7f", 127, 0, 127),
    (b"\xd1\x1f\x0a", 7946, 0, 7946),
    (b"\xd2\x00\x00\x00\x00", 0, 0, 0),
    (
        b"\xd3\x7f\xff\xff\xff\xff\xff\xff\xff",
        0x7fff_ffff_ffff_ffff,
        0,
        0x7fff_ffff_ffff_ffff,
    ),
];

#[test]
fn every_spelling_of_a_number_is_read(rt: HostRuntime) {
    assert_reads(&rt, Kind::Number, NUMBERS);
}

/// What does not start a number, is negative, is too large, or ends too early.
const NO_NUMBERS: &[(&[u8], u64, u32, u64)] = &[
    (b"\x80", 5, 2, 0),
    (b"\xa0", 5, 2, 0),
    (b"\xc1", 5, 2, 0),
    (b"\xc2", 5, 2, 0),
    (b"\xc4\x00", 5, 2, 0),
    (b"\xca\x00\x00\x00\x00", 5, 2, 0),
    (b"\xd0\x80", 5, 2, 0),
    (b"\xd1\xff\xff", 5, 2, 0),
    (b"\xd2\x80\x00\x00\x00", 5, 2, 0),
    (b"\xd3\x80\x00\x00\x00\x00\x00\x00\x00", 5, 2, 0),
    (b"\xe0", 5, 2, 0),
    (b"\xff", 5, 2, 0),
    (b"\x06", 5, 3, 0),
    (b"\xcf\x00\x00\x00\x01\x00\x00\x00\x00", 5, 3, 0),
    (b"\xd0\x06", 5, 3, 0),
    (b"", 5, 1, 0),
    (b"\xcd\x1f", 5, 1, 0),
    (b"\xd0", 5, 1, 0),
];

#[test]
fn what_is_no_number_in_range_is_refused_by_number(rt: HostRuntime) {
    assert_reads(&rt, Kind::Number, NO_NUMBERS);
}

/// True is 1.
const TRUTHS: &[(&[u8], u64, u32, u64)] = &[
    (b"\xc0", 0, 0, 0),
    (b"\xc2", 0, 0, 0),
    (b"\xc3", 0, 0, 1),
    (b"\x00", 0, 4, 0),
    (b"\xc1", 0, 4, 0),
    (b"\xc4\x00", 0, 4, 0),
    (b"", 0, 1, 0),
];

#[test]
fn truth_values_are_read_or_refused_by_number(rt: HostRuntime) {
    assert_reads(&rt, Kind::Truth, TRUTHS);
}

/// Counts of pairs.
const COUNTS: &[(&[u8], u64, u32, u64)] = &[
    (b"\x80", 0, 0, 0),
    (b"\x86", 6, 0, 6),
    (b"\x8f", 0xffff_ffff, 0, 15),
    (b"\xde\x00\x03", 3, 0, 3),
    (b"\xdf\x00\x00\x00\x03", 3, 0, 3),
    (b"\xdf\xff\xff\xff\xff", 0xffff_ffff, 0, 0xffff_ffff),
    (b"\x84", 3, 8, 0),
    (b"\xdf\x00\x00\x00\x04", 3, 8, 0),
    (b"\xdf\xff\xff\xff\xff", 3, 8, 0),
    (b"\x90", 3, 7, 0),
    (b"\xc0", 3, 7, 0),
    (b"\xc1", 3, 7, 0),
    (b"\x01", 3, 7, 0),
    (b"", 3, 1, 0),
    (b"\xde\x00", 3, 1, 0),
];

#[test]
fn counts_of_pairs_are_read_or_refused_by_number(rt: HostRuntime) {
    assert_reads(&rt, Kind::Pairs, COUNTS);
}

/// Keys, by their lengths.
const KEYS: &[(&[u8], u64, u32, u64)] = &[
    (b"\xa4Node", 0, 0, 4),
    (b"\xacUserStateLen", 0, 0, 12),
    (b"\xc4\x04Node", 0, 0, 4),
    (b"\xc0", 0, 0, 0),
    (b"\x01", 0, 5, 0),
    (b"\xad", 0, 6, 0),
    (b"\xdb\xff\xff\xff\xff", 0, 6, 0),
    (b"\xa4Nod", 0, 1, 0),
];

#[test]
fn keys_are_read_or_refused_by_number(rt: HostRuntime) {
    assert_reads(&rt, Kind::Key, KEYS);
}

/// Asserts that the four bytes of a key are `Node`.
fn assert_node(rt: &impl Abort, inlet: &mut impl Inlet) {
    let mut key = [0; 12];
    let found = match read_key(inlet, &mut key) {
        Ok(len) => (0, len as u64),
        Err(fault) => (fault.number(), 0),
    };
    assert_answer(rt, found, (0, 4), b"Node");
    assert_bytes(rt, &key[..4], b"Node");
}

#[test]
fn the_bytes_of_a_key_are_given(rt: HostRuntime) {
    assert_node(&rt, &mut SliceInlet::new(b"\xa4Node"));
    assert_node(&rt, &mut SliceInlet::new(b"\xc4\x04Node"));
}

/// The result of `read_raw`; if out of memory, the result of calling it again.
fn raw_of(alloc: Global, bytes: &[u8], limit: usize) -> Result<Vec<u8>, PackFault> {
    match read_raw(alloc, &mut SliceInlet::new(bytes), limit) {
        Err(PackFault::Memory) => read_raw(alloc, &mut SliceInlet::new(bytes), limit),
        answer => answer,
    }
}

/// Asserts that the bytes of this length or less are this text, or have this fault.
fn assert_raw(rt: &impl Abort, alloc: Global, bytes: &[u8], limit: usize, text: &[u8], fault: u32) {
    let found = match raw_of(alloc, bytes, limit) {
        Ok(read) => {
            assert_bytes(rt, &read, text);
            0
        }
        Err(fault) => fault.number(),
    };
    assert_answer(rt, (found, 0), (fault, 0), bytes);
}

/// Bytes, the limit, the text, and the number of the fault.
const TEXTS: &[(&[u8], usize, &[u8], u32)] = &[
    (b"\xa1a", 1, b"a", 0),
    (b"\xa0", 0, b"", 0),
    (b"\xc0", 0, b"", 0),
    (b"\xc4\x02ab", 2, b"ab", 0),
    (b"\xc5\x00\x02ab", 2, b"ab", 0),
    (b"\xc6\x00\x00\x00\x02ab", 2, b"ab", 0),
    (b"\xd9\x02ab", 2, b"ab", 0),
    (b"\xda\x00\x02\xff\x00", 2, b"\xff\x00", 0),
    (b"\xdb\x00\x00\x00\x02ab", 2, b"ab", 0),
    (b"\x01", 1024, b"", 5),
    (b"\x80", 1024, b"", 5),
    (b"\xc1", 1024, b"", 5),
    (b"\xc2", 1024, b"", 5),
    (b"\xcc\x01", 1024, b"", 5),
    (b"\xa2ab", 1, b"", 6),
    (b"\xda\x02\x01", 512, b"", 6),
    (b"\xdb\xff\xff\xff\xff", 1024, b"", 6),
    (b"", 1024, b"", 1),
    (b"\xd9", 1024, b"", 1),
    (b"\xa2a", 2, b"", 1),
    (b"\xda\x04\x00aaa", 1024, b"", 1),
];

#[test]
fn bytes_within_the_limit_are_read_and_others_refused_by_number(rt: HostRuntime) {
    for (bytes, limit, text, fault) in TEXTS {
        assert_raw(&rt, rt.alloc(), bytes, *limit, text, *fault);
    }
}

/// Asserts that a reading of an inlet that fails at this call has this result.
fn assert_stops(rt: &impl Abort, kind: Kind, bytes: &[u8], calls: usize, wanted: (u32, u64)) {
    let found = read(kind, &mut StopInlet::new(bytes, calls), 7946);
    assert_answer(rt, found, wanted, bytes);
}

/// Asserts that a reading of bytes is the fault of an inlet that fails at the first call.
fn assert_raw_stops(rt: &impl Abort, alloc: Global) {
    let found = match read_raw(alloc, &mut StopInlet::new(b"\xa1a", 1), 1) {
        Ok(_) => 0,
        Err(fault) => fault.number(),
    };
    assert_answer(rt, (found, 0), (9, 0), b"\xa1a");
}

#[test]
fn a_reading_stops_at_the_first_fault_of_its_inlet(rt: HostRuntime) {
    for calls in 1..3 {
        assert_stops(&rt, Kind::Number, b"\xcd\x1f\x0a", calls, (9, 0));
        assert_stops(&rt, Kind::Key, b"\xa1a", calls, (9, 0));
        assert_stops(&rt, Kind::Pairs, b"\xde\x00\x03", calls, (9, 0));
    }
    assert_stops(&rt, Kind::Number, b"\xcd\x1f\x0a", 3, (0, 7946));
    assert_stops(&rt, Kind::Truth, b"\xc3", 1, (9, 0));
    assert_raw_stops(&rt, rt.alloc());
}

/// Asserts that values are read from an inlet over a reader, one after the other.
fn assert_values(rt: &impl Abort, inlet: &mut impl Inlet) {
    assert_answer(rt, read(Kind::Number, inlet, 65535), (0, 7946), b"number");
    assert_answer(rt, read(Kind::Truth, inlet, 0), (0, 1), b"truth");
    assert_answer(rt, read(Kind::Pairs, inlet, 6), (0, 6), b"pairs");
    assert_node(rt, inlet);
    assert_answer(rt, read(Kind::Truth, inlet, 0), (1, 0), b"end");
}

#[test]
fn values_are_read_through_readers_of_any_piece(rt: HostRuntime) {
    for most in 1..6 {
        let bytes = b"\xcd\x1f\x0a\xc3\x86\xa4Node";
        assert_values(&rt, &mut FromRead::new(Pieces::new(bytes, most)));
    }
}
