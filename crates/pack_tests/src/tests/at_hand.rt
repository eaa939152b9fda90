//! Values at the start of bytes at hand, and bytes at hand that are skipped.

use crate::tests::fakes::Pieces;
use crate::tests::{assert_answer, assert_bytes, assert_pull};
use std::process::Abort;
use swim_pack::{FromRead, Inlet, SliceInlet, StopInlet, bool_at_hand, raw_at_hand, uint_at_hand};

/// Asserts that a value is found before an exclamation mark, or none, which counts as fault 1.
fn assert_found(rt: &impl Abort, bytes: &[u8], found: Option<(u64, &[u8])>, wanted: (u32, u64)) {
    let answer = match found {
        Some((value, rest)) => {
            assert_bytes(rt, rest, b"!");
            (0, value)
        }
        None => (1, 0),
    };
    assert_answer(rt, answer, wanted, bytes);
}

#[test]
fn a_number_at_hand_is_found_with_what_is_behind_it(rt: HostRuntime) {
    for (bytes, max, fault) in [
        (b"\x00!".as_slice(), 0, 0),
        (b"\x7f!", 127, 0),
        (b"\xc0!", 0, 0),
        (b"\xcc\xff!", 255, 0),
        (b"\xcd\x1f\x0a!", 7946, 0),
        (b"\xce\x00\x00\x1f\x0a!", 7946, 0),
        (b"\xcf\xff\xff\xff\xff\xff\xff\xff\xff!", u64::MAX, 0),
        (b"", 5, 1),
        (b"\x06", 5, 1),
        (b"\xcc\x06", 5, 1),
        (b"\xcc", 5, 1),
        (b"\xcd\x00", 5, 1),
        (b"\xd0\x05", 5, 1),
        (b"\xa0", 5, 1),
    ] {
        let number = if fault == 0 { max } else { 0 };
        assert_found(&rt, bytes, uint_at_hand(bytes, max), (fault, number));
    }
}

/// Asserts that bytes of this length or less are found, and are a prefix of `ab`, or that there are
/// none.
fn assert_raw(rt: &impl Abort, bytes: &[u8], limit: u8, fault: u32) {
    let found = match raw_at_hand(bytes, usize::from(limit)) {
        Some((text, rest)) => {
            assert_bytes(rt, text, &b"ab"[..usize::from(limit.min(2))]);
            Some((text.len() as u64, rest))
        }
        None => None,
    };
    let len = if fault == 0 { u64::from(limit) } else { 0 };
    assert_found(rt, bytes, found, (fault, len));
}

#[test]
fn bytes_at_hand_are_found_with_what_is_behind_them(rt: HostRuntime) {
    for bytes in [
        b"\xa2ab!".as_slice(),
        b"\xd9\x02ab!",
        b"\xda\x00\x02ab!",
        b"\xdb\x00\x00\x00\x02ab!",
        b"\xc4\x02ab!",
        b"\xc5\x00\x02ab!",
        b"\xc6\x00\x00\x00\x02ab!",
    ] {
        assert_raw(&rt, bytes, 2, 0);
        assert_raw(&rt, bytes, 1, 1);
        assert_raw(&rt, &bytes[..bytes.len() - 2], 2, 1);
    }
    assert_raw(&rt, b"\xc0!", 0, 0);
    assert_raw(&rt, b"", 2, 1);
    assert_raw(&rt, b"\x02ab", 2, 1);
}

/// Asserts that a truth value is found, 1 or 0, or none.
fn assert_bool(rt: &impl Abort, bytes: &[u8], wanted: (u32, u64)) {
    let found = match bool_at_hand(bytes) {
        Some((flag, rest)) => Some((u64::from(flag), rest)),
        None => None,
    };
    assert_found(rt, bytes, found, wanted);
}

#[test]
fn a_truth_value_at_hand_is_found_with_what_is_behind_it(rt: HostRuntime) {
    assert_bool(&rt, b"\xc0!", (0, 0));
    assert_bool(&rt, b"\xc2!", (0, 0));
    assert_bool(&rt, b"\xc3!", (0, 1));
    assert_bool(&rt, b"", (1, 0));
    assert_bool(&rt, b"\x00", (1, 0));
    assert_bool(&rt, b"\xc1", (1, 0));
}

/// Asserts that these bytes are pulled, then this many are skipped, or are not, and what is at hand
/// then.
fn assert_passes(rt: &impl Abort, inlet: &mut impl Inlet, steps: &[(&[u8], usize, bool, &[u8])]) {
    for (pulled, count, passes, at_hand) in steps {
        assert_pull(rt, inlet, pulled, 0);
        let passed = u64::from(inlet.pass(*count));
        assert_answer(rt, (0, passed), (0, u64::from(*passes)), at_hand);
        assert_bytes(rt, inlet.at_hand(), at_hand);
    }
}

#[test]
fn bytes_in_memory_are_at_hand_until_they_are_passed(rt: HostRuntime) {
    let steps = [
        (b"".as_slice(), 1, true, b"bcd".as_slice()),
        (b"", 4, false, b"bcd"),
        (b"", 3, true, b""),
    ];
    assert_passes(&rt, &mut SliceInlet::new(b"abcd"), &steps);
}

#[test]
fn of_a_stop_inlet_nothing_is_at_hand(rt: HostRuntime) {
    let mut inlet = StopInlet::new(b"ab", 9);
    assert_bytes(&rt, inlet.at_hand(), b"");
    assert_passes(&rt, &mut inlet, &[(b"", 1, false, b"")]);
    assert_pull(&rt, &mut inlet, b"ab", 0);
}

#[test]
fn of_a_reader_the_rest_of_its_buffer_is_at_hand(rt: HostRuntime) {
    let mut reader = Pieces::new(b"0123456", 4);
    let mut inlet = FromRead::new(&mut reader);
    assert_bytes(&rt, inlet.at_hand(), b"");
    let steps = [
        (b"".as_slice(), 1, false, b"".as_slice()),
        (b"0", 0, true, b"123"),
        (b"", 4, false, b"123"),
        (b"", 2, true, b"3"),
        (b"", 1, true, b""),
        (b"4", 0, true, b"56"),
    ];
    assert_passes(&rt, &mut inlet, &steps);
    assert_answer(&rt, (0, u64::from(reader.reads)), (0, 2), b"reads");
}
