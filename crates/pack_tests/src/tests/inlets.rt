//! Inlets over memory and over readers: what they return, where they end and where they fail.
//!
//! A pull is written as the bytes that it has to return and 0, or as a number of bytes and the
//! number of its fault: 1 at an end, 9 at a failure.

use crate::tests::fakes::{BROKEN, Pieces};
use crate::tests::{assert_answer, assert_bytes, assert_pull, assert_pulls, pull_number};
use std::io::ErrorKind;
use std::process::Abort;
use swim_pack::{FromRead, Inlet, SliceInlet, StopInlet};

#[test]
fn bytes_in_memory_come_in_order_and_then_end(rt: HostRuntime) {
    let mut inlet = SliceInlet::new(b"abc");
    assert_pulls(&rt, &mut inlet, &[(b"ab", 0), (b"..", 1)]);
    assert_bytes(&rt, inlet.rest(), b"c");
    assert_pulls(&rt, &mut inlet, &[(b"c", 0), (b".", 1), (b"", 0)]);
}

/// Asserts that an inlet which fails from this call on returns the bytes before, each after a pull
/// of nothing.
fn assert_stops(rt: &impl Abort, calls: usize, good: &[u8]) {
    let mut inlet = StopInlet::new(b"abcd", calls);
    for byte in good {
        assert_pulls(rt, &mut inlet, &[(b"", 0), (&[*byte], 0)]);
    }
    assert_pulls(rt, &mut inlet, &[(b"", 0), (b".", 9), (b".", 9)]);
}

#[test]
fn a_stop_inlet_fails_from_its_call_on(rt: HostRuntime) {
    assert_stops(&rt, 0, b"");
    assert_stops(&rt, 1, b"");
    assert_stops(&rt, 2, b"a");
    assert_stops(&rt, 3, b"ab");
    assert_pull(&rt, &mut StopInlet::new(b"a", 2), b"..", 1);
}

/// Asserts that an inlet over a reader answers pulls while it is unbroken, and then more, which
/// leave it unbroken or do not. Returns how often the reader was read.
fn asked(
    rt: &impl Abort,
    mut reader: Pieces<'_>,
    good: &[(&[u8], u32)],
    more: &[(&[u8], u32)],
    unbroken: bool,
) -> u32 {
    let mut inlet = FromRead::new(&mut reader);
    assert_pulls(rt, &mut inlet, good);
    assert_answer(rt, (0, u64::from(inlet.unbroken())), (0, 1), b"at first");
    assert_pulls(rt, &mut inlet, more);
    let left = u64::from(inlet.unbroken());
    assert_answer(rt, (0, left), (0, u64::from(unbroken)), b"at last");
    reader.reads
}

/// Asserts that the reader was read this often.
fn assert_asked(rt: &impl Abort, found: u32, wanted: u64) {
    assert_answer(rt, (0, u64::from(found)), (0, wanted), b"asked");
}

#[test]
fn a_reader_gives_its_bytes_in_pieces_of_any_size(rt: HostRuntime) {
    for most in 1..8 {
        let reader = Pieces::new(b"0123456789", most);
        let pulls = [(b"012".as_slice(), 0), (b"3456789", 0), (b"", 0), (b".", 1)];
        let _ = asked(&rt, reader, &pulls, &[], true);
    }
}

#[test]
fn a_reader_is_asked_only_where_the_buffer_is_empty(rt: HostRuntime) {
    let reader = Pieces::new(&[7; 5000], usize::MAX);
    let pulls = [(b"\x07".as_slice(), 0); 5000];
    assert_asked(&rt, asked(&rt, reader, &pulls, &[], true), 2);
}

#[test]
fn a_reader_may_be_interrupted_a_thousand_times_a_pull(rt: HostRuntime) {
    for (first, second, fault, unbroken) in [
        (0, 0, 0, true),
        (1, 0, 0, false),
        (1000, 0, 0, false),
        (501, 499, 0, false),
        (1001, 0, 9, false),
        (501, 500, 9, false),
    ] {
        let reader = Pieces::interrupted(b"ab", first, second);
        let _ = asked(&rt, reader, &[], &[(b"ab", fault)], unbroken);
    }
}

#[test]
fn interruptions_are_counted_for_each_pull(rt: HostRuntime) {
    let reader = Pieces::interrupted(b"abcd", 600, 600);
    let _ = asked(&rt, reader, &[], &[(b"a", 0), (b"b", 0)], false);
    let mut inlet = FromRead::new(Pieces::interrupted(b"abcd", 600, 600));
    assert_pull(&rt, &mut inlet, b"..", 9);
    let found = pull_number(inlet.pull(&mut [0]));
    assert_answer(&rt, (found, 0), (0, 0), b"behind it");
}

#[test]
fn each_other_error_of_a_reader_is_a_fault_at_once(rt: HostRuntime) {
    for kind in BROKEN {
        let reader = Pieces::failing(b"", 1, kind);
        assert_asked(&rt, asked(&rt, reader, &[], &[(b".", 9)], false), 1);
    }
}

#[test]
fn a_reader_that_fails_in_mid_stream_is_a_fault(rt: HostRuntime) {
    let pulls = [(b"a".as_slice(), 0), (b"...", 9), (b"", 0), (b".", 9)];
    // It is broken at the fault, and it stays so.
    for end in [2, 4] {
        let reader = Pieces::failing(b"abc", 2, ErrorKind::ConnectionReset);
        let _ = asked(&rt, reader, &pulls[..1], &pulls[1..end], false);
    }
}
