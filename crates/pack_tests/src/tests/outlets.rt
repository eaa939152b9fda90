//! Outlets into memory and over writers: what they take and where they fail.
//!
//! The result of a push is written as the number of its fault: 10 if out of memory, 29 at a
//! failure.

use crate::tests::fakes::{BROKEN, Refusal, Taker};
use crate::tests::{assert_answer, assert_bytes};
use std::alloc::Global;
use std::process::Abort;
use swim_pack::{Outlet, PushFault, StopOutlet, ToWrite, VecOutlet, write_whole};

fn push_number(pushed: Result<(), PushFault>) -> u32 {
    match pushed {
        Ok(()) => 0,
        Err(fault) => fault.number(),
    }
}

/// The result that pushing the bytes has to have.
fn assert_pushes(rt: &impl Abort, outlet: &mut impl Outlet, bytes: &[u8], fault: u32) {
    let found = push_number(outlet.push(bytes));
    assert_answer(rt, (found, 0), (fault, 0), bytes);
}

/// Pushes three bytes, once more if out of memory.
fn assert_takes(rt: &impl Abort, outlet: &mut VecOutlet) {
    let fault = push_number(outlet.push(b"abc"));
    if fault != 0 {
        assert_answer(rt, (fault, 0), (10, 0), b"abc");
        assert_bytes(rt, outlet.bytes(), b"");
        assert_pushes(rt, outlet, b"abc", 0);
    }
    assert_bytes(rt, outlet.bytes(), b"abc");
}

#[test]
fn a_push_that_is_refused_memory_writes_nothing(rt: HostRuntime) {
    assert_takes(&rt, &mut VecOutlet::new(rt.alloc()));
}

/// Pushes a byte, and returns 1 if out of memory, in which case nothing is pushed.
fn refusals(rt: &impl Abort, outlet: &mut StopOutlet) -> u64 {
    let len = outlet.bytes().len();
    let fault = push_number(outlet.push(b"a"));
    let grown = outlet.bytes().len().wrapping_sub(len);
    let wanted = if fault == 0 { (0, 1) } else { (10, 0) };
    assert_answer(rt, (fault, grown as u64), wanted, b"a");
    u64::from(fault != 0)
}

/// Asserts that the outlet fails, and takes nothing.
fn assert_stopped(rt: &impl Abort, outlet: &mut StopOutlet) {
    let len = outlet.bytes().len() as u64;
    assert_pushes(rt, outlet, b"a", 29);
    assert_pushes(rt, outlet, b"", 29);
    assert_answer(rt, (0, outlet.bytes().len() as u64), (0, len), b"a");
}

/// Asserts that an outlet which fails from this call on takes `good` bytes before. Returns for how
/// many of them memory was refused.
fn refusals_before(rt: &impl Abort, alloc: Global, calls: usize, good: u32) -> u64 {
    let mut outlet = StopOutlet::new(alloc, calls);
    let mut count = 0u64;
    for _ in 0..good {
        count = count.saturating_add(refusals(rt, &mut outlet));
    }
    assert_stopped(rt, &mut outlet);
    count
}

#[test]
fn a_stop_outlet_fails_from_its_call_on(rt: HostRuntime) {
    let mut count = 0u64;
    for (calls, good) in [(0, 0), (1, 0), (2, 1), (3, 2)] {
        count = count.saturating_add(refusals_before(&rt, rt.alloc(), calls, good));
    }
    // A run refuses at most one growth.
    assert_answer(&rt, (0, count.saturating_sub(1)), (0, 0), b"refusals");
}

/// Asserts that a writer which takes at most `most` bytes in each write gets all of them.
fn assert_gets_all(rt: &impl Abort, most: usize) {
    let mut writer = Taker::new(most);
    let mut outlet = ToWrite::new(&mut writer);
    assert_pushes(rt, &mut outlet, b"abc", 0);
    assert_pushes(rt, &mut outlet, b"", 0);
    let fault = push_number(write_whole(&mut writer, b"defgh"));
    assert_answer(rt, (fault, 0), (0, 0), b"defgh");
    assert_bytes(rt, &writer.taken, b"abcdefgh");
}

#[test]
fn a_writer_gets_all_bytes_however_few_it_takes(rt: HostRuntime) {
    for most in 1..7 {
        assert_gets_all(&rt, most);
    }
}

/// Asserts that a push to the writer has this fault. Returns how many bytes the writer got.
fn taken(rt: &impl Abort, mut writer: Taker, bytes: &[u8], fault: u32) -> u64 {
    assert_pushes(rt, &mut ToWrite::new(&mut writer), bytes, fault);
    writer.len as u64
}

/// Asserts that a push to a writer with this refusal takes `good` bytes before and then fails, and
/// so does a write of all the bytes at once.
fn assert_refused(rt: &impl Abort, refusal: Refusal, good: u32) {
    let len = taken(rt, Taker::refusing(refusal, good), b"abcde", 29);
    assert_answer(rt, (0, len), (0, u64::from(good)), b"pushed");
    let mut writer = Taker::refusing(refusal, good);
    let fault = push_number(write_whole(&mut writer, b"abcde"));
    assert_answer(
        rt,
        (fault, writer.len as u64),
        (29, u64::from(good)),
        b"written",
    );
}

#[test]
fn a_writer_that_takes_nothing_is_a_fault(rt: HostRuntime) {
    for good in 0..5 {
        assert_refused(&rt, Refusal::Nothing, good);
    }
}

#[test]
fn each_error_of_a_writer_but_an_interruption_is_a_fault_at_once(rt: HostRuntime) {
    for kind in BROKEN {
        assert_refused(&rt, Refusal::Error(kind), 2);
    }
}

#[test]
fn a_writer_may_be_interrupted_a_thousand_times_a_push(rt: HostRuntime) {
    for (first, second, fault, len) in [
        (1000, 0, 0, 2),
        (0, 1000, 0, 2),
        (501, 499, 0, 2),
        (1001, 0, 29, 0),
        (0, 1001, 29, 1),
        (501, 500, 29, 1),
        (501, 501, 29, 1),
    ] {
        let got = taken(&rt, Taker::interrupted(first, second), b"ab", fault);
        assert_answer(&rt, (0, got), (0, len), b"taken");
    }
}

#[test]
fn interruptions_are_counted_anew_for_each_push(rt: HostRuntime) {
    let mut writer = Taker::interrupted(1000, 1000);
    let mut outlet = ToWrite::new(&mut writer);
    for byte in [b"a", b"b", b"c"] {
        assert_pushes(&rt, &mut outlet, byte, 0);
    }
    assert_pushes(&rt, &mut outlet, b"de", 29);
    assert_bytes(&rt, &writer.taken, b"abcd\0\0\0\0");
}
