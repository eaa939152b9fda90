//! Streams whose inlet fails, or returns its bytes in pieces.

use super::streams::{SUSPECTED, SUSPECTED_LISTING};
use super::{assert_lists, assert_that};
use std::alloc::{AllocError, Global};
use std::io;
use std::io::Read;
use std::process::Abort;
use swim_pack::{FromRead, Inlet, StopInlet};
use swim_table::{Table, read_stream};
use swim_wire::WireFault;

/// Reads a stream from the inlet. If memory is refused, the second try reads it from the other one.
fn read_either<I: Inlet>(
    alloc: Global,
    inlet: &mut I,
    other: &mut I,
) -> Result<(Table, bool), WireFault> {
    match read_stream(alloc, inlet) {
        Err(WireFault::Memory) => read_stream(alloc, other),
        answer => answer,
    }
}

/// The table of a stream whose inlet fails at this call.
fn read_stopping(alloc: Global, calls: usize) -> Result<(Table, bool), WireFault> {
    let mut inlet = StopInlet::new(SUSPECTED, calls);
    let mut other = StopInlet::new(SUSPECTED, calls);
    read_either(alloc, &mut inlet, &mut other)
}

/// Whether the stream is read from an inlet that fails at this call. If not, the fault must be the
/// reason.
fn is_read(rt: &impl Abort, alloc: Global, calls: usize) -> Result<bool, AllocError> {
    match read_stopping(alloc, calls) {
        Ok((table, _)) => {
            assert_lists(rt, alloc, &table, SUSPECTED_LISTING)?;
            Ok(true)
        }
        Err(fault) => {
            assert_that(rt, fault == WireFault::Fault, "another fault");
            Ok(false)
        }
    }
}

#[test]
fn an_inlet_that_fails_at_any_call_is_a_fault(rt: HostRuntime) -> Result<(), AllocError> {
    for calls in 1..200 {
        if is_read(&rt, rt.alloc(), calls)? {
            return Ok(());
        }
    }
    panic!(rt; "the stream is read at no number of calls")
}

/// A reader that returns at most this many of its bytes in one read.
#[derive(Drop)]
struct Pieces<'a> {
    bytes: &'a [u8],
    most: usize,
}

impl<'a> Pieces<'a> {
    fn new(bytes: &'a [u8], most: usize) -> Pieces<'a> {
        Pieces { bytes, most }
    }
}

impl Read for Pieces<'_> {
    fn read(&mut self, buf: &mut [u8]) -> io::Result<usize> {
        let count = self.most.min(buf.len()).min(self.bytes.len());
        let (front, rest) = self.bytes.split_at(count);
        buf[..count].copy_from_slice(front);
        self.bytes = rest;
        Ok(count)
    }
}

/// The table and the flag of a stream that comes in pieces of at most this many bytes.
fn read_in_pieces(alloc: Global, most: usize) -> Result<(Table, bool), WireFault> {
    let mut inlet = FromRead::new(Pieces::new(SUSPECTED, most));
    let mut other = FromRead::new(Pieces::new(SUSPECTED, most));
    read_either(alloc, &mut inlet, &mut other)
}

fn assert_read_in_pieces(rt: &impl Abort, alloc: Global, most: usize) -> Result<(), WireFault> {
    let (table, join) = read_in_pieces(alloc, most)?;
    assert_that(rt, !join, "the flag");
    assert_lists(rt, alloc, &table, SUSPECTED_LISTING)?;
    Ok(())
}

#[test]
fn a_stream_in_pieces_of_any_size_is_read(rt: HostRuntime) -> Result<(), WireFault> {
    for most in 1..=SUSPECTED.len() {
        assert_read_in_pieces(&rt, rt.alloc(), most)?;
    }
    Ok(())
}
