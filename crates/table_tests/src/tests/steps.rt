//! A stream that is read step by step.

use super::streams::{SUSPECTED, SUSPECTED_LISTING};
use super::{assert_lists, assert_that};
use std::alloc::{AllocError, Global};
use std::process::Abort;
use swim_pack::SliceInlet;
use swim_table::{Step, StreamReader};
use swim_wire::WireFault;

/// The reader after a step that reads a record.
fn next(rt: &impl Abort, step: Step) -> StreamReader {
    match step {
        Step::More(reader) => reader,
        Step::End(..) => panic!(rt; "the stream ends before its records"),
    }
}

/// Asserts that the reader has read the header of two records, and no record.
fn assert_begun(rt: &impl Abort, reader: &StreamReader) {
    let header = reader.header();
    let begun = header.nodes == 2
        && header.user_len == 0
        && !header.join
        && reader.left() == 2
        && reader.table().is_empty();
    assert_that(rt, begun, "the header is read alone");
}

/// Asserts that this many records are left, and that the table has this listing.
fn assert_read(
    rt: &impl Abort,
    alloc: Global,
    reader: &StreamReader,
    left: u32,
    listing: &str,
) -> Result<(), AllocError> {
    assert_that(rt, reader.left() == left, "the records left");
    assert_lists(rt, alloc, reader.table(), listing)
}

/// The reader after a step that reads a record. Asserts that this many are left then, and that the
/// table has this listing.
fn read_record(
    rt: &impl Abort,
    alloc: Global,
    step: Step,
    left: u32,
    listing: &str,
) -> Result<StreamReader, AllocError> {
    let reader = next(rt, step);
    assert_read(rt, alloc, &reader, left, listing)?;
    Ok(reader)
}

/// Asserts that the step is the end of a stream without the join flag, and that the table has this
/// listing.
fn assert_end(rt: &impl Abort, alloc: Global, step: Step, listing: &str) -> Result<(), AllocError> {
    match step {
        Step::More(_) => panic!(rt; "a third record is read"),
        Step::End(table, join) => {
            assert_that(rt, !join, "the flag");
            assert_lists(rt, alloc, &table, listing)
        }
    }
}

/// Reads the stream of a Suspect step by step.
fn read_by_steps(rt: &impl Abort, alloc: Global) -> Result<(), WireFault> {
    let mut inlet = SliceInlet::new(SUSPECTED);
    let begun = StreamReader::begin(alloc, &mut inlet)?;
    assert_begun(rt, &begun);
    let step = begun.step(&mut inlet)?;
    let one = read_record(rt, alloc, step, 1, "a alive 4 4/7f000001/7947//\n")?;
    let step = one.step(&mut inlet)?;
    let two = read_record(rt, alloc, step, 0, SUSPECTED_LISTING)?;
    assert_end(rt, alloc, two.step(&mut inlet)?, SUSPECTED_LISTING)?;
    assert_that(rt, inlet.rest().is_empty(), "all is read");
    Ok(())
}

/// If memory is refused, the reader is gone, and the stream is read from its start.
#[test]
fn each_step_reads_one_record_and_the_last_one_the_end(rt: HostRuntime) -> Result<(), WireFault> {
    match read_by_steps(&rt, rt.alloc()) {
        Err(WireFault::Memory) => read_by_steps(&rt, rt.alloc()),
        answer => answer,
    }
}
