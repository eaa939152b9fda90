//! The numbers and texts of the faults.

use std::alloc::{AllocError, Global};
use std::process::Abort;
use swim_pack::PushFault;
use swim_sync::{SyncFault, Why};
use swim_table::EncodeFault;
use swim_wire::WireFault;

/// Asserts a number and a text.
fn assert_shown(rt: &impl Abort, found: (u32, &str), wanted: (u32, &str)) {
    assert_eq!(rt; found, wanted);
}

fn assert_fault(rt: &impl Abort, found: SyncFault, wanted: SyncFault) {
    assert_eq!(rt; found, wanted);
}

fn assert_number(rt: &impl Abort, fault: SyncFault, number: u32) {
    assert_eq!(rt; fault.number(), number);
}

fn assert_shows(
    rt: &impl Abort,
    alloc: Global,
    fault: SyncFault,
    number: u32,
    text: &str,
) -> Result<(), AllocError> {
    let shown = format!(in alloc; "{fault}")?;
    assert_shown(rt, (fault.number(), shown.as_str()), (number, text));
    Ok(())
}

#[test]
fn each_fault_has_its_number_and_text(rt: HostRuntime) -> Result<(), AllocError> {
    let alloc = rt.alloc();
    let many = "the table has more than 131,072 records";
    assert_shows(&rt, alloc, SyncFault::TooManyRecords, 23, many)?;
    let push = "the output could not be written";
    assert_shows(&rt, alloc, SyncFault::Push, 29, push)?;
    assert_shows(&rt, alloc, SyncFault::Memory, 10, "out of memory")?;
    let ended = "the stream of the other member was refused: the input ends too early";
    assert_shows(&rt, alloc, SyncFault::Wire(WireFault::Ended), 1, ended)?;
    let failed = SyncFault::Wire(WireFault::Fault);
    let text = "the stream of the other member was refused: the input could not be read";
    assert_shows(&rt, alloc, failed, 9, text)?;
    assert_number(&rt, SyncFault::Wire(WireFault::WrongType { found: 9 }), 16);
    assert_number(&rt, SyncFault::Wire(WireFault::UserTooLong), 21);
    Ok(())
}

#[test]
fn want_of_memory_is_the_same_from_every_layer(rt: HostRuntime) {
    let memory = SyncFault::Memory;
    assert_fault(&rt, SyncFault::from(WireFault::Memory), memory);
    assert_fault(&rt, SyncFault::from(EncodeFault::Memory), memory);
    assert_fault(&rt, SyncFault::from(PushFault::Memory), memory);
    assert_fault(&rt, SyncFault::from(AllocError), memory);
    let ended = SyncFault::Wire(WireFault::Ended);
    assert_fault(&rt, SyncFault::from(WireFault::Ended), ended);
    let many = SyncFault::from(EncodeFault::TooManyRecords);
    assert_fault(&rt, many, SyncFault::TooManyRecords);
    assert_fault(&rt, SyncFault::from(PushFault::Fault), SyncFault::Push);
}

/// Asserts the number and the text of a cause.
fn assert_cause(
    rt: &impl Abort,
    alloc: Global,
    why: Why,
    number: u32,
    text: &str,
) -> Result<(), AllocError> {
    let shown = format!(in alloc; "{why}")?;
    assert_shown(rt, (why.number(), shown.as_str()), (number, text));
    Ok(())
}

#[test]
fn each_cause_of_a_stop_has_its_number_and_text(rt: HostRuntime) -> Result<(), AllocError> {
    for (why, number, text) in [
        (Why::NoSuchNode, 26, "there is no such node"),
        (Why::SameNode, 27, "a node cannot exchange with itself"),
        (
            Why::TooManyRecords,
            23,
            "a table has more than 131,072 records",
        ),
        (Why::Memory, 10, "out of memory"),
    ] {
        assert_cause(&rt, rt.alloc(), why, number, text)?;
    }
    Ok(())
}
