//! The numbers and texts of the faults.

use crate::tests::{assert_answer, assert_bytes};
use std::alloc::{AllocError, Global};
use std::fmt::Display;
use std::process::Abort;
use std::test::Fail;
use swim_pack::{PackFault, PullFault, PushFault};

fn assert_number(rt: &impl Abort, number: u32, wanted: u32) {
    assert_answer(rt, (number, 0), (wanted, 0), b"");
}

#[test]
fn each_fault_has_its_number(rt: HostRuntime) {
    assert_number(&rt, PullFault::Ended.number(), 1);
    assert_number(&rt, PullFault::Fault.number(), 9);
    assert_number(&rt, PushFault::Memory.number(), 10);
    assert_number(&rt, PushFault::Fault.number(), 29);
    for (fault, number) in [
        (PackFault::Ended, 1),
        (PackFault::NotUnsigned, 2),
        (PackFault::OutOfRange, 3),
        (PackFault::NotBool, 4),
        (PackFault::NotRaw, 5),
        (PackFault::TooLong, 6),
        (PackFault::NotMap, 7),
        (PackFault::MapCount, 8),
        (PackFault::Fault, 9),
        (PackFault::Memory, 10),
    ] {
        assert_number(&rt, fault.number(), number);
    }
}

fn shown<T: Display>(alloc: Global, fault: &T) -> Result<String, AllocError> {
    format!(in alloc; "{fault}")
}

/// Asserts that the fault is displayed as this text, tried once more if out of memory.
fn assert_shows<T: Display>(
    rt: &impl Abort,
    alloc: Global,
    fault: &T,
    wanted: &str,
) -> Result<(), AllocError> {
    let text = match shown(alloc, fault) {
        Err(_) => shown(alloc, fault)?,
        Ok(text) => text,
    };
    assert_bytes(rt, text.as_bytes(), wanted.as_bytes());
    Ok(())
}

#[test]
fn each_fault_has_its_text(rt: HostRuntime) -> Result<(), Fail> {
    let alloc = rt.alloc();
    for (fault, text) in [
        (PackFault::Ended, "the input ends too early"),
        (
            PackFault::NotUnsigned,
            "expected a number that is not negative",
        ),
        (PackFault::OutOfRange, "the number is too large"),
        (PackFault::NotBool, "expected true or false"),
        (PackFault::NotRaw, "expected text or bytes"),
        (PackFault::TooLong, "the text or bytes are too long"),
        (PackFault::NotMap, "expected a map"),
        (PackFault::MapCount, "the map has too many entries"),
        (PackFault::Fault, "the input could not be read"),
        (PackFault::Memory, "out of memory"),
    ] {
        assert_shows(&rt, alloc, &fault, text)?;
    }
    assert_shows(&rt, alloc, &PullFault::Ended, "the input ends too early")?;
    assert_shows(&rt, alloc, &PullFault::Fault, "the input could not be read")?;
    assert_shows(
        &rt,
        alloc,
        &PushFault::Fault,
        "the output could not be written",
    )?;
    assert_shows(&rt, alloc, &PushFault::Memory, "out of memory")?;
    Ok(())
}
