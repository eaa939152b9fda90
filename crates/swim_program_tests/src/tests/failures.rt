//! Why a program ends.

use std::alloc::Global;
use std::io::{Error, ErrorKind};
use std::process::Abort;
use swim_program::{Failure, begins_as_capture, file_bytes};

/// Asserts whether an error of this kind from reading the words is reported as out of memory.
fn assert_of_memory(rt: &impl Abort, kind: ErrorKind, wanted: bool) {
    let failure = Failure::from(Error::from(kind));
    assert_eq!(rt; matches!(failure, Failure::Memory), wanted);
    assert_eq!(rt; matches!(failure, Failure::UnreadableWords), !wanted);
}

#[test]
fn words_that_find_no_memory_are_no_unreadable_words(rt: HostRuntime) {
    assert_of_memory(&rt, ErrorKind::OutOfMemory, true);
    assert_of_memory(&rt, ErrorKind::InvalidData, false);
    assert_of_memory(&rt, ErrorKind::InvalidInput, false);
}

/// Asserts that a failure prints this text and ends with status 4, or that memory ran out.
fn assert_told(rt: &impl Abort, failure: Failure, wanted: &str) {
    match failure {
        Failure::Refused { text, status } => {
            assert_eq!(rt; text.as_str(), wanted);
            assert_eq!(rt; status, 4);
        }
        Failure::Memory => {}
        _ => panic!(rt; "{wanted}: another failure"),
    }
}

/// The failure of a device with this error.
fn failure_of(alloc: Global, kind: ErrorKind) -> Failure {
    Failure::device(alloc, "swimunwrap", "a.flow", &Error::from(kind))
}

#[test]
fn a_device_fault_tells_the_cause(rt: HostRuntime) {
    let failure = failure_of(rt.alloc(), ErrorKind::IsADirectory);
    assert_told(
        &rt,
        failure,
        "swimunwrap: a.flow: device fault (is a directory)",
    );
    let failure = failure_of(rt.alloc(), ErrorKind::OutOfMemory);
    assert!(rt; matches!(failure, Failure::Memory));
}

#[test]
fn a_failure_may_have_a_further_line(rt: HostRuntime) {
    let failure = failure_of(rt.alloc(), ErrorKind::IsADirectory).with_line(rt.alloc(), "next");
    let wanted = "swimunwrap: a.flow: device fault (is a directory)\nnext";
    assert_told(&rt, failure, wanted);
    assert!(rt;
        matches!(
            Failure::Closed.with_line(rt.alloc(), "next"),
            Failure::Closed
        )
    );
}

#[test]
fn files_that_are_not_there_and_directories_are_named_with_the_cause(rt: HostRuntime) {
    for (file, wanted) in [
        (
            "",
            "swimunwrap: : device fault (No such file or directory (os error 2))",
        ),
        ("/", "swimunwrap: /: device fault (is a directory)"),
    ] {
        if let Err(failure) = file_bytes(&rt, "swimunwrap", file) {
            assert_told(&rt, failure, wanted);
        } else {
            panic!(rt; "{file}: it was read");
        }
    }
    if let Ok(bytes) = file_bytes(&rt, "swimunwrap", "/dev/null") {
        assert!(rt; bytes.is_empty());
    }
}

#[test]
fn a_capture_is_known_by_its_first_bytes(rt: HostRuntime) {
    for (bytes, wanted) in [
        (b"\xa1\xb2\xc3\xd4\x00".as_slice(), true),
        (b"\xd4\xc3\xb2\xa1", true),
        (b"\xa1\xb2\x3c\x4d", true),
        (b"\x4d\x3c\xb2\xa1", true),
        (b"\n\r\r\n", true),
        (b"\xa1\xb2\xc3", false),
        (b"\xa1\xb2\xb2\xa1", false),
        (b"0405", false),
        (b"", false),
    ] {
        assert_eq!(rt; begins_as_capture(bytes), wanted, "{bytes:?}");
    }
}
