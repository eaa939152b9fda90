//! Headers and state records of push/pull streams.

use super::{assert_claim, assert_count, assert_fault};
use std::alloc::Global;
use std::process::Abort;
use std::test::Fail;
use swim_claim::Kind;
use swim_pack::{SliceInlet, StopInlet};
use swim_wire::{Header, WireFault, read_header, read_record, read_state};

/// A header that announces two members.
const HEADER: &[u8] = b"\x06\x83\xa4Join\xc2\xa5Nodes\x02\xacUserStateLen\0";

/// The record of `a`, alive at incarnation 4, at 127.0.0.1 and port 7947.
const ALIVE: &[u8] =
    b"\x87\xa4Addr\xa4\x7f\0\0\x01\xabIncarnation\x04\xa4Meta\xa0\xa4Name\xa1a\xa4Port\xcd\x1f\x0b\xa5State\0\xa3Vsn\xa0";

/// A record of `b` that is dead at incarnation 2, with an address.
const DEAD: &[u8] =
    b"\x85\xa4Name\xa1b\xa4Addr\xa4\x7f\0\0\x01\xa4Meta\xa2\xab\xcd\xabIncarnation\x02\xa5State\x02";

/// A record of `c` that left at incarnation 3.
const LEFT: &[u8] = b"\x83\xa4Name\xa1c\xabIncarnation\x03\xa5State\x03";

/// Asserts that the bytes are this header.
fn assert_header(rt: &impl Abort, bytes: &[u8], wanted: Header) -> Result<(), Fail> {
    let header = read_header(&mut SliceInlet::new(bytes))?;
    assert!(rt; header == wanted, "{bytes:?}");
    Ok(())
}

/// Why the bytes are not a header.
fn header_fault(bytes: &[u8]) -> Option<WireFault> {
    read_header(&mut SliceInlet::new(bytes)).err()
}

#[test]
fn a_header_is_read_with_its_parts(rt: HostRuntime) -> Result<(), Fail> {
    for (bytes, nodes, user_len, join) in [
        (HEADER, 2, 0, false),
        (b"\x06\x82\xa5Nodes\x01\xa4Join\xc3", 1, 0, true),
        (b"\x06\x82\xa5Nodes\0\xacUserStateLen\x05\x01", 0, 5, false),
    ] {
        let wanted = Header {
            nodes,
            user_len,
            join,
        };
        assert_header(&rt, bytes, wanted)?;
    }
    Ok(())
}

#[test]
fn a_header_is_refused_by_its_first_fault(rt: HostRuntime) -> Result<(), Fail> {
    for (bytes, fault) in [
        (b"".as_slice(), WireFault::Ended),
        (b"\x04", WireFault::WrongType { found: 4 }),
        (b"\x06\x81\xa4Join\0", WireFault::NotBool),
        (b"\x06\x84", WireFault::MapCount),
        (
            b"\x06\x83\xa4Join\xc2\xa5Nodes\xce\0\x02\0\x01\xacUserStateLen\0",
            WireFault::TooManyNodes,
        ),
        (
            b"\x06\x83\xa4Join\xc2\xa5Nodes\0\xacUserStateLen\xce\x01\x40\0\x01",
            WireFault::UserTooLong,
        ),
    ] {
        assert_fault(&rt, header_fault(bytes), fault, bytes)?;
    }
    Ok(())
}

/// Asserts that a record is read to its end as this claim.
fn assert_record(
    rt: &impl Abort,
    alloc: Global,
    bytes: &[u8],
    kind: Kind,
    name: &[u8],
    inc: u32,
) -> Result<(), Fail> {
    let mut inlet = SliceInlet::new(bytes);
    let claim = read_state(alloc, &mut inlet)?;
    assert_claim(rt, &claim, kind, name, inc);
    assert_count(rt, inlet.rest().len(), 0);
    Ok(())
}

#[test]
fn a_state_record_is_read_by_its_state(rt: HostRuntime) -> Result<(), Fail> {
    for (bytes, kind, name, inc) in [
        (ALIVE, Kind::Alive, b"a", 4),
        (DEAD, Kind::Confirm, b"b", 2),
        (LEFT, Kind::Leave, b"c", 3),
    ] {
        assert_record(&rt, rt.alloc(), bytes, kind, name, inc)?;
    }
    Ok(())
}

/// Asserts that the record tells this address, or none.
fn assert_told(
    rt: &impl Abort,
    alloc: Global,
    bytes: &[u8],
    wanted: Option<&[u8]>,
) -> Result<(), Fail> {
    let read = read_record(alloc, &mut SliceInlet::new(bytes))?;
    assert_eq!(rt;
        read.told.as_ref().map(|told| told.addr()),
        wanted,
        "{bytes:?}"
    );
    Ok(())
}

#[test]
fn a_record_tells_the_details_of_one_that_is_not_alive(rt: HostRuntime) -> Result<(), Fail> {
    assert_told(&rt, rt.alloc(), DEAD, Some(b"\x7f\0\0\x01"))?;
    assert_told(&rt, rt.alloc(), LEFT, None)?;
    assert_told(&rt, rt.alloc(), ALIVE, None)
}

/// Why the bytes are not a record.
fn record_fault(alloc: Global, bytes: &[u8]) -> Option<WireFault> {
    read_state(alloc, &mut SliceInlet::new(bytes)).err()
}

#[test]
fn a_state_record_is_refused_by_its_first_fault(rt: HostRuntime) -> Result<(), Fail> {
    for (bytes, fault) in [
        (
            b"\x82\xa4Name\xa1d\xa5State\x04".as_slice(),
            WireFault::BadState { found: 4 },
        ),
        (b"\x81\xa5State\x04", WireFault::NameEmpty),
        (b"\x81\xa4Name\xa1d", WireFault::BadAddress),
        (
            b"\x83\xa4Name\xa1d\xa4Addr\xa4\x7f\0\0\x01\xa3Vsn\xa1\0",
            WireFault::BadVersions,
        ),
        (b"\x88", WireFault::MapCount),
    ] {
        assert_fault(&rt, record_fault(rt.alloc(), bytes), fault, bytes)?;
    }
    Ok(())
}

/// The fault of a record from an inlet that fails at this call.
fn stopped_record(alloc: Global, calls: usize) -> Option<WireFault> {
    read_state(alloc, &mut StopInlet::new(LEFT, calls)).err()
}

/// The fault of a header from an inlet that fails at this call.
fn stopped_header(calls: usize) -> Option<WireFault> {
    read_header(&mut StopInlet::new(HEADER, calls)).err()
}

/// The fault by its number, or 0.
fn number_of(fault: Option<WireFault>) -> u32 {
    match fault {
        Some(fault) => fault.number(),
        None => 0,
    }
}

/// Whether the fault of the record is that of its inlet or out of memory, and that of the header is
/// that of its inlet.
fn is_that_of_the_end(record: u32, header: u32) -> bool {
    (record == 9 || record == 10) && header == 9
}

/// Asserts that a record and a header are refused for the fault of their inlet.
fn assert_fails(
    rt: &impl Abort,
    record: Option<WireFault>,
    header: Option<WireFault>,
    calls: usize,
) {
    let fails = is_that_of_the_end(number_of(record), number_of(header));
    assert!(rt; fails, "at call {calls}");
}

#[test]
fn a_failing_end_is_a_fault_at_each_call(rt: HostRuntime) {
    for calls in 1..12 {
        let record = stopped_record(rt.alloc(), calls);
        assert_fails(&rt, record, stopped_header(calls), calls);
    }
    assert!(rt; read_header(&mut StopInlet::new(HEADER, 12)).is_ok());
}
