//! Packets by their bytes.

mod at_hand;
mod both_ways;
mod canonical;
mod claimless;
mod compressions;
mod datagrams;
mod streams;

use std::alloc::Global;
use std::process::Abort;
use std::test::Fail;
use swim_claim::{Claim, Kind, Name};
use swim_wire::{Packet, WireFault, decode_packet};

/// An Alive of `a` at incarnation 0, at 127.0.0.1 and port 7946.
const ALIVE: &[u8] =
    b"\x04\x86\xa4Addr\xa4\x7f\0\0\x01\xabIncarnation\0\xa4Meta\xa0\xa4Node\xa1a\xa4Port\xcd\x1f\x0a\xa3Vsn\xa0";

/// A Suspect of `b` at incarnation 1, made by `x`.
const SUSPECT: &[u8] = b"\x03\x83\xa4From\xa1x\xabIncarnation\x01\xa4Node\xa1b";

/// A Confirm of `a` at incarnation 0, made by `x`.
const CONFIRM: &[u8] = b"\x05\x83\xa4From\xa1x\xabIncarnation\0\xa4Node\xa1a";

/// A Leave of `a` at incarnation 2.
const LEAVE: &[u8] = b"\x05\x83\xa4From\xa1a\xabIncarnation\x02\xa4Node\xa1a";

/// Asserts that the bytes are the expected ones.
fn assert_bytes(rt: &impl Abort, found: &[u8], wanted: &[u8]) {
    assert_eq!(rt; found, wanted);
}

/// Asserts that the count is the expected one.
fn assert_count(rt: &impl Abort, found: usize, wanted: usize) {
    assert_eq!(rt; found, wanted);
}

/// Asserts that the bytes were refused for this fault. Running out of memory is an error of the
/// test.
fn assert_fault(
    rt: &impl Abort,
    found: Option<WireFault>,
    wanted: WireFault,
    bytes: &[u8],
) -> Result<(), Fail> {
    if found == Some(WireFault::Memory) {
        return Err(Fail::from(WireFault::Memory));
    }
    assert_eq!(rt; found, Some(wanted), "{bytes:?}");
    Ok(())
}

/// Asserts that exactly these bytes were written.
fn assert_written(rt: &impl Abort, found: Vec<u8>, wanted: &[u8]) {
    assert_bytes(rt, &found, wanted);
}

/// Asserts by its number that the refusal is out of memory.
fn assert_want_of_memory(rt: &impl Abort, fault: WireFault) {
    assert_count(rt, fault.number() as usize, 10);
}

/// Whether the claim has this kind, name and incarnation.
fn is_claim(claim: &Claim, kind: Kind, name: &[u8], inc: u32) -> bool {
    claim.kind() == kind && claim.name().bytes() == name && claim.inc() == inc
}

/// Asserts that the claim has this kind, name and incarnation.
fn assert_claim(rt: &impl Abort, claim: &Claim, kind: Kind, name: &[u8], inc: u32) {
    assert!(rt; is_claim(claim, kind, name, inc), "about {name:?}");
}

/// Asserts that a packet with these parts is read.
fn assert_packet(
    rt: &impl Abort,
    alloc: Global,
    bytes: &[u8],
    kind: Kind,
    name: &[u8],
    inc: u32,
    from: &str,
) -> Result<(), Fail> {
    let packet = decode_packet(alloc, bytes)?;
    assert_bytes(rt, packet.from_name(), from.as_bytes());
    assert_claim(rt, &packet.into_claim(), kind, name, inc);
    Ok(())
}

#[test]
fn a_packet_is_read_with_its_parts(rt: HostRuntime) -> Result<(), Fail> {
    for (bytes, kind, name, inc, from) in [
        (ALIVE, Kind::Alive, b"a", 0, ""),
        (SUSPECT, Kind::Suspect, b"b", 1, "x"),
        (CONFIRM, Kind::Confirm, b"a", 0, "x"),
        (LEAVE, Kind::Leave, b"a", 2, "a"),
    ] {
        assert_packet(&rt, rt.alloc(), bytes, kind, name, inc, from)?;
    }
    Ok(())
}

/// Whether the details are 127.0.0.1 and port 7946, and no more.
fn is_plain(claim: &Claim) -> bool {
    let Some(details) = claim.details() else {
        return false;
    };
    details.addr() == [127, 0, 0, 1].as_slice()
        && details.port() == 7946
        && details.meta().is_empty()
        && details.vsn().is_empty()
}

/// Asserts that the claim has the details 127.0.0.1 and port 7946, and no more.
fn assert_plain(rt: &impl Abort, claim: &Claim) {
    assert!(rt; is_plain(claim));
}

#[test]
fn an_alive_packet_has_the_details(rt: HostRuntime) -> Result<(), Fail> {
    assert_plain(&rt, decode_packet(rt.alloc(), ALIVE)?.claim());
    Ok(())
}

/// A Suspect of `b` at incarnation 1, made by `x`.
fn suspect(alloc: Global) -> Result<Packet, Fail> {
    let from = b"x".to_vec(alloc)?;
    let name = Name::new(b"b".to_vec(alloc)?)?;
    Ok(Packet::new(Claim::Suspect { name, inc: 1 }, from))
}

#[test]
fn a_packet_keeps_the_parts_that_it_is_made_of(rt: HostRuntime) -> Result<(), Fail> {
    let packet = suspect(rt.alloc())?;
    assert_claim(&rt, packet.claim(), Kind::Suspect, b"b", 1);
    assert_bytes(&rt, packet.from_name(), b"x");
    Ok(())
}

/// Asserts that the bytes are refused as a packet for this fault.
fn assert_refused(
    rt: &impl Abort,
    alloc: Global,
    bytes: &[u8],
    fault: WireFault,
) -> Result<(), Fail> {
    assert_fault(rt, decode_packet(alloc, bytes).err(), fault, bytes)
}

#[test]
fn a_cut_packet_is_refused_as_ended(rt: HostRuntime) -> Result<(), Fail> {
    for packet in [ALIVE, SUSPECT, CONFIRM, LEAVE] {
        for end in 0..packet.len() {
            assert_refused(&rt, rt.alloc(), &packet[..end], WireFault::Ended)?;
        }
    }
    Ok(())
}

#[test]
fn each_fault_has_its_number(rt: HostRuntime) -> Result<(), Fail> {
    for (bytes, fault, number) in [
        (b"".as_slice(), WireFault::Ended, 1),
        (b"\x03\x81\xabIncarnation\xff", WireFault::NotUnsigned, 2),
        (
            b"\x03\x81\xabIncarnation\xcf\0\0\0\x01\0\0\0\0",
            WireFault::OutOfRange,
            3,
        ),
        (b"\x03\x81\xa4Node\x01", WireFault::NotRaw, 5),
        (b"\x04\x81\xa4Meta\xda\x02\x01", WireFault::TooLong, 6),
        (b"\x03\x90", WireFault::NotMap, 7),
        (b"\x03\x84", WireFault::MapCount, 8),
        (b"\x03\x80", WireFault::NameEmpty, 11),
        (b"\x04\x81\xa4Node\xa1a", WireFault::BadAddress, 13),
        (
            b"\x04\x83\xa4Addr\xa4\x7f\0\0\x01\xa4Node\xa1a\xa3Vsn\xa3\x01\x02\x03",
            WireFault::BadVersions,
            15,
        ),
        (b"\x07", WireFault::WrongType { found: 7 }, 16),
        (b"\x03\x81\xa3Foo\xa0", WireFault::UnknownKey, 17),
        (
            b"\x03\x82\xa4Node\xa1a\xa4Node\xa1b",
            WireFault::DuplicateKey,
            18,
        ),
        (b"\x03\x81\xa4Node\xa1a\0", WireFault::Trailing, 22),
    ] {
        assert_refused(&rt, rt.alloc(), bytes, fault)?;
        assert_count(&rt, fault.number() as usize, number);
    }
    Ok(())
}

#[test]
fn want_of_memory_is_answered_as_such_and_then_repeated(rt: HostRuntime) -> Result<(), Fail> {
    if let Some(fault) = decode_packet(rt.alloc(), ALIVE).err() {
        assert_want_of_memory(&rt, fault);
        assert_packet(&rt, rt.alloc(), ALIVE, Kind::Alive, b"a", 0, "")?;
    }
    Ok(())
}

/// An Alive whose name has an announced length of 1,024 bytes, of which three are there.
const CUT_NAME: &[u8] = b"\x04\x81\xa4Node\xda\x04\0aaa";

/// The number of the fault of bytes that are not a packet, or 0.
fn refusal(alloc: Global, bytes: &[u8]) -> usize {
    match decode_packet(alloc, bytes) {
        Ok(_) => 0,
        Err(fault) => fault.number() as usize,
    }
}

/// Memory for a name is requested before its bytes are read. If that fails, the packet is refused,
/// and the second try finds the name cut off.
#[test]
fn a_cut_name_ends_too_early_where_there_is_memory_for_it(rt: HostRuntime) {
    let first = refusal(rt.alloc(), CUT_NAME);
    if first != 1 {
        assert_count(&rt, first, 10);
        assert_count(&rt, refusal(rt.alloc(), CUT_NAME), 1);
    }
}

/// Nothing before the length of a text or bytes requests memory, so no failed allocation shows.
#[test]
fn bytes_before_the_first_length_are_refused_without_memory(rt: HostRuntime) {
    for end in 0..CUT_NAME.len() - 3 {
        assert_count(&rt, refusal(rt.alloc(), &CUT_NAME[..end]), 1);
    }
}
