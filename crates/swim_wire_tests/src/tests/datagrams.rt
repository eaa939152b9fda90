//! Datagrams and user state by their bytes.

use super::{ALIVE, SUSPECT, assert_bytes, assert_count, assert_fault, assert_want_of_memory};
use std::alloc::Global;
use std::process::Abort;
use std::test::Fail;
use swim_claim::Claim;
use swim_pack::SliceInlet;
use swim_wire::{Datagram, Packet, WireFault, decode_datagram, skip_user};

/// A compound packet of the Alive and the Suspect.
pub(crate) const BOTH: &[u8] =
    b"\x07\x02\0\x33\0\x1d\x04\x86\xa4Addr\xa4\x7f\0\0\x01\xabIncarnation\0\xa4Meta\xa0\xa4Node\xa1a\xa4Port\xcd\x1f\x0a\xa3Vsn\xa0\x03\x83\xa4From\xa1x\xabIncarnation\x01\xa4Node\xa1b";

/// A compound packet of one byte of another type and the Suspect.
const PASSED_OVER: &[u8] =
    b"\x07\x02\0\x01\0\x1d\0\x03\x83\xa4From\xa1x\xabIncarnation\x01\xa4Node\xa1b";

/// A compound packet of the Alive and a packet that is cut off after its first byte.
const CUT_PACKET: &[u8] =
    b"\x07\x02\0\x33\0\x01\x04\x86\xa4Addr\xa4\x7f\0\0\x01\xabIncarnation\0\xa4Meta\xa0\xa4Node\xa1a\xa4Port\xcd\x1f\x0a\xa3Vsn\xa0\x04";

/// Asserts that the packets are about these names of one letter each.
fn assert_packets(rt: &impl Abort, packets: &[Packet], names: &[u8]) {
    assert_count(rt, packets.len(), names.len());
    for (packet, name) in packets.iter().zip(names) {
        assert_bytes(rt, packet.claim().name().bytes(), &[*name]);
    }
}

/// Asserts that the claims are about these names of one letter each.
fn assert_claims(rt: &impl Abort, claims: &[Claim], names: &[u8]) {
    assert_count(rt, claims.len(), names.len());
    for (claim, name) in claims.iter().zip(names) {
        assert_bytes(rt, claim.name().bytes(), &[*name]);
    }
}

/// Asserts that the bytes are a datagram of packets, and of claims, about these names.
fn assert_read(rt: &impl Abort, alloc: Global, bytes: &[u8], names: &[u8]) -> Result<(), Fail> {
    let packets = decode_datagram(alloc, bytes)?;
    assert_packets(rt, &packets, names);
    let claims = Datagram::decode(alloc, bytes)?.into_claims(alloc)?;
    assert_claims(rt, &claims, names);
    Ok(())
}

#[test]
fn a_datagram_has_the_packets_and_claims_of_its_parts(rt: HostRuntime) -> Result<(), Fail> {
    for (bytes, names) in [
        (BOTH, b"ab".as_slice()),
        (PASSED_OVER, b"b"),
        (b"\x07\0", b""),
        (b"\x07\x01\0\0", b""),
        (ALIVE, b"a"),
        (SUSPECT, b"b"),
    ] {
        assert_read(&rt, rt.alloc(), bytes, names)?;
    }
    Ok(())
}

/// A compound of 255 Suspects.
pub(crate) fn greatest_compound(alloc: Global) -> Result<Vec<u8>, Fail> {
    let mut bytes = b"\x07\xff".to_vec(alloc)?;
    for _ in 0..255 {
        bytes.extend_from_slice(b"\0\x1d")?;
    }
    for _ in 0..255 {
        bytes.extend_from_slice(SUSPECT)?;
    }
    Ok(bytes)
}

/// Whether it is a single packet.
fn is_packet(datagram: &Datagram) -> bool {
    matches!(datagram, Datagram::Packet(_))
}

/// Whether the bytes are a single packet.
fn is_alone(alloc: Global, bytes: &[u8]) -> Result<bool, WireFault> {
    let datagram = Datagram::decode(alloc, bytes)?;
    Ok(is_packet(&datagram))
}

/// Asserts that the two results for the bytes are equal.
fn assert_alone(rt: &impl Abort, found: bool, wanted: bool, bytes: &[u8]) {
    assert!(rt; found == wanted, "{bytes:?}");
}

#[test]
fn a_packet_by_itself_is_told_from_a_compound_packet(rt: HostRuntime) -> Result<(), Fail> {
    for (bytes, alone) in [
        (ALIVE, true),
        (SUSPECT, true),
        (BOTH, false),
        (b"\x07\0", false),
    ] {
        assert_alone(&rt, is_alone(rt.alloc(), bytes)?, alone, bytes);
    }
    Ok(())
}

/// Asserts that the bytes are refused as a datagram for this fault.
fn assert_refused(
    rt: &impl Abort,
    alloc: Global,
    bytes: &[u8],
    fault: WireFault,
) -> Result<(), Fail> {
    assert_fault(rt, decode_datagram(alloc, bytes).err(), fault, bytes)
}

#[test]
fn a_datagram_is_refused_at_its_first_fault(rt: HostRuntime) -> Result<(), Fail> {
    for (bytes, fault) in [
        (b"".as_slice(), WireFault::Ended),
        (b"\x09", WireFault::WrongType { found: 9 }),
        (b"\x07", WireFault::Ended),
        (b"\x07\x01", WireFault::Ended),
        (b"\x07\0\0", WireFault::Trailing),
        (b"\x07\x01\0\x01", WireFault::Ended),
        (b"\x07\x02\0\x02\xff\xff\x03\x80", WireFault::NameEmpty),
        (CUT_PACKET, WireFault::Ended),
    ] {
        assert_refused(&rt, rt.alloc(), bytes, fault)?;
    }
    Ok(())
}

#[test]
fn a_datagram_that_claims_much_asks_for_little(rt: HostRuntime) -> Result<(), Fail> {
    // 255 parts of 1,028 bytes each, and none of them
    let mut parts = [4; 512];
    parts[..2].copy_from_slice(b"\x07\xff");
    for (bytes, fault) in [
        (parts.as_slice(), WireFault::Ended),
        (b"\x07\xff", WireFault::Ended),
        (b"\x04\x81\xa4Meta\xc6\xff\xff\xff\xff", WireFault::TooLong),
        (b"\x04\x81\xa4Node\xda\x04\x00a", WireFault::Ended),
    ] {
        assert_refused(&rt, rt.alloc(), bytes, fault)?;
    }
    Ok(())
}

#[test]
fn want_of_memory_is_answered_as_such_and_the_repeat_reads(rt: HostRuntime) -> Result<(), Fail> {
    if let Some(fault) = decode_datagram(rt.alloc(), BOTH).err() {
        assert_want_of_memory(&rt, fault);
        assert_count(&rt, decode_datagram(rt.alloc(), BOTH)?.len(), 2);
    }
    Ok(())
}

/// Asserts what dropping this many of five bytes returns, and what is left after it.
fn assert_skips(rt: &impl Abort, len: u32, answer: Result<(), WireFault>, rest: &[u8]) {
    let mut inlet = SliceInlet::new(b"\x01\x02\x03\x04\x05");
    assert_eq!(rt; skip_user(&mut inlet, len), answer);
    assert_bytes(rt, inlet.rest(), rest);
}

#[test]
fn user_state_is_dropped_to_its_last_byte(rt: HostRuntime) -> Result<(), Fail> {
    assert_skips(&rt, 5, Ok(()), b"");
    assert_skips(&rt, 3, Ok(()), b"\x04\x05");
    assert_skips(&rt, 0, Ok(()), b"\x01\x02\x03\x04\x05");
    assert_skips(&rt, 6, Err(WireFault::Ended), b"\x01\x02\x03\x04\x05");
    Ok(())
}

#[test]
fn user_state_is_dropped_piece_by_piece(rt: HostRuntime) -> Result<(), Fail> {
    let mut inlet = SliceInlet::new(&[7; 4099]);
    assert_eq!(rt; skip_user(&mut inlet, 4098), Ok(()));
    assert_count(&rt, inlet.rest().len(), 1);
    Ok(())
}
