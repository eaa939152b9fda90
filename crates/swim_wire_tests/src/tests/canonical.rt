//! Messages by their canonical bytes.

use super::datagrams::{BOTH, greatest_compound};
use super::{ALIVE, CONFIRM, LEAVE, SUSPECT, assert_claim, assert_written};
use std::alloc::{AllocError, Global};
use std::process::Abort;
use std::test::Fail;
use swim_claim::{Claim, Details, Kind};
use swim_pack::SliceInlet;
use swim_wire::{
    Header, Packet, decode_datagram, decode_packet, encode_compound, encode_packet,
    put_state_with_details, read_state, state_with_details_len, write_header, write_state,
};

/// `ALIVE` in other encodings and another order, with a nil Meta and no Vsn.
pub(crate) const OTHER_ALIVE: &[u8] =
    b"\x04\x85\xa4Port\xcf\0\0\0\0\0\0\x1f\x0a\xa4Node\xa1a\xa4Meta\xc0\xabIncarnation\xd2\0\0\0\0\xa4Addr\xc4\x04\x7f\0\0\x01";

/// A Leave of `c` at incarnation 3.
const LEAVE_OF_C: &[u8] = b"\x05\x83\xa4From\xa1c\xabIncarnation\x03\xa4Node\xa1c";

/// Encodes it. If memory runs out, it encodes it again.
fn encoded(alloc: Global, packet: &Packet) -> Result<Vec<u8>, AllocError> {
    match encode_packet(alloc, packet) {
        Err(AllocError) => encode_packet(alloc, packet),
        answer => answer,
    }
}

/// The packet of these bytes, written again.
fn encoded_again(alloc: Global, bytes: &[u8]) -> Result<Vec<u8>, Fail> {
    let packet = decode_packet(alloc, bytes)?;
    Ok(encoded(alloc, &packet)?)
}

#[test]
fn a_packet_is_written_in_its_canonical_bytes(rt: HostRuntime) -> Result<(), Fail> {
    for (bytes, canonical) in [
        (ALIVE, ALIVE),
        (OTHER_ALIVE, ALIVE),
        (SUSPECT, SUSPECT),
        (CONFIRM, CONFIRM),
        (LEAVE, LEAVE),
    ] {
        assert_written(&rt, encoded_again(rt.alloc(), bytes)?, canonical);
    }
    Ok(())
}

/// Encodes them together. If memory runs out, it encodes them again.
fn compound_of(alloc: Global, packets: &[Packet]) -> Result<Vec<u8>, AllocError> {
    let packets = &packets[..packets.len().min(255)];
    match encode_compound(alloc, packets) {
        Err(AllocError) => encode_compound(alloc, packets),
        answer => answer,
    }
}

/// The packets of the compound packet, written together again.
fn compound_again(alloc: Global, bytes: &[u8]) -> Result<Vec<u8>, Fail> {
    let packets = decode_datagram(alloc, bytes)?;
    Ok(compound_of(alloc, &packets)?)
}

#[test]
fn a_compound_has_the_lengths_and_then_the_packets(rt: HostRuntime) -> Result<(), Fail> {
    for bytes in [BOTH, b"\x07\0"] {
        assert_written(&rt, compound_again(rt.alloc(), bytes)?, bytes);
    }
    Ok(())
}

#[test]
fn two_hundred_and_fifty_five_packets_are_one_compound(rt: HostRuntime) -> Result<(), Fail> {
    let bytes = greatest_compound(rt.alloc())?;
    assert_written(&rt, compound_again(rt.alloc(), &bytes)?, &bytes);
    Ok(())
}

/// Appends the header. If memory runs out, the vector is unchanged, and it is appended again.
fn with_header(out: &mut Vec<u8>, header: &Header) -> Result<(), AllocError> {
    let len = out.len();
    match write_header(out, header) {
        Err(AllocError) if out.len() == len => write_header(out, header),
        answer => answer,
    }
}

/// The headers, one after the other.
fn headers(alloc: Global, headers: &[Header]) -> Result<Vec<u8>, AllocError> {
    let mut out = Vec::new(alloc);
    for header in headers {
        with_header(&mut out, header)?;
    }
    Ok(out)
}

#[test]
fn a_header_is_appended(rt: HostRuntime) -> Result<(), Fail> {
    let header = Header {
        nodes: 0,
        user_len: 0,
        join: false,
    };
    let other = Header {
        nodes: 131072,
        user_len: 300,
        join: true,
    };
    let both =
        b"\x06\x83\xa4Join\xc2\xa5Nodes\0\xacUserStateLen\0\x06\x83\xa4Join\xc3\xa5Nodes\xce\0\x02\0\0\xacUserStateLen\xcd\x01\x2c";
    assert_written(&rt, headers(rt.alloc(), &[header, other])?, both);
    Ok(())
}

/// Appends the record of the claim. If memory runs out, the vector is unchanged, and it is appended
/// again.
fn with_state(out: &mut Vec<u8>, claim: &Claim) -> Result<(), AllocError> {
    let len = out.len();
    match write_state(out, claim.name(), claim.facts()) {
        Err(AllocError) if out.len() == len => write_state(out, claim.name(), claim.facts()),
        answer => answer,
    }
}

/// The record of the claim.
fn record(alloc: Global, claim: &Claim) -> Result<Vec<u8>, AllocError> {
    let mut out = Vec::new(alloc);
    with_state(&mut out, claim)?;
    Ok(out)
}

/// The record of the packet's claim.
fn record_of(alloc: Global, bytes: &[u8]) -> Result<Vec<u8>, Fail> {
    let packet = decode_packet(alloc, bytes)?;
    Ok(record(alloc, packet.claim())?)
}

#[test]
fn a_state_record_has_the_state_and_the_details_of_its_claim(rt: HostRuntime) -> Result<(), Fail> {
    let alive =
        b"\x87\xa4Addr\xa4\x7f\0\0\x01\xabIncarnation\0\xa4Meta\xa0\xa4Name\xa1a\xa4Port\xcd\x1f\x0a\xa5State\0\xa3Vsn\xa0";
    let suspect =
        b"\x87\xa4Addr\xa0\xabIncarnation\x01\xa4Meta\xa0\xa4Name\xa1b\xa4Port\0\xa5State\x01\xa3Vsn\xa0";
    let confirm =
        b"\x87\xa4Addr\xa0\xabIncarnation\0\xa4Meta\xa0\xa4Name\xa1a\xa4Port\0\xa5State\x02\xa3Vsn\xa0";
    let leave =
        b"\x87\xa4Addr\xa0\xabIncarnation\x03\xa4Meta\xa0\xa4Name\xa1c\xa4Port\0\xa5State\x03\xa3Vsn\xa0";
    for (packet, record) in [
        (ALIVE, alive.as_slice()),
        (SUSPECT, suspect),
        (CONFIRM, confirm),
        (LEAVE_OF_C, leave),
    ] {
        assert_written(&rt, record_of(rt.alloc(), packet)?, record);
    }
    Ok(())
}

/// The details: 127.0.0.1 and port 7946, the metadata `m` and memberlist's versions.
fn details(rt: &impl Abort, alloc: Global) -> Result<Details, AllocError> {
    let meta = vec![in alloc; b'm'; 1]?;
    Ok(Details::of(b"\x7f\0\0\x01", 7946, meta, b"\x01\x05\x02\0\0\0").expect(rt, "legal details"))
}

/// The record of the claim with the details.
fn record_with(alloc: Global, claim: &Claim, details: &Details) -> Result<Vec<u8>, AllocError> {
    let len = state_with_details_len(claim.name(), claim.facts(), details);
    let mut out = vec![in alloc; 0; len]?;
    put_state_with_details(&mut out, 0, claim.name(), claim.facts(), details);
    Ok(out)
}

/// Asserts that the packet's claim with the details has this record, which is read back as the
/// claim.
fn assert_record_with(
    rt: &impl Abort,
    alloc: Global,
    packet: &[u8],
    kind: Kind,
    wanted: &[u8],
) -> Result<(), Fail> {
    let packet = decode_packet(alloc, packet)?;
    let claim = packet.claim();
    assert_written(rt, record_with(alloc, claim, &details(rt, alloc)?)?, wanted);
    let read = read_state(alloc, &mut SliceInlet::new(wanted))?;
    assert_claim(rt, &read, kind, claim.name().bytes(), claim.inc());
    Ok(())
}

#[test]
fn a_state_record_has_the_details_beside_a_claim_without_its_own(
    rt: HostRuntime,
) -> Result<(), Fail> {
    let alive =
        b"\x87\xa4Addr\xa4\x7f\0\0\x01\xabIncarnation\0\xa4Meta\xa0\xa4Name\xa1a\xa4Port\xcd\x1f\x0a\xa5State\0\xa3Vsn\xa0";
    let suspect =
        b"\x87\xa4Addr\xa4\x7f\0\0\x01\xabIncarnation\x01\xa4Meta\xa1m\xa4Name\xa1b\xa4Port\xcd\x1f\x0a\xa5State\x01\xa3Vsn\xa6\x01\x05\x02\0\0\0";
    let confirm =
        b"\x87\xa4Addr\xa4\x7f\0\0\x01\xabIncarnation\0\xa4Meta\xa1m\xa4Name\xa1a\xa4Port\xcd\x1f\x0a\xa5State\x02\xa3Vsn\xa6\x01\x05\x02\0\0\0";
    let leave =
        b"\x87\xa4Addr\xa4\x7f\0\0\x01\xabIncarnation\x03\xa4Meta\xa1m\xa4Name\xa1c\xa4Port\xcd\x1f\x0a\xa5State\x03\xa3Vsn\xa6\x01\x05\x02\0\0\0";
    for (packet, kind, record) in [
        (ALIVE, Kind::Alive, alive.as_slice()),
        (SUSPECT, Kind::Suspect, suspect),
        (CONFIRM, Kind::Confirm, confirm),
        (LEAVE_OF_C, Kind::Leave, leave),
    ] {
        assert_record_with(&rt, rt.alloc(), packet, kind, record)?;
    }
    Ok(())
}
