//! Messages in the order of their keys, read in place and key by key.

use super::canonical::OTHER_ALIVE;
use super::{ALIVE, CONFIRM, LEAVE, SUSPECT};
use std::alloc::Global;
use std::process::Abort;
use std::test::Fail;
use swim_claim::Claim;
use swim_pack::{SliceInlet, StopInlet};
use swim_wire::{Packet, WireFault, decode_packet, read_header, read_state};

/// Packets; a header of two members and 300 bytes of user state; records of `a`, alive at 127.0.0.1
/// and port 7946, and of suspect `b`, dead `c` in longer encodings and left `d`; a record in
/// another order.
const MESSAGES: [&[u8]; 11] = [
    ALIVE,
    OTHER_ALIVE,
    SUSPECT,
    CONFIRM,
    LEAVE,
    b"\x06\x83\xa4Join\xc3\xa5Nodes\x02\xacUserStateLen\xcd\x01\x2c",
    b"\x87\xa4Addr\xa4\x7f\0\0\x01\xabIncarnation\0\xa4Meta\xa1m\xa4Name\xa1a\xa4Port\xcd\x1f\x0a\xa5State\0\xa3Vsn\xa6\x01\x05\x02\0\0\0",
    b"\x87\xa4Addr\xa0\xabIncarnation\x01\xa4Meta\xa0\xa4Name\xa1b\xa4Port\0\xa5State\x01\xa3Vsn\xa0",
    b"\x87\xa4Addr\xa0\xabIncarnation\xcd\x01\0\xa4Meta\xc0\xa4Name\xd9\x01c\xa4Port\xd0\0\xa5State\x02\xa3Vsn\xc4\0",
    b"\x87\xa4Addr\xa0\xabIncarnation\x03\xa4Meta\xa0\xa4Name\xa1d\xa4Port\0\xa5State\x03\xa3Vsn\xa0",
    b"\x83\xa4Name\xa1c\xabIncarnation\x03\xa5State\x03",
];

/// What each byte is replaced by.
const BYTES: [u8; 6] = [0, 0x01, 0xa0, 0xa2, 0xc0, 0xd0];

/// Both readings return the same.
const READ: u8 = 0;

/// Both are refused for the same fault.
const REFUSED: u8 = 1;

/// One of them ran out of memory, so there is nothing to compare.
const NO_MEMORY: u8 = 2;

/// They differ.
const APART: u8 = 3;

/// How two refusals compare.
fn faults(one: WireFault, other: WireFault) -> u8 {
    if one.number() == 10 || other.number() == 10 {
        NO_MEMORY
    } else if one == other {
        REFUSED
    } else {
        APART
    }
}

/// How a refusal compares with a value.
fn lone_fault(fault: WireFault) -> u8 {
    if fault.number() == 10 {
        NO_MEMORY
    } else {
        APART
    }
}

/// Whether it is the same claim.
fn same_claim(one: &Claim, other: &Claim) -> bool {
    one.kind() == other.kind()
        && one.name().bytes() == other.name().bytes()
        && one.inc() == other.inc()
        && one.details() == other.details()
}

/// How two values compare.
fn of_same(same: bool) -> u8 {
    if same { READ } else { APART }
}

/// How two readings of a record compare.
fn records(one: &Result<Claim, WireFault>, other: &Result<Claim, WireFault>) -> u8 {
    match (one, other) {
        (Ok(one), Ok(other)) => of_same(same_claim(one, other)),
        (Err(one), Err(other)) => faults(*one, *other),
        (Err(fault), Ok(_)) | (Ok(_), Err(fault)) => lone_fault(*fault),
    }
}

/// How two readings of a packet compare.
fn packets(one: &Result<Packet, WireFault>, other: &Result<Packet, WireFault>) -> u8 {
    match (one, other) {
        (Ok(one), Ok(other)) => of_same(
            same_claim(one.claim(), other.claim()) && one.from_name() == other.from_name(),
        ),
        (Err(one), Err(other)) => faults(*one, *other),
        (Err(fault), Ok(_)) | (Ok(_), Err(fault)) => lone_fault(*fault),
    }
}

/// How the headers from both inlets compare.
fn header_both_ways(slice: &mut SliceInlet<'_>, unseen: &mut StopInlet<'_>) -> u8 {
    of_same(read_header(slice) == read_header(unseen))
}

/// How the records from both inlets compare.
fn record_both_ways(alloc: Global, slice: &mut SliceInlet<'_>, unseen: &mut StopInlet<'_>) -> u8 {
    let whole = read_state(alloc, slice);
    let apart = read_state(alloc, unseen);
    records(&whole, &apart)
}

/// How a record compares and, if it is read, the header after it. A slice is at hand as a whole,
/// and nothing of a `StopInlet` is.
fn read_both_ways(alloc: Global, bytes: &[u8]) -> u8 {
    let mut slice = SliceInlet::new(bytes);
    let mut unseen = StopInlet::new(bytes, usize::MAX);
    let record = record_both_ways(alloc, &mut slice, &mut unseen);
    if record == READ {
        header_both_ways(&mut slice, &mut unseen)
    } else {
        record
    }
}

/// The packet with the length of its first key in a byte of its own, if it is in the key's first
/// byte. That changes nothing that is said, but such a packet is read key by key.
fn decode_apart(alloc: Global, bytes: &[u8]) -> Result<Packet, WireFault> {
    let Some(([first, count, key], rest)) = bytes.split_first_chunk::<3>() else {
        return decode_packet(alloc, bytes);
    };
    if *key & 0xe0 != 0xa0 || rest.len() > 128 {
        return decode_packet(alloc, bytes);
    }
    let mut apart = [0; 132];
    let apart = &mut apart[..4 + rest.len()];
    apart[0] = *first;
    apart[1] = *count;
    apart[2] = 0xd9;
    apart[3] = *key & 0x1f;
    apart[4..].copy_from_slice(rest);
    decode_packet(alloc, apart)
}

/// How the packets compare.
fn decode_both_ways(alloc: Global, bytes: &[u8]) -> u8 {
    let whole = decode_packet(alloc, bytes);
    let apart = decode_apart(alloc, bytes);
    packets(&whole, &apart)
}

/// Asserts that the readings of the bytes do not differ. Running out of memory is an error of the
/// test.
fn assert_alike(rt: &impl Abort, likeness: u8, bytes: &[u8]) -> Result<(), Fail> {
    if likeness == NO_MEMORY {
        return Err(Fail::from(WireFault::Memory));
    }
    assert!(rt; likeness != APART, "{bytes:?}");
    Ok(())
}

/// Reads the bytes in both ways as a record, as a header and as a packet.
fn is_read_alike(rt: &impl Abort, alloc: Global, bytes: &[u8]) -> Result<(), Fail> {
    let (mut slice, mut unseen) = (SliceInlet::new(bytes), StopInlet::new(bytes, usize::MAX));
    assert_alike(rt, read_both_ways(alloc, bytes), bytes)?;
    assert_alike(rt, header_both_ways(&mut slice, &mut unseen), bytes)?;
    assert_alike(rt, decode_both_ways(alloc, bytes), bytes)
}

#[test]
fn each_cut_is_read_alike(rt: HostRuntime) -> Result<(), Fail> {
    for bytes in MESSAGES {
        for end in 0..=bytes.len() {
            is_read_alike(&rt, rt.alloc(), &bytes[..end])?;
        }
    }
    Ok(())
}

#[test]
fn each_changed_byte_is_read_alike(rt: HostRuntime) -> Result<(), Fail> {
    for bytes in MESSAGES {
        for place in 0..bytes.len() {
            for byte in BYTES {
                let mut changed = [0; 128];
                let changed = &mut changed[..bytes.len()];
                changed.copy_from_slice(bytes);
                changed[place] = byte;
                is_read_alike(&rt, rt.alloc(), changed)?;
            }
        }
    }
    Ok(())
}
