//! The map of a compressed message.

use super::{assert_count, assert_fault, assert_want_of_memory, assert_written};
use std::alloc::Global;
use std::process::Abort;
use std::test::Fail;
use swim_wire::{WireFault, decode_compression};

/// The map for `banana bandana`, as memberlist writes it around the output of Go's compress/lzw.
const BANANA: &[u8] = b"\x82\xa4Algo\0\xa3Buf\xae\0\xc5\x84q30\x0c\x08\x81n\xc8\x14\x0c\x08";

#[test]
fn the_map_gives_its_compressed_bytes(rt: HostRuntime) -> Result<(), Fail> {
    for (map, packed) in [
        (BANANA, &BANANA[12..]),
        (b"\x82\xa3Buf\xa1x\xa4Algo\0", b"x"),
        (
            b"\xde\0\x02\xd9\x04Algo\xd1\0\0\xc5\0\x03Buf\xda\0\x01x",
            b"x",
        ),
        (b"\x81\xa3Buf\xc4\x02ab", b"ab"),
        (b"\x82\xa4Algo\xc0\xa3Buf\xc0", b""),
        (b"\x80", b""),
    ] {
        assert_written(&rt, decode_compression(rt.alloc(), map)?, packed);
    }
    Ok(())
}

/// Asserts that the bytes are refused for this fault.
fn assert_refused(
    rt: &impl Abort,
    alloc: Global,
    bytes: &[u8],
    fault: WireFault,
) -> Result<(), Fail> {
    assert_fault(rt, decode_compression(alloc, bytes).err(), fault, bytes)
}

#[test]
fn what_is_no_such_map_is_refused_by_its_fault(rt: HostRuntime) -> Result<(), Fail> {
    for (bytes, fault) in [
        (b"".as_slice(), WireFault::Ended),
        (b"\x90", WireFault::NotMap),
        (b"\x83", WireFault::MapCount),
        (b"\x81\xa4Algo\x01", WireFault::OutOfRange),
        (b"\x81\xa4Algo\xff", WireFault::NotUnsigned),
        (b"\x81\xa3Buf\x01", WireFault::NotRaw),
        (b"\x81\xa4Size\x01", WireFault::UnknownKey),
        (b"\x82\xa4Algo\0\xa4Algo\0", WireFault::DuplicateKey),
        (b"\x81\xa3Buf\xa1x\0", WireFault::Trailing),
        (b"\x81\xa3Buf\xa5x", WireFault::Ended),
    ] {
        assert_refused(&rt, rt.alloc(), bytes, fault)?;
    }
    Ok(())
}

#[test]
fn a_map_that_claims_much_asks_for_little(rt: HostRuntime) -> Result<(), Fail> {
    let bytes = b"\x81\xa3Buf\xc6\xff\xff\xff\xff";
    assert_refused(&rt, rt.alloc(), bytes, WireFault::TooLong)
}

#[test]
fn want_of_memory_is_answered_as_such_and_then_repeated(rt: HostRuntime) -> Result<(), Fail> {
    if let Some(fault) = decode_compression(rt.alloc(), BANANA).err() {
        assert_want_of_memory(&rt, fault);
        assert_count(&rt, decode_compression(rt.alloc(), BANANA)?.len(), 14);
    }
    Ok(())
}
