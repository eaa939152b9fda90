//! What clauses do not cover: outside vectors, texts, and each public call on its happy path.

mod compressions;
mod faults;

use memberlist_wrap::{WrapFault, unwrap, unwrap_in_place};
use std::alloc::Global;
use std::process::Abort;
use std::test::Fail;

/// A gossip packet of a running memberlist, a checksum around a compression around a compound.
const GOSSIP: &[u8] =
    b"\x0c\"&\x9e\xec\x09\x82\xa4Algo\x00\xa3Buf\xda\x00i\x00\x0f\x08\x00\xa0\x83 \x01C\xa4\x82\x90!#\x87\xd4\x1f\x00\x05\x04\xacJ\xe2fL\x189n\xc2\xd0I\xf3\xc6M\x00RM\xca\xd0\x09\x03\x8c\x94\x937d\xca\x88\"#\x83\x14\x947r\xe84\xfb\xa0`\x94\x959nL\x05\x88\x08\xa0\xe7\xc1\x84\x0b\x1b>,\x10`b\xc5\x8b\x197v\xfc\x18rd\xc9\x93)W\xc6p\x09S&M\x9b8u\xf2\xec\x19\x10";

const COMPOUND: &[u8] =
    b"\x07\x02\x00:\x00:\x04\x86\xa4Addr\xa4\x7f\x00\x05\x02\xabIncarnation\x01\xa4Meta\xc0\xa4Node\xa2d2\xa4Port\xcd\x1f\x0a\xa3Vsn\xa6\x01\x05\x02\x00\x00\x00\x04\x86\xa4Addr\xa4\x7f\x00\x05\x01\xabIncarnation\x01\xa4Meta\xc0\xa4Node\xa2d1\xa4Port\xcd\x1f\x0a\xa3Vsn\xa6\x01\x05\x02\x00\x00\x00";

/// A gossip packet from it with only a checksum.
const DEAD: &[u8] = b"\x0c\xbfj\x091\x05\x83\xa4From\xa2d3\xabIncarnation\x01\xa4Node\xa2d3";

/// `banana bandana` as Go's compress/lzw writes it, in memberlist's map.
const BANANA: &[u8] = b"\x09\x82\xa4Algo\0\xa3Buf\xae\0\xc5\x84q30\x0c\x08\x81n\xc8\x14\x0c\x08";

/// Why the bytes are refused.
fn refusal(rt: &impl Abort, alloc: Global, bytes: &[u8], limit: usize) -> Result<WrapFault, Fail> {
    match unwrap(alloc, bytes, limit) {
        Ok(message) => panic!(rt; "{bytes:?} wraps {message:?}"),
        Err(WrapFault::Memory) => Err(Fail::from(WrapFault::Memory)),
        Err(fault) => Ok(fault),
    }
}

#[test]
fn real_messages_are_taken_out(rt: HostRuntime) -> Result<(), Fail> {
    for (bytes, message) in [
        (GOSSIP, COMPOUND),
        (DEAD, &DEAD[5..]),
        (COMPOUND, COMPOUND),
        (BANANA, b"banana bandana"),
        (b"\xf4\x03dc1\x02\x80", b"\x02\x80"),
        (b"", b""),
    ] {
        let taken = unwrap(rt.alloc(), bytes, 1000)?;
        assert_eq!(rt; taken.as_slice(), message);
    }
    Ok(())
}

#[test]
fn a_message_stands_in_its_bytes_unless_it_is_compressed(rt: HostRuntime) -> Result<(), Fail> {
    for (bytes, limit, found) in [
        (DEAD, DEAD.len() - 5, Ok(Some(&DEAD[5..]))),
        (DEAD, DEAD.len() - 6, Err(WrapFault::TooLarge)),
        (COMPOUND, 1000, Ok(Some(COMPOUND))),
        (GOSSIP, 1, Ok(None)),
        (BANANA, 1, Ok(None)),
        (b"\xf4\x03dc1\x02\x80", 2, Ok(Some(b"\x02\x80"))),
        (b"", 0, Ok(Some(b""))),
        (b"\x0c\0", 1000, Err(WrapFault::Ended)),
    ] {
        assert_eq!(rt; unwrap_in_place(bytes, limit), found, "{bytes:?}");
    }
    Ok(())
}

#[test]
fn the_map_of_a_compression_is_read_in_every_spelling(rt: HostRuntime) -> Result<(), Fail> {
    for bytes in [
        b"\x09\x82\xa3Buf\xa4\0\xc3\x04\x04\xa4Algo\0".as_slice(),
        b"\x09\x82\xa4Algo\xcc\0\xa3Buf\xc4\x04\0\xc3\x04\x04",
        b"\x09\xde\0\x02\xd9\x04Algo\xd1\0\0\xc5\0\x03Buf\xda\0\x04\0\xc3\x04\x04",
        b"\x09\x81\xa3Buf\xa4\0\xc3\x04\x04",
    ] {
        let taken = unwrap(rt.alloc(), bytes, 1)?;
        assert_eq!(rt; taken.as_slice(), b"a".as_slice());
    }
    Ok(())
}

#[test]
fn four_wrappers_are_taken_off_and_no_five(rt: HostRuntime) -> Result<(), Fail> {
    let mut bytes = b"\xf4\x01x\xf4\x01x\xf4\x01x\xf4\x01x".to_vec(rt.alloc())?;
    bytes.push(4)?;
    assert_eq!(rt; unwrap(rt.alloc(), &bytes, 1)?.as_slice(), [4].as_slice());
    // A label that is cut short is not checked if it is the fifth wrapper.
    bytes[12] = 244;
    assert_eq!(rt; refusal(&rt, rt.alloc(), &bytes, 1)?, WrapFault::TooDeep);
    // Three labels and two layers of compression.
    let inner = b"\xf4\x01x\xf4\x01x\xf4\x01x".as_slice();
    let mut deep = inner.to_vec(rt.alloc())?;
    deep.extend_from_slice(BANANA)?;
    assert_eq!(rt;
        unwrap(rt.alloc(), &deep, 14)?.as_slice(),
        b"banana bandana".as_slice()
    );
    Ok(())
}

#[test]
fn a_cut_wrapper_is_refused(rt: HostRuntime) -> Result<(), Fail> {
    for (bytes, wrapper) in [(BANANA, BANANA.len()), (DEAD, 5), (b"\xf4\x02ab\x04", 4)] {
        for end in 1..wrapper {
            let fault = refusal(&rt, rt.alloc(), &bytes[..end], 1000)?;
            assert_eq!(rt; fault, WrapFault::Ended, "at {end}");
        }
    }
    Ok(())
}

/// The bytes with this one changed.
fn changed(alloc: Global, bytes: &[u8], place: usize, change: u8) -> Result<Vec<u8>, Fail> {
    let mut copy = Vec::new(alloc);
    for (i, byte) in bytes.iter().enumerate() {
        copy.push(if i == place { *byte ^ change } else { *byte })?;
    }
    Ok(copy)
}

#[test]
fn a_changed_byte_behind_a_checksum_is_refused(rt: HostRuntime) -> Result<(), Fail> {
    for i in 1..DEAD.len() {
        for change in [1, 0xff] {
            let bytes = changed(rt.alloc(), DEAD, i, change)?;
            let fault = refusal(&rt, rt.alloc(), &bytes, 1000)?;
            assert_eq!(rt; fault, WrapFault::BadChecksum, "at {i}");
        }
    }
    Ok(())
}

#[test]
fn a_layer_and_a_message_are_within_the_limit(rt: HostRuntime) -> Result<(), Fail> {
    for (bytes, len) in [
        (BANANA, 14),
        (GOSSIP, COMPOUND.len()),
        (DEAD, DEAD.len() - 5),
    ] {
        assert_eq!(rt; unwrap(rt.alloc(), bytes, len)?.len(), len);
        let fault = refusal(&rt, rt.alloc(), bytes, len - 1)?;
        assert_eq!(rt; fault, WrapFault::TooLarge);
    }
    Ok(())
}

#[test]
fn want_of_memory_is_answered_as_such_and_then_repeated(rt: HostRuntime) -> Result<(), Fail> {
    if let Err(fault) = unwrap(rt.alloc(), GOSSIP, 1000) {
        assert_eq!(rt; fault, WrapFault::Memory);
        assert_eq!(rt; unwrap(rt.alloc(), GOSSIP, 1000)?.as_slice(), COMPOUND);
    }
    Ok(())
}
