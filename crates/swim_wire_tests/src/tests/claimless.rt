//! Messages that make no claim, as members of a running memberlist sent them, and bytes that are
//! not such messages.

use super::{assert_fault, assert_want_of_memory};
use std::alloc::Global;
use std::process::Abort;
use std::test::Fail;
use swim_wire::{Claimless, WireFault, decode_claimless};

/// A ping of `d3` from `d2`.
const PING: &[u8] =
    b"\0\x85\xa4Node\xa2d3\xa5SeqNo\x01\xaaSourceAddr\xa4\x7f\0\x05\x02\xaaSourceNode\xa2d2\xaaSourcePort\xcd\x1f\x0a";

/// An indirect ping of `d4` from `d1`.
const INDIRECT_PING: &[u8] =
    b"\x01\x88\xa4Nack\xc3\xa4Node\xa2d4\xa4Port\xcd\x1f\x0a\xa5SeqNo\x07\xaaSourceAddr\xa4\x7f\0\x05\x01\xaaSourceNode\xa2d1\xaaSourcePort\xcd\x1f\x0a\xa6Target\xa4\x7f\0\x05\x04";

/// An ack without a payload.
const ACK: &[u8] = b"\x02\x82\xa7Payload\xc0\xa5SeqNo\x01";

/// A nack.
const NACK: &[u8] = b"\x0b\x81\xa5SeqNo\x0a";

/// Asserts that the bytes are a message of this kind.
fn assert_kind(rt: &impl Abort, alloc: Global, bytes: &[u8], kind: Claimless) -> Result<(), Fail> {
    let found = decode_claimless(alloc, bytes)?;
    assert!(rt; found == kind, "{bytes:?}");
    Ok(())
}

#[test]
fn each_message_is_told_by_its_kind(rt: HostRuntime) -> Result<(), Fail> {
    for (bytes, kind) in [
        (PING, Claimless::Ping),
        (INDIRECT_PING, Claimless::IndirectPing),
        (ACK, Claimless::Ack),
        (NACK, Claimless::Nack),
        (b"\x08", Claimless::User),
        (b"\x08\x82\xff", Claimless::User),
        (b"\x0d\x81\xa5Error\xa5label", Claimless::Error),
        // What memberlist sent before it named the source, and other encodings.
        (b"\0\x82\xa5SeqNo\x01\xa4Node\xa2d3", Claimless::Ping),
        (b"\0\xde\0\x01\xd9\x05SeqNo\xce\0\0\0\x01", Claimless::Ping),
        (
            b"\x02\x82\xa5SeqNo\x01\xa7Payload\xc4\x03abc",
            Claimless::Ack,
        ),
    ] {
        assert_kind(&rt, rt.alloc(), bytes, kind)?;
    }
    Ok(())
}

/// Asserts that the bytes are refused for this fault.
fn assert_refused(
    rt: &impl Abort,
    alloc: Global,
    bytes: &[u8],
    fault: WireFault,
) -> Result<(), Fail> {
    assert_fault(rt, decode_claimless(alloc, bytes).err(), fault, bytes)
}

#[test]
fn what_is_no_such_message_is_refused_by_its_fault(rt: HostRuntime) -> Result<(), Fail> {
    for (bytes, fault) in [
        (b"".as_slice(), WireFault::Ended),
        (b"\x03\x80", WireFault::WrongType { found: 3 }),
        (b"\x07\0", WireFault::WrongType { found: 7 }),
        (b"\x0a", WireFault::WrongType { found: 10 }),
        // A version, 12 bytes of a nonce, and the ciphertext.
        (
            b"\x01\x5a\x1c\x80\x77\x03\xe1\x99\x4f\xb2\x21\xd8\x6a\xc4\x0e",
            WireFault::NotMap,
        ),
        (b"\0\x81\xa6Target\xa0", WireFault::UnknownKey),
        (b"\x02\x81\xa4Node\xa0", WireFault::UnknownKey),
        (b"\x0b\x82\xa5SeqNo\x01\xa5SeqNo\x01", WireFault::MapCount),
        (
            b"\x02\x82\xa5SeqNo\x01\xa5SeqNo\x01",
            WireFault::DuplicateKey,
        ),
        (b"\0\x81\xa5SeqNo\xff", WireFault::NotUnsigned),
        (
            b"\0\x81\xa5SeqNo\xcf\0\0\0\x01\0\0\0\0",
            WireFault::OutOfRange,
        ),
        (b"\x01\x81\xa4Nack\x01", WireFault::NotBool),
        (b"\0\x81\xa4Node\x01", WireFault::NotRaw),
        (b"\0\x81\xaaSourceAddr\xb1", WireFault::TooLong),
        (b"\x0b\x81\xa5SeqNo\x0a\0", WireFault::Trailing),
    ] {
        assert_refused(&rt, rt.alloc(), bytes, fault)?;
    }
    Ok(())
}

#[test]
fn a_cut_message_is_refused_as_ended(rt: HostRuntime) -> Result<(), Fail> {
    for message in [PING, INDIRECT_PING, ACK, NACK] {
        for end in 0..message.len() {
            assert_refused(&rt, rt.alloc(), &message[..end], WireFault::Ended)?;
        }
    }
    Ok(())
}

#[test]
fn a_payload_that_claims_much_asks_for_little(rt: HostRuntime) -> Result<(), Fail> {
    for bytes in [
        b"\x02\x81\xa7Payload\xc6\xff\xff\xff\xff".as_slice(),
        b"\x0d\x81\xa5Error\xdb\x7f\xff\xff\xff",
    ] {
        assert_refused(&rt, rt.alloc(), bytes, WireFault::TooLong)?;
    }
    Ok(())
}

#[test]
fn want_of_memory_is_answered_as_such_and_then_repeated(rt: HostRuntime) -> Result<(), Fail> {
    if let Err(fault) = decode_claimless(rt.alloc(), PING) {
        assert_want_of_memory(&rt, fault);
        assert_kind(&rt, rt.alloc(), PING, Claimless::Ping)?;
    }
    Ok(())
}
