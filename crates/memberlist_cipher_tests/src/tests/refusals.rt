//! What is refused, and with which fault.

use super::messages::{KEY, LABELLED, LABELLED_STREAMS, PACKETS, STREAMS};
use super::{assert_opens, assert_refused, assert_refused_stream};
use memberlist_cipher::CipherFault;
use std::alloc::{AllocError, Global};
use std::process::Abort;
use std::test::Fail;

/// Right tags over texts of version 0 that are not padded messages. memberlist does not write such
/// texts: they were made with python's cryptography.
const UNPADDED: [&[u8]; 7] = [
    // no padding at all
    b"\x00\x00\x01\x02\x03\x04\x05\x06\x07\x08\x09\x0a\x0b\x9c\x55\x62\x37\x90\x86\xe1\x3e\x7f\x1c\xf1\x7a\x96\x1c\x82\x12",
    // a text of 15 bytes
    b"\x00\x00\x01\x02\x03\x04\x05\x06\x07\x08\x09\x0a\x0b\x50\xce\xcc\x9b\xe2\xb0\x4f\x78\x34\x0b\x86\x1c\x29\xbc\x54\xb8\x2e\x0f\x76\xf2\x1c\x39\x0d\x94\x91\x1b\xd8\x2c\xdc\x97\x74",
    // padding of 0
    b"\x00\x00\x01\x02\x03\x04\x05\x06\x07\x08\x09\x0a\x0b\x51\xcf\xcd\x9a\xe3\xb1\x4e\x79\x35\x0a\x87\x1d\x28\xbd\x55\xd8\xe6\x9d\xd3\x4e\x80\xfb\x5c\xfc\x2d\x90\xe3\x07\xc0\x24\xe2\x45",
    // padding of 17
    b"\x00\x00\x01\x02\x03\x04\x05\x06\x07\x08\x09\x0a\x0b\x40\xde\xdc\x8b\xf2\xa0\x5f\x68\x24\x1b\x96\x0c\x39\xac\x44\xc9\xc9\x54\xae\xd0\x3d\xeb\x90\x4a\xb0\x31\xef\x15\x51\x93\x91\xc3\xf2\xdf\xfa\xe8\x7f\x80\xbb\x89\x84\xaa\x79\x14\xea\xf4\xd6\xf3",
    // a byte of the padding differs
    b"\x00\x00\x01\x02\x03\x04\x05\x06\x07\x08\x09\x0a\x0b\x29\xb7\xb5\xe2\x9b\xc9\x36\x01\x4d\x72\xff\x65\x50\xbf\x56\xdb\xb7\x7e\xa9\x52\x5c\x09\x34\x89\x8a\x2f\x18\x84\x46\x58\x75\xf7",
    // the first byte of the padding differs
    b"\x00\x00\x01\x02\x03\x04\x05\x06\x07\x08\x09\x0a\x0b\x5e\xdf\xdd\x8a\xf3\xa1\x5e\x69\x25\x1a\x97\x0d\x38\xad\x45\xc8\x27\x93\x40\x7f\x76\xbd\x5e\x34\xf7\xeb\xf5\x3d\xbf\xaa\x3a\x04",
    // padding of 255
    b"\x00\x00\x01\x02\x03\x04\x05\x06\x07\x08\x09\x0a\x0b\xae\x30\x32\x65\x1c\x4e\xb1\x86\xca\xf5\x78\xe2\xd7\x42\xaa\x27\x27\xba\x40\x3e\xd3\x05\x7e\xa4\x5e\xdf\x01\xfb\xbf\x7d\x7f\x2d\x9d\xa2\x6c\xe5\xff\x35\x42\x14\xf2\x0b\xb0\x31\x16\x1c\xb6\xd1\xdc\x92\x9c\xa1\x7d\xa4\x18\x94\x6b\x5c\x7c\x2d\x13\x11\x48\xd9\x10\x54\x1d\x4d\xe3\xd3\x59\x15\x00\xba\x98\xa6\x1d\x4a\xcc\xfd\xac\xbe\x33\xe6\x25\xf7\x4b\xde\x57\xe4\x84\xe5\xf9\x56\x99\x9d\x80\xc9\xee\xf8\x51\xc5\xa0\xa7\x8e\x89\xe9\xdc\x6a\x0e\x2c\xa6\xdf\xb6\xc4\xb5\x3a\x27\x71\xe6\x2a\xc0\xf8\xc2\x29\x48\xaf\x9e\xe9\x0c\xa2\x1d\xc7\x05\xf2\x07\x7d\x9f\xe1\x49\x94\xa9\x3b\x1b\x0c\x4d\x21\x34\x63\xe3\xb2\x35\x8d\x49\x54\xa5\x00\x78\x56\x93\x7b\x14\xee\x3c\x48\x95\xf7\xfa\x4f\xca\x3e\x01\xd6\x74\xa1\x77\x65\x37\x32\xf5\x62\x2b\xd1\x7d\x4b\x06\xeb\x7f\x57\x38\xf4\xf1\x7e\x75\xc7\x17\xa8\x72\xc8\x8f\x42\xd3\xed\xca\x1e\xeb\x20\xd9\x7f\x83\x40\xaf\xf0\xd8\xaf\x13\x0e\x91\x65\x90\x36\x8c\x32\xf0\x6e\x0d\xa3\xec\xe1\x54\x7c\x9d\xfd\x37\xf3\xf1\x84\xb8\xce\xe5\x20\x15\x6c\x2c\xb2\xb3\x09\x30\x5d\x4c\x19\xaf\x55\x35\xae\xd9\xef\x52\xa4\x8d\xa0\xb9\xb6\x7d\x40\x69\x5b\xf4\x11\xc3\x9b\xae",
];

#[test]
fn padding_is_looked_at(rt: HostRuntime) {
    for bytes in UNPADDED {
        assert_refused(&rt, rt.alloc(), KEY, b"", bytes, CipherFault::BadPadding);
    }
}

/// The fault of a packet whose byte at this place differs.
fn changed_fault(place: usize) -> CipherFault {
    match place {
        0 => CipherFault::WrongVersion,
        _ => CipherFault::WrongTag,
    }
}

/// The fault of a stream whose byte at this place is greater by 128.
fn changed_stream_fault(place: usize) -> CipherFault {
    match place {
        0 => CipherFault::NotEncrypted,
        1 => CipherFault::TooLong,
        2..=4 => CipherFault::TooShort,
        5 => CipherFault::WrongVersion,
        _ => CipherFault::WrongTag,
    }
}

/// Changes the highest bit of the byte at a place.
fn change(bytes: &mut [u8], place: usize) {
    if let Some(b) = bytes.get_mut(place) {
        *b ^= 0x80;
    }
}

/// Asserts that a packet is refused with any of its bytes changed.
fn assert_changes_are_found(
    rt: &impl Abort,
    alloc: Global,
    key: &[u8],
    bytes: &[u8],
) -> Result<(), AllocError> {
    let mut changed = bytes.to_vec(alloc)?;
    for place in 0..bytes.len() {
        change(&mut changed, place);
        assert_refused(rt, alloc, key, b"", &changed, changed_fault(place));
        change(&mut changed, place);
    }
    Ok(())
}

/// Asserts that a stream is refused with any of its bytes changed.
fn assert_stream_changes_are_found(
    rt: &impl Abort,
    alloc: Global,
    key: &[u8],
    bytes: &[u8],
) -> Result<(), AllocError> {
    let mut changed = bytes.to_vec(alloc)?;
    for place in 0..bytes.len() {
        change(&mut changed, place);
        assert_refused_stream(rt, alloc, key, b"", &changed, changed_stream_fault(place));
        change(&mut changed, place);
    }
    Ok(())
}

#[test]
fn each_changed_byte_of_a_packet_is_found(rt: HostRuntime) -> Result<(), Fail> {
    for (key, bytes) in PACKETS {
        assert_changes_are_found(&rt, rt.alloc(), key, bytes)?;
    }
    Ok(())
}

#[test]
fn each_changed_byte_of_a_stream_is_found(rt: HostRuntime) -> Result<(), Fail> {
    for (key, bytes) in STREAMS {
        assert_stream_changes_are_found(&rt, rt.alloc(), key, bytes)?;
    }
    Ok(())
}

/// The bytes with another version.
fn with_version(alloc: Global, bytes: &[u8], version: u8) -> Result<Vec<u8>, AllocError> {
    let mut changed = bytes.to_vec(alloc)?;
    if let Some(b) = changed.first_mut() {
        *b = version;
    }
    Ok(changed)
}

#[test]
fn the_version_is_not_authenticated(rt: HostRuntime) -> Result<(), Fail> {
    let [(key, padded), (_, plain), ..] = PACKETS;
    let changed = with_version(rt.alloc(), padded, 1)?;
    let message = b"a message of more than two blocks, as gossip is\x01";
    assert_opens(&rt, rt.alloc(), key, b"", &changed, message)?;
    let changed = with_version(rt.alloc(), plain, 0)?;
    assert_refused(&rt, rt.alloc(), key, b"", &changed, CipherFault::BadPadding);
    Ok(())
}

#[test]
fn another_label_is_refused(rt: HostRuntime) {
    for label in [b"".as_slice(), b"west", b"eastern"] {
        for bytes in LABELLED {
            assert_refused(&rt, rt.alloc(), KEY, label, bytes, CipherFault::WrongTag);
        }
        for bytes in LABELLED_STREAMS {
            assert_refused_stream(&rt, rt.alloc(), KEY, label, bytes, CipherFault::WrongTag);
        }
    }
}

#[test]
fn refusals_of_packets_come_in_their_order(rt: HostRuntime) {
    for (key, bytes, fault) in [
        (b"".as_slice(), b"\x02".as_slice(), CipherFault::BadKey),
        (&[0; 15], b"\x02", CipherFault::BadKey),
        (&[0; 33], b"\x02", CipherFault::BadKey),
        (KEY, b"", CipherFault::TooShort),
        (KEY, &[2; 28], CipherFault::TooShort),
        (KEY, &[2; 29], CipherFault::WrongVersion),
        (KEY, &[1; 29], CipherFault::WrongTag),
    ] {
        assert_refused(&rt, rt.alloc(), key, b"", bytes, fault);
    }
}

#[test]
fn refusals_of_streams_come_in_their_order(rt: HostRuntime) {
    for (bytes, fault) in [
        (b"".as_slice(), CipherFault::TooShort),
        (b"\x09\0\0\0", CipherFault::TooShort),
        (b"\x09\0\0\0\0", CipherFault::NotEncrypted),
        (b"\x0a\x10\0\0\x01", CipherFault::TooLong),
        (b"\x0a\0\0\0\0\x01", CipherFault::Trailing),
        (b"\x0a\0\0\0\0", CipherFault::TooShort),
        (b"\x0a\0\0\0\x01\x01", CipherFault::TooShort),
    ] {
        assert_refused_stream(&rt, rt.alloc(), KEY, b"", bytes, fault);
    }
}

#[test]
fn a_stream_that_announces_much_asks_for_little(rt: HostRuntime) {
    let bytes = b"\x0a\x10\0\0\0\x01";
    assert_refused_stream(&rt, rt.alloc(), KEY, b"", bytes, CipherFault::TooShort);
}
