//! Encrypted messages: the standards' vectors, and what memberlist wrote, with the nonces that it
//! drew. Python's `cryptography` computes the same for each.

use super::messages::{
    EMPTY_STREAMS, KEY, KEY_24, KEY_32, LABELLED, LABELLED_STREAMS, MESSAGE, PACKETS, STREAMS,
};
use super::standards::{
    CASE_1, CASE_2, CASE_3, CASE_4, CASE_7, CASE_8, CASE_9, CASE_10, CASE_13, CASE_14, CASE_15,
    CASE_16, EXTRA, KEY_16 as VECTOR_16, KEY_24 as VECTOR_24, KEY_32 as VECTOR_32, PLAIN, SHORTER,
};
use memberlist_cipher::{CipherFault, Key};
use std::alloc::Global;
use std::process::Abort;
use std::test::Fail;

/// The nonce of the cases that have one.
const NONCE: [u8; 12] = *b"\xca\xfe\xba\xbe\xfa\xce\xdb\xad\xde\xca\xf8\x88";

/// Asserts that the message is encrypted as these bytes, as a packet, once more if out of memory.
fn assert_encrypts(
    rt: &impl Abort,
    alloc: Global,
    key: &[u8],
    nonce: &[u8; 12],
    aad: &[u8],
    message: &[u8],
    wanted: &[u8],
) -> Result<(), CipherFault> {
    let key = Key::new(alloc, key)?;
    let answer = match key.encrypt(alloc, nonce, aad, message) {
        Err(CipherFault::Memory) => key.encrypt(alloc, nonce, aad, message)?,
        answer => answer?,
    };
    assert_eq!(rt; answer.as_slice(), wanted);
    Ok(())
}

/// Asserts that the message is encrypted as these bytes, as a stream.
fn assert_encrypts_stream(
    rt: &impl Abort,
    alloc: Global,
    key: &[u8],
    nonce: &[u8; 12],
    label: &[u8],
    message: &[u8],
    wanted: &[u8],
) -> Result<(), CipherFault> {
    let key = Key::new(alloc, key)?;
    let answer = match key.encrypt_stream(alloc, nonce, label, message) {
        Err(CipherFault::Memory) => key.encrypt_stream(alloc, nonce, label, message)?,
        answer => answer?,
    };
    assert_eq!(rt; answer.as_slice(), wanted);
    Ok(())
}

#[test]
fn the_cases_are_encrypted(rt: HostRuntime) -> Result<(), Fail> {
    let zeros = [0; 32];
    for (key, nonce, aad, message, wanted) in [
        (
            &zeros[..16],
            [0; 12],
            b"".as_slice(),
            b"".as_slice(),
            CASE_1,
        ),
        (&zeros[..16], [0; 12], b"", &zeros[..16], CASE_2),
        (VECTOR_16, NONCE, b"", PLAIN, CASE_3),
        (VECTOR_16, NONCE, EXTRA, SHORTER, CASE_4),
        (&zeros[..24], [0; 12], b"", b"", CASE_7),
        (&zeros[..24], [0; 12], b"", &zeros[..16], CASE_8),
        (VECTOR_24, NONCE, b"", PLAIN, CASE_9),
        (VECTOR_24, NONCE, EXTRA, SHORTER, CASE_10),
        (&zeros, [0; 12], b"", b"", CASE_13),
        (&zeros, [0; 12], b"", &zeros[..16], CASE_14),
        (VECTOR_32, NONCE, b"", PLAIN, CASE_15),
        (VECTOR_32, NONCE, EXTRA, SHORTER, CASE_16),
    ] {
        assert_encrypts(&rt, rt.alloc(), key, &nonce, aad, message, wanted)?;
    }
    Ok(())
}

#[test]
fn packets_are_encrypted_as_memberlist_does(rt: HostRuntime) -> Result<(), Fail> {
    for (key, nonce, label, message, wanted) in [
        (
            KEY,
            *b"\xf5\x2b\xce\x10\xa4\xf2\xf9\xba\x32\x35\xa0\x8d",
            b"".as_slice(),
            MESSAGE,
            PACKETS[1].1,
        ),
        (
            KEY_24,
            *b"\xfb\x27\x8f\xfc\x10\x39\x34\xab\x16\xb3\xa1\x6a",
            b"",
            MESSAGE,
            PACKETS[3].1,
        ),
        (
            KEY_32,
            *b"\x9a\xc6\xc0\xa3\x38\x23\x53\xce\xb7\x9b\x80\xc0",
            b"",
            MESSAGE,
            PACKETS[5].1,
        ),
        (
            KEY,
            *b"\x05\x18\xb6\xed\xa9\xae\x85\xb3\x03\x2d\x0a\x4f",
            b"east",
            b"labelled",
            LABELLED[1],
        ),
    ] {
        assert_encrypts(&rt, rt.alloc(), key, &nonce, label, message, wanted)?;
    }
    Ok(())
}

#[test]
fn streams_are_encrypted_as_memberlist_does(rt: HostRuntime) -> Result<(), Fail> {
    for (key, nonce, label, message, wanted) in [
        (
            KEY,
            *b"\x22\x5c\x92\x27\xea\x81\xa1\xd4\x2c\x5b\x80\x2e",
            b"".as_slice(),
            MESSAGE,
            STREAMS[1].1,
        ),
        (
            KEY_24,
            *b"\x66\x03\x7e\x53\xee\x74\xa0\x2a\xc2\xc2\xe7\x76",
            b"",
            MESSAGE,
            STREAMS[3].1,
        ),
        (
            KEY_32,
            *b"\x90\x42\xff\xd0\xfd\xde\x33\x72\x14\x46\xf9\x2c",
            b"",
            MESSAGE,
            STREAMS[5].1,
        ),
        (
            KEY,
            *b"\xd5\x05\x32\xc4\x5e\x81\xc6\xe5\xcb\xa9\x33\x9d",
            b"",
            b"",
            EMPTY_STREAMS[1],
        ),
        (
            KEY,
            *b"\xc7\xba\xf9\xe8\xc9\xa5\xae\x07\xb8\x00\xf6\x54",
            b"east",
            b"labelled",
            LABELLED_STREAMS[1],
        ),
    ] {
        assert_encrypts_stream(&rt, rt.alloc(), key, &nonce, label, message, wanted)?;
    }
    Ok(())
}
