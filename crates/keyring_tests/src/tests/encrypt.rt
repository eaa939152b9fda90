//! Packets and streams, encrypted under the first key as memberlist does, with the nonces that it
//! drew.

use super::packets::{LABELLED, LABELLED_STREAMS, MESSAGE, PACKETS, REPLY, STREAMS};
use super::{KEY, KEY_32, OTHER, keyring};
use memberlist_cipher::CipherFault;
use memberlist_keyring::Keyring;
use std::alloc::Global;
use std::process::Abort;
use std::test::Fail;

/// `KEY`, then another one.
const KEY_AND_OTHER: &str = "EBceJSwzOkFIT1ZdZGtyeQ==\nAAAAAAAAAAAAAAAAAAAAAA==";

/// What is written: a packet, a stream or a reply.
#[derive(Clone, Copy)]
enum To {
    Packet,
    Stream,
    Reply,
}

/// Encrypts a packet, a stream or a reply.
fn encrypt(
    alloc: Global,
    keyring: &Keyring,
    to: To,
    nonce: &[u8; 12],
    label: &[u8],
    message: &[u8],
) -> Result<Option<Vec<u8>>, CipherFault> {
    match to {
        To::Packet => keyring.encrypt(alloc, nonce, label, message),
        To::Stream => keyring.encrypt_stream(alloc, nonce, label, message),
        To::Reply => keyring.encrypt_reply(alloc, nonce, label, message),
    }
}

/// Asserts that the keys of this file encrypt it to these bytes, at the second try if out of
/// memory.
fn assert_encrypts(
    rt: &impl Abort,
    alloc: Global,
    keys: &str,
    to: To,
    nonce: &[u8; 12],
    label: &[u8],
    message: &[u8],
    wanted: Option<&[u8]>,
) -> Result<(), Fail> {
    let keyring = keyring(alloc, keys)?;
    let answer = match encrypt(alloc, &keyring, to, nonce, label, message) {
        Err(CipherFault::Memory) => encrypt(alloc, &keyring, to, nonce, label, message)?,
        answer => answer?,
    };
    assert_eq!(rt; answer.as_deref(), wanted);
    Ok(())
}

#[test]
fn the_first_key_encrypts_behind_the_label(rt: HostRuntime) -> Result<(), Fail> {
    for (keys, to, nonce, label, message, wanted) in [
        (
            KEY,
            To::Packet,
            *b"\xf5\x2b\xce\x10\xa4\xf2\xf9\xba\x32\x35\xa0\x8d",
            b"".as_slice(),
            MESSAGE,
            PACKETS[1],
        ),
        (
            KEY_32,
            To::Stream,
            *b"\x90\x42\xff\xd0\xfd\xde\x33\x72\x14\x46\xf9\x2c",
            b"",
            MESSAGE,
            STREAMS[5],
        ),
        (
            KEY_AND_OTHER,
            To::Packet,
            *b"\x05\x18\xb6\xed\xa9\xae\x85\xb3\x03\x2d\x0a\x4f",
            b"east",
            b"labelled",
            LABELLED[1],
        ),
        (
            KEY_AND_OTHER,
            To::Stream,
            *b"\xc7\xba\xf9\xe8\xc9\xa5\xae\x07\xb8\x00\xf6\x54",
            b"east",
            b"labelled",
            LABELLED_STREAMS[1],
        ),
        (
            KEY_AND_OTHER,
            To::Reply,
            *b"\xc7\xba\xf9\xe8\xc9\xa5\xae\x07\xb8\x00\xf6\x54",
            b"east",
            b"labelled",
            REPLY,
        ),
    ] {
        assert_encrypts(
            &rt,
            rt.alloc(),
            keys,
            to,
            &nonce,
            label,
            message,
            Some(wanted),
        )?;
    }
    Ok(())
}

#[test]
fn without_a_key_nothing_is_encrypted(rt: HostRuntime) -> Result<(), Fail> {
    for to in [To::Packet, To::Stream, To::Reply] {
        assert_encrypts(&rt, rt.alloc(), "", to, &[0; 12], b"east", MESSAGE, None)?;
    }
    Ok(())
}

#[test]
fn a_label_of_256_bytes_is_too_long(rt: HostRuntime) -> Result<(), Fail> {
    let keyring = keyring(rt.alloc(), KEY)?;
    for to in [To::Packet, To::Stream, To::Reply] {
        let answer = encrypt(rt.alloc(), &keyring, to, &[0; 12], &[b'x'; 256], b"").err();
        assert_eq!(rt; answer, Some(CipherFault::TooLong));
    }
    Ok(())
}

/// The bytes of `KEY`.
const KEY_BYTES: &[u8] = b"\x10\x17\x1e\x25\x2c\x33\x3a\x41\x48\x4f\x56\x5d\x64\x6b\x72\x79";

#[test]
fn a_key_is_added_behind_the_others(rt: HostRuntime) -> Result<(), Fail> {
    let mut keyring = keyring(rt.alloc(), OTHER)?;
    keyring.add(rt.alloc(), KEY_BYTES)?;
    let message = keyring.open(rt.alloc(), LABELLED[1])?;
    assert_eq!(rt; message.as_slice(), b"labelled".as_slice());
    for len in [0, 15] {
        let fault = keyring.add(rt.alloc(), &KEY_BYTES[..len]).err();
        assert_eq!(rt; fault, Some(CipherFault::BadKey));
    }
    Ok(())
}
