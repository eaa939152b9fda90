//! Packets and streams, decrypted and refused.

use super::packets::{
    LABELLED, LABELLED_STREAMS, LONG, LONG_MESSAGE, MESSAGE, PACKETS, STREAMS, UNPADDED,
};
use super::{KEY, OTHER, keyring};
use memberlist_cipher::CipherFault;
use memberlist_keyring::Keyring;
use std::alloc::{AllocError, Global};
use std::process::Abort;
use std::test::Fail;

/// `OTHER` and `KEY` in both orders.
const OTHER_AND_KEY: &str = "AAAAAAAAAAAAAAAAAAAAAA==\nEBceJSwzOkFIT1ZdZGtyeQ==";

const KEY_AND_OTHER: &str = "EBceJSwzOkFIT1ZdZGtyeQ==\nAAAAAAAAAAAAAAAAAAAAAA==";

/// What is decrypted.
#[derive(Clone, Copy)]
enum Of {
    Packet,
    Stream,
}

/// Decrypts the packet or the stream.
fn open(alloc: Global, keyring: &Keyring, of: Of, bytes: &[u8]) -> Result<Vec<u8>, CipherFault> {
    match of {
        Of::Packet => keyring.open(alloc, bytes),
        Of::Stream => keyring.open_stream(alloc, bytes),
    }
}

/// Asserts that the keyring decrypts it to this message.
fn assert_opens(
    rt: &impl Abort,
    alloc: Global,
    keyring: &Keyring,
    of: Of,
    bytes: &[u8],
    message: &[u8],
) -> Result<(), CipherFault> {
    let answer = open(alloc, keyring, of, bytes)?;
    assert_eq!(rt; answer.as_slice(), message);
    Ok(())
}

/// Asserts that the keyring decrypts a packet and a stream under each of the three keys.
pub(super) fn assert_opens_all(
    rt: &impl Abort,
    alloc: Global,
    keyring: &Keyring,
) -> Result<(), Fail> {
    for bytes in PACKETS {
        assert_opens(rt, alloc, keyring, Of::Packet, bytes, MESSAGE)?;
    }
    for bytes in STREAMS {
        assert_opens(rt, alloc, keyring, Of::Stream, bytes, MESSAGE)?;
    }
    Ok(())
}

/// Asserts that the key of 16 bytes decrypts it to this message.
fn assert_key_opens(
    rt: &impl Abort,
    alloc: Global,
    of: Of,
    bytes: &[u8],
    message: &[u8],
) -> Result<(), Fail> {
    let keyring = keyring(alloc, KEY)?;
    assert_opens(rt, alloc, &keyring, of, bytes, message)?;
    Ok(())
}

#[test]
fn a_label_is_split_off_and_associated(rt: HostRuntime) -> Result<(), Fail> {
    for (of, bytes) in [
        (Of::Packet, LABELLED[0]),
        (Of::Packet, LABELLED[1]),
        (Of::Stream, LABELLED_STREAMS[0]),
        (Of::Stream, LABELLED_STREAMS[1]),
    ] {
        assert_key_opens(&rt, rt.alloc(), of, bytes, b"labelled")?;
    }
    Ok(())
}

/// `LONG` after the longest label.
fn long(alloc: Global) -> Result<Vec<u8>, AllocError> {
    let mut bytes = b"\xf4\xff".to_vec(alloc)?;
    let mut byte = 0u8;
    for _ in 0..255 {
        bytes.push(byte)?;
        byte = byte.wrapping_add(11);
    }
    bytes.extend_from_slice(LONG)?;
    Ok(bytes)
}

#[test]
fn the_longest_label_is_split_off(rt: HostRuntime) -> Result<(), Fail> {
    let bytes = long(rt.alloc())?;
    assert_key_opens(&rt, rt.alloc(), Of::Packet, &bytes, LONG_MESSAGE)
}

/// Why the keys of this file do not decrypt it, or `None` if they do.
fn refusal(alloc: Global, keys: &str, of: Of, bytes: &[u8]) -> Result<Option<CipherFault>, Fail> {
    let keyring = keyring(alloc, keys)?;
    Ok(open(alloc, &keyring, of, bytes).err())
}

/// Asserts that the keys of this file do not decrypt it, with this fault. Running out of memory is
/// an error of the test.
fn assert_refused(
    rt: &impl Abort,
    alloc: Global,
    keys: &str,
    of: Of,
    bytes: &[u8],
    fault: CipherFault,
) -> Result<(), Fail> {
    let found = refusal(alloc, keys, of, bytes)?;
    if found == Some(CipherFault::Memory) {
        return Err(Fail::from(CipherFault::Memory));
    }
    assert_eq!(rt; found, Some(fault), "{bytes:?}");
    Ok(())
}

/// Asserts that the key of 16 bytes does not decrypt the bytes after this label, with this fault.
fn assert_refused_behind(
    rt: &impl Abort,
    alloc: Global,
    label: &[u8],
    of: Of,
    bytes: &[u8],
    fault: CipherFault,
) -> Result<(), Fail> {
    let mut all = label.to_vec(alloc)?;
    all.extend_from_slice(bytes)?;
    assert_refused(rt, alloc, KEY, of, &all, fault)
}

#[test]
fn no_key_opens_what_stands_behind_another_label_or_no_whole_one(
    rt: HostRuntime,
) -> Result<(), Fail> {
    for (label, bytes, fault) in [
        // another label, and none
        (
            b"\xf4\x04wast".as_slice(),
            &LABELLED[0][6..],
            CipherFault::WrongTag,
        ),
        (b"", &LABELLED[0][6..], CipherFault::WrongTag),
        (b"\xf4\x04wast", &LABELLED[1][6..], CipherFault::WrongTag),
        (b"", &LABELLED[1][6..], CipherFault::WrongTag),
        // an empty one, one that is cut off, and two
        (b"\xf4\x00", PACKETS[0], CipherFault::WrongVersion),
        (b"\xf4\xc8", PACKETS[0], CipherFault::WrongVersion),
        (b"\xf4\x01x\xf4\x01x", PACKETS[0], CipherFault::WrongVersion),
        (b"", b"", CipherFault::TooShort),
        (b"\xf4", b"", CipherFault::TooShort),
        (b"\xf4\x01", b"", CipherFault::TooShort),
        (b"\xf4\x01x", b"", CipherFault::TooShort),
        (b"\xf4\x00x", b"", CipherFault::TooShort),
    ] {
        assert_refused_behind(&rt, rt.alloc(), label, Of::Packet, bytes, fault)?;
    }
    Ok(())
}

#[test]
fn no_key_opens_a_stream_that_begins_with_no_whole_label(rt: HostRuntime) -> Result<(), Fail> {
    for (label, bytes, fault) in [
        (
            b"\xf4\x00".as_slice(),
            STREAMS[0],
            CipherFault::NotEncrypted,
        ),
        (b"\xf4\xff", STREAMS[0], CipherFault::NotEncrypted),
        (b"\xf4\x01x\xf4\x01x", STREAMS[0], CipherFault::NotEncrypted),
        (b"", b"", CipherFault::TooShort),
        (b"\xf4", b"", CipherFault::TooShort),
        (b"\xf4\x04east", b"", CipherFault::TooShort),
        (b"\xf4\x00\x0a", b"", CipherFault::TooShort),
    ] {
        assert_refused_behind(&rt, rt.alloc(), label, Of::Stream, bytes, fault)?;
    }
    Ok(())
}

#[test]
fn without_a_key_each_tag_is_wrong(rt: HostRuntime) -> Result<(), Fail> {
    for bytes in [b"".as_slice(), PACKETS[0], STREAMS[0], LABELLED[0]] {
        for of in [Of::Packet, Of::Stream] {
            assert_refused(&rt, rt.alloc(), "", of, bytes, CipherFault::WrongTag)?;
        }
    }
    Ok(())
}

#[test]
fn the_fault_is_that_of_the_last_key(rt: HostRuntime) -> Result<(), Fail> {
    for (keys, fault) in [
        (OTHER_AND_KEY, CipherFault::BadPadding),
        (KEY_AND_OTHER, CipherFault::WrongTag),
    ] {
        assert_refused(&rt, rt.alloc(), keys, Of::Packet, UNPADDED, fault)?;
    }
    Ok(())
}

#[test]
fn another_key_or_the_last_byte_missing_refuses_a_stream(rt: HostRuntime) -> Result<(), Fail> {
    for bytes in STREAMS {
        assert_refused(
            &rt,
            rt.alloc(),
            OTHER,
            Of::Stream,
            bytes,
            CipherFault::WrongTag,
        )?;
        let cut = &bytes[..bytes.len() - 1];
        assert_refused(&rt, rt.alloc(), KEY, Of::Stream, cut, CipherFault::TooShort)?;
    }
    Ok(())
}

/// Asserts that it is decrypted, at the second try if out of memory.
fn assert_opens_again(
    rt: &impl Abort,
    alloc: Global,
    keyring: &Keyring,
    of: Of,
    bytes: &[u8],
) -> Result<(), CipherFault> {
    if let Some(fault) = open(alloc, keyring, of, bytes).err() {
        assert_eq!(rt; fault, CipherFault::Memory);
        assert_opens(rt, alloc, keyring, of, bytes, MESSAGE)?;
    }
    Ok(())
}

#[test]
fn want_of_memory_is_answered_as_such_and_then_repeated(rt: HostRuntime) -> Result<(), Fail> {
    let keyring = keyring(rt.alloc(), KEY)?;
    assert_opens_again(&rt, rt.alloc(), &keyring, Of::Packet, PACKETS[0])?;
    assert_opens_again(&rt, rt.alloc(), &keyring, Of::Stream, STREAMS[0])?;
    Ok(())
}

#[test]
fn keys_change_places_and_are_removed(rt: HostRuntime) -> Result<(), Fail> {
    let mut keys = keyring(rt.alloc(), OTHER_AND_KEY)?;
    assert!(rt; keys.use_key(1) && !keys.use_key(2));
    assert_eq!(rt; keys.get(1), Some([0; 16].as_slice()));
    assert!(rt; keys.remove(1) && !keys.remove(0));
    assert_eq!(rt; keys.len(), 1);
    Ok(())
}
