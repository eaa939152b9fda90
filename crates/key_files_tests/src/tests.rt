//! What no clause states: key files of many pieces, and those that are refused.
//!
//! The files are pipes, which a shell names in the same way for `<(..)`, so that no key is written
//! to a disk.

use key_files::keyring_of;
use memberlist_keyring::Keyring;
use std::io;
use std::io::{PipeReader, Write};
use std::os::fd::AsRawFd;
use std::process::Abort;
use std::test::Fail;
use swim_program::Failure;

/// Two keys, each on a line.
const KEYS: [u8; 70] = *b"EBceJSwzOkFIT1ZdZGtyeQ==\nICcuNTxDSlFYX2ZtdHuCiZCXnqWss7rByM/W3eTr8vk=\n";

/// The first of these keys.
const KEY_16: &[u8] = b"\x10\x17\x1e\x25\x2c\x33\x3a\x41\x48\x4f\x56\x5d\x64\x6b\x72\x79";

/// The second.
const KEY_32: &[u8] =
    b"\x20\x27\x2e\x35\x3c\x43\x4a\x51\x58\x5f\x66\x6d\x74\x7b\x82\x89\x90\x97\x9e\xa5\xac\xb3\xba\xc1\xc8\xcf\xd6\xdd\xe4\xeb\xf2\xf9";

/// A pipe that holds this text so many times, and then ends.
fn pipe_of(rt: &HostRuntime, text: &[u8], times: u32) -> io::Result<PipeReader> {
    let (reader, mut writer) = io::pipe(rt)?;
    for _ in 0..times {
        writer.write_all(text)?;
    }
    Ok(reader)
}

/// A key file, and the keys that were read from it.
#[derive(Drop)]
struct KeyFile {
    name: String,
    keys: Result<Keyring, Failure>,
}

/// Reads a key file that holds this text so many times.
fn read(rt: &HostRuntime, text: &[u8], times: u32) -> io::Result<KeyFile> {
    let pipe = pipe_of(rt, text, times)?;
    let number = pipe.as_raw_fd();
    let name = format!(in rt.alloc(); "/dev/fd/{number}")?;
    let keys = keyring_of(rt, "swimwatch", std::slice::from_ref(&name));
    Ok(KeyFile { name, keys })
}

/// Whether the key at this place is the one of the two whose turn it is.
fn is_in_turn(keys: &Keyring, i: usize) -> bool {
    if i % 2 == 0 {
        keys.get(i) == Some(KEY_16)
    } else {
        keys.get(i) == Some(KEY_32)
    }
}

/// Asserts that the two keys were read, in turn, and this many in all, or that memory ran out.
fn assert_keys(rt: &impl Abort, file: &KeyFile, count: usize) {
    match &file.keys {
        Ok(keys) => {
            assert_eq!(rt; keys.len(), count);
            for i in 0..keys.len() {
                assert!(rt; is_in_turn(keys, i), "{i}");
            }
        }
        Err(Failure::Memory) => {}
        Err(_) => panic!(rt; "the file was refused"),
    }
}

#[test]
fn the_keys_of_a_file_are_added_and_its_text_does_not_stay(rt: HostRuntime) -> Result<(), Fail> {
    assert_keys(&rt, &read(&rt, &KEYS, 1)?, 2);
    Ok(())
}

/// Asserts that a file was refused with this text, or that memory ran out.
fn assert_refused(rt: &impl Abort, file: &KeyFile, wanted: &str) {
    match &file.keys {
        Ok(_) => panic!(rt; "not refused: {wanted}"),
        Err(Failure::Refused { text, status }) => {
            assert_eq!(rt; text.as_str(), wanted);
            assert_eq!(rt; *status, 3);
        }
        Err(Failure::Memory) => {}
        Err(_) => panic!(rt; "another failure: {wanted}"),
    }
}

#[test]
fn the_text_of_a_file_that_is_refused_does_not_stay(rt: HostRuntime) -> Result<(), Fail> {
    for (text, place) in [
        (b"EBceJSwzOkFIT1ZdZGtyeQ==\nx".as_slice(), "line 2"),
        (b"EBceJSwzOkFIT1ZdZGtyeQ==x", "line 1"),
        (b"[1]", "not a JSON list of strings"),
        (b"[\"AAAA\"]", "item 1"),
    ] {
        let file = read(&rt, text, 1)?;
        let name = file.name.as_str();
        let wanted = format!(in rt.alloc(); "swimwatch: {name}: {place}: fault 50 BadKey")?;
        assert_refused(&rt, &file, wanted.as_str());
    }
    Ok(())
}

/// The text has 25,550 bytes, in pieces of 4,096, and each piece but the last ends within a key or
/// right behind it.
#[test]
fn a_text_of_many_pieces_grows_without_a_trace(rt: HostRuntime) -> Result<(), Fail> {
    let mut text = [b'\n'; 1022];
    text[..70].copy_from_slice(&KEYS);
    assert_keys(&rt, &read(&rt, &text, 25)?, 50);
    Ok(())
}

#[test]
fn a_short_key_file_asks_for_little(rt: HostRuntime) -> Result<(), Fail> {
    assert_keys(&rt, &read(&rt, &KEYS, 1)?, 2);
    Ok(())
}
