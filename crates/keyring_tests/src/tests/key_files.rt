//! Key files, read and refused.

use super::opening::assert_opens_all;
use super::packets::PACKETS;
use super::{KEY, KEY_24, KEY_32, OTHER, keyring};
use memberlist_cipher::CipherFault;
use memberlist_keyring::{KeyFileFault, Keyring};
use std::alloc::{AllocError, Global};
use std::process::Abort;
use std::test::Fail;

/// Files with the keys of 16, 24 and 32 bytes.
const FILES: [&str; 8] = [
    // lines, one of which may be empty, or end in a carriage return
    "EBceJSwzOkFIT1ZdZGtyeQ==\r\nGB8mLTQ7QklQV15lbHN6gYiPlp2kq7K5\r\nICcuNTxDSlFYX2ZtdHuCiZCXnqWss7rByM/W3eTr8vk=\r\n",
    "\n\r\nEBceJSwzOkFIT1ZdZGtyeQ==\n\nGB8mLTQ7QklQV15lbHN6gYiPlp2kq7K5\r\n\r\nICcuNTxDSlFYX2ZtdHuCiZCXnqWss7rByM/W3eTr8vk=",
    "ICcuNTxDSlFYX2ZtdHuCiZCXnqWss7rByM/W3eTr8vk=\nGB8mLTQ7QklQV15lbHN6gYiPlp2kq7K5\nEBceJSwzOkFIT1ZdZGtyeQ==\r",
    "EBceJSwzOkFIT1ZdZGtyeQ==\nGB8mLTQ7QklQV15lbHN6gYiPlp2kq7K5\nICcuNTxDSlFYX2ZtdHuCiZCXnqWss7rByM/W3eTr8vk=\n",
    // another key, and one twice
    "AAAAAAAAAAAAAAAAAAAAAA==\nICcuNTxDSlFYX2ZtdHuCiZCXnqWss7rByM/W3eTr8vk=\nEBceJSwzOkFIT1ZdZGtyeQ==\nGB8mLTQ7QklQV15lbHN6gYiPlp2kq7K5\nEBceJSwzOkFIT1ZdZGtyeQ==",
    // a list of texts in JSON, as serf writes it
    "[\n  \"EBceJSwzOkFIT1ZdZGtyeQ==\",\n  \"GB8mLTQ7QklQV15lbHN6gYiPlp2kq7K5\",\n  \"ICcuNTxDSlFYX2ZtdHuCiZCXnqWss7rByM/W3eTr8vk=\"\n]",
    " \t\r\n[\"ICcuNTxDSlFYX2ZtdHuCiZCXnqWss7rByM/W3eTr8vk=\",\"EBceJSwzOkFIT1ZdZGtyeQ==\",\"GB8mLTQ7QklQV15lbHN6gYiPlp2kq7K5\"]\n",
    // a text with an escape
    "[\"EBceJSwzOkFIT1ZdZGtyeQ==\", \"\\u0047B8mLTQ7QklQV15lbHN6gYiPlp2kq7K5\", \"ICcuNTxDSlFYX2ZtdHuCiZCXnqWss7rByM/W3eTr8vk=\"]",
];

/// Asserts that the keys of the file decrypt what was encrypted under each of the three.
fn assert_opens_each(rt: &impl Abort, alloc: Global, text: &str) -> Result<(), Fail> {
    let keyring = keyring(alloc, text)?;
    assert_opens_all(rt, alloc, &keyring)
}

#[test]
fn lines_and_lists_of_keys_in_any_order_open_what_memberlist_encrypted(
    rt: HostRuntime,
) -> Result<(), Fail> {
    for text in FILES {
        assert_opens_each(&rt, rt.alloc(), text)?;
    }
    Ok(())
}

/// Whether the file holds no key.
fn is_empty(alloc: Global, text: &str) -> Result<bool, Fail> {
    let keyring = keyring(alloc, text)?;
    Ok(keyring.is_empty())
}

#[test]
fn a_file_may_hold_no_keys(rt: HostRuntime) -> Result<(), Fail> {
    for text in ["", "\n", "\r\n\n", "[]", " [ ] "] {
        assert!(rt; is_empty(rt.alloc(), text)?, "{text:?}");
    }
    Ok(())
}

/// Adds the keys of several files: another one, and each of the three.
fn add_several(rt: &impl Abort, alloc: Global, keyring: &mut Keyring) -> Result<(), KeyFileFault> {
    for text in [OTHER, KEY_32, "", KEY, "[]", KEY_24] {
        keyring.add_file(alloc, text.as_bytes())?;
        assert!(rt; !keyring.is_empty());
    }
    Ok(())
}

#[test]
fn keys_of_several_files_stand_behind_each_other(rt: HostRuntime) -> Result<(), Fail> {
    let mut keyring = Keyring::new(rt.alloc());
    assert!(rt; keyring.is_empty());
    add_several(&rt, rt.alloc(), &mut keyring)?;
    assert_opens_all(&rt, rt.alloc(), &keyring)
}

/// Asserts that a file whose second line is not a key is refused.
fn assert_second_refused(rt: &impl Abort, alloc: Global, keyring: &mut Keyring) {
    let text = b"EBceJSwzOkFIT1ZdZGtyeQ==\nEBceJSwzOkFIT1ZdZGtyeQ==x";
    let found = keyring.add_file(alloc, text);
    assert!(rt; matches!(found, Err(KeyFileFault::Line(2) | KeyFileFault::Memory)));
}

#[test]
fn a_refused_file_leaves_the_keyring_as_it_was(rt: HostRuntime) -> Result<(), Fail> {
    let mut keyring = keyring(rt.alloc(), OTHER)?;
    assert_second_refused(&rt, rt.alloc(), &mut keyring);
    let found = keyring.open(rt.alloc(), PACKETS[0]).err();
    assert!(rt; matches!(found, Some(CipherFault::WrongTag | CipherFault::Memory)));
    Ok(())
}

/// Why the file is refused, if it is.
fn refusal(alloc: Global, text: &[u8]) -> Option<KeyFileFault> {
    let mut keyring = Keyring::new(alloc);
    keyring.add_file(alloc, text).err()
}

/// Asserts that the file is refused with this fault. Running out of memory is an error of the test.
fn assert_refused(
    rt: &impl Abort,
    alloc: Global,
    text: &[u8],
    fault: KeyFileFault,
) -> Result<(), KeyFileFault> {
    let found = refusal(alloc, text);
    if found == Some(KeyFileFault::Memory) {
        return Err(KeyFileFault::Memory);
    }
    assert_eq!(rt; found, Some(fault), "{text:?}");
    Ok(())
}

#[test]
fn the_first_line_that_is_no_key_is_named(rt: HostRuntime) -> Result<(), Fail> {
    for (text, line) in [
        // one byte too few and too many
        ("AAAAAAAAAAAAAAAAAAAA", 1),
        ("AAAAAAAAAAAAAAAAAAAAAAA=", 1),
        // bytes of keys, too few or too many for each length
        ("EBceJSwzOkFIT1ZdZGty", 1),
        ("GB8mLTQ7QklQV15lbHN6gYg=", 1),
        ("GB8mLTQ7QklQV15lbHN6gYiP", 1),
        ("GB8mLTQ7QklQV15lbHN6gYiPlp2kqw==", 1),
        ("GB8mLTQ7QklQV15lbHN6gYiPlp2kq7I=", 1),
        ("ICcuNTxDSlFYX2ZtdHuCiZCXnqWss7rByM/W3eTr8g==", 1),
        ("ICcuNTxDSlFYX2ZtdHuCiZCXnqWss7rByM/W3eTr8vkA", 1),
        // one that ends in a byte that is not base64
        ("EBceJSwzOkFIT1ZdZGtyeQ=!", 1),
        // no padding, too much, and bits after the last byte
        ("AAAAAAAAAAAAAAAAAAAAAA", 1),
        ("AAAAAAAAAAAAAAAAAAAAAA===", 1),
        ("AAAAAAAAAAAAAAAAAAAAAB==", 1),
        // the alphabet for URLs
        ("-_v7-_v7-_v7-_v7-_v7-w==", 1),
        // something around it
        (" AAAAAAAAAAAAAAAAAAAAAA==", 1),
        ("AAAAAAAAAAAAAAAAAAAAAA== ", 1),
        ("AAAAAAAAAAAAAAAAAAAAAA==\r\r\n", 1),
        ("\"AAAAAAAAAAAAAAAAAAAAAA==\"", 1),
        ("AAAAAAAAAAAAAAAAAAAAAA==AAAAAAAAAAAAAAAAAAAAAA==", 1),
        ("\u{feff}[]", 1),
        ("\u{c}[]", 1),
        ("{}", 1),
        ("\n\r\nx\ny", 3),
        ("AAAAAAAAAAAAAAAAAAAAAA==\n\nAAAA\n", 3),
        ("AAAAAAAAAAAAAAAAAAAAAA==\n[]", 2),
        ("AAAAAAAAAAAAAAAAAAAAAA==\n#", 2),
        ("\r\r", 1),
    ] {
        assert_refused(&rt, rt.alloc(), text.as_bytes(), KeyFileFault::Line(line))?;
    }
    Ok(())
}

#[test]
fn a_list_is_one_of_texts_and_its_first_that_is_no_key_is_named(
    rt: HostRuntime,
) -> Result<(), Fail> {
    for (text, fault) in [
        (b"[\"\"]".as_slice(), KeyFileFault::Item(1)),
        (
            b"[\"AAAAAAAAAAAAAAAAAAAAAA==\", \"x\", \"y\"]",
            KeyFileFault::Item(2),
        ),
        (b"[\"AAAAAAAAAAAAAAAAAAAAAA==\\n\"]", KeyFileFault::Item(1)),
        (b"[\"AAAAAAAAAAAAAAAAAAAA\", 1]", KeyFileFault::Item(1)),
        (b"[", KeyFileFault::NotList),
        (b"[1]", KeyFileFault::NotList),
        (b"[1, \"x\"]", KeyFileFault::NotList),
        (b"[[\"AAAAAAAAAAAAAAAAAAAAAA==\"]]", KeyFileFault::NotList),
        (
            b"[\"AAAAAAAAAAAAAAAAAAAAAA==\", null]",
            KeyFileFault::NotList,
        ),
        (b"[\"AAAAAAAAAAAAAAAAAAAAAA==\",]", KeyFileFault::NotList),
        (b"[\"AAAAAAAAAAAAAAAAAAAAAA==\"] x", KeyFileFault::NotList),
        (b"[\"AAAAAAAAAAAAAAAAAAAAAA==\"", KeyFileFault::NotList),
        (b"\n [\xff]", KeyFileFault::NotList),
    ] {
        assert_refused(&rt, rt.alloc(), text, fault)?;
    }
    Ok(())
}

/// Asserts that the fault has this number and this text.
fn assert_named(
    rt: &impl Abort,
    alloc: Global,
    fault: KeyFileFault,
    number: u32,
    text: &str,
) -> Result<(), AllocError> {
    assert_eq!(rt; fault.number(), number);
    assert_eq!(rt; format!(in alloc; "{fault}")?.as_str(), text);
    Ok(())
}

#[test]
fn each_fault_has_its_number_and_its_text(rt: HostRuntime) -> Result<(), Fail> {
    for (fault, number, text) in [
        (
            KeyFileFault::Line(7),
            50,
            "line 7 is not a key of 16, 24 or 32 bytes in base64",
        ),
        (
            KeyFileFault::Item(12),
            50,
            "item 12 of the list is not a key of 16, 24 or 32 bytes in base64",
        ),
        (
            KeyFileFault::NotList,
            50,
            "the file is not a JSON list of strings",
        ),
        (KeyFileFault::Memory, 58, "out of memory"),
    ] {
        assert_named(&rt, rt.alloc(), fault, number, text)?;
    }
    Ok(())
}

/// Adds the keys of a file. If memory runs out, the keyring stays empty, and the second try adds
/// them.
fn add_again(
    rt: &impl Abort,
    alloc: Global,
    keyring: &mut Keyring,
    text: &[u8],
) -> Result<(), KeyFileFault> {
    if let Err(fault) = keyring.add_file(alloc, text) {
        assert_eq!(rt; fault, KeyFileFault::Memory);
        assert!(rt; keyring.is_empty());
        keyring.add_file(alloc, text)?;
    }
    assert!(rt; !keyring.is_empty());
    Ok(())
}

#[test]
fn want_of_memory_leaves_the_keyring_as_it_was(rt: HostRuntime) -> Result<(), Fail> {
    for text in [KEY, "[\"EBceJSwzOkFIT1ZdZGtyeQ==\"]"] {
        let mut keyring = Keyring::new(rt.alloc());
        add_again(&rt, rt.alloc(), &mut keyring, text.as_bytes())?;
    }
    Ok(())
}

/// A file that consists of line feeds, none of which takes memory.
#[test]
fn a_file_of_empty_lines_asks_for_little(rt: HostRuntime) -> Result<(), Fail> {
    let text = [b'\n'; 60_000];
    let mut keyring = Keyring::new(rt.alloc());
    keyring.add_file(rt.alloc(), &text)?;
    assert!(rt; keyring.is_empty());
    Ok(())
}
