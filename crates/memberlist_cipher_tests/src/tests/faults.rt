//! The numbers and texts of faults.

use memberlist_cipher::CipherFault;
use std::alloc::{AllocError, Global};
use std::process::Abort;
use std::test::Fail;

/// Its text, tried once more if out of memory.
fn text_of(alloc: Global, fault: &CipherFault) -> Result<String, AllocError> {
    match format!(in alloc; "{fault}") {
        Err(_) => format!(in alloc; "{fault}"),
        text => text,
    }
}

fn assert_named(
    rt: &impl Abort,
    alloc: Global,
    fault: &CipherFault,
    number: u32,
    text: &str,
) -> Result<(), AllocError> {
    assert_eq!(rt; fault.number(), number, "{fault}");
    assert_eq!(rt; text_of(alloc, fault)?.as_str(), text);
    Ok(())
}

#[test]
fn each_fault_has_its_number_and_its_text(rt: HostRuntime) -> Result<(), Fail> {
    for (fault, number, text) in [
        (
            CipherFault::BadKey,
            50,
            "the key does not have 16, 24 or 32 bytes",
        ),
        (
            CipherFault::TooLong,
            51,
            "the label, or what is encrypted, is too long",
        ),
        (
            CipherFault::TooShort,
            52,
            "the encrypted bytes end too early",
        ),
        (
            CipherFault::WrongVersion,
            53,
            "the version of encryption is neither 0 nor 1",
        ),
        (
            CipherFault::WrongTag,
            54,
            "the tag does not match the key and the bytes",
        ),
        (
            CipherFault::BadPadding,
            55,
            "the plaintext has no valid padding",
        ),
        (CipherFault::NotEncrypted, 56, "the stream is not encrypted"),
        (
            CipherFault::Trailing,
            57,
            "bytes follow the encrypted stream",
        ),
        (CipherFault::Memory, 58, "out of memory"),
    ] {
        assert_named(&rt, rt.alloc(), &fault, number, text)?;
    }
    Ok(())
}
