//! What no clause covers: the standards' vectors, real messages, and the texts of faults.

use memberlist_cipher::{CipherFault, decrypt, decrypt_stream};
use std::alloc::Global;
use std::process::Abort;

mod encrypt;
mod faults;
mod keys;
mod labels;
mod messages;
mod refusals;
mod standards;

/// Decrypts a packet, once more if out of memory.
fn open(alloc: Global, key: &[u8], aad: &[u8], bytes: &[u8]) -> Result<Vec<u8>, CipherFault> {
    match decrypt(alloc, key, aad, bytes) {
        Err(CipherFault::Memory) => decrypt(alloc, key, aad, bytes),
        answer => answer,
    }
}

/// Decrypts a stream, once more if out of memory.
fn open_stream(
    alloc: Global,
    key: &[u8],
    label: &[u8],
    bytes: &[u8],
) -> Result<Vec<u8>, CipherFault> {
    match decrypt_stream(alloc, key, label, bytes) {
        Err(CipherFault::Memory) => decrypt_stream(alloc, key, label, bytes),
        answer => answer,
    }
}

/// Asserts that the packet decrypts to this message.
fn assert_opens(
    rt: &impl Abort,
    alloc: Global,
    key: &[u8],
    aad: &[u8],
    bytes: &[u8],
    message: &[u8],
) -> Result<(), CipherFault> {
    let answer = open(alloc, key, aad, bytes)?;
    assert_eq!(rt; answer.as_slice(), message);
    Ok(())
}

/// Asserts that the stream decrypts to this message.
fn assert_opens_stream(
    rt: &impl Abort,
    alloc: Global,
    key: &[u8],
    label: &[u8],
    bytes: &[u8],
    message: &[u8],
) -> Result<(), CipherFault> {
    let answer = open_stream(alloc, key, label, bytes)?;
    assert_eq!(rt; answer.as_slice(), message);
    Ok(())
}

/// Asserts that the packet is refused, and why.
fn assert_refused(
    rt: &impl Abort,
    alloc: Global,
    key: &[u8],
    aad: &[u8],
    bytes: &[u8],
    fault: CipherFault,
) {
    let answer = open(alloc, key, aad, bytes).err();
    assert_eq!(rt; answer, Some(fault), "{bytes:?}");
}

/// Asserts that the stream is refused, and why.
fn assert_refused_stream(
    rt: &impl Abort,
    alloc: Global,
    key: &[u8],
    label: &[u8],
    bytes: &[u8],
    fault: CipherFault,
) {
    let answer = open_stream(alloc, key, label, bytes).err();
    assert_eq!(rt; answer, Some(fault), "{bytes:?}");
}
