//! The message of a stream.

ghost use Rattle.std.specs.Prelude.{◌≡◌, ◌≢◌, ◌++◌, ◌+◌, ◌≤◌, ◌*◌, ◌^◌, ℕ, List, length, vec_capacity, IfOk, IfErr};
ghost use Rattle.memberlist_cipher.specs.declared.fault.CipherFault.TheVariants.{Memory};
ghost use Rattle.memberlist_cipher.specs.Encryption.{head, IsStream, StreamEncryption};
ghost use Rattle.memberlist_cipher.specs.Refusal.{HeadCause, StreamCause};

use crate::CipherFault;
use crate::appending::append;
use crate::decryption::decrypt;
use crate::key::Key;
use std::alloc::{AllocError, Global};

/// The most bytes that a stream may announce (own).
pub(crate) const MAX_STREAM_LEN: usize = 268_435_456;

/// Decrypts a stream and returns its message. A stream is the byte 10, a length of four bytes, the
/// highest first, and that many bytes as [`decrypt`] takes them.
///
/// The stream's first five bytes are associated, followed by the label, which is empty if the
/// cluster has none.
///
/// # Errors
///
/// In this order: `TooShort` (fewer than five bytes), `NotEncrypted` (the first is not 10),
/// `TooLong` (a length above 268,435,456), `TooShort` (fewer bytes than announced), `Trailing`
/// (more bytes than announced), and then those of [`decrypt`]. `Memory` comes after `Trailing`, if
/// out of memory.
///
/// Source: memberlist's net.go and security.go; the limit and the order are this project's.
pub fn decrypt_stream(
    alloc: Global,
    key: &[u8],
    label: &[u8],
    bytes: &[u8],
) -> Result<Vec<u8>, CipherFault>
    ensures opens { IfOk result (λ message.
        StreamEncryption key.now label.now bytes.now message.items) }
    ensures refuses { IfErr result (λ fault. StreamCause fault key.now label.now bytes.now) }
    ensures lacks { IfErr result (λ fault. fault ≢ Memory → (message : List ℕ)
        → ¬ StreamEncryption key.now label.now bytes.now message) }
{
    opened_stream(alloc, key, label, bytes)
}

fn opened_stream(
    alloc: Global,
    key: &[u8],
    label: &[u8],
    bytes: &[u8],
) -> Result<Vec<u8>, CipherFault>
    ensures opens { IfOk result (λ message.
        StreamEncryption key.now label.now bytes.now message.items) }
    ensures refuses { IfErr result (λ fault. StreamCause fault key.now label.now bytes.now) }
{
    let (head, ciphertext) = stream_parts(bytes)?;
    let aad = stream_aad(alloc, head, label)?;
    let message = decrypt(alloc, key, &aad, ciphertext)?;
    Ok(message)
}

impl Key {
    /// Decrypts a stream under this key and returns its message. Memory is allocated for the
    /// message and for the associated bytes.
    ///
    /// # Errors
    ///
    /// Those of [`decrypt_stream`], without `BadKey`.
    pub fn decrypt_stream(
        &self,
        alloc: Global,
        label: &[u8],
        bytes: &[u8],
    ) -> Result<Vec<u8>, CipherFault>
        ensures opens { IfOk result (λ message.
            StreamEncryption self.now label.now bytes.now message.items) }
        ensures refuses { IfErr result (λ fault. StreamCause fault self.now label.now bytes.now) }
        ensures lacks { IfErr result (λ fault. fault ≢ Memory → (message : List ℕ)
            → ¬ StreamEncryption self.now label.now bytes.now message) }
    {
        opened_stream_under(alloc, self, label, bytes)
    }
}

fn opened_stream_under(
    alloc: Global,
    key: &Key,
    label: &[u8],
    bytes: &[u8],
) -> Result<Vec<u8>, CipherFault>
    ensures opens { IfOk result (λ message.
        StreamEncryption key.now label.now bytes.now message.items) }
    ensures refuses { IfErr result (λ fault. StreamCause fault key.now label.now bytes.now) }
{
    let (head, ciphertext) = stream_parts(bytes)?;
    let aad = stream_aad(alloc, head, label)?;
    let message = key.decrypt(alloc, &aad, ciphertext)?;
    Ok(message)
}

/// The associated bytes: a stream's head, and the label.
pub(crate) fn stream_aad(alloc: Global, head: &[u8], label: &[u8]) -> Result<Vec<u8>, AllocError>
    requires { length head.now ≡ 5 }
    ensures bytes { IfOk result (λ all. all.items ≡ head.now ++ label.now) }
    ensures size { IfOk result (λ all. vec_capacity all ≡ 5 + length label.now) }
{
    let mut all = Vec::with_capacity(alloc, head.len() + label.len())?;
    append(&mut all, head);
    append(&mut all, label);
    Ok(all)
}

/// A stream's head, and what follows it.
fn stream_parts(bytes: &[u8]) -> Result<(&[u8], &[u8]), CipherFault>
    ensures stream { IfOk result (λ parts. IsStream bytes.now parts.1.now) }
    ensures head { IfOk result (λ parts. parts.0.now ≡ head (length parts.1.now)) }
    ensures size { IfOk result (λ parts. length parts.0.now ≡ 5) }
    ensures refuses { IfErr result (λ fault. HeadCause fault bytes.now) }
{
    if bytes.len() < 5 {
        return Err(CipherFault::TooShort);
    }
    if bytes[0] != 10 {
        return Err(CipherFault::NotEncrypted);
    }
    let announced = u32::from_be_bytes([bytes[1], bytes[2], bytes[3], bytes[4]]) as usize;
    if announced > MAX_STREAM_LEN {
        return Err(CipherFault::TooLong);
    }
    let (head, ciphertext) = bytes.split_at(5);
    if ciphertext.len() < announced {
        return Err(CipherFault::TooShort);
    }
    if ciphertext.len() > announced {
        return Err(CipherFault::Trailing);
    }
    Ok((head, ciphertext))
}
