//! The message of a packet.

ghost use Rattle.std.specs.Prelude.{◌≢◌, ℕ, List, MatchBool, IfOk, IfErr, IsErrOf};
ghost use Rattle.memberlist_cipher.specs.declared.fault.CipherFault.TheVariants.{Memory};
ghost use Rattle.memberlist_cipher.specs.Encryption.{IsWithin, Encryption};
ghost use Rattle.memberlist_cipher.specs.Refusal.{PacketParts, IsTagged, PacketCause};

use crate::CipherFault;
use crate::ctr::ctr;
use crate::key::{Key, is_key, prepared};
use crate::layout::parts_of;
use crate::pkcs7::unpadded;
use crate::tag::{is_same, tag};
use std::alloc::Global;

/// The most bytes: 2^36 - 32 of text (SP 800-38D, 5.2.1.1), and 29 more.
pub(crate) const MAX_SEALED_LEN: usize = 0xf_ffff_fffd;

/// The most associated bytes (SP 800-38D, 5.2.1.1).
pub(crate) const MAX_AAD_LEN: usize = 0x1fff_ffff_ffff_ffff;

/// Decrypts bytes under the key, of 16, 24 or 32 bytes, and returns the message.
///
/// The bytes are those of a packet from the version byte on. The associated bytes are empty if the
/// cluster has no label, and else the label's.
///
/// # Errors
///
/// In this order: `BadKey`, `TooLong` (more than 2^36 - 3 bytes, or 2^61 or more associated ones),
/// `TooShort` (fewer than 29 bytes), `WrongVersion` (the first byte is above 1), `WrongTag`,
/// `BadPadding` (in version 0). `Memory` comes after `WrongVersion`, if out of memory.
///
/// Source: memberlist's security.go, FIPS 197, SP 800-38D, and PKCS #7; the order is this
/// project's.
pub fn decrypt(alloc: Global, key: &[u8], aad: &[u8], bytes: &[u8]) -> Result<Vec<u8>, CipherFault>
    ensures opens { IfOk result (λ message.
        Encryption key.now aad.now bytes.now message.items) }
    ensures refuses { IfErr result (λ fault. PacketCause fault key.now aad.now bytes.now) }
    ensures lacks { IfErr result (λ fault. fault ≢ Memory → (message : List ℕ)
        → ¬ Encryption key.now aad.now bytes.now message) }
{
    opened(alloc, key, aad, bytes)
}

fn opened(alloc: Global, key: &[u8], aad: &[u8], bytes: &[u8]) -> Result<Vec<u8>, CipherFault>
    ensures opens { IfOk result (λ message.
        Encryption key.now aad.now bytes.now message.items) }
    ensures refuses { IfErr result (λ fault. PacketCause fault key.now aad.now bytes.now) }
{
    if !is_key(key) {
        return Err(CipherFault::BadKey);
    }
    // memory is allocated only for bytes that may be a packet
    if !is_within(aad, bytes) {
        return Err(CipherFault::TooLong);
    }
    let _parts = parts_of(bytes)?;
    let key = prepared(alloc, key)?;
    opened_under(alloc, &key, aad, bytes)
}

impl Key {
    /// Decrypts bytes under this key and returns the message. Memory is allocated only for the
    /// message, and only if the tag is right.
    ///
    /// # Errors
    ///
    /// Those of [`decrypt`], without `BadKey`. `Memory` comes after `WrongTag`.
    pub fn decrypt(&self, alloc: Global, aad: &[u8], bytes: &[u8]) -> Result<Vec<u8>, CipherFault>
        ensures opens { IfOk result (λ message.
            Encryption self.now aad.now bytes.now message.items) }
        ensures refuses { IfErr result (λ fault.
            PacketCause fault self.now aad.now bytes.now) }
        ensures lacks { IfErr result (λ fault. fault ≢ Memory → (message : List ℕ)
            → ¬ Encryption self.now aad.now bytes.now message) }
        ensures memory { IsErrOf result Memory → (l : PacketParts bytes.now)
            × IsTagged self.now aad.now bytes.now l }
    {
        opened_under(alloc, self, aad, bytes)
    }
}

fn opened_under(alloc: Global, key: &Key, aad: &[u8], bytes: &[u8]) -> Result<Vec<u8>, CipherFault>
    ensures opens { IfOk result (λ message.
        Encryption key.now aad.now bytes.now message.items) }
    ensures refuses { IfErr result (λ fault. PacketCause fault key.now aad.now bytes.now) }
    ensures memory { IsErrOf result Memory → (l : PacketParts bytes.now)
        × IsTagged key.now aad.now bytes.now l }
{
    let words = key.round_keys.words.as_slice();
    if !is_within(aad, bytes) {
        return Err(CipherFault::TooLong);
    }
    let parts = parts_of(bytes)?;
    let count = words.len() / 16 - 2;
    let expected = tag(
        words,
        count,
        &key.ghash_key,
        aad,
        parts.nonce,
        parts.ciphertext,
    );
    if !is_same(parts.tag, &expected) {
        return Err(CipherFault::WrongTag);
    }
    let text = ctr(alloc, words, count, parts.nonce, parts.ciphertext)?;
    if parts.version == 1 {
        return Ok(text);
    }
    let message = unpadded(text)?;
    Ok(message)
}

/// Whether the standard allows this many bytes.
fn is_within(aad: &[u8], bytes: &[u8]) -> bool
    ensures { MatchBool result (IsWithin aad.now bytes.now)
        (¬ IsWithin aad.now bytes.now) }
{
    bytes.len() <= MAX_SEALED_LEN && aad.len() <= MAX_AAD_LEN
}
