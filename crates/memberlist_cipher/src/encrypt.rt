//! Encrypts messages, as packets and streams.

ghost use Rattle.std.specs.Prelude.{◌≡◌, ◌+◌, ◌<◌, ◌≤◌, ◌^◌, ◌++◌, length, vec_len, vec_capacity, IfOk, IfErr, OnOk, MatchBool};
ghost use Rattle.memberlist_cipher.specs.Encryption.{IsKey, MayEncrypt, MayEncryptStream, encrypted, encrypted_stream};
ghost use Rattle.memberlist_cipher.specs.Encryption.{head, Encryption, StreamEncryption};
ghost use Rattle.memberlist_cipher.specs.Refusal.{EncryptCause};

use crate::CipherFault;
use crate::appending::append;
use crate::ctr::append_ctr;
use crate::decryption::{MAX_AAD_LEN, MAX_SEALED_LEN};
use crate::key::Key;
use crate::stream::{MAX_STREAM_LEN, stream_aad};
use crate::tag::tag;
use std::alloc::Global;

/// How many bytes longer an encryption is than its message: its version, its nonce and its tag.
const MORE: usize = 29;

impl Key {
    /// Encrypts a message under this key, in version 1, which has no padding. The result is the
    /// byte 1, the nonce, the ciphertext and the tag. [`Key::decrypt`] returns the message.
    ///
    /// Never use a nonce twice under one key: anyone who has two messages under one nonce has their
    /// sum, and can forge tags. memberlist draws each nonce at random.
    ///
    /// # Errors
    ///
    /// `TooLong` if the message has more than 2^36 - 32 bytes, or 2^61 or more are associated; and
    /// else `Memory`, if out of memory.
    ///
    /// Source: `encryptPayload` in memberlist's security.go; SP 800-38D.
    pub fn encrypt(
        &self,
        alloc: Global,
        nonce: &[u8; 12],
        aad: &[u8],
        message: &[u8],
    ) -> Result<Vec<u8>, CipherFault>
        ensures encrypts { IfOk result (λ bytes.
            Encryption self.now aad.now bytes.items message.now) }
        ensures bytes { IfOk result (λ bytes.
            bytes.items ≡ encrypted self.now nonce.now aad.now message.now) }
        ensures size { IfOk result (λ bytes. vec_capacity bytes ≡ 29 + length message.now) }
        ensures within { OnOk result (MayEncrypt aad.now message.now) }
        ensures refuses { IfErr result (EncryptCause (MayEncrypt aad.now message.now)) }
    {
        if !may_encrypt(aad, message) {
            return Err(CipherFault::TooLong);
        }
        let mut bytes = Vec::with_capacity(alloc, MORE + message.len())?;
        append_encrypted(&mut bytes, self, nonce, aad, message);
        Ok(bytes)
    }

    /// Encrypts a message under this key as a stream: the byte 10, a length of four bytes, the
    /// highest first, and that many bytes as [`Key::encrypt`] returns them. The stream's first five
    /// bytes are associated, followed by the label. [`Key::decrypt_stream`] returns the message.
    ///
    /// Never use a nonce twice under one key, whether for packets or streams.
    ///
    /// # Errors
    ///
    /// `TooLong` if the stream would announce more than 268,435,456 bytes, or the label has 2^61 -
    /// 5 or more; and else `Memory`, if out of memory.
    ///
    /// Source: `encryptLocalState` in memberlist's net.go; the limit is this project's.
    pub fn encrypt_stream(
        &self,
        alloc: Global,
        nonce: &[u8; 12],
        label: &[u8],
        message: &[u8],
    ) -> Result<Vec<u8>, CipherFault>
        ensures encrypts { IfOk result (λ bytes.
            StreamEncryption self.now label.now bytes.items message.now) }
        ensures bytes { IfOk result (λ bytes.
            bytes.items ≡ encrypted_stream self.now nonce.now label.now message.now) }
        ensures size { IfOk result (λ bytes. vec_capacity bytes ≡ 34 + length message.now) }
        ensures within { OnOk result (MayEncryptStream label.now message.now) }
        ensures refuses { IfErr result (EncryptCause (MayEncryptStream label.now message.now)) }
    {
        if !may_encrypt_stream(label, message) {
            return Err(CipherFault::TooLong);
        }
        let len = MORE + message.len();
        let head = head_of(len);
        let aad = stream_aad(alloc, &head, label)?;
        let mut bytes = Vec::with_capacity(alloc, head.len() + len)?;
        append(&mut bytes, &head);
        append_encrypted(&mut bytes, self, nonce, &aad, message);
        Ok(bytes)
    }
}

/// Whether the standard allows this many bytes.
fn may_encrypt(aad: &[u8], message: &[u8]) -> bool
    ensures { MatchBool result (MayEncrypt aad.now message.now)
        (¬ MayEncrypt aad.now message.now) }
{
    message.len() <= MAX_SEALED_LEN - MORE && aad.len() <= MAX_AAD_LEN
}

/// Whether a stream may hold this many bytes.
fn may_encrypt_stream(label: &[u8], message: &[u8]) -> bool
    ensures { MatchBool result (MayEncryptStream label.now message.now)
        (¬ MayEncryptStream label.now message.now) }
{
    message.len() <= MAX_STREAM_LEN - MORE && label.len() <= MAX_AAD_LEN - 5
}

/// The head of a stream in which `len` bytes follow.
fn head_of(len: usize) -> [u8; 5]
    requires { len < 2 ^ 32 }
    ensures { result ≡ head len }
{
    let digits = (len as u32).to_be_bytes();
    [10, digits[0], digits[1], digits[2], digits[3]]
}

/// Appends the encryption of a message. There is room for it.
fn append_encrypted(to: &mut Vec<u8>, key: &Key, nonce: &[u8; 12], aad: &[u8], message: &[u8])
    requires room { vec_len to.old + 29 + length message.now ≤ vec_capacity to.old }
    requires message { length message.now < 2 ^ 36 }
    requires aad { length aad.now < 2 ^ 61 }
    ensures items { to.new.items
        ≡ to.old.items ++ encrypted key.now nonce.now aad.now message.now }
    ensures good_key { IsKey key.now }
    ensures in_place { vec_capacity to.new ≡ vec_capacity to.old }
{
    let words = key.round_keys.words.as_slice();
    let count = words.len() / 16 - 2;
    append(to, &[1]);
    append(to, nonce);
    let start = to.len();
    append_ctr(to, words, count, nonce, message);
    let tag_bytes = tag(words, count, &key.ghash_key, aad, nonce, &to[start..]);
    append(to, &tag_bytes);
}
