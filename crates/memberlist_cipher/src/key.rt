//! A key, prepared for decrypting and encrypting.

ghost use Rattle.std.specs.Prelude.{◌≡◌, ℕ, List, MatchBool, IfOk, IfErr, OnOk};
ghost use Rattle.memberlist_cipher.specs.Encryption.{IsKey};
ghost use Rattle.memberlist_cipher.specs.Prepared.{scheduled_key, IsPrepared};
ghost use Rattle.memberlist_cipher.specs.Refusal.{KeyCause};

use crate::CipherFault;
use crate::block::cipher;
use crate::ghash::GhashKey;
use crate::schedule::{RoundKeys, round_keys};
use std::alloc::{AllocError, Global};
use std::marker::Model;

/// A key, prepared once for any number of messages. Contracts see its bytes.
///
/// It keeps the round keys, and products of the block that the hash multiplies by. They are
/// overwritten before their memory is freed, and stay in place if the `Key` moves.
#[derive(Drop)]
pub struct Key {
    pub(crate) round_keys: RoundKeys,
    pub(crate) ghash_key: GhashKey,
}

impl Model for Key {
    ghost Value = { List ℕ };

    ghost view = { λ key. scheduled_key key.round_keys.words.items };

    ghost invariant = { λ key. IsPrepared (scheduled_key key.round_keys.words.items)
        key.round_keys.words.items key.ghash_key };
}

impl Key {
    /// Prepares a key of 16, 24 or 32 bytes.
    ///
    /// # Errors
    ///
    /// `BadKey` if it has another length, and else `Memory` if out of memory.
    ///
    /// Source: FIPS 197, SP 800-38D.
    pub fn new(alloc: Global, bytes: &[u8]) -> Result<Key, CipherFault>
        ensures bytes { IfOk result (λ key. key ≡ bytes.now) }
        ensures good { OnOk result (IsKey bytes.now) }
        ensures refuses { IfErr result (λ fault. KeyCause fault bytes.now) }
    {
        if !is_key(bytes) {
            return Err(CipherFault::BadKey);
        }
        let key = prepared(alloc, bytes)?;
        Ok(key)
    }

    /// The bytes of the key. They are overwritten when the key is dropped.
    pub fn bytes(&self) -> &[u8]
        ensures { result.now ≡ self.now }
    {
        let words = &self.round_keys.words;
        &words[..words.len() / 4 - 28]
    }
}

/// Prepares a key.
pub(crate) fn prepared(alloc: Global, bytes: &[u8]) -> Result<Key, AllocError>
    requires { IsKey bytes.now }
    ensures { IfOk result (λ key. key ≡ bytes.now) }
{
    let round_keys = round_keys(alloc, bytes)?;
    let count = bytes.len() / 4 + 5;
    let h = u128::from_be_bytes(cipher(&round_keys.words, count, [0u8; 16]));
    let ghash_key = GhashKey::new(alloc, h)?;
    Ok(Key {
        round_keys,
        ghash_key,
    })
}

/// Whether bytes can be a key, that is, are 16, 24 or 32 (FIPS 197; memberlist's security.go).
pub fn is_key(key: &[u8]) -> bool
    ensures { MatchBool result (IsKey key.now) (¬ IsKey key.now) }
{
    let len = key.len();
    len == 16 || len == 24 || len == 32
}
