//! A key, and its text.

ghost use Rattle.std.specs.Prelude.{◌≡◌, ℕ, List, vec_len, vec_capacity, IfOk, OnErr, MatchBool, MatchOption};
ghost use Rattle.memberlist_keyring.specs.KeyFile.{IsKeyText, HasKeySize};

use crate::Secret;
use base64::engine::general_purpose::STANDARD;
use memberlist_cipher::{Key, is_key};
use std::alloc::{AllocError, Global};

/// The maximum number of bytes in base64 of the length of a key's text.
const MAX_DECODED_LEN: usize = 33;

/// The key whose base64 the text is, ready for use, or `None` if the text is not that of a key.
pub(crate) fn key_of(alloc: Global, text: &[u8]) -> Result<Option<Key>, AllocError>
    ensures key { IfOk result (λ found. MatchOption found
        ((key : List ℕ) → ¬ IsKeyText text.now key) (λ key. IsKeyText text.now key)) }
    ensures memory { OnErr result (HasKeySize text.now) }
{
    if !has_key_size(text) {
        return Ok(None);
    }
    let mut decoded = Secret::new(vec![in alloc; 0u8; MAX_DECODED_LEN]?);
    if !decode_over(text, &mut decoded.bytes) {
        return Ok(None);
    }
    match Key::new(alloc, &decoded.bytes) {
        Ok(key) => Ok(Some(key)),
        Err(_) => Err(AllocError),
    }
}

fn has_key_size(text: &[u8]) -> bool
    ensures { MatchBool result (HasKeySize text.now) (¬ HasKeySize text.now) }
{
    let len = text.len();
    len == 24 || len == 32 || len == 44
}

/// Decodes a text over these bytes, which it does not move. Returns whether it is that of a key;
/// the bytes are then the key's.
fn decode_over(text: &[u8], bytes: &mut Vec<u8>) -> bool
    requires size { HasKeySize text.now }
    requires room { vec_len bytes.old ≡ 33 }
    ensures key { MatchBool result (IsKeyText text.now bytes.new.items)
        ((key : List ℕ) → ¬ IsKeyText text.now key) }
    ensures in_place { vec_capacity bytes.new ≡ vec_capacity bytes.old }
{
    match STANDARD.decode_slice_unchecked(text, bytes) {
        Ok(len) => {
            bytes.truncate(len);
            is_key(bytes)
        }
        Err(_) => false,
    }
}
