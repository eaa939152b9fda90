//! The tag of a ciphertext, SP 800-38D, 7.1.

ghost use Rattle.std.specs.Prelude.{◌≡◌, ◌≢◌, ◌+◌, ◌*◌, ◌<◌, ◌≤◌, ◌^◌, length, MatchBool};
ghost use Rattle.memberlist_cipher.specs.Block.{cipher};
ghost use Rattle.memberlist_cipher.specs.Gcm.{hash_key, tag};

use crate::block::{cipher, plus_key};
use crate::ctr::counter_block;
use crate::ghash::{GhashKey, gf128_mul, hash};
use std::simd::prelude::*;

/// The tag of a ciphertext and associated bytes; the hash multiplies by `h`.
pub(crate) fn tag(
    words: &[u8],
    count: usize,
    h: &GhashKey,
    aad: &[u8],
    nonce: &[u8],
    ciphertext: &[u8],
) -> [u8; 16]
    requires few { count < 14 }
    requires words { 16 * count + 32 ≤ length words.now }
    requires block { h.now ≡ hash_key (cipher words.now count) }
    requires nonce { length nonce.now ≡ 12 }
    requires aad { length aad.now < 2 ^ 61 }
    requires ciphertext { length ciphertext.now < 2 ^ 36 }
    ensures { result ≡ tag (cipher words.now count) nonce.now aad.now ciphertext.now }
{
    let high = aad.len() as u128 * 8 * 0x1_0000_0000_0000_0000;
    let lengths = high + ciphertext.len() as u128 * 8;
    let s = gf128_mul(hash(h, hash(h, 0, aad), ciphertext) ^ lengths, h);
    let mask = cipher(words, count, counter_block(nonce, 1));
    plus_key(s.to_be_bytes(), &mask)
}

/// Whether two tags are equal, by steps that depend on no byte of them.
pub(crate) fn is_same(a: &[u8], b: &[u8]) -> bool
    requires first { length a.now ≡ 16 }
    requires second { length b.now ≡ 16 }
    ensures { MatchBool result (a.now ≡ b.now) (a.now ≢ b.now) }
{
    let differing = u8x16::from_slice(a).simd_ne(u8x16::from_slice(b));
    differing.to_bitmask() == 0
}
