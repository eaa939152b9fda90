//! The key schedule, FIPS-197, 5.2.

ghost use Rattle.std.specs.Prelude.{◌≡◌, ◌+◌, ◌*◌, ◌/◌, ◌%◌, ◌<◌, ◌≤◌, ◌⊎◌, length, map, replicate, vec_capacity, IfOk};
ghost use Rattle.memberlist_cipher.specs.Field.{sub};
ghost use Rattle.memberlist_cipher.specs.Block.{word, added, next_word, schedule};
ghost use Rattle.memberlist_cipher.specs.Encryption.{IsKey};

use crate::appending::append;
use crate::field::x_to;
use crate::tower::sub_bytes;
use std::alloc::{AllocError, Global};
use std::simd::prelude::*;

/// The S-box values of a word.
fn sub_word(word: [u8; 4]) -> [u8; 4]
    ensures { result ≡ map sub word }
{
    let [a, b, c, d] = word;
    let bytes = u8x16::from_array([a, b, c, d, 0, 0, 0, 0, 0, 0, 0, 0, 0, 0, 0, 0]);
    let values = sub_bytes(bytes).to_array();
    [values[0], values[1], values[2], values[3]]
}

/// What is added to the word one key length before.
fn added(key_words: usize, i: usize, t: [u8; 4]) -> [u8; 4]
    requires key { (key_words ≡ 4) ⊎ (key_words ≡ 6) ⊎ (key_words ≡ 8) }
    requires low { key_words ≤ i }
    requires high { i < 60 }
    ensures { result ≡ added key_words i t }
{
    let place = i % key_words;
    if place == 0 {
        let power = x_to(i / key_words - 1);
        let values = sub_word(t);
        [values[1] ^ power, values[2], values[3], values[0]]
    } else if place == 4 {
        if key_words > 6 { sub_word(t) } else { t }
    } else {
        t
    }
}

/// The next word.
fn next_word(key_words: usize, words: &[u8]) -> [u8; 4]
    requires key { (key_words ≡ 4) ⊎ (key_words ≡ 6) ⊎ (key_words ≡ 8) }
    requires low { 4 * key_words ≤ length words.now }
    requires high { length words.now < 240 }
    ensures { result ≡ next_word key_words words.now }
{
    let n = words.len();
    let old = n - 4 * key_words;
    let at = n - 4;
    let last = [words[at], words[at + 1], words[at + 2], words[at + 3]];
    let t = added(key_words, n / 4, last);
    [
        words[old] ^ t[0],
        words[old + 1] ^ t[1],
        words[old + 2] ^ t[2],
        words[old + 3] ^ t[3],
    ]
}

/// The words of a key. They are overwritten before their memory is freed, and never move.
pub(crate) struct RoundKeys {
    pub(crate) words: Vec<u8>,
}

impl Drop for RoundKeys {
    fn drop(self) {
        let RoundKeys { mut words } = self;
        overwrite(&mut words);
    }
}

/// Overwrites each byte with 0.
fn overwrite(bytes: &mut [u8])
    ensures { bytes.new ≡ replicate (length bytes.old) 0 }
{
    bytes.fill(0);
}

/// All words of a key.
pub(crate) fn round_keys(alloc: Global, key: &[u8]) -> Result<RoundKeys, AllocError>
    requires { IsKey key.now }
    ensures words { IfOk result (λ keys. keys.words.items ≡ schedule key.now) }
    ensures size { IfOk result (λ keys.
        length keys.words.items ≡ 112 + 16 * (length key.now / 4)) }
    ensures in_place { IfOk result (λ keys.
        vec_capacity keys.words ≡ 112 + 16 * (length key.now / 4)) }
{
    let key_words = key.len() / 4;
    let mut keys = RoundKeys {
        words: Vec::with_capacity(alloc, 112 + 16 * key_words)?,
    };
    append(&mut keys.words, key);
    for _ in 0..28 + 3 * key_words {
        let next = next_word(key_words, &keys.words);
        append(&mut keys.words, &next);
    }
    Ok(keys)
}
