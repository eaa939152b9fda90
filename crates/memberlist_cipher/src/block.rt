//! AES on blocks, FIPS-197, 5.1.
//!
//! Between its rounds a state is in the basis of [`crate::tower`], and the constant of the S-box is
//! added with the round keys: MixColumns leaves a state of equal bytes as it is.

ghost use Rattle.std.specs.Prelude.{◌≡◌, ℕ, List, ◌+◌, ◌*◌, ◌<◌, ◌≤◌, length, map, replicate};
ghost use Rattle.memberlist_cipher.specs.Block.{plus_bytes, scrambled, mix_columns, cipher};
ghost use Rattle.memberlist_cipher.specs.Tower.{tower};
ghost use Rattle.memberlist_cipher.specs.States.{IsState, IsAfter, HasKey};

use crate::tower::{once_and_twice, substituted, to_tower};
use std::simd::prelude::*;

/// Where ShiftRows takes the bytes of a state from.
const ROWS: [usize; 16] = [0, 5, 10, 15, 4, 9, 14, 3, 8, 13, 2, 7, 12, 1, 6, 11];

/// SubBytes and ShiftRows, without the constant.
#[inline(always)]
fn scrambled(state: u8x16) -> u8x16
    ensures { (s : List ℕ) → IsState s → state ≡ map tower s
        → result ≡ plus_bytes (scrambled s) (replicate 16 0x63) }
{
    substituted(state.swizzle(ROWS))
}

/// SubBytes, ShiftRows and MixColumns, without the constant.
#[inline(always)]
fn mixed(state: u8x16) -> u8x16
    ensures { (s : List ℕ) → IsState s → state ≡ map tower s
        → result ≡ map tower (plus_bytes (mix_columns (scrambled s)) (replicate 16 0x63)) }
{
    let (once, twice) = once_and_twice(state.swizzle(ROWS));
    let second = (once ^ twice).swizzle([1, 2, 3, 0, 5, 6, 7, 4, 9, 10, 11, 8, 13, 14, 15, 12]);
    let third = once.swizzle([2, 3, 0, 1, 6, 7, 4, 5, 10, 11, 8, 9, 14, 15, 12, 13]);
    let fourth = once.swizzle([3, 0, 1, 2, 7, 4, 5, 6, 11, 8, 9, 10, 15, 12, 13, 14]);
    twice ^ second ^ third ^ fourth
}

/// The key of this round, with the constant of the S-box.
#[inline(always)]
fn key_of(words: &[u8], round: usize) -> u8x16
    requires few { round < 16 }
    requires words { 16 * round + 16 ≤ length words.now }
    ensures { HasKey words.now round result }
{
    u8x16::from_slice(&words[16 * round..]) ^ u8x16::splat(0x63)
}

/// The state before the first round.
#[inline(always)]
fn begun(words: &[u8], block: u8x16) -> u8x16
    requires { 16 ≤ length words.now }
    ensures { IsAfter words.now 0 block result }
{
    to_tower(block ^ u8x16::from_slice(words))
}

/// The state after one more round, with its key in the tower's basis.
#[inline(always)]
fn advanced(state: u8x16, key: u8x16) -> u8x16
    ensures { (words block plain : List ℕ) (n : ℕ) → IsAfter words n block state
        → HasKey words (n + 1) plain → key ≡ map tower plain → IsAfter words (n + 1) block result }
{
    mixed(state) ^ key
}

/// The block after the last round, with its key.
#[inline(always)]
fn ended(state: u8x16, key: u8x16) -> u8x16
    ensures { (words block : List ℕ) (n : ℕ) → IsAfter words n block state
        → HasKey words (n + 1) key → result ≡ cipher words n block }
{
    scrambled(state) ^ key
}

/// The sum of the state and a round key.
pub(crate) fn plus_key(s: [u8; 16], key: &[u8]) -> [u8; 16]
    requires { length key.now ≡ 16 }
    ensures { result ≡ plus_bytes s key.now }
{
    (u8x16::from_array(s) ^ u8x16::from_slice(key)).to_array()
}

/// The block after `count` rounds and the last one, with this key schedule.
pub(crate) fn cipher(words: &[u8], count: usize, block: [u8; 16]) -> [u8; 16]
    requires few { count < 14 }
    requires words { 16 * count + 32 ≤ length words.now }
    ensures { result ≡ cipher words.now count block }
{
    let mut state = begun(words, u8x16::from_array(block));
    for round in 0..count {
        state = advanced(state, to_tower(key_of(words, round + 1)));
    }
    ended(state, key_of(words, count + 1)).to_array()
}

/// Four blocks, each as [`cipher`] gives it, side by side: no step of one waits for another.
pub(crate) fn cipher_four(
    words: &[u8],
    count: usize,
    blocks: (u8x16, u8x16, u8x16, u8x16),
) -> (u8x16, u8x16, u8x16, u8x16)
    requires few { count < 14 }
    requires words { 16 * count + 32 ≤ length words.now }
    ensures first { result.0 ≡ cipher words.now count blocks.0 }
    ensures second { result.1 ≡ cipher words.now count blocks.1 }
    ensures third { result.2 ≡ cipher words.now count blocks.2 }
    ensures fourth { result.3 ≡ cipher words.now count blocks.3 }
{
    let (first, second, third, fourth) = blocks;
    let mut a = begun(words, first);
    let mut b = begun(words, second);
    let mut c = begun(words, third);
    let mut d = begun(words, fourth);
    for round in 0..count {
        let key = to_tower(key_of(words, round + 1));
        a = advanced(a, key);
        b = advanced(b, key);
        c = advanced(c, key);
        d = advanced(d, key);
    }
    let key = key_of(words, count + 1);
    (ended(a, key), ended(b, key), ended(c, key), ended(d, key))
}
