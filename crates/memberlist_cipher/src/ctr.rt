//! Counter mode, SP 800-38D, 6.5.

ghost use Rattle.std.specs.Prelude.{◌≡◌, ◌+◌, ◌*◌, ◌<◌, ◌≤◌, ◌++◌, length, take, vec_len, vec_capacity, IfOk};
ghost use Rattle.memberlist_cipher.specs.Block.{plus_bytes, cipher};
ghost use Rattle.memberlist_cipher.specs.Gcm.{counter_block, counted, ctr};

use crate::appending::append;
use crate::block::{cipher, cipher_four};
use crate::ghash::split_block;
use std::alloc::{AllocError, Global};
use std::simd::prelude::*;

/// The block of a nonce and a counter.
pub(crate) fn counter_block(nonce: &[u8], counter: u32) -> [u8; 16]
    requires { length nonce.now ≡ 12 }
    ensures { result ≡ counter_block nonce.now counter }
{
    let digits = counter.to_be_bytes();
    [
        nonce[0], nonce[1], nonce[2], nonce[3], nonce[4], nonce[5], nonce[6], nonce[7], nonce[8],
        nonce[9], nonce[10], nonce[11], digits[0], digits[1], digits[2], digits[3],
    ]
}

/// Appends the sum of up to 16 bytes and a block. There is room for it.
fn append_sum(out: &mut Vec<u8>, front: &[u8], mask: [u8; 16])
    requires few { length front.now ≤ 16 }
    requires room { vec_len out.old + length front.now ≤ vec_capacity out.old }
    ensures items { out.new.items ≡ out.old.items ++ plus_bytes front.now mask }
    ensures len { vec_len out.new ≡ vec_len out.old + length front.now }
    ensures in_place { vec_capacity out.new ≡ vec_capacity out.old }
{
    for (i, b) in front.iter().enumerate() {
        out.push_reserved(*b ^ mask[i]);
    }
}

/// Appends the sum of the first 16 bytes and a block. There is room for it.
#[inline(always)]
fn append_block(to: &mut Vec<u8>, bytes: &[u8], mask: u8x16)
    requires some { 16 ≤ length bytes.now }
    requires room { vec_len to.old + 16 ≤ vec_capacity to.old }
    ensures items { to.new.items ≡ to.old.items ++ plus_bytes (take 16 bytes.now) mask }
    ensures len { vec_len to.new ≡ vec_len to.old + 16 }
    ensures in_place { vec_capacity to.new ≡ vec_capacity to.old }
{
    let sum = (u8x16::from_slice(bytes) ^ mask).to_array();
    append(to, &sum);
}

/// Appends the first 64 bytes, encrypted or decrypted. There is room for them.
fn append_four(
    to: &mut Vec<u8>,
    words: &[u8],
    count: usize,
    nonce: &[u8],
    counter: u32,
    bytes: &[u8],
)
    requires few { count < 14 }
    requires words { 16 * count + 32 ≤ length words.now }
    requires nonce { length nonce.now ≡ 12 }
    requires some { 64 ≤ length bytes.now }
    requires room { vec_len to.old + 64 ≤ vec_capacity to.old }
    ensures items { to.new.items
        ≡ to.old.items ++ counted 4 (cipher words.now count) nonce.now counter bytes.now }
    ensures len { vec_len to.new ≡ vec_len to.old + 64 }
    ensures in_place { vec_capacity to.new ≡ vec_capacity to.old }
{
    let first = u8x16::from_array(counter_block(nonce, counter));
    let second = u8x16::from_array(counter_block(nonce, counter.wrapping_add(1)));
    let third = u8x16::from_array(counter_block(nonce, counter.wrapping_add(2)));
    let fourth = u8x16::from_array(counter_block(nonce, counter.wrapping_add(3)));
    let masks = cipher_four(words, count, (first, second, third, fourth));
    append_block(to, bytes, masks.0);
    append_block(to, &bytes[16..], masks.1);
    append_block(to, &bytes[32..], masks.2);
    append_block(to, &bytes[48..], masks.3);
}

/// Appends the bytes, encrypted or decrypted. There is room for them.
pub(crate) fn append_ctr(to: &mut Vec<u8>, words: &[u8], count: usize, nonce: &[u8], bytes: &[u8])
    requires few { count < 14 }
    requires words { 16 * count + 32 ≤ length words.now }
    requires nonce { length nonce.now ≡ 12 }
    requires room { vec_len to.old + length bytes.now ≤ vec_capacity to.old }
    ensures items { to.new.items
        ≡ to.old.items ++ ctr (cipher words.now count) nonce.now bytes.now }
    ensures len { vec_len to.new ≡ vec_len to.old + length bytes.now }
    ensures in_place { vec_capacity to.new ≡ vec_capacity to.old }
{
    let mut counter: u32 = 2;
    let mut rest = bytes;
    while 64 <= rest.len() {
        append_four(to, words, count, nonce, counter, rest);
        counter = counter.wrapping_add(4);
        rest = &rest[64..];
    }
    while 0 < rest.len() {
        let (front, back) = split_block(rest);
        let mask = cipher(words, count, counter_block(nonce, counter));
        append_sum(to, front, mask);
        counter = counter.wrapping_add(1);
        rest = back;
    }
}

/// The bytes, encrypted or decrypted.
pub(crate) fn ctr(
    alloc: Global,
    words: &[u8],
    count: usize,
    nonce: &[u8],
    bytes: &[u8],
) -> Result<Vec<u8>, AllocError>
    requires few { count < 14 }
    requires words { 16 * count + 32 ≤ length words.now }
    requires nonce { length nonce.now ≡ 12 }
    ensures bytes { IfOk result (λ out.
        out.items ≡ ctr (cipher words.now count) nonce.now bytes.now) }
    ensures size { IfOk result (λ out. vec_capacity out ≡ length bytes.now) }
{
    let mut out = Vec::with_capacity(alloc, bytes.len())?;
    append_ctr(&mut out, words, count, nonce, bytes);
    Ok(out)
}
