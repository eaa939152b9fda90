//! The product and the hash of blocks, SP 800-38D, 6.3 and 6.4.

ghost use Rattle.std.specs.Prelude.{◌≡◌, ℕ, ◌+◌, ◌*◌, ◌<◌, ◌≤◌, ◌^◌, ◌==◌, ◌++◌, if◌then◌else◌, bit_xor, length, map};
ghost use Rattle.std.specs.Prelude.{replicate, slice_index, take, drop, vec_len, vec_capacity, IfOk};
ghost use Rattle.std.specs.Int.{bit_at, w128, to_be_bytes};
ghost use Rattle.memberlist_cipher.specs.Gcm.{times_x, steps, block_product, block, hash};
ghost use Rattle.memberlist_cipher.specs.Products.{shifted, poly, planes_of, planes_block, all_planes, entry, planes_sum};

use std::alloc::{AllocError, Global};
use std::marker::Model;
use std::simd::prelude::*;

/// The last byte of a vector, before all others of a second one.
const PUSHED: [usize; 16] = [
    15, 16, 17, 18, 19, 20, 21, 22, 23, 24, 25, 26, 27, 28, 29, 30,
];

/// The block times x.
fn times_x(v: u128) -> u128
    ensures { result ≡ times_x v }
{
    (v / 2) ^ (v % 2 * (0xe1 << 120))
}

/// z, plus v if x has a bit at this place.
fn plus_at(x: u128, place: u32, z: u128, v: u128) -> u128
    requires { place < 128 }
    ensures { result ≡ (if bit_at x place == 1 then bit_xor z v else z) }
{
    if (x >> place) & 1 == 1 { z ^ v } else { z }
}

/// The product of four bits and a block. The highest bit is the lowest power of x.
fn times_digit(digit: u128, v: u128) -> u128
    ensures { result ≡ steps 4 digit 0 v }
{
    let second = times_x(v);
    let third = times_x(second);
    let fourth = times_x(third);
    let one = plus_at(digit, 3, 0, v);
    let two = plus_at(digit, 2, one, second);
    let three = plus_at(digit, 1, two, third);
    plus_at(digit, 0, three, fourth)
}

/// The block times x to the power of 4.
fn times_x_4(v: u128) -> u128
    ensures { result ≡ shifted 4 v }
{
    times_x(times_x(times_x(times_x(v))))
}

/// A block that others are multiplied by, as planes of its products with all values of four bits:
/// plane k has byte k of each of the 16. The first 16 planes are for the four bits of a byte that
/// mean lower powers of x, the other 16 for those of higher ones. They are overwritten before their
/// memory is freed, and never move. Contracts see the block.
pub(crate) struct GhashKey {
    planes: Vec<u8>,
}

impl Model for GhashKey {
    ghost Value = { ℕ };

    ghost view = { λ ghash_key. planes_block ghash_key.planes.items };

    ghost invariant = { λ ghash_key.
        (ghash_key.planes.items ≡ all_planes (planes_block ghash_key.planes.items))
        × (planes_block ghash_key.planes.items < 2 ^ 128)
        × (vec_capacity ghash_key.planes ≡ 512) };
}

impl GhashKey {
    /// A block, prepared as a factor.
    pub(crate) fn new(alloc: Global, block: u128) -> Result<GhashKey, AllocError>
        ensures { IfOk result (λ made. made ≡ block) }
    {
        let mut planes = Vec::with_capacity(alloc, 512)?;
        append_planes(&mut planes, block);
        append_planes(&mut planes, times_x_4(block));
        Ok(GhashKey { planes })
    }
}

impl Drop for GhashKey {
    fn drop(self) {
        let GhashKey { mut planes } = self;
        overwrite(&mut planes);
    }
}

/// Overwrites each byte with 0.
fn overwrite(bytes: &mut [u8])
    ensures { bytes.new ≡ replicate (length bytes.old) 0 }
{
    bytes.fill(0);
}

/// Appends the planes of a block's products with all values of four bits. There is room for them.
fn append_planes(planes: &mut Vec<u8>, v: u128)
    requires { vec_len planes.old + 256 ≤ vec_capacity planes.old }
    ensures items { planes.new.items ≡ planes.old.items ++ planes_of v }
    ensures len { vec_len planes.new ≡ vec_len planes.old + 256 }
    ensures in_place { vec_capacity planes.new ≡ vec_capacity planes.old }
{
    for at in 0..256u32 {
        let product = times_digit((at % 16) as u128, v);
        planes.push_reserved(((product >> (120 - 8 * (at / 16))) % 256) as u8);
    }
}

/// The bytes of a plane, and of its twin, that belong to the bytes of a block, together.
#[inline(always)]
fn entries(planes: &[u8], plane: usize, block: u8x16) -> u8x16
    requires plane { plane < 16 }
    requires size { length planes.now ≡ 512 }
    ensures { result ≡ map (entry planes.now plane) block }
{
    let lower = u8x16::from_slice(&planes[16 * plane..]);
    let higher = u8x16::from_slice(&planes[256 + 16 * plane..]);
    lower.swizzle_dyn(block >> u8x16::splat(4)) ^ higher.swizzle_dyn(block & u8x16::splat(15))
}

/// The bytes of a block, the highest first: reversed, since a number is in a register lowest first.
#[inline(always)]
fn bytes_of(x: u128) -> u8x16
    ensures { result ≡ to_be_bytes w128 x }
{
    let low = (x % (1 << 64)) as u64;
    let high = (x >> 64) as u64;
    u64x2::from_array([low, high]).to_le_bytes().reverse()
}

/// The product of two blocks before it is reduced: the part below x to the power of 128, and the
/// part from there on.
fn unreduced(planes: &[u8], block: u8x16) -> (u8x16, u8x16)
    requires { length planes.now ≡ 512 }
    ensures value { poly (result.0 ++ result.1) ≡ planes_sum planes.now 16 0 block }
    ensures last { slice_index result.1 15 ≡ 0 }
{
    let mut below = entries(planes, 15, block);
    let mut above = u8x16::splat(0);
    for step in 1..16usize {
        above = below.shuffle(above, PUSHED);
        below = u8x16::splat(0).shuffle(below, PUSHED) ^ entries(planes, 15 - step, block);
    }
    (below, above)
}

/// The block of both parts of a product. The last byte of the second is 0.
fn reduced(below: u8x16, above: u8x16) -> u128
    requires { slice_index above 15 ≡ 0 }
    ensures { result ≡ poly (below ++ above) }
{
    let low = u128::from_be_bytes(below.to_array());
    let high = u128::from_be_bytes(above.to_array());
    low ^ (high ^ (high >> 1) ^ (high >> 2) ^ (high >> 7))
}

/// The product of two blocks.
pub(crate) fn gf128_mul(x: u128, ghash_key: &GhashKey) -> u128
    ensures { result ≡ block_product x ghash_key.now }
{
    let (below, above) = unreduced(&ghash_key.planes, bytes_of(x));
    reduced(below, above)
}

/// The byte at a place, or 0 past the end.
fn at(bytes: &[u8], i: usize) -> u8
    ensures { result ≡ slice_index bytes.now i }
{
    if i < bytes.len() { bytes[i] } else { 0 }
}

/// The first block, padded with zeros if the bytes end.
fn block(bytes: &[u8]) -> u128
    ensures { result ≡ block bytes.now }
{
    if bytes.len() < 16 {
        padded(bytes)
    } else {
        u128::from_be_bytes(u8x16::from_slice(bytes).to_array())
    }
}

/// The first 16 bytes as a block, with zeros for those past the end.
fn padded(bytes: &[u8]) -> u128
    ensures { result ≡ block bytes.now }
{
    u128::from_be_bytes([
        at(bytes, 0),
        at(bytes, 1),
        at(bytes, 2),
        at(bytes, 3),
        at(bytes, 4),
        at(bytes, 5),
        at(bytes, 6),
        at(bytes, 7),
        at(bytes, 8),
        at(bytes, 9),
        at(bytes, 10),
        at(bytes, 11),
        at(bytes, 12),
        at(bytes, 13),
        at(bytes, 14),
        at(bytes, 15),
    ])
}

/// The first 16 bytes, or all, and the rest.
pub(crate) fn split_block(bytes: &[u8]) -> (&[u8], &[u8])
    ensures front { result.0.now ≡ take 16 bytes.now }
    ensures back { result.1.now ≡ drop 16 bytes.now }
    ensures len { length result.0.now + length result.1.now ≡ length bytes.now }
{
    if bytes.len() < 16 {
        bytes.split_at(bytes.len())
    } else {
        bytes.split_at(16)
    }
}

/// The hash after these bytes.
pub(crate) fn hash(ghash_key: &GhashKey, start: u128, bytes: &[u8]) -> u128
    ensures { result ≡ hash ghash_key.now start bytes.now }
{
    let mut y = start;
    let mut rest = bytes;
    while 0 < rest.len() {
        y = gf128_mul(y ^ block(rest), ghash_key);
        let (_, back) = split_block(rest);
        rest = back;
    }
    y
}
