//! The S-box on sixteen bytes at once, FIPS-197, 5.1.1, by steps that depend on no byte.
//!
//! A byte in another basis has two halves: the coefficients of a polynomial of degree 1 over the
//! field of 16 elements. There its inverse takes five look-ups in tables of 16 bytes, each one
//! instruction (M. Hamburg, "Accelerating AES with vector permute instructions", 2009).

ghost use Rattle.std.specs.Prelude.{◌≡◌, map, slice_index, IsTrue};
ghost use Rattle.std.specs.Simd.Lanes.{Each1};
ghost use Rattle.memberlist_cipher.specs.Field.{sub};
ghost use Rattle.memberlist_cipher.specs.Tower.{is_place, tower, first_place, second_place, plain, once, twice};

use std::simd::prelude::*;

/// A byte in the tower's basis is the sum of the entries of its halves, here and in [`HIGH`].
const LOW: [u8; 16] = [
    0x00, 0x70, 0x2a, 0x5a, 0x98, 0xe8, 0xb2, 0xc2, 0x08, 0x78, 0x22, 0x52, 0x90, 0xe0, 0xba, 0xca,
];

const HIGH: [u8; 16] = [
    0x00, 0x4d, 0x7c, 0x31, 0x7d, 0x30, 0x01, 0x4c, 0x81, 0xcc, 0xfd, 0xb0, 0xfc, 0xb1, 0x80, 0xcd,
];

/// Inverses in the field of 16. That of 0 is infinite, which is 128 with anything added to it: a
/// look-up gives 0 there.
const INVERSES: [u8; 16] = [
    0x80, 0x01, 0x08, 0x0d, 0x0f, 0x06, 0x05, 0x0e, 0x02, 0x0c, 0x0b, 0x0a, 0x09, 0x03, 0x07, 0x04,
];

/// Inverses times a constant of the tower.
const QUOTIENTS: [u8; 16] = [
    0x80, 0x07, 0x0b, 0x0f, 0x06, 0x0a, 0x04, 0x01, 0x09, 0x08, 0x05, 0x02, 0x0c, 0x0e, 0x0d, 0x03,
];

/// What the first place adds to the S-box value, which also has the constant 0x63.
const PLAIN_FIRST: [u8; 16] = [
    0x00, 0xc7, 0xbd, 0x6f, 0x17, 0x6d, 0xd2, 0xd0, 0x78, 0xa8, 0x02, 0xc5, 0x7a, 0xbf, 0xaa, 0x15,
];

const PLAIN_SECOND: [u8; 16] = [
    0x00, 0x6a, 0xbb, 0x5f, 0xa5, 0x74, 0xe4, 0xcf, 0xfa, 0x35, 0x2b, 0x41, 0xd1, 0x90, 0x1e, 0x8e,
];

/// The same in the tower's basis.
const ONCE_FIRST: [u8; 16] = [
    0x00, 0x3e, 0x50, 0xcb, 0x8f, 0xe1, 0x9b, 0xb1, 0x44, 0xf5, 0x2a, 0x14, 0x6e, 0x7a, 0xdf, 0xa5,
];

const ONCE_SECOND: [u8; 16] = [
    0x00, 0x23, 0xe2, 0xfa, 0x15, 0xd4, 0x18, 0x36, 0xef, 0xd9, 0x2e, 0x0d, 0xc1, 0xcc, 0xf7, 0x3b,
];

/// The same of twice the S-box value.
const TWICE_FIRST: [u8; 16] = [
    0x00, 0x24, 0x71, 0x0b, 0xc6, 0x93, 0x7a, 0xe2, 0xcd, 0x2f, 0x98, 0xbc, 0x55, 0xe9, 0xb7, 0x5e,
];

const TWICE_SECOND: [u8; 16] = [
    0x00, 0x29, 0xe1, 0x0a, 0x40, 0x88, 0xeb, 0x69, 0x4a, 0x23, 0x82, 0xab, 0xc8, 0x63, 0xa1, 0xc2,
];

/// The entries of a table at these places.
#[inline(always)]
fn look_up(table: [u8; 16], places: u8x16) -> u8x16
    requires { Each1 (λ place. IsTrue (is_place place)) places }
    ensures { result ≡ map (slice_index table) places }
{
    u8x16::from_array(table).swizzle_dyn(places)
}

/// The bytes in the tower's basis.
#[inline(always)]
pub(crate) fn to_tower(bytes: u8x16) -> u8x16
    ensures { result ≡ map tower bytes }
{
    look_up(LOW, bytes & u8x16::splat(15)) ^ look_up(HIGH, bytes >> u8x16::splat(4))
}

/// The halves of the inverses of bytes in the tower's basis, as places in tables.
#[inline(always)]
fn inverted(bytes: u8x16) -> (u8x16, u8x16)
    ensures first { result.0 ≡ map first_place bytes }
    ensures second { result.1 ≡ map second_place bytes }
{
    let high = bytes >> u8x16::splat(4);
    let low = bytes & u8x16::splat(15);
    let sum = high ^ low;
    let quotient = look_up(QUOTIENTS, low);
    let first = look_up(INVERSES, look_up(INVERSES, high) ^ quotient) ^ sum;
    let second = look_up(INVERSES, look_up(INVERSES, sum) ^ quotient) ^ high;
    (first, second)
}

/// The S-box values of bytes in the tower's basis, without the constant.
#[inline(always)]
pub(crate) fn substituted(bytes: u8x16) -> u8x16
    ensures { result ≡ map plain bytes }
{
    let (first, second) = inverted(bytes);
    look_up(PLAIN_FIRST, first) ^ look_up(PLAIN_SECOND, second)
}

/// The same in the tower's basis, and twice these values.
#[inline(always)]
pub(crate) fn once_and_twice(bytes: u8x16) -> (u8x16, u8x16)
    ensures once { result.0 ≡ map once bytes }
    ensures twice { result.1 ≡ map twice bytes }
{
    let (first, second) = inverted(bytes);
    (
        look_up(ONCE_FIRST, first) ^ look_up(ONCE_SECOND, second),
        look_up(TWICE_FIRST, first) ^ look_up(TWICE_SECOND, second),
    )
}

/// The S-box values of bytes.
#[inline(always)]
pub(crate) fn sub_bytes(bytes: u8x16) -> u8x16
    ensures { result ≡ map sub bytes }
{
    substituted(to_tower(bytes)) ^ u8x16::splat(0x63)
}
