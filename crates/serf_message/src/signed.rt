//! Numbers with a sign at the start of bytes.

ghost use Rattle.std.specs.Prelude.{◌≡◌, ◌≤◌, Ok, Err, MatchResult};
ghost use Rattle.serf_message.specs.Reading.{signed_at, unsigned_at, complement_at};

use crate::fault::SerfFault;
use crate::heads::{next_byte, next_bytes, next_number};
use byteorder::{BigEndian, ByteOrder};

/// A number of 64 bits with a sign, as go-msgpack's `decodeInt` reads it: nil is 0, and a number
/// above the greatest is taken for the one of the same bits.
#[tactic(auto, unfolding(crate::specs::Reading::signed_at))]
pub(crate) fn next_signed(bytes: &[u8]) -> Result<(i64, &[u8]), SerfFault>
    ensures { MatchResult result (λ read. signed_at bytes.now ≡ Ok (read.0, read.1.now))
        (λ fault. signed_at bytes.now ≡ Err fault) }
{
    let (first, rest) = next_byte(bytes)?;
    match first {
        0x00..=0xcf => next_unsigned(bytes),
        0xd0 => next_complement(rest, 1),
        0xd1 => next_complement(rest, 2),
        0xd2 => next_complement(rest, 4),
        0xd3 => next_complement(rest, 8),
        0xd4..=0xdf => Err(SerfFault::NotNumber),
        0xe0..=0xff => Ok((i64::from(first.cast_signed()), rest)),
    }
}

/// The bits of a number that is not negative.
fn next_unsigned(bytes: &[u8]) -> Result<(i64, &[u8]), SerfFault>
    ensures { MatchResult result (λ read. unsigned_at bytes.now ≡ Ok (read.0, read.1.now))
        (λ fault. unsigned_at bytes.now ≡ Err fault) }
{
    let (number, rest) = next_number(bytes, 0xffff_ffff_ffff_ffff)?;
    Ok((number.cast_signed(), rest))
}

/// A number in two's complement in so many bytes.
fn next_complement(bytes: &[u8], size: usize) -> Result<(i64, &[u8]), SerfFault>
    requires low { 1 ≤ size }
    requires high { size ≤ 8 }
    ensures { MatchResult result (λ read. complement_at size bytes.now ≡ Ok (read.0, read.1.now))
        (λ fault. complement_at size bytes.now ≡ Err fault) }
{
    let (digits, rest) = next_bytes(bytes, size)?;
    Ok((BigEndian::read_int(digits, size), rest))
}
