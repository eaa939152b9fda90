//! Bytes, numbers, lengths and texts at the start of bytes. Each call returns what it read, and the
//! bytes after it.

ghost use Rattle.std.specs.Prelude.{◌≡◌, ◌≤◌, Ok, Err, length, MatchResult, IfOk};
ghost use Rattle.serf_message.specs.Reading.{body_of, byte_at, bytes_at, count_at, number_at, float_at, flag_of};
ghost use Rattle.serf_message.specs.Reading.{flag_at, text_count, text_at};

use crate::fault::SerfFault;
use crate::form::{Count, Form, form_of};
use byteorder::{BigEndian, ByteOrder};
use swim_pack::{SliceInlet, read_uint};

/// The next byte.
pub(crate) fn next_byte(bytes: &[u8]) -> Result<(u8, &[u8]), SerfFault>
    ensures { MatchResult result (λ read. byte_at bytes.now ≡ Ok (read.0, read.1.now))
        (λ fault. byte_at bytes.now ≡ Err fault) }
{
    match bytes.split_first() {
        Some((first, rest)) => Ok((*first, rest)),
        None => Err(SerfFault::Ended),
    }
}

/// What follows a type byte of this number.
pub(crate) fn body_of(bytes: &[u8], wanted: u8) -> Result<&[u8], SerfFault>
    ensures { MatchResult result (λ body. body_of wanted bytes.now ≡ Ok body.now)
        (λ fault. body_of wanted bytes.now ≡ Err fault) }
{
    let (first, body) = next_byte(bytes)?;
    if first != wanted {
        return Err(SerfFault::WrongType { found: first });
    }
    Ok(body)
}

/// The next `count` bytes.
#[tactic(auto, unfolding(crate::specs::Reading::bytes_at))]
pub(crate) fn next_bytes(bytes: &[u8], count: usize) -> Result<(&[u8], &[u8]), SerfFault>
    ensures exact { MatchResult result (λ read. bytes_at count bytes.now ≡ Ok (read.0.now, read.1.now))
        (λ fault. bytes_at count bytes.now ≡ Err fault) }
    ensures len { IfOk result (λ read. length read.0.now ≡ count) }
{
    if count > bytes.len() {
        return Err(SerfFault::Ended);
    }
    Ok(bytes.split_at(count))
}

/// A length or a count.
#[tactic(auto, unfolding(crate::specs::Reading::count_at))]
pub(crate) fn next_count(bytes: &[u8], count: Count) -> Result<(u32, &[u8]), SerfFault>
    ensures { MatchResult result (λ read. count_at count bytes.now ≡ Ok (read.0, read.1.now))
        (λ fault. count_at count bytes.now ≡ Err fault) }
{
    match count {
        Count::Fixed(number) => Ok((u32::from(number), bytes)),
        Count::One => {
            let (number, rest) = next_byte(bytes)?;
            Ok((u32::from(number), rest))
        }
        Count::Two => {
            let (digits, rest) = next_bytes(bytes, 2)?;
            Ok((u32::from(BigEndian::read_u16(digits)), rest))
        }
        Count::Four => {
            let (digits, rest) = next_bytes(bytes, 4)?;
            Ok((BigEndian::read_u32(digits), rest))
        }
    }
}

/// A number of at most `max`, as go-msgpack reads numbers: nil is 0.
#[tactic(auto, unfolding(crate::specs::Reading::number_at))]
pub(crate) fn next_number(bytes: &[u8], max: u64) -> Result<(u64, &[u8]), SerfFault>
    ensures exact { MatchResult result (λ read. number_at max bytes.now ≡ Ok (read.0, read.1.now))
        (λ fault. number_at max bytes.now ≡ Err fault) }
    ensures within { IfOk result (λ read. read.0 ≤ max) }
{
    let mut inlet = SliceInlet::new(bytes);
    let number = read_uint(&mut inlet, max)?;
    let rest = &bytes[bytes.len() - inlet.rest().len()..];
    Ok((number, rest))
}

/// The bits of a number of 64 bits with a floating point. Nil is 0. go-msgpack reads other numbers,
/// too, which Serf does not write.
#[tactic(auto, unfolding(crate::specs::Reading::float_at))]
pub(crate) fn next_float(bytes: &[u8]) -> Result<(u64, &[u8]), SerfFault>
    ensures { MatchResult result (λ read. float_at bytes.now ≡ Ok (read.0, read.1.now))
        (λ fault. float_at bytes.now ≡ Err fault) }
{
    let (first, rest) = next_byte(bytes)?;
    match first {
        0xcb => {
            let (digits, rest) = next_bytes(rest, 8)?;
            Ok((BigEndian::read_u64(digits), rest))
        }
        0xc0 => Ok((0, rest)),
        _ => Err(SerfFault::NotFloat),
    }
}

/// A truth value, as go-msgpack reads them: 0 and nil are false, and 1 is true.
#[tactic(auto, unfolding(crate::specs::Reading::flag_at))]
pub(crate) fn next_flag(bytes: &[u8]) -> Result<(bool, &[u8]), SerfFault>
    ensures { MatchResult result (λ read. flag_at bytes.now ≡ Ok (read.0, read.1.now))
        (λ fault. flag_at bytes.now ≡ Err fault) }
{
    let (first, rest) = next_byte(bytes)?;
    match flag_of(first) {
        Some(flag) => Ok((flag, rest)),
        None => Err(SerfFault::NotBool),
    }
}

/// The truth value that a first byte is.
#[tactic(auto, unfolding(crate::specs::Reading::flag_of))]
fn flag_of(first: u8) -> Option<bool>
    ensures { result ≡ flag_of first }
{
    match first {
        0x00 | 0xc0 | 0xc2 => Some(false),
        0x01 | 0xc3 => Some(true),
        _ => None,
    }
}

/// A text, as go-msgpack reads keys and strings: nil is empty, and e0 to ff announce 64 to 95
/// bytes. Bytes (bin) are refused.
#[tactic(auto, unfolding(crate::specs::Reading::text_at))]
pub(crate) fn next_text(bytes: &[u8]) -> Result<(&[u8], &[u8]), SerfFault>
    ensures { MatchResult result (λ read. text_at bytes.now ≡ Ok (read.0.now, read.1.now))
        (λ fault. text_at bytes.now ≡ Err fault) }
{
    let (first, rest) = next_byte(bytes)?;
    let count = text_count(first).ok_or(SerfFault::NotRaw)?;
    let (len, rest) = next_count(rest, count)?;
    next_bytes(rest, len as usize)
}

/// The length of a text that starts with this byte, as go-msgpack's `readContainerLen` finds it.
#[tactic(auto, unfolding(crate::specs::Reading::text_count))]
fn text_count(first: u8) -> Option<Count>
    ensures { result ≡ text_count first }
{
    if first >= 0xe0 {
        return Some(Count::Fixed(first - 0xa0));
    }
    match form_of(first) {
        Some(Form::Nil) => Some(Count::Fixed(0)),
        Some(Form::Text(count)) => Some(count),
        _ => None,
    }
}
