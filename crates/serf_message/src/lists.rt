//! Fields of bytes.

ghost use Rattle.std.specs.Prelude.{◌≡◌, ◌+◌, ◌≤◌, ◌++◌, ◌∷◌, Ok, length, take, drop, MatchResult, OnOk};
ghost use Rattle.serf_message.specs.Reading.{field_bytes_at, bytes_of, raw_over, numbers_over, IsFault};

use crate::fault::SerfFault;
use crate::form::{Count, Form, form_of};
use crate::heads::{next_byte, next_bytes, next_count, next_number};
use std::alloc::{AllocError, Global};

/// The bytes of a field, as go-msgpack's `kSlice` reads them over those that it had: text or bytes,
/// which leave the earlier ones if they are empty; nil, which empties the field; a list of numbers
/// of at most 255, or a map of twice as many, over the first of the earlier bytes.
#[tactic(auto, unfolding(crate::specs::Reading::field_bytes_at))]
pub(crate) fn next_field_bytes(
    alloc: Global,
    bytes: &[u8],
    old: Vec<u8>,
) -> Result<(Vec<u8>, &[u8]), SerfFault>
    ensures { MatchResult result
        (λ read. field_bytes_at old.items bytes.now ≡ Ok (read.0.items, read.1.now))
        (IsFault (field_bytes_at old.items bytes.now)) }
{
    let (first, rest) = next_byte(bytes)?;
    bytes_of(alloc, rest, form_of(first), old)
}

/// The bytes of a field after the first byte of a value of this form.
#[tactic(auto, unfolding(crate::specs::Reading::bytes_of))]
fn bytes_of(
    alloc: Global,
    bytes: &[u8],
    form: Option<Form>,
    old: Vec<u8>,
) -> Result<(Vec<u8>, &[u8]), SerfFault>
    ensures { MatchResult result
        (λ read. bytes_of old.items form bytes.now ≡ Ok (read.0.items, read.1.now))
        (IsFault (bytes_of old.items form bytes.now)) }
{
    match form {
        Some(Form::Nil) => Ok((Vec::new(alloc), bytes)),
        Some(Form::Text(count) | Form::Bytes(count)) => raw_over(alloc, bytes, count, old),
        Some(Form::List(count)) => {
            let (numbers, rest) = next_count(bytes, count)?;
            numbers_over(rest, u64::from(numbers), old)
        }
        Some(Form::Map(count)) => {
            let (pairs, rest) = next_count(bytes, count)?;
            numbers_over(rest, 2 * u64::from(pairs), old)
        }
        Some(Form::Plain(_) | Form::Extension(_)) | None => Err(SerfFault::NotRaw),
    }
}

/// Text or bytes, or the earlier ones if they are empty.
#[tactic(auto, unfolding(crate::specs::Reading::raw_over))]
fn raw_over(
    alloc: Global,
    bytes: &[u8],
    count: Count,
    old: Vec<u8>,
) -> Result<(Vec<u8>, &[u8]), SerfFault>
    ensures { MatchResult result
        (λ read. raw_over old.items count bytes.now ≡ Ok (read.0.items, read.1.now))
        (IsFault (raw_over old.items count bytes.now)) }
{
    let (len, rest) = next_count(bytes, count)?;
    if len == 0 {
        return Ok((old, rest));
    }
    let (text, rest) = next_bytes(rest, len as usize)?;
    Ok((text.to_vec(alloc)?, rest))
}

/// The bytes with the next `count` numbers written over the first of them.
fn numbers_over(bytes: &[u8], count: u64, old: Vec<u8>) -> Result<(Vec<u8>, &[u8]), SerfFault>
    ensures { MatchResult result
        (λ read. numbers_over old.items count bytes.now ≡ Ok (read.0.items, read.1.now))
        (IsFault (numbers_over old.items count bytes.now)) }
{
    let mut rest = bytes;
    let mut written = old;
    for i in 0..count {
        let (number, after) = next_number(rest, 255)?;
        rest = after;
        put(&mut written, i as usize, number as u8)?;
    }
    Ok((written, rest))
}

/// Writes a byte over the one at this index, or behind all.
fn put(bytes: &mut Vec<u8>, at: usize, byte: u8) -> Result<(), AllocError>
    requires { at ≤ length bytes.old.items }
    ensures { OnOk result
        (bytes.new.items ≡ take at bytes.old.items ++ byte ∷ drop (at + 1) bytes.old.items) }
{
    if at < bytes.len() {
        bytes[at] = byte;
        return Ok(());
    }
    bytes.push(byte)?;
    Ok(())
}
