//! Fields of bytes.

ghost use Rattle.std.specs.Prelude.{◌≡◌, ◌+◌, ◌≤◌, ◌++◌, ◌∷◌, Ok, length, take, drop, MatchResult, OnOk};
ghost use Rattle.memberlist_message.specs.Reading.{field_bytes_at, bytes_of, raw_over, numbers_over, IsFault};
ghost use Rattle.memberlist_message.specs.Values.{bytes_in};

use crate::form::{Count, Form, form_of};
use crate::heads::{next_byte, next_bytes, next_count, next_number};
use crate::raw::Raw;
use std::alloc::{AllocError, Global};
use swim_wire::WireFault;

/// The bytes of a field, as go-msgpack's `kSlice` reads them over those that it had: text or bytes,
/// which leave the earlier ones if they are empty; nil, which empties the field; a list of numbers
/// of at most 255, or a map of twice as many, over the first of the earlier bytes.
#[tactic(auto, unfolding(crate::specs::Reading::field_bytes_at))]
pub(crate) fn next_field_bytes<'a>(
    alloc: Global,
    bytes: &'a [u8],
    old: Raw<'a>,
) -> Result<(Raw<'a>, &'a [u8]), WireFault>
    ensures { MatchResult result
        (λ read. field_bytes_at (bytes_in old.entry) bytes.now ≡ Ok (bytes_in read.0, read.1.now))
        (IsFault (field_bytes_at (bytes_in old.entry) bytes.now)) }
{
    let (first, rest) = next_byte(bytes)?;
    bytes_of(alloc, rest, form_of(first), old)
}

/// The bytes of a field after the first byte of a value of this form.
#[tactic(auto, unfolding(crate::specs::Reading::bytes_of))]
fn bytes_of<'a>(
    alloc: Global,
    bytes: &'a [u8],
    form: Option<Form>,
    old: Raw<'a>,
) -> Result<(Raw<'a>, &'a [u8]), WireFault>
    ensures { MatchResult result
        (λ read. bytes_of (bytes_in old.entry) form bytes.now ≡ Ok (bytes_in read.0, read.1.now))
        (IsFault (bytes_of (bytes_in old.entry) form bytes.now)) }
{
    match form {
        Some(Form::Nil) => Ok((Raw::Part(&[]), bytes)),
        Some(Form::Text(count) | Form::Bytes(count)) => raw_over(bytes, count, old),
        Some(Form::List(count)) => {
            let (numbers, rest) = next_count(bytes, count)?;
            made_over(alloc, rest, u64::from(numbers), old)
        }
        Some(Form::Map(count)) => {
            let (pairs, rest) = next_count(bytes, count)?;
            made_over(alloc, rest, 2 * u64::from(pairs), old)
        }
        Some(Form::Plain(_) | Form::Extension(_)) | None => Err(WireFault::NotRaw),
    }
}

/// Text or bytes, or the earlier ones if they are empty.
#[tactic(auto, unfolding(crate::specs::Reading::raw_over))]
fn raw_over<'a>(
    bytes: &'a [u8],
    count: Count,
    old: Raw<'a>,
) -> Result<(Raw<'a>, &'a [u8]), WireFault>
    ensures { MatchResult result
        (λ read. raw_over (bytes_in old.entry) count bytes.now ≡ Ok (bytes_in read.0, read.1.now))
        (IsFault (raw_over (bytes_in old.entry) count bytes.now)) }
{
    let (len, rest) = next_count(bytes, count)?;
    if len == 0 {
        return Ok((old, rest));
    }
    let (text, rest) = next_bytes(rest, len as usize)?;
    Ok((Raw::Part(text), rest))
}

/// The bytes of the next `count` numbers, over the first of the earlier ones.
fn made_over<'a>(
    alloc: Global,
    bytes: &'a [u8],
    count: u64,
    old: Raw<'a>,
) -> Result<(Raw<'a>, &'a [u8]), WireFault>
    ensures { MatchResult result
        (λ read. numbers_over (bytes_in old.entry) count bytes.now ≡ Ok (bytes_in read.0, read.1.now))
        (IsFault (numbers_over (bytes_in old.entry) count bytes.now)) }
{
    let old = old.into_vec(alloc)?;
    let (made, rest) = numbers_over(bytes, count, old)?;
    Ok((Raw::Made(made), rest))
}

/// The bytes with the next `count` numbers written over the first of them.
fn numbers_over(bytes: &[u8], count: u64, old: Vec<u8>) -> Result<(Vec<u8>, &[u8]), WireFault>
    ensures { MatchResult result
        (λ read. numbers_over old.items count bytes.now ≡ Ok (read.0.items, read.1.now))
        (IsFault (numbers_over old.items count bytes.now)) }
{
    let mut rest = bytes;
    let mut written = old;
    for i in 0..count {
        let (number, after) = next_number(rest, 255)?;
        rest = after;
        put(&mut written, i as usize, number as u8)?;
    }
    Ok((written, rest))
}

/// Writes a byte over the one at this index, or behind all.
fn put(bytes: &mut Vec<u8>, at: usize, byte: u8) -> Result<(), AllocError>
    requires { at ≤ length bytes.old.items }
    ensures { OnOk result
        (bytes.new.items ≡ take at bytes.old.items ++ byte ∷ drop (at + 1) bytes.old.items) }
{
    if at < bytes.len() {
        bytes[at] = byte;
        return Ok(());
    }
    bytes.push(byte)?;
    Ok(())
}
