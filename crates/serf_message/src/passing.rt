//! Values of unknown keys, which are passed over.

ghost use Rattle.std.specs.Prelude.{◌≡◌, ◌+◌, ◌<◌, ◌≤◌, Ok, Err, MatchResult};
ghost use Rattle.serf_message.specs.Reading.{inside, outside_at, values_at, whole_at};

use crate::fault::SerfFault;
use crate::form::{Form, form_of};
use crate::heads::{next_byte, next_bytes, next_count};

/// The bytes after this many values, whatever they are. Lists and maps may be nested to any depth.
/// A count of values above the bytes that are left is refused at once.
pub(crate) fn after_values(bytes: &[u8], count: u32) -> Result<&[u8], SerfFault>
    ensures { MatchResult result (λ rest. values_at count bytes.now ≡ Ok (tt, rest.now))
        (λ fault. values_at count bytes.now ≡ Err fault) }
{
    let mut rest = bytes;
    let mut pending = pending_in(0, u64::from(count), bytes.len())?;
    for _ in 0..bytes.len() {
        if pending == 0 {
            return Ok(rest);
        }
        let (more, after) = next_value(rest)?;
        pending = pending_in(pending - 1, more, after.len())?;
        rest = after;
    }
    if pending == 0 {
        Ok(rest)
    } else {
        Err(SerfFault::Ended)
    }
}

/// The bytes of the next value, whatever it is.
#[tactic(auto, unfolding(crate::specs::Reading::whole_at))]
pub(crate) fn next_whole(bytes: &[u8]) -> Result<(&[u8], &[u8]), SerfFault>
    ensures { MatchResult result (λ read. whole_at bytes.now ≡ Ok (read.0.now, read.1.now))
        (λ fault. whole_at bytes.now ≡ Err fault) }
{
    let rest = after_values(bytes, 1)?;
    Ok((&bytes[..bytes.len().saturating_sub(rest.len())], rest))
}

/// How many values are still to come: these others, and those in the value that was read. There are
/// not so many if fewer bytes are left.
fn pending_in(others: u64, more: u64, left: usize) -> Result<u64, SerfFault>
    ensures { MatchResult result (λ n. (n ≡ others + more) × (n ≤ left))
        (λ fault. (fault ≡ SerfFault.Ended) × (left < others + more)) }
{
    match others.checked_add(more) {
        Some(pending) if pending <= left as u64 => Ok(pending),
        _ => Err(SerfFault::Ended),
    }
}

/// A value but for those that are in it: their number, and the bytes before them.
#[tactic(auto, unfolding(crate::specs::Reading::outside_at))]
fn next_value(bytes: &[u8]) -> Result<(u64, &[u8]), SerfFault>
    ensures { MatchResult result (λ read. outside_at bytes.now ≡ Ok (read.0, read.1.now))
        (λ fault. outside_at bytes.now ≡ Err fault) }
{
    let (first, rest) = next_byte(bytes)?;
    inside(rest, form_of(first))
}

/// What follows the first byte of a value of this form, but for the values that are in it: their
/// number, and the bytes before them.
#[tactic(auto, unfolding(crate::specs::Reading::inside))]
fn inside(bytes: &[u8], form: Option<Form>) -> Result<(u64, &[u8]), SerfFault>
    ensures { MatchResult result (λ read. inside form bytes.now ≡ Ok (read.0, read.1.now))
        (λ fault. inside form bytes.now ≡ Err fault) }
{
    match form {
        Some(Form::Nil) => Ok((0, bytes)),
        Some(Form::Plain(size)) => {
            let (_, rest) = next_bytes(bytes, size)?;
            Ok((0, rest))
        }
        Some(Form::Text(count) | Form::Bytes(count)) => {
            let (len, rest) = next_count(bytes, count)?;
            let (_, rest) = next_bytes(rest, len as usize)?;
            Ok((0, rest))
        }
        Some(Form::Extension(count)) => {
            let (len, rest) = next_count(bytes, count)?;
            let (_, rest) = next_bytes(rest, len as usize + 1)?;
            Ok((0, rest))
        }
        Some(Form::List(count)) => {
            let (values, rest) = next_count(bytes, count)?;
            Ok((u64::from(values), rest))
        }
        Some(Form::Map(count)) => {
            let (pairs, rest) = next_count(bytes, count)?;
            Ok((2 * u64::from(pairs), rest))
        }
        None => Err(SerfFault::NotValue),
    }
}
