//! Lists: their lengths, and lists of bytes.

ghost use Rattle.std.specs.Prelude.{◌≡◌, ◌++◌, ◌∷◌, [], Ok, Err, MatchResult, OnOk, map};
ghost use Rattle.serf_message.specs.Reading.{IsFault, without_rest, text_at};
ghost use Rattle.serf_message.specs.Many.{list_len_of, list_len_at, map_len_of, map_len_at, many_at, listed, fresh_bytes_at};

use crate::fault::SerfFault;
use crate::form::{Form, form_of};
use crate::heads::{next_byte, next_count, next_text};
use crate::lists::next_field_bytes;
use std::alloc::{AllocError, Global};

/// The number of values of a list, which follow. Nil is an empty list.
#[tactic(auto, unfolding(crate::specs::Many::list_len_at))]
pub(crate) fn next_list_len(bytes: &[u8]) -> Result<(u32, &[u8]), SerfFault>
    ensures { MatchResult result (λ read. list_len_at bytes.now ≡ Ok (read.0, read.1.now))
        (λ fault. list_len_at bytes.now ≡ Err fault) }
{
    let (first, rest) = next_byte(bytes)?;
    list_len_of(rest, form_of(first))
}

/// The number of values of a list of this form.
#[tactic(auto, unfolding(crate::specs::Many::list_len_of))]
fn list_len_of(bytes: &[u8], form: Option<Form>) -> Result<(u32, &[u8]), SerfFault>
    ensures { MatchResult result (λ read. list_len_of form bytes.now ≡ Ok (read.0, read.1.now))
        (λ fault. list_len_of form bytes.now ≡ Err fault) }
{
    match form {
        Some(Form::Nil) => Ok((0, bytes)),
        Some(Form::List(count)) => next_count(bytes, count),
        _ => Err(SerfFault::NotList),
    }
}

/// The number of pairs of a map, which follow. Nil is an empty map.
#[tactic(auto, unfolding(crate::specs::Many::map_len_at))]
pub(crate) fn next_map_len(bytes: &[u8]) -> Result<(u32, &[u8]), SerfFault>
    ensures { MatchResult result (λ read. map_len_at bytes.now ≡ Ok (read.0, read.1.now))
        (λ fault. map_len_at bytes.now ≡ Err fault) }
{
    let (first, rest) = next_byte(bytes)?;
    map_len_of(rest, form_of(first))
}

/// The number of pairs of a map of this form.
#[tactic(auto, unfolding(crate::specs::Many::map_len_of))]
fn map_len_of(bytes: &[u8], form: Option<Form>) -> Result<(u32, &[u8]), SerfFault>
    ensures { MatchResult result (λ read. map_len_of form bytes.now ≡ Ok (read.0, read.1.now))
        (λ fault. map_len_of form bytes.now ≡ Err fault) }
{
    match form {
        Some(Form::Nil) => Ok((0, bytes)),
        Some(Form::Map(count)) => next_count(bytes, count),
        _ => Err(SerfFault::NotMap),
    }
}

/// Appends a value.
pub(crate) fn append<T: Drop>(out: &mut Vec<T>, value: T) -> Result<(), AllocError>
    ensures { OnOk result (out.new.items ≡ out.old.items ++ value ∷ []) }
{
    out.push(value)?;
    Ok(())
}

/// The list of bytes that is this value, or an empty one if there are no bytes.
pub(crate) fn list_of_bytes(alloc: Global, whole: &[u8]) -> Result<Vec<Vec<u8>>, SerfFault>
    ensures { MatchResult result
        (λ list. listed fresh_bytes_at whole.now ≡ Ok (map (λ v. v.items) list.items))
        (IsFault (listed fresh_bytes_at whole.now)) }
{
    if whole.is_empty() {
        return Ok(Vec::new(alloc));
    }
    let (count, rest) = next_list_len(whole)?;
    many_bytes(alloc, rest, count)
}

/// This many values of bytes.
fn many_bytes(alloc: Global, bytes: &[u8], count: u32) -> Result<Vec<Vec<u8>>, SerfFault>
    ensures { MatchResult result
        (λ list. without_rest (many_at fresh_bytes_at count bytes.now)
        ≡ Ok (map (λ v. v.items) list.items))
        (IsFault (without_rest (many_at fresh_bytes_at count bytes.now))) }
{
    let mut list = Vec::new(alloc);
    let mut rest = bytes;
    for _ in 0..count {
        let (value, after) = next_fresh_bytes(alloc, rest)?;
        append(&mut list, value)?;
        rest = after;
    }
    Ok(list)
}

/// The bytes of a field that had none.
fn next_fresh_bytes(alloc: Global, bytes: &[u8]) -> Result<(Vec<u8>, &[u8]), SerfFault>
    ensures { MatchResult result
        (λ read. fresh_bytes_at bytes.now ≡ Ok (read.0.items, read.1.now))
        (IsFault (fresh_bytes_at bytes.now)) }
{
    next_field_bytes(alloc, bytes, Vec::new(alloc))
}

/// The list of texts that is this value, or an empty one if there are no bytes.
pub(crate) fn list_of_texts(alloc: Global, whole: &[u8]) -> Result<Vec<Vec<u8>>, SerfFault>
    ensures { MatchResult result
        (λ list. listed text_at whole.now ≡ Ok (map (λ v. v.items) list.items))
        (IsFault (listed text_at whole.now)) }
{
    if whole.is_empty() {
        return Ok(Vec::new(alloc));
    }
    let (count, rest) = next_list_len(whole)?;
    let (list, _) = many_texts(alloc, rest, count)?;
    Ok(list)
}

/// This many texts.
fn many_texts(alloc: Global, bytes: &[u8], count: u32) -> Result<(Vec<Vec<u8>>, &[u8]), SerfFault>
    ensures { MatchResult result
        (λ read. many_at text_at count bytes.now
        ≡ Ok (map (λ v. v.items) read.0.items, read.1.now))
        (IsFault (many_at text_at count bytes.now)) }
{
    let mut list = Vec::new(alloc);
    let mut rest = bytes;
    for _ in 0..count {
        let (value, after) = next_owned_text(alloc, rest)?;
        append(&mut list, value)?;
        rest = after;
    }
    Ok((list, rest))
}

/// A text, in a vector of its own.
pub(crate) fn next_owned_text(alloc: Global, bytes: &[u8]) -> Result<(Vec<u8>, &[u8]), SerfFault>
    ensures { MatchResult result (λ read. text_at bytes.now ≡ Ok (read.0.items, read.1.now))
        (IsFault (text_at bytes.now)) }
{
    let (text, rest) = next_text(bytes)?;
    Ok((text.to_vec(alloc)?, rest))
}
