//! The keys of a file.

ghost use Rattle.std.specs.Prelude.{◌≡◌, ◌⊎◌, ◌∷◌, ◌++◌, [], ℕ, List, length, map, MatchBool, IfOk, IfErr, OnOk, OnErr};
ghost use Rattle.std.specs.Str.Lines.{strip_carriage_return};
ghost use Rattle.serde_json.specs.Data.{Data};
ghost use Rattle.serde_json.specs.View.{view};
ghost use Rattle.memberlist_keyring.specs.KeyFile.{IsKeyText, HasKeySize, LineHolds, lines_of, ItemHolds, HoldInOrder};
ghost use Rattle.memberlist_keyring.specs.KeyFile.{IsBlank, IsListText, IsKeyFile, IsJsonList, ItemsCause};
ghost use Rattle.memberlist_keyring.specs.KeyFile.{KeyFileCause};

use crate::key::key_of;
use crate::{KeyFileFault, Secret};
use memberlist_cipher::Key;
use serde_json::Value;
use std::alloc::{AllocError, Global};

/// The keys of a file.
pub(crate) fn keys_of(alloc: Global, text: &[u8]) -> Result<Vec<Key>, KeyFileFault>
    ensures ok { IfOk result (λ keys. IsKeyFile text.now keys.items) }
    ensures err { IfErr result (λ fault. KeyFileCause fault text.now) }
{
    if is_list(text) {
        keys_of_list(alloc, text)
    } else {
        keys_of_lines(alloc, text)
    }
}

/// Whether the first byte that is not blank is `[`.
fn is_list(text: &[u8]) -> bool
    ensures { MatchBool result (IsListText text.now) (¬ IsListText text.now) }
{
    for byte in text {
        if !is_blank(*byte) {
            return *byte == b'[';
        }
    }
    false
}

fn is_blank(byte: u8) -> bool
    ensures { MatchBool result (IsBlank byte) (¬ IsBlank byte) }
{
    byte == b' ' || byte == b'\t' || byte == b'\n' || byte == b'\r'
}

/// The keys of lines.
fn keys_of_lines(alloc: Global, text: &[u8]) -> Result<Vec<Key>, KeyFileFault>
    requires { ¬ IsListText text.now }
    ensures ok { IfOk result (λ keys. HoldInOrder LineHolds (lines_of text.now) keys.items) }
    ensures err { IfErr result (λ fault. KeyFileCause fault text.now) }
{
    let mut keys = Vec::new(alloc);
    for (i, line) in text.split(|byte| *byte == b'\n').enumerate() {
        if !add_line(alloc, &mut keys, line)? {
            return Err(KeyFileFault::Line(i as u64 + 1));
        }
    }
    Ok(keys)
}

/// Adds the key of a line, if it has one. Returns whether the line is valid in a key file.
fn add_line(alloc: Global, keys: &mut Vec<Key>, line: &[u8]) -> Result<bool, AllocError>
    ensures adds { IfOk result (λ good. MatchBool good
        ((held : List (List ℕ)) × LineHolds line.now held
        × (keys.new.items ≡ keys.old.items ++ held))
        ((held : List (List ℕ)) → ¬ LineHolds line.now held)) }
    ensures memory { OnErr result (HasKeySize (strip_carriage_return line.now)) }
{
    let content = content_of(line);
    if content.is_empty() {
        return Ok(true);
    }
    add_text(alloc, keys, content)
}

/// A line without a carriage return at its end.
fn content_of(line: &[u8]) -> &[u8]
    ensures { result.now ≡ strip_carriage_return line.now }
{
    let len = line.len();
    if len > 0 && line[len - 1] == b'\r' {
        &line[..len - 1]
    } else {
        line
    }
}

/// Adds the key whose base64 the text is. Returns whether it is that of a key.
#[tactic(auto, using(crate::proofs::Keys::key_size))]
fn add_text(alloc: Global, keys: &mut Vec<Key>, text: &[u8]) -> Result<bool, AllocError>
    ensures adds { IfOk result (λ good. MatchBool good
        ((key : List ℕ) × IsKeyText text.now key × (keys.new.items ≡ keys.old.items ++ key ∷ []))
        ((key : List ℕ) → ¬ IsKeyText text.now key)) }
    ensures memory { OnErr result (HasKeySize text.now) }
{
    let Some(key) = key_of(alloc, text)? else {
        return Ok(false);
    };
    keys.push(key)?;
    Ok(true)
}

/// The keys of a list of texts in JSON.
fn keys_of_list(alloc: Global, text: &[u8]) -> Result<Vec<Key>, KeyFileFault>
    requires { IsListText text.now }
    ensures ok { IfOk result (λ keys. (items : List Data) × IsJsonList text.now items
        × HoldInOrder ItemHolds items keys.items) }
    ensures err { IfErr result (λ fault. KeyFileCause fault text.now) }
{
    let value = match Value::from_slice(alloc, text) {
        Ok(value) => value,
        Err(error) => {
            return Err(if error.is_memory() {
                KeyFileFault::Memory
            } else {
                KeyFileFault::NotList
            });
        }
    };
    let Some(items) = value.as_array() else {
        return Err(KeyFileFault::NotList);
    };
    let keys = keys_of_items(alloc, items);
    overwrite_texts(value);
    keys
}

/// Frees a value. If it is a list, the texts in it are overwritten before.
fn overwrite_texts(value: Value) {
    if let Value::Array(items) = value {
        for item in items {
            overwrite_text(item);
        }
    }
}

/// Frees a value. If it is a text, it is overwritten before.
fn overwrite_text(value: Value) {
    if let Value::String(text) = value {
        drop(Secret::new(text.into_bytes()));
    }
}

/// The keys of the items of a list.
fn keys_of_items(alloc: Global, items: &[Value]) -> Result<Vec<Key>, KeyFileFault>
    ensures ok { IfOk result (λ keys. HoldInOrder ItemHolds (map view items.now) keys.items) }
    ensures err { IfErr result (λ fault. ItemsCause fault (map view items.now)) }
{
    let mut keys = Vec::new(alloc);
    for (i, item) in items.iter().enumerate() {
        let Some(text) = item.as_str() else {
            return Err(KeyFileFault::NotList);
        };
        if !add_text(alloc, &mut keys, text.as_bytes())? {
            return Err(KeyFileFault::Item(i as u64 + 1));
        }
    }
    Ok(keys)
}
