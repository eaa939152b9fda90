//! The messages about keys that queries of Serf and their responses carry.

ghost use Rattle.std.specs.Prelude.{◌≡◌, ◌<◌, ◌^◌, ◌++◌, Ok, length, MatchResult, IfOk, OnOk};
ghost use Rattle.serf_message.specs.KeyMessages.{key_request_of, key_request_after, key_request_bytes, key_response_of};
ghost use Rattle.serf_message.specs.KeyMessages.{key_response_after, key_response_from, key_response_value};
ghost use Rattle.serf_message.specs.KeyMessages.{key_response_bytes, texts_text, IsShortKeyResponse};
ghost use Rattle.serf_message.specs.Reading.{IsFault};
ghost use Rattle.serf_message.specs.Values.{slots_of};

use crate::fault::SerfFault;
use crate::field_value::{flag, into_raw};
use crate::fields::{Values, raw_at, read_all_fields};
use crate::heads::body_of;
use crate::layout::{KEY_REQUEST, KEY_RESPONSE, Key};
use crate::many::list_of_texts;
use crate::pairs::{Written, write_fields};
use crate::write::write_texts;
use std::alloc::{AllocError, Global};

/// The first byte of a key request, as in Serf's `messages.go`.
const KEY_REQUEST_MESSAGE: u8 = 7;

/// The first byte of a key response.
const KEY_RESPONSE_MESSAGE: u8 = 8;

/// Serf's `keyRequest` (keymanager.go), in the payload of the queries `_serf_install-key`,
/// `_serf_use-key` and `_serf_remove-key`.
#[derive(Drop, Debug)]
pub struct KeyRequest {
    /// The key.
    pub key: Vec<u8>,
}

/// Serf's `nodeKeyResponse` (internal_query.go), in the payload of the responses to those queries
/// and to `_serf_list-keys`.
#[derive(Drop, Debug)]
pub struct KeyResponse {
    /// Whether the member did what was asked.
    pub result: bool,
    /// Why not, or empty.
    pub message: Vec<u8>,
    /// The member's keys in base64, if they were asked for.
    pub keys: Vec<Vec<u8>>,
    /// The key that the member seals with in base64, if it was asked for.
    pub primary_key: Vec<u8>,
}

/// The key request in a query's payload: type byte 7, and one value with its field.
///
/// # Errors
///
/// As for `decode_message`, and `WrongType` if the first byte is not 7.
pub fn decode_key_request(alloc: Global, payload: &[u8]) -> Result<KeyRequest, SerfFault>
    ensures { MatchResult result (λ m. key_request_of payload.now ≡ Ok m.key.items)
        (IsFault (key_request_of payload.now)) }
{
    let body = body_of(payload, KEY_REQUEST_MESSAGE)?;
    key_request_after(alloc, body)
}

/// The key request behind its type byte.
#[tactic(auto, unfolding(crate::specs::KeyMessages::key_request_after))]
fn key_request_after(alloc: Global, body: &[u8]) -> Result<KeyRequest, SerfFault>
    ensures { MatchResult result (λ m. key_request_after body.now ≡ Ok m.key.items)
        (IsFault (key_request_after body.now)) }
{
    let values = read_all_fields(alloc, body, &KEY_REQUEST)?;
    let [key, ..] = values;
    Ok(KeyRequest {
        key: into_raw(alloc, key),
    })
}

/// The key response in a response's payload: type byte 8, and one value with its fields.
///
/// # Errors
///
/// As for `decode_message`, `WrongType` if the first byte is not 8, and `NotList` and the faults of
/// texts if the keys are no list of texts.
pub fn decode_key_response(alloc: Global, payload: &[u8]) -> Result<KeyResponse, SerfFault>
    ensures { MatchResult result (λ m. key_response_of payload.now ≡ Ok (key_response_value m))
        (IsFault (key_response_of payload.now)) }
{
    let body = body_of(payload, KEY_RESPONSE_MESSAGE)?;
    key_response_after(alloc, body)
}

/// The key response behind its type byte.
#[tactic(auto, unfolding(crate::specs::KeyMessages::key_response_after))]
fn key_response_after(alloc: Global, body: &[u8]) -> Result<KeyResponse, SerfFault>
    ensures { MatchResult result (λ m. key_response_after body.now ≡ Ok (key_response_value m))
        (IsFault (key_response_after body.now)) }
{
    let values = read_all_fields(alloc, body, &KEY_RESPONSE)?;
    key_response_from(alloc, values)
}

/// The key response of these fields.
#[tactic(auto, unfolding(crate::specs::KeyMessages::key_response_from))]
fn key_response_from(alloc: Global, values: Values) -> Result<KeyResponse, SerfFault>
    ensures { MatchResult result
        (λ m. key_response_from (slots_of values) ≡ Ok (key_response_value m))
        (IsFault (key_response_from (slots_of values))) }
{
    let keys = list_of_texts(alloc, raw_at(&values, 2))?;
    let [result, message, _, primary_key, ..] = values;
    Ok(KeyResponse {
        result: flag(&result),
        message: into_raw(alloc, message),
        keys,
        primary_key: into_raw(alloc, primary_key),
    })
}

/// The payload of a query with this key, which has at most 65,535 bytes.
///
/// # Errors
///
/// `AllocError` if memory ran out.
pub fn encode_key_request(alloc: Global, request: &KeyRequest) -> Result<Vec<u8>, AllocError>
    requires { length request.now.key.items < 2 ^ 16 }
    ensures { IfOk result (λ bytes. bytes.items ≡ key_request_bytes request.now.key.items) }
{
    let mut out = Vec::new(alloc);
    out.extend_from_slice(&[KEY_REQUEST_MESSAGE])?;
    write_fields(&mut out, &[(Key::Key, Written::Bytes(&request.key))])?;
    Ok(out)
}

/// The payload of a response with these keys, of which there are at most 65,535. Each text has at
/// most 65,535 bytes.
///
/// # Errors
///
/// `AllocError` if memory ran out.
pub fn encode_key_response(alloc: Global, response: &KeyResponse) -> Result<Vec<u8>, AllocError>
    requires { IsShortKeyResponse (key_response_value response.now) }
    ensures { IfOk result
        (λ bytes. bytes.items ≡ key_response_bytes (key_response_value response.now)) }
{
    let mut keys = Vec::new(alloc);
    write_texts(&mut keys, &response.keys)?;
    let mut out = Vec::new(alloc);
    write_key_response(&mut out, response, &keys)?;
    Ok(out)
}

/// Appends a key response, whose keys have these bytes.
fn write_key_response<'a>(
    out: &mut Vec<u8>,
    response: &'a KeyResponse,
    keys: &'a [u8],
) -> Result<(), AllocError>
    requires short { IsShortKeyResponse (key_response_value response.now) }
    requires keys { keys.now ≡ texts_text (key_response_value response.now).keys }
    ensures { OnOk result (out.new.items
        ≡ out.old.items ++ key_response_bytes (key_response_value response.now)) }
{
    out.extend_from_slice(&[KEY_RESPONSE_MESSAGE])?;
    write_fields(
        out,
        &[
            (Key::Keys, Written::Whole(keys)),
            (Key::Message, Written::Text(&response.message)),
            (Key::PrimaryKey, Written::Text(&response.primary_key)),
            (Key::Result, Written::Flag(response.result)),
        ],
    )
}
