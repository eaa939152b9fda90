//! What a member answers.

ghost use Rattle.std.specs.Prelude.{◌≡◌, ◌≢◌, ◌<◌, List, ℕ, length, IfOk, IfErr};
ghost use Rattle.memberlist_transport.specs.Reply.{IsReplyIn};
ghost use Rattle.swimwatch.specs.declared.asked.answer.NoAnswer.TheVariants as answers;
ghost use Rattle.swimwatch.specs.declared.heard.carriage.NoStream.TheVariants as causes;

use crate::heard::carriage::{ENCRYPTED, MAX_STREAM_LEN, NoStream, cause_of};
use memberlist_cipher::{LABEL, MAX_LABEL_LEN};
use memberlist_keyring::{Keyring, behind_label};
use memberlist_transport::{InTheClear, StreamFault, open_reply};
use memberlist_wrap::unwrap;
use percent_encoding::{AsciiSet, CONTROLS, ascii_set, percent_encode};
use std::alloc::{AllocError, Global};
use swim_pack::raw_at_hand;

/// The first byte of a message in which a member reports an error (memberlist's net.go, errMsg).
const ERROR_MESSAGE: u8 = 13;

/// The most bytes of an error message that are shown.
const MAX_ERROR_LEN: usize = 1024;

/// What a line escapes in a member's words, in addition to bytes outside ASCII.
const ESCAPED: AsciiSet = ascii_set!(CONTROLS.add(b'%').add(b'"'));

/// Why an answer contains no table.
#[derive(Drop)]
pub(crate) enum NoAnswer {
    /// The member says why, in these words.
    Error(String),
    /// It is not a push/pull stream.
    NoStream(NoStream),
}

impl From<AllocError> for NoAnswer {
    ghost from_gives = { λ _ cause. cause ≡ answers.NoStream causes.Memory };

    fn from(_error: AllocError) -> NoAnswer {
        NoAnswer::NoStream(NoStream::Memory)
    }
}

/// The push/pull stream in an answer. If it is encrypted, the first key that works decrypts it. A
/// member writes no label before its answer, but authenticates the label that it has. `clear` says
/// what becomes of an answer in the clear if there are keys.
///
/// # Errors
///
/// See [`NoAnswer`]. No cluster has a label of more than 255 bytes.
pub(crate) fn stream_in(
    alloc: Global,
    keys: &Keyring,
    clear: InTheClear,
    label: &[u8],
    answer: Vec<u8>,
) -> Result<Vec<u8>, NoAnswer>
    ensures ok { IfOk result (λ stream.
        IsReplyIn 33554432 clear keys.now label.now answer.items stream.items) }
    ensures none { IfErr result (λ cause. cause ≢ NoAnswer.NoStream NoStream.Memory
        → length label.now < 256
        → (stream : List ℕ)
        → ¬ IsReplyIn 33554432 clear keys.now label.now answer.items stream) }
{
    if label.len() > MAX_LABEL_LEN {
        return Err(NoAnswer::NoStream(NoStream::Closed));
    }
    match open_reply(alloc, keys, clear, label, &answer, MAX_STREAM_LEN) {
        Ok(stream) => Ok(stream),
        Err(StreamFault::NoStream(ERROR_MESSAGE)) => {
            let message = message_in(alloc, keys, label, answer)?;
            Err(NoAnswer::Error(words_of(alloc, &message)?))
        }
        Err(fault) => Err(NoAnswer::NoStream(cause_of(fault))),
    }
}

/// The message in an answer, in the clear or encrypted; empty if there is none.
fn message_in(
    alloc: Global,
    keys: &Keyring,
    label: &[u8],
    answer: Vec<u8>,
) -> Result<Vec<u8>, AllocError>
    requires { length label.now < 256 }
{
    let bytes = match answer.first() {
        Some(&LABEL) => answer,
        _ => behind_label(alloc, label, answer)?,
    };
    let Ok(message) = unwrap(alloc, &bytes, MAX_STREAM_LEN) else {
        return Err(AllocError);
    };
    if message.first() != Some(&ENCRYPTED) {
        return Ok(message);
    }
    match keys.open_stream(alloc, &bytes) {
        Ok(inner) => match unwrap(alloc, &inner, MAX_STREAM_LEN) {
            Ok(message) => Ok(message),
            Err(_) => Err(AllocError),
        },
        Err(_) => Err(AllocError),
    }
}

/// The words of an error message: the map of one text after its first byte (memberlist's
/// `errResp`). They are escaped.
fn words_of(alloc: Global, message: &[u8]) -> Result<String, AllocError> {
    let words = match message.get(2..) {
        Some(map) => text_in(map).unwrap_or(map),
        None => &[],
    };
    let shown = words.get(..MAX_ERROR_LEN).unwrap_or(words);
    let mut text = String::new(alloc);
    percent_encode(shown, ESCAPED).append_to(&mut text)?;
    Ok(text)
}

/// The value after the key at the start of the bytes.
fn text_in(bytes: &[u8]) -> Option<&[u8]> {
    let (_, value) = raw_at_hand(bytes, 16)?;
    let (text, _) = raw_at_hand(value, usize::MAX)?;
    Some(text)
}
