//! The payloads of Serf's user events, in lines and objects.

ghost use Rattle.std.specs.Prelude.{◌≡◌, IfSome};

use crate::text::names::{is_printable, write_readable};
use crate::text::written::Text;
use percent_encoding::{AsciiSet, CONTROLS, ascii_set};

/// The most bytes of a payload that a line shows.
const MAX_SHOWN: usize = 64;

/// What a line escapes in the text of a payload: what it escapes in a name, except for spaces; and
/// quotation marks and backslashes.
const ESCAPED: AsciiSet = ascii_set!(CONTROLS.add(b'%').add(b'\'').add(b'\\'));

/// Adds a payload. If it is printable UTF-8, that is its text in single quotes, escaped; otherwise
/// its bytes in hexadecimal. Of more than 64 bytes it has the first 64, or as many of these as are
/// whole characters, and then `..`. Of an empty payload it has nothing.
pub(crate) fn write_payload(text: &mut Text, payload: &[u8]) {
    if payload.is_empty() {
        return;
    }
    let shown = match payload_text(payload) {
        Some(whole) => {
            let (shown, _) = whole.split_at(whole.floor_char_boundary(MAX_SHOWN));
            text.push('\'');
            write_readable(text, shown.as_bytes(), ESCAPED);
            text.push('\'');
            shown.len()
        }
        None => {
            let shown = payload.get(..MAX_SHOWN).unwrap_or(payload);
            text.add(hex::encode(text.alloc(), shown));
            shown.len()
        }
    };
    if shown < payload.len() {
        text.push_str("..");
    }
}

/// The text of a payload, if all of it is printable UTF-8: visible ASCII characters and spaces, and
/// the characters outside ASCII that a name shows as they are.
pub(crate) fn payload_text(payload: &[u8]) -> Option<&str>
    ensures { IfSome result (λ text. text.now ≡ payload.now) }
{
    match std::str::from_utf8(payload) {
        Ok(text) if text.chars().all(is_shown) => Some(text),
        _ => None,
    }
}

/// Whether a character shows itself, or is a space.
fn is_shown(c: char) -> bool {
    matches!(c, ' '..='~') || (!c.is_ascii() && is_printable(c))
}
