//! Names in lines.

use crate::text::written::Text;
use percent_encoding::{AsciiSet, CONTROLS, ascii_set, percent_decode, percent_encode};
use std::alloc::{AllocError, Global};

/// What a line escapes in a name, as in swimtab's listing: all ASCII characters that are not visible,
/// and the escape sign.
const ESCAPED: AsciiSet = ascii_set!(CONTROLS.add(b' ').add(b'%'));

/// Adds a name, escaped: printable UTF-8 is kept, and every byte of something else, of a space and
/// of `%` is `%XX`.
pub(crate) fn write_name(text: &mut Text, name: &[u8]) {
    write_readable(text, name, ESCAPED);
}

/// An escaped name, as [`write_name`] adds it.
pub(crate) fn escaped_name(alloc: Global, name: &[u8]) -> Result<String, AllocError> {
    let mut text = Text::new(alloc);
    write_name(&mut text, name);
    text.end()
}

/// Adds bytes in which all but printable UTF-8 is escaped, and what is in this set.
pub(crate) fn write_readable(text: &mut Text, bytes: &[u8], escaped: AsciiSet) {
    let mut rest = bytes;
    for _ in 0..bytes.len() {
        let len = printable_len(rest);
        let size = len.max(ascii_len(rest)).max(1);
        let Some((shown, behind)) = rest.split_at_checked(size) else {
            break;
        };
        if len > 0 {
            text.add(String::from_utf8_lossy(text.alloc(), shown));
        } else {
            text.push_encoded(percent_encode(shown, escaped));
        }
        rest = behind;
    }
}

/// How many ASCII characters there are at the start.
fn ascii_len(bytes: &[u8]) -> usize {
    bytes.iter().take_while(|byte| byte.is_ascii()).count()
}

/// How many bytes the character at the start has, if it is not ASCII and is printable; otherwise 0.
fn printable_len(bytes: &[u8]) -> usize {
    let len = match bytes.first() {
        Some(0xc2..=0xdf) => 2,
        Some(0xe0..=0xef) => 3,
        Some(0xf0..=0xf4) => 4,
        _ => return 0,
    };
    let Some(front) = bytes.get(..len) else {
        return 0;
    };
    match std::str::from_utf8(front) {
        Ok(text) if text.chars().all(is_printable) => len,
        _ => 0,
    }
}

/// Whether a character outside ASCII shows itself: it is no control character, no space, and no mark
/// that hides or turns text.
pub(crate) fn is_printable(c: char) -> bool {
    !c.is_control() && !c.is_whitespace() && !is_mark(c)
}

/// Whether a character hides, joins or turns the text around it (Unicode's default ignorable and
/// bidirectional marks).
pub(crate) fn is_mark(c: char) -> bool {
    matches!(
        c as u32,
        0xad | 0x61c
            | 0x180e
            | 0x200b..=0x200f
            | 0x2028..=0x202e
            | 0x2060..=0x206f
            | 0xfe00..=0xfe0f
            | 0xfeff
            | 0xfff0..=0xfffb
            | 0xe0000..=0xe0fff
    )
}

/// The bytes of an escaped name.
pub(crate) fn name_bytes(alloc: Global, text: &str) -> Result<Vec<u8>, AllocError> {
    percent_decode(text.as_bytes()).collect(alloc)
}
