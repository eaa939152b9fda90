//! Data in a page.

ghost use Rattle.std.specs.Prelude.{IfOk, OnOk};
ghost use Rattle.std.specs.List.{All};
ghost use Rattle.std.specs.String.{string_bytes};
ghost use Rattle.swimwatch.specs.Page.{IsData};

use crate::text::escape::{write_escape, write_plain};
use crate::text::written::Text;
use std::alloc::{AllocError, Global};

/// Adds JSON objects, one on each line, as a list in an element of the page with this id.
pub(crate) fn write_block(text: &mut Text, id: &str, objects: &str) {
    write!(text, "<script type=\"application/json\" id=\"{id}\">[");
    for (index, object) in objects.lines().enumerate() {
        text.push_str(if index == 0 { "\n" } else { ",\n" });
        text.add(inert(text.alloc(), object));
    }
    text.push_str("\n]</script>\n");
}

/// JSON in which all but printable ASCII is escaped, and `<`, which may only be in strings: so it can
/// end no element.
fn inert(alloc: Global, json: &str) -> Result<String, AllocError>
    ensures inert { IfOk result (λ text. All IsData (string_bytes text)) }
{
    let mut text = String::new(alloc);
    for c in json.chars() {
        write_char(&mut text, c)?;
    }
    Ok(text)
}

/// Adds a character of JSON, or its escape.
fn write_char(text: &mut String, c: char) -> Result<(), AllocError>
    ensures inert { All IsData (string_bytes text.old)
        → OnOk result (All IsData (string_bytes text.new)) }
{
    match c {
        ' '..=';' | '='..='~' => write_plain(text, c),
        _ => write_escape(text, c as u32),
    }
}
