//! Text in SVG.

ghost use Rattle.std.specs.Prelude.{◌≡◌, ◌++◌, IfOk, OnOk};
ghost use Rattle.std.specs.List.{All, flat_map};
ghost use Rattle.std.specs.String.{string_bytes};
ghost use Rattle.swimwatch.specs.Svg.{IsInert, in_xml};

use std::alloc::{AllocError, Global};

/// The text, escaped for XML between tags and in quotes. What is not printable ASCII becomes `?`.
///
/// # Errors
///
/// If out of memory for the text.
pub(crate) fn escaped(alloc: Global, plain: &str) -> Result<String, AllocError>
    ensures inert { IfOk result (λ text. All IsInert (string_bytes text)) }
    ensures exact { IfOk result (λ text. string_bytes text ≡ flat_map in_xml plain.now) }
{
    let mut text = String::new(alloc);
    for byte in plain.bytes() {
        push_byte(&mut text, byte)?;
    }
    Ok(text)
}

/// Adds a byte.
fn push_byte(text: &mut String, byte: u8) -> Result<(), AllocError>
    ensures exact { OnOk result (string_bytes text.new ≡ string_bytes text.old ++ in_xml byte) }
    ensures inert { All IsInert (in_xml byte) }
{
    match byte {
        b'&' => text.push_str("&amp;"),
        b'<' => text.push_str("&lt;"),
        b'>' => text.push_str("&gt;"),
        b'"' => text.push_str("&quot;"),
        b'\'' => text.push_str("&#39;"),
        b' '..=b'~' => text.push(byte as char),
        _ => text.push('?'),
    }
}
