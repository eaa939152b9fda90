//! Characters as JSON escapes them.

ghost use Rattle.std.specs.Prelude.{OnOk};
ghost use Rattle.std.specs.List.{All};
ghost use Rattle.std.specs.String.{string_bytes};
ghost use Rattle.swimwatch.specs.Page.{IsData};

use std::alloc::AllocError;

/// Adds a character in four hexadecimal digits, or in twice four for a pair of surrogates (RFC
/// 8259, section 7).
pub(crate) fn write_escape(text: &mut String, code: u32) -> Result<(), AllocError>
    ensures inert { All IsData (string_bytes text.old)
        → OnOk result (All IsData (string_bytes text.new)) }
{
    if code < 0x1_0000 {
        return write_unit(text, code);
    }
    let above = code.saturating_sub(0x1_0000);
    write_unit(text, 0xd800 | (above >> 10) & 0x3ff)?;
    write_unit(text, 0xdc00 | above & 0x3ff)
}

/// Adds a unit of UTF-16, which is in the lowest 16 bits: `\u003c`.
fn write_unit(text: &mut String, unit: u32) -> Result<(), AllocError>
    ensures inert { All IsData (string_bytes text.old)
        → OnOk result (All IsData (string_bytes text.new)) }
{
    write_plain(text, '\\')?;
    write_plain(text, 'u')?;
    write_digit(text, unit >> 12 & 15)?;
    write_digit(text, unit >> 8 & 15)?;
    write_digit(text, unit >> 4 & 15)?;
    write_digit(text, unit & 15)
}

/// Adds a hexadecimal digit.
fn write_digit(text: &mut String, digit: u32) -> Result<(), AllocError>
    ensures inert { All IsData (string_bytes text.old)
        → OnOk result (All IsData (string_bytes text.new)) }
{
    match char::from_digit(digit, 16) {
        Some(c) => text.push(c),
        None => Ok(()),
    }
}

/// Adds a character as it is.
pub(crate) fn write_plain(text: &mut String, c: char) -> Result<(), AllocError>
    requires plain { IsData c }
    ensures inert { All IsData (string_bytes text.old)
        → OnOk result (All IsData (string_bytes text.new)) }
{
    text.push(c)
}
