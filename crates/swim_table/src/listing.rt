//! A table as text, with a line for each name.

ghost use Rattle.std.specs.Prelude.{◌≡◌, ◌≤◌, ◌++◌, length, decimal, IfOk, OnOk};
ghost use Rattle.hex.specs.Hex.{encode_lower};
ghost use Rattle.percent_encoding.specs.Percent as percent;
ghost use Rattle.swim_claim.specs.Limits.{max_meta_len};
ghost use Rattle.swim_table.specs.declared.listing.TheConstants.{ESCAPED};
ghost use Rattle.swim_table.specs.Listing.{state_word, address_text, home_text, line, listing};

use crate::entry::Entry;
use crate::table::Table;
use itoa::Buffer;
use percent_encoding::{AsciiSet, CONTROLS, ascii_set, percent_encode};
use std::alloc::{AllocError, Global};
use swim_claim::{Details, Kind, Name};

/// What a listing escapes in a name, in addition to bytes outside ASCII: all bytes that are not
/// visible, and the escape sign.
const ESCAPED: AsciiSet = ascii_set!(CONTROLS.add(b' ').add(b'%'));

/// The table as text, with a line for each name in ascending order.
///
/// A line is `name state inc home`. In a name, bytes 21 to 7e (hexadecimal) other than `%` are
/// kept, and every other byte is `%XX`. The state is `alive`, `suspect`, `confirm` or `leave`. The
/// home is `-` if there was no Alive, and otherwise `inc/addr/port/meta/vsn` of the newest one,
/// with bytes in lower-case hexadecimal and numbers in decimal (own).
///
/// # Errors
///
/// If out of memory for the text.
pub fn list(alloc: Global, table: &Table) -> Result<Vec<u8>, AllocError>
    ensures { IfOk result (λ text. text.items ≡ listing table.now) }
{
    let mut text = Vec::new(alloc);
    for entry in table.entries() {
        write_line(&mut text, entry)?;
    }
    Ok(text)
}

/// Adds the line of one entry.
fn write_line(text: &mut Vec<u8>, entry: &Entry) -> Result<(), AllocError>
    ensures { OnOk result (text.new.items ≡ text.old.items ++ line entry.now) }
{
    write_name(text, entry.name())?;
    text.push(b' ')?;
    text.extend_from_slice(state(entry.kind()).as_bytes())?;
    text.push(b' ')?;
    write_number(text, entry.inc())?;
    text.push(b' ')?;
    write_home(text, entry)?;
    text.push(b'\n')?;
    Ok(())
}

/// Adds a name, escaped.
fn write_name(text: &mut Vec<u8>, name: &Name) -> Result<(), AllocError>
    ensures { OnOk result
        (text.new.items ≡ text.old.items ++ percent.percent_encode ESCAPED name.now) }
{
    for part in percent_encode(name.bytes(), ESCAPED) {
        text.extend_from_slice(part.as_bytes())?;
    }
    Ok(())
}

/// The word for a kind of claim.
fn state(kind: Kind) -> &'static str
    ensures { result.now ≡ state_word kind }
{
    match kind {
        Kind::Alive => "alive",
        Kind::Suspect => "suspect",
        Kind::Confirm => "confirm",
        Kind::Leave => "leave",
    }
}

/// Adds the newest Alive, or `-` if there was none.
fn write_home(text: &mut Vec<u8>, entry: &Entry) -> Result<(), AllocError>
    ensures { OnOk result (text.new.items ≡ text.old.items ++ home_text entry.now.home) }
{
    match (entry.home_inc(), entry.home_details()) {
        (Some(inc), Some(details)) => write_address(text, inc, details),
        _ => {
            text.push(b'-')?;
            Ok(())
        }
    }
}

/// Adds what an Alive said about its member.
fn write_address(text: &mut Vec<u8>, inc: u32, details: &Details) -> Result<(), AllocError>
    ensures { OnOk result (text.new.items ≡ text.old.items ++ address_text inc details.now) }
{
    write_number(text, inc)?;
    text.push(b'/')?;
    write_hexadecimal(text, details.addr())?;
    text.push(b'/')?;
    write_number(text, u32::from(details.port()))?;
    text.push(b'/')?;
    write_hexadecimal(text, details.meta())?;
    text.push(b'/')?;
    write_hexadecimal(text, details.vsn())
}

/// Adds a number in decimal.
fn write_number(text: &mut Vec<u8>, number: u32) -> Result<(), AllocError>
    ensures { OnOk result (text.new.items ≡ text.old.items ++ decimal number) }
{
    text.extend_from_slice(Buffer::new().format(number).as_bytes())
}

/// Adds bytes in hexadecimal.
fn write_hexadecimal(text: &mut Vec<u8>, bytes: &[u8]) -> Result<(), AllocError>
    requires { length bytes.now ≤ max_meta_len }
    ensures { OnOk result (text.new.items ≡ text.old.items ++ encode_lower bytes.now) }
{
    let start = text.len();
    text.resize(start + 2 * bytes.len(), 0)?;
    match hex::encode_to_slice(bytes, &mut text[start..]) {
        Ok(()) => Ok(()),
        Err(_) => unreachable!(),
    }
}
