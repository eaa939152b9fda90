//! Reading the text of a key file.

ghost use Rattle.std.specs.Prelude.{◌≡◌, ◌≤◌, length, IfOk};
ghost use Rattle.std.specs.Io.KnownBytes.{Consumes, IsAtEnd};
ghost use Rattle.swim_program.specs.Limits.{max_input_len};

use memberlist_keyring::{Secret, overwrite};
use std::alloc::Global;
use std::io::{self, Read};
use swim_program::{MAX_INPUT_LEN, read_piece};

/// How many bytes are requested at once. A key file is seldom longer.
const PIECE: usize = 4096;

/// Reads to the end, but at most one byte past the bound, so that the length identifies a longer
/// text. No byte stays in memory but in what is returned: neither on the stack, nor where memory
/// was freed.
///
/// # Errors
///
/// Those of [`swim_program::read_bytes`].
pub(crate) fn read_secret<R: Read>(alloc: Global, reader: &mut R) -> io::Result<Secret>
    // If the reader's bytes are known, these are the next ones, and all that there are within the
    // bound.
    ensures reads { IfOk result (λ text.
        Consumes (R.remaining reader.old) (R.remaining reader.new) text) }
    ensures whole { IfOk result (λ text. length text ≤ max_input_len
        → IsAtEnd (R.remaining reader.new)) }
    ensures within { IfOk result (λ text. length text ≤ 268435457) }
{
    let mut piece = vec![in alloc; 0u8; PIECE]?;
    let text = read_by(alloc, reader, &mut piece);
    overwrite(&mut piece);
    text
}

/// Reads by pieces of at most this length.
fn read_by<R: Read>(alloc: Global, reader: &mut R, piece: &mut [u8]) -> io::Result<Secret>
    requires { length piece.old ≡ 4096 }
    ensures reads { IfOk result (λ text.
        Consumes (R.remaining reader.old) (R.remaining reader.new) text) }
    ensures whole { IfOk result (λ text. length text ≤ max_input_len
        → IsAtEnd (R.remaining reader.new)) }
    ensures within { IfOk result (λ text. length text ≤ 268435457) }
{
    let mut text = Secret::new(Vec::new(alloc));
    let mut interruptions = 0;
    while text.as_bytes().len() <= MAX_INPUT_LEN {
        let wanted = (MAX_INPUT_LEN + 1 - text.as_bytes().len()).min(PIECE);
        match read_piece(reader, &mut piece[..wanted], &mut interruptions)? {
            0 => return Ok(text),
            count => text.extend(&piece[..count])?,
        }
    }
    Ok(text)
}
