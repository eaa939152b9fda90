//! Input and files up to their bound, and output.

ghost use Rattle.std.specs.Prelude.{◌≡◌, ◌<◌, ◌≤◌, max, length, take, Ok, IfOk, IfErr, IsOkUnless, OnOk, OnErr};
ghost use Rattle.std.specs.Io.KnownBytes.{Appends, Consumes, IsAtEnd, Keeps};
ghost use Rattle.std.specs.IoError.{error_kind};
ghost use Rattle.swim_pack.specs.Ends.{AppendsFront};
ghost use Rattle.swim_program.specs.Limits.{max_input_len, max_retries};
ghost use Rattle.swim_program.specs.Report.{IsAmong};

use crate::report::{Place, Report, What};
use std::alloc::Global;
use std::fs::File;
use std::io::{self, ErrorKind, IsTerminal, Read, Stdin, Write};
use swim_pack::write_whole;

/// The maximum length of an input in bytes. Every canonical dump is shorter.
pub const MAX_INPUT_LEN: usize = 268_435_456;

/// How many interrupted reads of one input are retried.
const RETRIES: u32 = 1000;

/// How many bytes are requested at once.
const PIECE: usize = 65536;

/// One read, retried while it is interrupted. `interruptions` counts those of one input, of which
/// 1,000 are retried. The bytes are in the piece and nowhere else.
///
/// # Errors
///
/// Those of the reader, which then keeps its bytes. An interruption is one from the 1,001st on.
pub fn read_piece<R: Read>(
    reader: &mut R,
    piece: &mut [u8],
    interruptions: &mut u32,
) -> io::Result<usize>
    // If the reader's bytes are known, those that were read are the next ones, and none only at the
    // end.
    ensures within { IfOk result (λ count. count ≤ length piece.new) }
    ensures reads { IfOk result (λ count.
        Consumes (R.remaining reader.old) (R.remaining reader.new) (take count piece.new)) }
    ensures end { result ≡ Ok 0 → 0 < length piece.old → IsAtEnd (R.remaining reader.new) }
    ensures keeps { OnErr result (Keeps (R.remaining reader.old) (R.remaining reader.new)) }

    // An interruption is an error only once as many were retried.
    ensures retried { IfErr result (λ error. error_kind error ≡ ErrorKind.Interrupted
        → max_retries ≤ interruptions.new) }
    ensures counted { interruptions.old ≤ interruptions.new }
    ensures few { interruptions.new ≤ max interruptions.old max_retries }
{
    loop {
        match reader.read(piece) {
            Ok(count) => return Ok(count),
            Err(error) => {
                if !matches!(error.kind(), ErrorKind::Interrupted) || *interruptions >= RETRIES {
                    return Err(error);
                }
                *interruptions += 1;
            }
        }
    }
}

/// Reads to the end, but at most one byte past the bound, so that the length identifies a longer
/// input.
///
/// # Errors
///
/// The system's cause, which is the 1,001st interruption if there are as many, and an error of the
/// kind `OutOfMemory` if out of memory.
pub fn read_bytes<R: Read>(alloc: Global, reader: &mut R) -> io::Result<Vec<u8>>
    // If the reader's bytes are known, these are the next ones, and all that there are within the
    // bound.
    ensures reads { IfOk result (λ bytes.
        Consumes (R.remaining reader.old) (R.remaining reader.new) bytes.items) }
    ensures whole { IfOk result (λ bytes. length bytes.items ≤ max_input_len
        → IsAtEnd (R.remaining reader.new)) }
    ensures within { IfOk result (λ bytes. length bytes.items ≤ 268435457) }
{
    let mut bytes = Vec::new(alloc);
    let mut piece = [0; PIECE];
    let mut interruptions = 0;
    while bytes.len() <= MAX_INPUT_LEN {
        let wanted = (MAX_INPUT_LEN + 1 - bytes.len()).min(PIECE);
        match read_piece(reader, &mut piece[..wanted], &mut interruptions)? {
            0 => return Ok(bytes),
            count => bytes.extend_from_slice(&piece[..count])?,
        }
    }
    Ok(bytes)
}

/// Reads as [`read_bytes`] does. An error, or the 1,001st interruption, is a device fault.
pub fn read_to_bound<R: Read>(alloc: Global, reader: &mut R) -> Result<Vec<u8>, What>
    ensures reads { IfOk result (λ bytes.
        Consumes (R.remaining reader.old) (R.remaining reader.new) bytes.items) }
    ensures whole { IfOk result (λ bytes. length bytes.items ≤ max_input_len
        → IsAtEnd (R.remaining reader.new)) }
    ensures within { IfOk result (λ bytes. length bytes.items ≤ 268435457) }
{
    match read_bytes(alloc, reader) {
        Ok(bytes) => Ok(bytes),
        Err(error) => Err(match error.kind() {
            ErrorKind::OutOfMemory => What::Memory,
            _ => What::Device,
        }),
    }
}

/// Opens a file. A directory is refused, which the system would do only when it is read.
pub fn open_file(rt: &HostRuntime, path: &str) -> io::Result<File> {
    let file = File::open(rt, path)?;
    if file.metadata()?.is_dir() {
        return Err(io::Error::from(ErrorKind::IsADirectory));
    }
    Ok(file)
}

/// Reads standard input as [`read_to_bound`] does. If it is a terminal, a note first says what is
/// expected there: `swimtab: reading a script from the terminal; Ctrl-D ends the input`.
pub fn read_input(rt: &HostRuntime, program: &str, awaited: &str) -> Result<Vec<u8>, Report>
    ensures { IfErr result (λ report. IsAmong report.place 0) }
{
    let mut input = awaited_input(rt, program, awaited);
    match read_to_bound(rt.alloc(), &mut input) {
        Ok(bytes) => Ok(bytes),
        Err(what) => Err(what.at(Place::Input)),
    }
}

/// Standard input. If it is a terminal, a note says what is expected there.
pub(crate) fn awaited_input(rt: &HostRuntime, program: &str, awaited: &str) -> Stdin {
    let input = rt.stdin();
    if input.is_terminal() {
        let _ = eprintln!(rt;
            "{program}: reading {awaited} from the terminal; Ctrl-D ends the input"
        );
    }
    input
}

/// Reads a file as [`read_to_bound`] does. A file that cannot be opened is a device fault.
pub fn read_file(rt: &HostRuntime, path: &str) -> Result<Vec<u8>, What> {
    match File::open(rt, path) {
        Ok(mut file) => read_to_bound(rt.alloc(), &mut file),
        Err(_) => Err(What::Device),
    }
}

/// Writes the bytes at once. An error, a write of 0 bytes, or the 1,001st interruption is a device
/// fault.
pub fn write_out<W: Write>(writer: &mut W, bytes: &[u8]) -> Result<(), What>
    // If the writer's bytes are known, it took exactly these, or a prefix of them if refused.
    ensures wrote { OnOk result
        (Appends (W.contents writer.old) (W.contents writer.new) bytes.now) }
    ensures front { OnErr result
        (AppendsFront (W.contents writer.old) (W.contents writer.new) bytes.now) }

    ensures device { IsOkUnless result What.Device }
{
    match write_whole(writer, bytes) {
        Ok(()) => Ok(()),
        Err(_) => Err(What::Device),
    }
}
