//! The next bytes of a record, in bounded memory.

ghost use Rattle.std.specs.Prelude.{◌≡◌, ◌<◌, ◌≤◌, length};
ghost use Rattle.swim_pack.specs.Composing.{ReadsAs};
ghost use Rattle.capture.specs.Taking.{stop_cause, next_part, first_byte, next_header, captured_at, skipped};

use crate::CaptureFault;
use crate::stop::Stop;
use swim_pack::{Inlet, PullFault};

/// The most captured bytes of a record.
pub(crate) const MAX_CAPTURED_LEN: u32 = 262_144;

/// The most bytes that are read at once. The buffer of them is filled with zeros at each call, so it
/// is small.
const PIECE: usize = 512;

/// Fills the buffer with the next bytes of a record.
pub(crate) fn fill<I: Inlet>(inlet: &mut I, part: &mut [u8]) -> Result<(), Stop>
    ensures { ReadsAs stop_cause (λ _. part.new) (next_part (length part.old))
        (I.seen inlet.old) (I.seen inlet.new) result }
{
    inlet.pull(part)?;
    Ok(())
}

/// Fills the buffer of one byte with the first byte of a record, if there is another record.
fn fill_first<I: Inlet>(inlet: &mut I, first: &mut [u8]) -> Result<(), Stop>
    requires { length first.old ≡ 1 }
    ensures { ReadsAs stop_cause (λ _. first.new) first_byte
        (I.seen inlet.old) (I.seen inlet.new) result }
{
    match inlet.pull(first) {
        Ok(()) => Ok(()),
        Err(PullFault::Ended) => Err(Stop::End),
        Err(PullFault::Fault) => Err(Stop::Fault(CaptureFault::Device)),
    }
}

/// Fills the buffer with the header of a record, if there is another record.
pub(crate) fn fill_header<I: Inlet>(inlet: &mut I, header: &mut [u8]) -> Result<(), Stop>
    requires { 0 < length header.old }
    ensures { ReadsAs stop_cause (λ _. header.new) (next_header (length header.old))
        (I.seen inlet.old) (I.seen inlet.new) result }
{
    let (first, rest) = header.split_at_mut(1);
    fill_first(inlet, first)?;
    fill(inlet, rest)
}

/// Replaces the contents of `bytes` with that many captured bytes, in pieces of at most 512 bytes:
/// memory is allocated only for bytes that were read.
pub(crate) fn read_part<I: Inlet>(
    inlet: &mut I,
    bytes: &mut Vec<u8>,
    len: usize,
) -> Result<(), Stop>
    ensures { ReadsAs stop_cause (λ _. bytes.new.items) (next_part len)
        (I.seen inlet.old) (I.seen inlet.new) result }
{
    bytes.clear();
    let mut piece = [0; PIECE];
    let mut left = len;
    while left > 0 {
        let size = left.min(piece.len());
        let part = &mut piece[..size];
        inlet.pull(part)?;
        bytes.extend_from_slice(part)?;
        left -= size;
    }
    Ok(())
}

/// Replaces the contents of `bytes` with the captured bytes of a record.
pub(crate) fn read_captured<I: Inlet>(
    inlet: &mut I,
    bytes: &mut Vec<u8>,
    length: u32,
) -> Result<(), Stop>
    ensures { ReadsAs stop_cause (λ _. bytes.new.items) (captured_at length)
        (I.seen inlet.old) (I.seen inlet.new) result }
{
    if length > MAX_CAPTURED_LEN {
        return Err(Stop::Fault(CaptureFault::TooLong { length }));
    }
    read_part(inlet, bytes, length as usize)
}

/// Skips `len` bytes, in pieces of at most 512 bytes. It takes no memory.
pub(crate) fn skip<I: Inlet>(inlet: &mut I, len: usize) -> Result<(), Stop>
    ensures { ReadsAs stop_cause (λ _. tt) (skipped len)
        (I.seen inlet.old) (I.seen inlet.new) result }
{
    let mut piece = [0; PIECE];
    let mut left = len;
    while left > 0 {
        let size = left.min(piece.len());
        inlet.pull(&mut piece[..size])?;
        left -= size;
    }
    Ok(())
}
