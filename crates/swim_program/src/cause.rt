//! Input and output of a program that tells the system's cause of a failure.

ghost use Rattle.std.specs.Prelude.{◌≤◌, length, IfOk};

use crate::Failure;
use crate::device::{awaited_input, open_file, read_bytes};
use std::io::{self, ErrorKind, Write};

/// Reads standard input, as [`crate::read_input`] does.
///
/// # Errors
///
/// `swimunwrap: input: device fault (CAUSE)`.
pub fn input_bytes(rt: &HostRuntime, program: &str, awaited: &str) -> Result<Vec<u8>, Failure>
    ensures { IfOk result (λ bytes. length bytes.items ≤ 268435457) }
{
    let mut input = awaited_input(rt, program, awaited);
    match read_bytes(rt.alloc(), &mut input) {
        Ok(bytes) => Ok(bytes),
        Err(error) => Err(Failure::device(rt.alloc(), program, "input", &error)),
    }
}

/// Reads a file, as [`crate::read_file`] does.
///
/// # Errors
///
/// `swimunwrap: FILE: device fault (CAUSE)`. A directory is one.
pub fn file_bytes(rt: &HostRuntime, program: &str, path: &str) -> Result<Vec<u8>, Failure>
    ensures { IfOk result (λ bytes. length bytes.items ≤ 268435457) }
{
    match bytes_of(rt, path) {
        Ok(bytes) => Ok(bytes),
        Err(error) => Err(Failure::device(rt.alloc(), program, path, &error)),
    }
}

fn bytes_of(rt: &HostRuntime, path: &str) -> io::Result<Vec<u8>>
    ensures { IfOk result (λ bytes. length bytes.items ≤ 268435457) }
{
    let mut file = open_file(rt, path)?;
    read_bytes(rt.alloc(), &mut file)
}

/// Writes the bytes to standard output.
///
/// # Errors
///
/// `swimunwrap: output: device fault (CAUSE)`, and [`Failure::Closed`] if nobody reads it any more.
pub fn print_bytes(rt: &HostRuntime, program: &str, bytes: &[u8]) -> Result<(), Failure> {
    match rt.stdout().write_all(bytes) {
        Ok(()) => Ok(()),
        Err(error) => match error.kind() {
            ErrorKind::BrokenPipe => Err(Failure::Closed),
            _ => Err(Failure::device(rt.alloc(), program, "output", &error)),
        },
    }
}
