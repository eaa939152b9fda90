//! A program that removes what memberlist's transport wraps around messages: it reads packets in
//! hexadecimal or one stream, and prints them unwrapped.
//!
//! | module | subject |
//! |---|---|
//! | `verb` | what the arguments ask for |
//! | `command_line` | the command line arguments |
//! | `help` | the texts of help and version |
//! | `lines` | packets in hexadecimal, one per line |
//! | `packet` | the packet on a line |
//! | `cause` | why a line cannot be read as a message |
//! | `left_out` | the message about lines that were left out |
//! | `stream` | a push/pull stream |
#![tactic(auto)]

ghost use Rattle.std.specs.Prelude.{length};
ghost use Rattle.swim_program.specs.Report.{IsAmong};

mod cause;
mod command_line;
mod help;
mod left_out;
mod lines;
mod packet;
mod stream;
#[cfg(test)]
mod tests;
mod verb;

use command_line::chosen;
use key_files::keyring_of;
use left_out::left_out_text;
use lines::unwrap_lines;
use memberlist_keyring::Keyring;
use memberlist_transport::InTheClear;
use std::process::ExitCode;
use stream::unwrap_stream;
use swim_program::{Failure, Place, file_bytes, input_bytes, print_bytes, words_of};
use verb::{Chosen, Verb};

/// The program's name, with which its messages on standard error start.
const NAME: &str = "swimunwrap";

fn main(rt: HostRuntime) -> ExitCode {
    match run(&rt) {
        Ok(()) => ExitCode::SUCCESS,
        Err(failure) => failure.tell(&rt, NAME),
    }
}

fn run(rt: &HostRuntime) -> Result<(), Failure> {
    let words = words_of(rt)?;
    let chosen = chosen(rt.alloc(), words.as_slice())?;
    let keys = keyring_of(rt, NAME, chosen.key_files())?;
    match chosen.verb() {
        Verb::Lines => print_lines(rt, &keys, chosen.clear(), false),
        Verb::Skipping => print_lines(rt, &keys, chosen.clear(), true),
        Verb::Stream => print_file(rt, &keys, chosen.clear(), chosen.files()),
    }
}

/// Unwraps the packets on standard input, and then reports how many lines were left out, if any
/// were. The report is made before anything is printed.
fn print_lines(
    rt: &HostRuntime,
    keys: &Keyring,
    clear: InTheClear,
    skip: bool,
) -> Result<(), Failure> {
    let alloc = rt.alloc();
    let input = input_bytes(rt, NAME, "packets")?;
    let unwrapped = match unwrap_lines(alloc, keys, clear, &input, skip) {
        Ok(unwrapped) => unwrapped,
        Err(report) => return Err(Failure::refused(alloc, NAME, &report, &[])),
    };
    if unwrapped.left_out().is_empty() {
        return print_bytes(rt, NAME, unwrapped.text());
    }
    let said = left_out_text(alloc, unwrapped.left_out(), &input)?;
    print_bytes(rt, NAME, unwrapped.text())?;
    tell(rt, &said)
}

/// Prints a line on standard error. If that fails it is a device fault at the output.
fn tell(rt: &HostRuntime, line: &String) -> Result<(), Failure> {
    match rt.eprintln(line) {
        Ok(()) => Ok(()),
        Err(error) => Err(Failure::device(rt.alloc(), NAME, "output", &error)),
    }
}

/// Unwraps the stream in the file, or on standard input if there is none or it is `-`.
fn print_file(
    rt: &HostRuntime,
    keys: &Keyring,
    clear: InTheClear,
    files: &[String],
) -> Result<(), Failure> {
    match files {
        [word, ..] if word.as_str() != "-" => {
            let bytes = file_bytes(rt, NAME, word)?;
            print_stream(rt, keys, clear, &bytes, Place::File(0), files)
        }
        _ => {
            let bytes = input_bytes(rt, NAME, "a stream")?;
            print_stream(rt, keys, clear, &bytes, Place::Input, files)
        }
    }
}

/// Unwraps the stream in these bytes from a place, which is a file of these or standard input.
fn print_stream(
    rt: &HostRuntime,
    keys: &Keyring,
    clear: InTheClear,
    bytes: &[u8],
    place: Place,
    files: &[String],
) -> Result<(), Failure>
    requires { IsAmong place (length files.now) }
{
    match unwrap_stream(rt.alloc(), keys, clear, bytes) {
        Ok(stream) => print_bytes(rt, NAME, &stream),
        Err(what) => Err(Failure::refused(rt.alloc(), NAME, &what.at(place), files)),
    }
}
