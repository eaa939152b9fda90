//! The keys of a cluster, from the files on a command line.
//!
//! | module | subject |
//! |---|---|
//! | `reading` | reading the text of a key file |
//! | `access` | who may read a key file |
#![tactic(auto)]

ghost use Rattle.std.specs.Prelude.{◌≡◌, ◌≤◌, ◌++◌, ℕ, List, length, IfOk, OnOk, OnErr};
ghost use Rattle.std.specs.Io.KnownBytes.{Consumes, IsAtEnd};
ghost use Rattle.memberlist_keyring.specs.KeyFile.{IsKeyFile};
ghost use Rattle.swim_program.specs.Limits.{max_input_len};

mod access;
mod reading;

use access::is_open_to_others;
use memberlist_keyring::{KeyFileFault, Keyring, Secret};
use reading::read_secret;
use std::alloc::{AllocError, Global};
use std::fs::File;
use std::io::Read;
use swim_program::{Failure, MAX_INPUT_LEN, Place, What, open_file};

/// The keys in these files, in the order of the arguments. The texts of the files do not stay in
/// memory. A line on standard error names each file that other users may read:
/// `swimwatch: keys: other users can read this file; chmod 600 keys`.
///
/// # Errors
///
/// The message and the exit status of the program: a file that cannot be read is a device fault
/// with the system's cause, one of more than 268,435,456 bytes is too long, and one that holds
/// something else than keys is refused with the place of the first line or text that is not a key.
pub fn keyring_of(rt: &HostRuntime, program: &str, files: &[String]) -> Result<Keyring, Failure> {
    let mut keys = Keyring::new(rt.alloc());
    for file in files {
        add_file(rt, program, &mut keys, file)?;
    }
    Ok(keys)
}

/// Adds the keys in this file.
fn add_file(
    rt: &HostRuntime,
    program: &str,
    keys: &mut Keyring,
    name: &String,
) -> Result<(), Failure> {
    let alloc = rt.alloc();
    let mut file = match open_file(rt, name) {
        Ok(file) => file,
        Err(error) => return Err(Failure::device(alloc, program, name, &error)),
    };
    if is_open_to_others(&file) {
        let _ = eprintln!(rt;
            "{program}: {name}: other users can read this file; chmod 600 {name}"
        );
    }
    add_text(alloc, program, keys, name, &mut file)
}

/// Adds the keys that the reader of this file gives.
fn add_text<R: Read>(
    alloc: Global,
    program: &str,
    keys: &mut Keyring,
    name: &String,
    reader: &mut R,
) -> Result<(), Failure>
    // If the reader's bytes are known, they are a key file's, and its keys are behind the others.
    ensures adds { OnOk result ((text : List ℕ) × (added : List (List ℕ))
        × Consumes (R.remaining reader.old) (R.remaining reader.new) text
        × IsAtEnd (R.remaining reader.new) × IsKeyFile text added
        × (keys.new ≡ keys.old ++ added)) }
    ensures stays { OnErr result (keys.new ≡ keys.old) }
{
    let text = text_of(alloc, program, name, reader)?;
    match keys.add_file(alloc, text.as_bytes()) {
        Ok(()) => Ok(()),
        Err(fault) => Err(refused(alloc, program, name, fault)),
    }
}

/// The text that the reader of a key file gives.
fn text_of<R: Read>(
    alloc: Global,
    program: &str,
    name: &String,
    reader: &mut R,
) -> Result<Secret, Failure>
    ensures reads { IfOk result (λ text.
        Consumes (R.remaining reader.old) (R.remaining reader.new) text) }
    ensures whole { IfOk result (λ _. IsAtEnd (R.remaining reader.new)) }
    ensures within { IfOk result (λ text. length text ≤ max_input_len) }
{
    let text = match read_secret(alloc, reader) {
        Ok(text) => text,
        Err(error) => return Err(Failure::device(alloc, program, name, &error)),
    };
    if text.as_bytes().len() > MAX_INPUT_LEN {
        let report = What::input_too_long().at(Place::File(0));
        return Err(Failure::refused(alloc, program, &report, std::slice::from_ref(name)));
    }
    Ok(text)
}

/// The failure for a file that holds something else than keys.
fn refused(alloc: Global, program: &str, file: &str, fault: KeyFileFault) -> Failure {
    match refusal_text(alloc, program, file, fault) {
        Ok(Some(text)) => Failure::Refused { text, status: 3 },
        Ok(None) | Err(AllocError) => Failure::Memory,
    }
}

/// Its message, or nothing if out of memory: `swimunwrap: keys: line 2: fault 50 BadKey`.
fn refusal_text(
    alloc: Global,
    program: &str,
    file: &str,
    fault: KeyFileFault,
) -> Result<Option<String>, AllocError> {
    let place = match fault {
        KeyFileFault::Line(line) => format!(in alloc; "line {line}")?,
        KeyFileFault::Item(item) => format!(in alloc; "item {item}")?,
        KeyFileFault::NotList => String::from_str(alloc, "not a JSON list of strings")?,
        KeyFileFault::Memory => return Ok(None),
    };
    let number = fault.number();
    Ok(Some(format!(in alloc; "{program}: {file}: {place}: fault {number} BadKey")?))
}
