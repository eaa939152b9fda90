//! Asking members for their tables.

ghost use Rattle.std.specs.Prelude.{IfOk};
ghost use Rattle.swimwatch.specs.Asking.{IsDumpOf};

use crate::NAME;
use crate::arguments::chosen::Chosen;
use crate::asked::agreed::{status_of, write_asked, write_asked_objects};
use crate::asked::ask::{Asked, ask_all, targets_of};
use crate::asked::follow::follow;
use crate::asked::remembered::{write_event_objects, write_events};
use crate::asked::ring::Ring;
use crate::heard::records::claims_of_stream;
use crate::text::said::{misused, output_fails};
use crate::text::written::Text;
use key_files::keyring_of;
use std::alloc::{AllocError, Global};
use std::process::ExitCode;
use swim_program::{Failure, What, print_bytes};
use swim_table::{EncodeFault, Table, encode};

/// Asks the members that the arguments name, and then shows their answers. The status is 1 if they
/// do not agree or one did not answer, and 4 if none did.
///
/// # Errors
///
/// Those of [`ask_all`]. Also if the arguments do not fit together.
pub(crate) fn pull(rt: &HostRuntime, chosen: &Chosen) -> Result<ExitCode, Failure> {
    let alloc = rt.alloc();
    if let Some(text) = misuse_of_dump(chosen) {
        return Err(misused(alloc, text));
    }
    if let Some(following) = &chosen.following {
        return follow(rt, chosen, following);
    }
    let targets = targets_of(alloc, &chosen.inputs)?;
    let mut ring = Ring::new(keyring_of(rt, NAME, &chosen.key_files)?);
    let asked = ask_all(rt, &mut ring, &chosen.asking, &targets)?;
    let is_keyless = ring.keys().is_empty();
    // all memory is asked for before anything is printed
    let status = status_of(alloc, &asked)?;
    let mut messages = Vec::new(alloc);
    for told in &asked {
        if let Err(silence) = told {
            let message = silence.message(alloc, is_keyless, chosen.asking.timeout)?;
            messages.push(message).map_err(AllocError::from)?;
        }
    }
    if chosen.dump {
        if let [Ok(answer)] = asked.as_slice() {
            print_bytes(rt, NAME, &dump_of(alloc, &answer.stream)?)?;
        }
    } else {
        let text = shown(alloc, chosen, &asked, is_keyless)?;
        print_bytes(rt, NAME, text.as_bytes())?;
    }
    for message in &messages {
        let _ = rt.eprintln(message);
    }
    Ok(ExitCode::from(status))
}

/// Why the other arguments do not fit `--dump`, if it is there and they do not.
fn misuse_of_dump(chosen: &Chosen) -> Option<&'static str> {
    if !chosen.dump {
        None
    } else if chosen.json || chosen.inputs.len() != 1 {
        Some("--dump needs exactly one member, and cannot be used with --json")
    } else if chosen.events {
        Some("--dump cannot be used with --events")
    } else if chosen.following.is_some() {
        Some("--dump cannot be used with --every")
    } else {
        None
    }
}

/// What is shown of the answers: the members or the events in them, as text or as JSON objects.
fn shown(
    alloc: Global,
    chosen: &Chosen,
    asked: &[Asked],
    is_keyless: bool,
) -> Result<String, AllocError> {
    let mut text = Text::new(alloc);
    match (chosen.events, chosen.json) {
        (false, false) => write_asked(&mut text, asked, is_keyless)?,
        (false, true) => write_asked_objects(&mut text, asked, is_keyless),
        (true, false) => write_events(&mut text, asked, is_keyless),
        (true, true) => write_event_objects(&mut text, asked, is_keyless),
    }
    text.end()
}

/// The canonical dump of the table of a stream's claims.
fn dump_of(alloc: Global, stream: &[u8]) -> Result<Vec<u8>, Failure>
    ensures { IfOk result (λ bytes. IsDumpOf stream.now bytes.items) }
{
    let Some(claims) = claims_of_stream(alloc, stream)? else {
        return Err(output_fails(alloc, What::Device));
    };
    let mut table = Table::new(alloc);
    table.take_all(claims)?;
    match encode(alloc, &table, false) {
        Ok(bytes) => Ok(bytes),
        Err(EncodeFault::Memory) => Err(Failure::Memory),
        Err(EncodeFault::TooManyRecords) => Err(output_fails(alloc, What::too_many_records())),
    }
}
