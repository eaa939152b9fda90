//! Reading captures to their ends.

ghost use Rattle.std.specs.Prelude.{◌≡◌, List, Decides, IfOk, OnOk};
ghost use Rattle.std.specs.Bool.{OnFalse, OnTrue};
ghost use Rattle.capture.specs.Pcap.{RecordText};
ghost use Rattle.swimwatch.specs.Yielded.{AreHeard, HearsOne, HearsUntil, IsLate, IsLater, Stops};

use crate::NAME;
use crate::arguments::chosen::{Chosen, Verb};
use crate::input::limit::Limit;
use crate::input::sources::Sources;
use crate::input::stream::claims_of_file;
use crate::listening::setting::Setting;
use crate::listening::views::Views;
use crate::shown::agent_log::AgentLog;
use crate::text::names::name_bytes;
use crate::text::said::{output_fails, said};
use capture::Record;
use key_files::keyring_of;
use std::alloc::AllocError;
use std::fs::File;
use std::io::ErrorKind;
use std::time::Duration;
use swim_program::{Failure, What, file_bytes, print_bytes};
use swim_table::EncodeFault;

/// How many bytes of output are kept before they are printed, if all captures are files.
const MAX_PENDING: usize = 32_768;

/// Shows what the arguments ask for from the captures, and then prints what was read.
pub(crate) fn show_captures(rt: &HostRuntime, chosen: &Chosen) -> Result<(), Failure> {
    let alloc = rt.alloc();
    let keys = keyring_of(rt, NAME, &chosen.key_files)?;
    let start = match &chosen.start {
        Some(word) => claims_of_file(rt, chosen, &keys, word)?,
        None => Vec::new(alloc),
    };
    let logs = logs_of(rt, &chosen.agent_logs)?;
    let mut sources = Sources::begin(limit_of(rt, chosen)?, &chosen.inputs)?;
    let setting = Setting::new(&keys, chosen, &start, sources.begun());
    let mut views = Views::new(alloc, setting, logs);
    watch_until(rt, &mut views, &mut sources, u64::MAX)?;
    views.finish()?;
    // made before anything is printed, so that nothing is printed if memory runs out
    let said = views.counts().text(alloc, !keys.is_empty())?;
    let lacks_member = views.lacks_member()?;
    flush(rt, &mut views)?;
    if chosen.verb == Verb::Dump {
        print_dump(rt, &views)?;
    }
    if lacks_member {
        let _ = eprintln!(rt; "{NAME}: {}", chosen.verb.lacks_member());
    }
    let _ = eprintln!(rt; "{NAME}: {said}");
    Ok(())
}

/// Takes the first of several words as the only member to tell of, if it names no file.
pub(crate) fn take_name(rt: &HostRuntime, chosen: &mut Chosen) -> Result<(), AllocError> {
    if chosen.verb != Verb::Why || chosen.member.is_some() || chosen.inputs.len() < 2 {
        return Ok(());
    }
    let Some(word) = chosen.inputs.first() else {
        return Ok(());
    };
    match File::open(rt, word) {
        Err(error) if error.kind() == ErrorKind::NotFound && word.as_str() != "-" => {
            chosen.member = Some(name_bytes(rt.alloc(), word)?);
            let _ = chosen.inputs.remove(0);
        }
        _ => {}
    }
    Ok(())
}

/// The logs of agents in the files that these words name.
fn logs_of(rt: &HostRuntime, words: &[String]) -> Result<Vec<AgentLog>, Failure> {
    let alloc = rt.alloc();
    let mut logs = Vec::new(alloc);
    for word in words {
        let bytes = file_bytes(rt, NAME, word)?;
        logs.push(AgentLog::of(alloc, word, &bytes)?)
            .map_err(AllocError::from)?;
    }
    Ok(logs)
}

/// For how long is listened by the clock.
fn limit_of<'a>(rt: &'a HostRuntime, chosen: &Chosen) -> Result<Limit<'a>, Failure> {
    match Limit::from_now(rt, chosen.times.span.map(Duration::from_micros)) {
        Ok(limit) => Ok(limit),
        Err(_) => Err(said(format!(in rt.alloc(); "{NAME}: cannot read the clock"), 4)),
    }
}

/// Reads captures to the first record after a time, in microseconds, or to their ends, and prints
/// what their records show, also if reading fails.
pub(crate) fn watch_until(
    rt: &HostRuntime,
    views: &mut Views,
    sources: &mut Sources,
    time: u64,
) -> Result<(), Failure>
    ensures hears { (heard : List (List RecordText)) → AreHeard views.old heard
        → OnOk result (HearsUntil views.old.seats.setting.window time sources.old heard
        sources.new views.new) }
    ensures setting { views.new.seats.setting ≡ views.old.seats.setting }
{
    let read = read_until(rt, views, sources, time);
    flush(rt, views)?;
    read
}

/// Takes in the records of captures up to a time, and prints what they show: at once if more may
/// still come, and otherwise many lines at a time.
fn read_until(
    rt: &HostRuntime,
    views: &mut Views,
    sources: &mut Sources,
    time: u64,
) -> Result<(), Failure>
    ensures hears { (heard : List (List RecordText)) → AreHeard views.old heard
        → OnOk result (HearsUntil views.old.seats.setting.window time sources.old heard
        sources.new views.new) }
    ensures setting { views.new.seats.setting ≡ views.old.seats.setting }
{
    for _ in 0..u64::MAX {
        if !hear_next(rt, views, sources, time)? {
            return Ok(());
        }
    }
    Ok(())
}

/// Takes in the next record, unless it is left out, and returns whether it did.
fn hear_next(
    rt: &HostRuntime,
    views: &mut Views,
    sources: &mut Sources,
    time: u64,
) -> Result<bool, Failure>
    ensures hears { (heard : List (List RecordText)) → AreHeard views.old heard
        → IfOk result (λ more. OnTrue more (HearsOne views.old.seats.setting.window time
        sources.old heard sources.new views.new)) }
    ensures stops { IfOk result (λ more. OnFalse more
        (Stops views.old.seats.setting.window time sources.old)) }
    ensures stays { IfOk result (λ more. OnFalse more ((sources.new ≡ sources.old)
        × (views.new.seats ≡ views.old.seats))) }
    ensures setting { views.new.seats.setting ≡ views.old.seats.setting }
{
    let Some(place) = sources.place() else {
        return Ok(false);
    };
    let Some((record, bytes)) = sources.record() else {
        return Ok(false);
    };
    if is_late(views, &record, time) {
        return Ok(false);
    }
    views.record(place, sources.word(place), record, bytes)?;
    flush_some(rt, views, sources.is_live)?;
    sources.read_on()?;
    if sources.is_done(place) {
        views.end(place);
    }
    Ok(true)
}

/// Whether this record is left out, and those after it: listening is over, or it was captured after
/// this time, in microseconds.
fn is_late(views: &Views, record: &Record, time: u64) -> bool
    ensures { Decides result (IsLate views.now.seats.setting.window time «record».now) }
{
    views.is_over(record) || is_later(record, time)
}

/// Whether a record was captured after this time, in microseconds.
fn is_later(record: &Record, time: u64) -> bool
    ensures { Decides result (IsLater time «record».now) }
{
    match record.time {
        Some(nanos) => time < nanos / 1000,
        None => false,
    }
}

/// Prints the pending output if more may still come, or there is much of it.
fn flush_some(rt: &HostRuntime, views: &mut Views, is_live: bool) -> Result<(), Failure>
    ensures { views.new.seats ≡ views.old.seats }
{
    if is_live || MAX_PENDING <= views.printer.out.len() {
        return flush(rt, views);
    }
    Ok(())
}

/// Prints the pending output.
fn flush(rt: &HostRuntime, views: &mut Views) -> Result<(), Failure>
    ensures { views.new.seats ≡ views.old.seats }
{
    if views.printer.out.is_empty() {
        return Ok(());
    }
    let wrote = print_bytes(rt, NAME, views.printer.out.as_str()?.as_bytes());
    views.printer.out.clear();
    wrote
}

/// Prints the dump of the table of all claims.
fn print_dump(rt: &HostRuntime, views: &Views) -> Result<(), Failure> {
    let Some(watch) = views.only() else {
        return Ok(());
    };
    match watch.dump() {
        Ok(bytes) => print_bytes(rt, NAME, &bytes),
        Err(EncodeFault::Memory) => Err(Failure::Memory),
        Err(EncodeFault::TooManyRecords) => {
            Err(output_fails(rt.alloc(), What::too_many_records()))
        }
    }
}
