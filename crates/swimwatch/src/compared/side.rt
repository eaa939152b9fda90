//! One side of a comparison: a capture, a dump, or a member to ask.

use crate::NAME;
use crate::arguments::chosen::Chosen;
use crate::asked::answer::NoAnswer;
use crate::asked::ask::{ask_all, targets_of};
use crate::asked::connection::NoReply;
use crate::asked::ring::Ring;
use crate::asked::silence::Cause;
use crate::heard::carriage::NoStream;
use crate::input::captures::watch_until;
use crate::input::limit::Limit;
use crate::input::origin::Input;
use crate::input::sources::Sources;
use crate::input::stream::{no_stream, open, stream_of_input};
use crate::listening::setting::Setting;
use crate::listening::views::Views;
use crate::text::moment::When;
use crate::text::said::said;
use crate::view::roster::Roster;
use memberlist_keyring::Keyring;
use std::alloc::Global;
use std::io::ErrorKind;
use swim_program::{Failure, begins_as_capture};

/// What a word names.
#[derive(Drop)]
enum Source<'a> {
    /// Input in a capture format.
    Capture(Input<'a>),
    /// Other input.
    Stream(Input<'a>),
    /// Not a file.
    Host,
}

/// What the capture, the push/pull stream or the member that the word names knows. For a capture,
/// that is who is in the cluster at its end.
pub(crate) fn roster_of(
    rt: &HostRuntime,
    chosen: &Chosen,
    ring: &mut Ring,
    word: &String,
) -> Result<Roster, Failure> {
    match source_of(rt, word)? {
        Source::Capture(input) => roster_of_capture(rt, chosen, ring.keys(), word, input),
        Source::Stream(input) => roster_of_input(rt, chosen, ring.keys(), word, input),
        Source::Host => roster_of_host(rt, chosen, ring, word),
    }
}

/// Who is in the cluster at the end of a capture.
fn roster_of_capture(
    rt: &HostRuntime,
    chosen: &Chosen,
    keys: &Keyring,
    word: &str,
    input: Input,
) -> Result<Roster, Failure> {
    let mut sources = Sources::of(Limit::endless(rt), word, input)?;
    let mut views = views_of(rt, chosen, keys, &sources);
    watch_until(rt, &mut views, &mut sources, u64::MAX)?;
    views.finish()?;
    tell_counts(rt, &views, keys, word)?;
    roster_in(rt.alloc(), &views)
}

/// Who is in the cluster of a capture at two times. It is read once, so it may be a pipe.
pub(crate) fn rosters_at(
    rt: &HostRuntime,
    chosen: &Chosen,
    keys: &Keyring,
    word: &str,
    times: [When; 2],
) -> Result<(Roster, Roster), Failure> {
    let alloc = rt.alloc();
    let mut sources = Sources::of(Limit::endless(rt), word, open(rt, word)?)?;
    let mut views = views_of(rt, chosen, keys, &sources);
    let begun = sources.begun();
    let [one, other] = times;
    let (one, other) = (one.in_capture(begun), other.in_capture(begun));
    watch_until(rt, &mut views, &mut sources, one.min(other))?;
    let earlier = roster_in(alloc, &views)?;
    watch_until(rt, &mut views, &mut sources, one.max(other))?;
    views.finish()?;
    tell_counts(rt, &views, keys, word)?;
    let later = roster_in(alloc, &views)?;
    Ok(if one <= other {
        (earlier, later)
    } else {
        (later, earlier)
    })
}

/// The views of a capture.
fn views_of<'a>(
    rt: &HostRuntime,
    chosen: &'a Chosen,
    keys: &'a Keyring,
    sources: &Sources,
) -> Views<'a> {
    let setting = Setting::new(keys, chosen, &[], sources.begun());
    Views::new(rt.alloc(), setting, Vec::new(rt.alloc()))
}

/// Says on standard error what was read of a capture.
fn tell_counts(rt: &HostRuntime, views: &Views, keys: &Keyring, word: &str) -> Result<(), Failure> {
    let said = views.counts().text(rt.alloc(), !keys.is_empty())?;
    let _ = eprintln!(rt; "{NAME}: {word}: {said}");
    Ok(())
}

/// The members in the only view; none before its first record.
fn roster_in(alloc: Global, views: &Views) -> Result<Roster, Failure> {
    match views.only() {
        Some(watch) => Ok(watch.roster()?),
        None => Ok(Roster::new(alloc)),
    }
}

/// What the member that the word names answers.
fn roster_of_host(
    rt: &HostRuntime,
    chosen: &Chosen,
    ring: &mut Ring,
    word: &String,
) -> Result<Roster, Failure> {
    let alloc = rt.alloc();
    let targets = targets_of(alloc, std::slice::from_ref(word))?;
    for told in ask_all(rt, ring, &chosen.asking, &targets)? {
        match told {
            Ok(answer) => return Ok(answer.roster),
            Err(silence) => {
                let is_keyless = ring.keys().is_empty();
                let text = match &silence.cause {
                    Cause::NoReply(NoReply::NoAddress(error)) => format!(in alloc;
                        "{NAME}: {}: no such file, and cannot find an address for this name ({error})",
                        silence.host
                    ),
                    _ => silence.message(alloc, is_keyless, chosen.asking.timeout),
                };
                return Err(said(text, silence.status()));
            }
        }
    }
    Err(Failure::Memory)
}

/// What the word names, judged by the first bytes of the file, if there is one. It is opened once,
/// since a pipe can be read once.
fn source_of<'a>(rt: &'a HostRuntime, word: &str) -> Result<Source<'a>, Failure> {
    let mut input = match Input::open(Limit::endless(rt), word) {
        Ok(input) => input,
        Err(error) if error.kind() == ErrorKind::NotFound => return Ok(Source::Host),
        Err(error) => return Err(Failure::device(rt.alloc(), NAME, word, &error)),
    };
    match input.peek() {
        Ok(head) if begins_as_capture(head) => Ok(Source::Capture(input)),
        Ok(_) => Ok(Source::Stream(input)),
        Err(error) => Err(Failure::device(rt.alloc(), NAME, word, &error)),
    }
}

/// What the push/pull stream in an input says.
fn roster_of_input(
    rt: &HostRuntime,
    chosen: &Chosen,
    keys: &Keyring,
    word: &str,
    input: Input,
) -> Result<Roster, Failure> {
    let stream = stream_of_input(rt, chosen, keys, word, input)?;
    match Roster::of_stream(rt.alloc(), &stream)? {
        Some(roster) => Ok(roster),
        None => Err(no_stream(rt.alloc(), word, NoAnswer::NoStream(NoStream::Cut))),
    }
}
