//! Following members: asking them again and again, and printing what changed.

use crate::NAME;
use crate::arguments::chosen::{Chosen, Following};
use crate::asked::agreed::status_of;
use crate::asked::ask::{Answer, Asked, Target, ask_all, targets_of};
use crate::asked::metrics::{Tally, metrics_of, write_anew};
use crate::asked::remembered::write_new_events;
use crate::asked::ring::Ring;
use crate::asked::unlisted::Unlisted;
use crate::shown::changes::{changed, write_step, write_step_object};
use crate::text::json::Object;
use crate::text::moment::write_moment;
use crate::text::names::write_name;
use crate::text::said::said;
use crate::text::texts::{moment_text, name_text, write_place_and_meta};
use crate::text::written::Text;
use crate::view::directory::copy_of;
use key_files::keyring_of;
use memberlist_view::MemberName;
use std::alloc::{AllocError, Global};
use std::collections::BTreeMap;
use std::process::ExitCode;
use std::thread;
use std::time::{Duration, Instant, SystemTime};
use swim_program::{Failure, print_bytes};

/// A member that is followed.
#[derive(Drop)]
pub(crate) struct Followed {
    /// The member, as `10.20.1.11:7946`.
    pub(crate) host: String,
    /// Its last answer, if there was one.
    answer: Option<Answer>,
    /// Why it did not answer the last time, if it did not.
    silence: Option<String>,
}

impl Followed {
    /// What it answered the last time, if it did.
    pub(crate) fn current(&self) -> Option<&Answer> {
        match self.silence {
            None => self.answer.as_ref(),
            Some(_) => None,
        }
    }

    /// The last thing that it answered, if it ever did.
    pub(crate) fn last(&self) -> Option<&Answer> {
        self.answer.as_ref()
    }
}

/// Asks the members that the arguments name, waits, and asks them again, until that was done as
/// often as the arguments say. Each time it prints what changed since the last answer of each
/// member, and writes the metrics. The status is that of the last time, as [`status_of`] has it.
///
/// # Errors
///
/// Those of [`ask_all`]. Also if the metrics cannot be written.
pub(crate) fn follow(
    rt: &HostRuntime,
    chosen: &Chosen,
    following: &Following,
) -> Result<ExitCode, Failure> {
    let alloc = rt.alloc();
    let mut targets = targets_of(alloc, &chosen.inputs)?;
    let mut ring = Ring::new(keyring_of(rt, NAME, &chosen.key_files)?);
    let shown = Shown {
        json: chosen.json,
        events: chosen.events,
        is_keyless: ring.keys().is_empty(),
    };
    let mut watch = Watched::of(alloc, &targets, shown)?;
    let mut status = 0;
    for number in 0..following.count.unwrap_or(u64::MAX) {
        if number > 0 {
            wait(rt, following, watch.begun)?;
        }
        watch.begun = Instant::now(rt).ok();
        let mut asked = ask_all(rt, &mut ring, &chosen.asking, &targets)?;
        watch.keep(&mut asked, following.forget)?;
        status = status_of(alloc, &asked)?;
        watch.hear(now(rt)?, asked, &mut targets)?;
        print_bytes(rt, NAME, watch.text.as_str()?.as_bytes())?;
        watch.text.clear();
        if let Some(file) = &following.metrics {
            write_anew(rt, file, &metrics_of(alloc, &watch.followed, &watch.tally)?)?;
        }
    }
    Ok(ExitCode::from(status))
}

/// Waits until the period is over that began with the last round.
fn wait(rt: &HostRuntime, following: &Following, begun: Option<Instant>) -> Result<(), Failure> {
    let passed = match begun {
        Some(begun) => begun.elapsed(rt).unwrap_or(following.every),
        None => following.every,
    };
    thread::sleep(rt, following.every.saturating_sub(passed));
    Ok(())
}

/// The time, in microseconds since the start of 1970.
fn now(rt: &HostRuntime) -> Result<u64, Failure> {
    let since = match SystemTime::now(rt) {
        Ok(now) => now.duration_since(SystemTime::UNIX_EPOCH).ok(),
        Err(_) => None,
    };
    match since {
        Some(since) => Ok(u64::try_from(since.as_micros()).unwrap_or(u64::MAX)),
        None => Err(said(format!(in rt.alloc(); "{NAME}: cannot read the clock"), 4)),
    }
}

/// How what changed is shown.
#[derive(Clone, Copy)]
struct Shown {
    /// Whether as JSON objects.
    json: bool,
    /// Whether only events are, of all that changed.
    events: bool,
    /// Whether there are no keys.
    is_keyless: bool,
}

/// What is known about all members that are followed.
#[derive(Drop)]
struct Watched {
    followed: Vec<Followed>,
    tally: Tally,
    /// What is to be printed.
    text: Text,
    shown: Shown,
    /// When the last round began.
    begun: Option<Instant>,
}

impl Watched {
    fn of(alloc: Global, targets: &[Target], shown: Shown) -> Result<Watched, AllocError> {
        let mut followed = Vec::new(alloc);
        for target in targets {
            followed.push(Followed {
                host: target.host.text(alloc)?,
                answer: None,
                silence: None,
            })?;
        }
        Ok(Watched {
            followed,
            tally: Tally::new(alloc),
            text: Text::new(alloc),
            shown,
            begun: None,
        })
    }

    /// Keeps in each answer what the member's last one had as dead or forgotten.
    fn keep(&self, asked: &mut [Asked], forget: Option<Duration>) -> Result<(), AllocError> {
        let alloc = self.text.alloc();
        for (told, followed) in asked.iter_mut().zip(&self.followed) {
            if let (Ok(answer), Some(last)) = (told, &followed.answer) {
                answer.keep(alloc, last, forget)?;
            }
        }
        Ok(())
    }

    /// Takes what came of a round that ended at this time, in the order of the targets.
    fn hear(
        &mut self,
        time: u64,
        asked: Vec<Asked>,
        targets: &mut [Target],
    ) -> Result<(), AllocError> {
        for (number, told) in asked.into_iter().enumerate() {
            let Some(followed) = self.followed.get_mut(number) else {
                continue;
            };
            match told {
                Ok(answer) => {
                    if let Some(target) = targets.get_mut(number) {
                        target.key = answer.way.key;
                    }
                    let is_new = followed.answer.is_none() || followed.silence.is_some();
                    if is_new {
                        write_answers(&mut self.text, time, &answer, self.shown.json);
                    }
                    if let Some(last) = &followed.answer {
                        let tally = &mut self.tally;
                        write_news(&mut self.text, tally, time, last, &answer, self.shown)?;
                    }
                    followed.silence = None;
                    followed.answer = Some(answer);
                }
                Err(silence) => {
                    let alloc = self.text.alloc();
                    let words = silence.words(alloc, self.shown.is_keyless)?;
                    if followed.silence.as_deref() != Some(words.as_str()) {
                        let json = self.shown.json;
                        write_silence(&mut self.text, time, &followed.host, &words, json);
                    }
                    followed.silence = Some(words);
                }
            }
        }
        Ok(())
    }
}

/// Adds that a member answers: `HOST answers: 3 members, 316 bytes, 1.4 ms`.
fn write_answers(text: &mut Text, time: u64, answer: &Answer, json: bool) {
    let alloc = text.alloc();
    let count = answer.roster.iter().count();
    let micros = u64::try_from(answer.way.took.as_micros()).unwrap_or(u64::MAX);
    if json {
        let mut object = Object::new(alloc);
        object.text("time", moment_text(alloc, time));
        object.word("host", &answer.host);
        object.number("members", count as u64);
        object.number("bytes", answer.way.len as u64);
        object.number("microseconds", micros);
        return object.write(text);
    }
    write_moment(text, time);
    let tenths = micros / 100;
    write!(
        text,
        " {} answers: {count} members, {} bytes, {}.{} ms\n",
        answer.host,
        answer.way.len,
        tenths / 10,
        tenths % 10
    )
}

/// Adds that a member does not answer, and why.
fn write_silence(text: &mut Text, time: u64, host: &str, words: &str, json: bool) {
    let alloc = text.alloc();
    if json {
        let mut object = Object::new(alloc);
        object.text("time", moment_text(alloc, time));
        object.word("host", host);
        object.word("no_answer", words);
        return object.write(text);
    }
    write_moment(text, time);
    write!(text, " {host} no answer ({words})\n")
}

/// Adds a line for each name that changed from one answer of a member to its next, if names are
/// shown, and counts it. Then adds a line for each event that is new.
fn write_news(
    text: &mut Text,
    tally: &mut Tally,
    time: u64,
    before: &Answer,
    after: &Answer,
    shown: Shown,
) -> Result<(), AllocError> {
    let alloc = text.alloc();
    let mut names = changed(alloc, &before.roster, &after.roster)?;
    note_forgotten(alloc, &mut names, &before.unlisted, &after.unlisted)?;
    note_forgotten(alloc, &mut names, &after.unlisted, &before.unlisted)?;
    for (name, ()) in names.iter() {
        tally.count(alloc, name, after.state_of(name))?;
        if !shown.events {
            write_name_news(text, time, name, before, after, shown.json);
        }
    }
    write_new_events(text, time, before, after, shown.json);
    Ok(())
}

/// Notes the names that are forgotten in the first of two answers alone.
fn note_forgotten(
    alloc: Global,
    names: &mut BTreeMap<MemberName, ()>,
    one: &Unlisted,
    other: &Unlisted,
) -> Result<(), AllocError> {
    for (name, _) in one.forgotten.iter() {
        if !other.has(name) {
            names.insert(copy_of(alloc, name)?, ())?;
        }
    }
    Ok(())
}

/// Adds what changed for a name.
fn write_name_news(
    text: &mut Text,
    time: u64,
    name: &MemberName,
    before: &Answer,
    after: &Answer,
    json: bool,
) {
    let alloc = text.alloc();
    let was = before.roster.get(name);
    let is = after.roster.get(name);
    let is_forgetting = before.unlisted.has(name) || after.unlisted.has(name);
    if json {
        let mut object = Object::new(alloc);
        object.text("time", moment_text(alloc, time));
        object.word("host", &after.host);
        if !is_forgetting {
            return write_step_object(text, object, name, was, is);
        }
        object.text("name", name_text(alloc, name));
        object.object("before", before.object_of(alloc, name));
        object.object("after", after.object_of(alloc, name));
        return object.write(text);
    }
    write_moment(text, time);
    text.push(' ');
    if is_forgetting {
        write_forgetting(text, name, before, after);
    } else {
        write_step(text, name, was, is);
    }
    write!(text, " (at {})\n", after.host)
}

/// Adds what became of a name that is forgotten, or was: `f3 dead -> forgotten`, `f3 forgotten ->
/// alive 2 at 10.20.1.13:7946`.
fn write_forgetting(text: &mut Text, name: &MemberName, before: &Answer, after: &Answer) {
    write_name(text, name.name().bytes());
    write!(
        text,
        " {} -> {}",
        before.state_of(name),
        after.state_of(name)
    );
    if let Some(is) = after.roster.get(name) {
        write!(text, " {}", is.inc);
        match &is.details {
            Some(details) => write_place_and_meta(text, details),
            None => {}
        }
    }
}
