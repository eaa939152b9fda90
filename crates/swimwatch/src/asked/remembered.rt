//! The user events that members remember.

use crate::asked::agreed::{write_silent, write_silent_object};
use crate::asked::ask::{Answer, Asked};
use crate::heard::serf_state::UserEvent;
use crate::text::columns::Rows;
use crate::text::json::Object;
use crate::text::moment::write_moment;
use crate::text::names::write_name;
use crate::text::payload::write_payload;
use crate::text::texts::moment_text;
use crate::text::written::Text;
use std::alloc::{AllocError, Global};
use std::collections::BTreeMap;

/// Events, each with how many members remember it.
type Counts<'a> = BTreeMap<&'a UserEvent, usize>;

/// Adds a row for each event that a member remembers, and if several were asked, how many of those
/// that answered do; and a row for each member without an answer.
pub(crate) fn write_events(text: &mut Text, asked: &[Asked], is_keyless: bool) {
    let alloc = text.alloc();
    let answered = asked.iter().filter(|told| told.is_ok()).count();
    if answered > 0 {
        let members = if asked.len() > 1 {
            Some(answered)
        } else {
            None
        };
        if let Some(counts) = text.made(counts_in(alloc, asked)) {
            write_counts(text, &counts, members);
        }
    }
    write_silent(text, asked, is_keyless)
}

/// The events that members remember.
fn counts_in<'a>(alloc: Global, asked: &'a [Asked]) -> Result<Counts<'a>, AllocError> {
    let mut counts = BTreeMap::new(alloc);
    for told in asked {
        if let Ok(answer) = told {
            count_events(&mut counts, answer)?;
        }
    }
    Ok(counts)
}

/// Counts the events that a member remembers.
fn count_events<'a>(counts: &mut Counts<'a>, answer: &'a Answer) -> Result<(), AllocError> {
    for event in answer.events.iter() {
        let count = counts.get(&event).copied().unwrap_or(0);
        counts.insert(event, count.saturating_add(1))?;
    }
    Ok(())
}

/// Adds the table of events, with how many of this many members remember each, if it is shown.
fn write_counts(text: &mut Text, counts: &Counts, members: Option<usize>) {
    let alloc = text.alloc();
    let at = if members.is_some() { "AT" } else { "" };
    let mut rows = Rows::below(alloc, &["LTIME", "EVENT", "PAYLOAD", at]);
    for (event, count) in counts.iter() {
        rows.number(event.ltime);
        rows.name(&event.name);
        rows.cell(shown_payload(alloc, event));
        if let Some(members) = members {
            rows.cell(format!(in alloc; "{count} of {members}"));
        }
        rows.end_row();
    }
    rows.write(text);
}

/// The payload of an event, as a line shows it.
fn shown_payload(alloc: Global, event: &UserEvent) -> Result<String, AllocError> {
    let mut text = Text::new(alloc);
    write_payload(&mut text, &event.payload);
    text.end()
}

/// Adds a JSON object for each member and event, and one for each member without an answer.
pub(crate) fn write_event_objects(text: &mut Text, asked: &[Asked], is_keyless: bool) {
    for told in asked {
        match told {
            Ok(answer) => write_objects_of(text, answer),
            Err(silence) => write_silent_object(text, silence, is_keyless),
        }
    }
}

/// Adds a JSON object for each event that a member remembers.
fn write_objects_of(text: &mut Text, answer: &Answer) {
    for event in answer.events.iter() {
        let mut object = Object::new(text.alloc());
        object.word("host", &answer.host);
        write_event_object(text, object, event);
    }
}

/// Adds an event to an object of JSON, and the object as a line.
fn write_event_object(text: &mut Text, object: Object, event: &UserEvent) {
    let mut object = object;
    object.number("ltime", event.ltime);
    object.escaped("user_event", &event.name);
    object.payload(&event.payload);
    object.write(text)
}

/// Adds a line for each event that a member remembers, and did not remember when it answered last:
/// `event deploy 'v1' 12 (at 10.20.1.11:7946)`.
pub(crate) fn write_new_events(
    text: &mut Text,
    time: u64,
    before: &Answer,
    after: &Answer,
    json: bool,
) {
    let alloc = text.alloc();
    for event in after.events.iter() {
        if before.events.contains(event) {
            continue;
        }
        if json {
            let mut object = Object::new(alloc);
            object.text("time", moment_text(alloc, time));
            object.word("host", &after.host);
            write_event_object(text, object, event);
        } else {
            write_moment(text, time);
            text.push_str(" event ");
            write_event(text, event);
            write!(text, " (at {})\n", after.host);
        }
    }
}

/// Adds the name of an event, its payload, if it has one, and its time: `deploy 'v1' 12`.
fn write_event(text: &mut Text, event: &UserEvent) {
    write_name(text, &event.name);
    text.push(' ');
    if !event.payload.is_empty() {
        write_payload(text, &event.payload);
        text.push(' ');
    }
    write!(text, "{}", event.ltime)
}
