//! News of Serf's intents, events and queries, one per line.

use crate::heard::counts::noun;
use crate::heard::sent::Sent;
use crate::heard::serf::intention::{Intention, Turn};
use crate::heard::serf::queries::Tally;
use crate::text::moment::write_moment;
use crate::text::names::write_name;
use crate::text::payload::write_payload;
use crate::text::texts::{Millis, NONE};
use crate::text::written::Text;
use crate::view::listener::{Listener, write_ends};
use serf_message::{Query, UserEvent};

/// Adds the line of an intent, such as `2026-11-26T21:35:17.809916Z web-5 forced to leave by web-1,
/// intent 5 (web-1 to web-2, udp)`. Who began it is named if `is_origin` says that the sender did.
pub(crate) fn write_intention(
    text: &mut Text,
    listener: &Listener,
    sent: &Sent,
    intention: &Intention,
    is_origin: bool,
) {
    write_moment(text, sent.time);
    text.push(' ');
    write_name(text, intention.name);
    write!(text, " {}", intention.turn.words());
    if intention.turn == Turn::Forced {
        write_origin(text, listener, sent, is_origin);
    }
    write!(text, ", intent {}", intention.time);
    if intention.pruned {
        text.push_str(", pruned");
    }
    write_ends(text, listener, sent)
}

/// Adds the line of a user's event, such as `2026-11-26T21:34:57.931026Z event deploy 'v1' 1 by web-2
/// (web-2 to web-4, udp)`.
pub(crate) fn write_user_event(
    text: &mut Text,
    listener: &Listener,
    sent: &Sent,
    event: &UserEvent,
    is_origin: bool,
) {
    write_moment(text, sent.time);
    text.push_str(" event ");
    write_title(text, &event.name);
    if !event.payload.is_empty() {
        text.push(' ');
        write_payload(text, &event.payload);
    }
    write!(text, " {}", event.time);
    write_origin(text, listener, sent, is_origin);
    write_ends(text, listener, sent)
}

/// Adds the line of a query: `2026-11-26T21:35:01.931026Z query load 1 by web-4 (web-4 to web-2,
/// udp)`.
pub(crate) fn write_query(text: &mut Text, listener: &Listener, sent: &Sent, query: &Query) {
    write_moment(text, sent.time);
    text.push_str(" query ");
    write_title(text, &query.name);
    write!(text, " {}", query.time);
    if !query.source_node.is_empty() {
        text.push_str(" by ");
        write_name(text, &query.source_node);
    }
    write_ends(text, listener, sent)
}

/// Adds the line of what came of a query: `2026-11-26T21:35:05.131026Z query load 1 ended: 5 acks, 0
/// answers, the last after 3.1 ms`.
pub(crate) fn write_tally(text: &mut Text, tally: &Tally) {
    write_moment(text, tally.time);
    text.push_str(" query ");
    write_title(text, &tally.name);
    let (acks, answers) = (tally.answers.acks.len(), tally.answers.answers.len());
    write!(
        text,
        " {} {}: {acks} {}, {answers} {}",
        tally.ltime,
        tally.word(),
        noun(acks as u64, "ack", "acks"),
        noun(answers as u64, "answer", "answers")
    );
    if let Some(last) = tally.last() {
        write!(text, ", the last after {} ms", Millis(last));
    }
    text.push('\n')
}

/// Adds the name of an event or a query, or `-` if it is empty.
fn write_title(text: &mut Text, name: &[u8]) {
    if name.is_empty() {
        return text.push_str(NONE);
    }
    write_name(text, name)
}

/// Adds who began the news, if that is who sent it.
fn write_origin(text: &mut Text, listener: &Listener, sent: &Sent, is_origin: bool) {
    if !is_origin {
        return;
    }
    text.push_str(" by ");
    text.add(listener.end_text(sent.source));
}
