//! News of Serf's intents, events and queries, as JSON objects.

use crate::heard::sent::Sent;
use crate::heard::serf::intention::{Intention, Turn};
use crate::heard::serf::queries::Tally;
use crate::text::json::{List, Object};
use crate::text::texts::moment_text;
use crate::text::written::Text;
use crate::view::listener::Listener;
use serf_message::{Query, UserEvent};
use std::alloc::Global;
use std::collections::BTreeSet;

/// How the names of Serf's own queries begin. The payloads of some are keys of the cluster, so they
/// are not shown.
const INTERNAL: &[u8] = b"_serf_";

/// Adds the object for an intent.
pub(crate) fn write_intention_object(
    text: &mut Text,
    listener: &Listener,
    sent: &Sent,
    intention: &Intention,
    is_origin: bool,
) {
    let mut object = Object::new(text.alloc());
    object.sent(listener, sent);
    object.escaped("name", intention.name);
    object.word("event", intention.turn.words());
    object.number("intent", intention.time);
    if intention.pruned {
        object.flag("pruned");
    }
    if is_origin && intention.turn == Turn::Forced {
        object.text("by", listener.end_text(sent.source));
    }
    object.write(text)
}

/// Adds the object for a user's event.
pub(crate) fn write_user_event_object(
    text: &mut Text,
    listener: &Listener,
    sent: &Sent,
    event: &UserEvent,
    is_origin: bool,
) {
    let mut object = Object::new(text.alloc());
    object.sent(listener, sent);
    object.word("event", "event");
    object.escaped("user_event", &event.name);
    object.number("ltime", event.time);
    object.payload(&event.payload);
    if event.coalesce {
        object.flag("coalesce");
    }
    if is_origin {
        object.text("by", listener.end_text(sent.source));
    }
    object.write(text)
}

/// Adds the object for a query.
pub(crate) fn write_query_object(text: &mut Text, listener: &Listener, sent: &Sent, query: &Query) {
    let mut object = Object::new(text.alloc());
    object.sent(listener, sent);
    object.word("event", "query");
    object.escaped("query", &query.name);
    object.number("ltime", query.time);
    object.number("id", u64::from(query.id));
    object.escaped("by", &query.source_node);
    let millis = u64::try_from(query.timeout / 1_000_000).unwrap_or(0);
    object.number("timeout_ms", millis);
    object.number("relay_factor", u64::from(query.relay_factor));
    if !query.name.starts_with(INTERNAL) {
        object.payload(&query.payload);
    }
    object.write(text)
}

/// Adds the object for what came of a query.
pub(crate) fn write_tally_object(text: &mut Text, tally: &Tally) {
    let alloc = text.alloc();
    let mut object = Object::new(alloc);
    object.text("time", moment_text(alloc, tally.time));
    object.text("event", format!(in alloc; "query {}", tally.word()));
    object.escaped("query", &tally.name);
    object.number("ltime", tally.ltime);
    object.number("id", u64::from(tally.id));
    object.list("acks", names_in(alloc, &tally.answers.acks));
    object.list("answers", names_in(alloc, &tally.answers.answers));
    if let Some(last) = tally.last() {
        object.number("last_us", last);
    }
    object.write(text)
}

/// Names, escaped, as a list.
fn names_in(alloc: Global, names: &BTreeSet<Vec<u8>>) -> List {
    let mut list = List::new(alloc);
    for name in names.iter() {
        list.escaped(name);
    }
    list
}
