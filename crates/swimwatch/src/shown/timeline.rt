//! What changed in a view, one change per line.

use crate::heard::sent::Sent;
use crate::text::names::write_name;
use crate::text::texts::{event_words, place_text, write_inc, write_place_and_meta, write_rival};
use crate::text::written::Text;
use crate::view::change::Change;
use crate::view::listener::{Listener, write_ends};
use memberlist_view::{Entry, Event};
use swim_wire::Packet;

/// Adds the line of an event after its time: the member, the event, the incarnation, who said so or
/// the address, and between whom it was sent, as in `2026-11-25T02:01:43.010456Z web-5 dead 1 by
/// web-3 (web-3 to web-5, udp)`.
pub(crate) fn write_event(
    text: &mut Text,
    listener: &Listener,
    sent: &Sent,
    change: &Change,
    entry: &Entry,
) {
    text.push(' ');
    write_name(text, change.name());
    write!(text, " {} ", event_words(change.event));
    write_inc(text, entry);
    write_cause(text, change, entry);
    write_ends(text, listener, sent)
}

/// Adds who said so, or the new address and tags.
fn write_cause(text: &mut Text, change: &Change, entry: &Entry) {
    match change.event {
        Event::Joined | Event::Known | Event::Back | Event::Updated => match &entry.details {
            Some(details) => write_place_and_meta(text, details),
            None => {}
        },
        Event::Seen => {
            text.push_str(" at ");
            text.add(place_text(text.alloc(), entry));
        }
        Event::Conflict => write_rival(text, entry),
        Event::Suspected | Event::AlsoSuspected | Event::Dead => write_accuser(text, change.from),
        Event::Renewed | Event::Refuted | Event::Left => {}
    }
}

/// Adds who says so, if somebody is named.
fn write_accuser(text: &mut Text, from: &[u8]) {
    if from.is_empty() {
        return;
    }
    text.push_str(" by ");
    write_name(text, from)
}

/// Adds the line of a warning after its time: `2026-11-25T02:01:39.507123Z web-5 warned 1 by web-2
/// (web-2 to web-5, udp)`.
pub(crate) fn write_warning(text: &mut Text, listener: &Listener, sent: &Sent, packet: &Packet) {
    text.push(' ');
    write_name(text, packet.claim().name().bytes());
    write!(text, " warned {}", packet.claim().inc());
    write_accuser(text, packet.from_name());
    write_ends(text, listener, sent)
}
