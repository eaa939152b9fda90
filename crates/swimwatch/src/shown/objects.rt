//! What is said and shown about members, as JSON objects.

use crate::heard::sent::Sent;
use crate::heard::told::Told;
use crate::text::endpoint::endpoint;
use crate::text::json::{List, Object};
use crate::text::texts::{event_words, kind_word, moment_text, name_text};
use crate::text::written::Text;
use crate::view::change::Change;
use crate::view::listener::Listener;
use crate::view::places::Places;
use crate::view::roster::Roster;
use memberlist_view::{Entry, Event, MemberName, State};
use swim_claim::Details;
use swim_wire::Packet;

impl Object {
    /// Adds the parts of an entry that a view has: the incarnation, and the details or the address
    /// that packets show.
    fn entry(&mut self, entry: &Entry) {
        if !matches!(entry.state, State::Seen) {
            self.number("incarnation", u64::from(entry.inc));
        }
        if let Some(place) = entry.place() {
            self.details(place);
        }
    }

    /// Adds when an address of a name was last heard.
    fn last_heard(&mut self, places: &Places, name: &[u8], place: &Details) {
        let Some(end) = endpoint(place.addr(), place.port()) else {
            return;
        };
        if let Some(Some(last)) = self.made(places.last(name, end)) {
            self.text("last_heard", moment_text(self.alloc(), last));
        }
    }

    /// Adds what other agents of the name say about themselves, as a list, if there is a conflict.
    fn rivals(&mut self, places: &Places, name: &[u8], entry: &Entry) {
        if entry.rivals.details().is_empty() {
            return;
        }
        if let Some(place) = entry.place() {
            self.last_heard(places, name, place);
        }
        let mut list = List::new(self.alloc());
        for rival in entry.rivals.details() {
            let mut object = Object::new(self.alloc());
            object.details(rival);
            object.last_heard(places, name, rival);
            list.object(object);
        }
        self.list("rivals", list)
    }

    /// Adds what the newest other agent of the name says about itself.
    fn rival(&mut self, entry: &Entry) {
        let Some(rival) = entry.rivals.details().last() else {
            return;
        };
        let mut object = Object::new(self.alloc());
        object.details(rival);
        self.object("rival", Some(object))
    }

    /// Adds when something was sent, and between which endpoints: the names of the members, and
    /// their addresses.
    pub(crate) fn sent(&mut self, listener: &Listener, sent: &Sent) {
        let alloc = self.alloc();
        self.text("time", moment_text(alloc, sent.time));
        self.text("from", listener.end_text(sent.source));
        self.text("from_address", format!(in alloc; "{}", sent.source));
        self.text("to", listener.end_text(sent.destination));
        self.text("to_address", format!(in alloc; "{}", sent.destination));
        if let Some(view) = &listener.name {
            self.word("view", view);
        }
        self.word("proto", sent.proto.name())
    }
}

/// Adds the object for what a view shows about a name, which is in this state.
pub(crate) fn write_member(
    text: &mut Text,
    places: &Places,
    name: &MemberName,
    entry: &Entry,
    state: &str,
    is_overdue: bool,
) {
    let alloc = text.alloc();
    let mut object = Object::new(alloc);
    object.text("name", name_text(alloc, name));
    object.word("state", state);
    if is_overdue {
        object.flag("overdue");
    }
    object.text("since", moment_text(alloc, entry.since));
    object.accusers(&entry.state);
    object.entry(entry);
    object.rivals(places, name.name().bytes(), entry);
    object.write(text)
}

/// Adds the object for a change in a view.
pub(crate) fn write_change(
    text: &mut Text,
    listener: &Listener,
    sent: &Sent,
    change: &Change,
    entry: &Entry,
) {
    let alloc = text.alloc();
    let mut object = Object::new(alloc);
    object.sent(listener, sent);
    object.escaped("name", change.name());
    object.word("event", event_words(change.event));
    object.accusers(&entry.state);
    object.entry(entry);
    if change.event == Event::Conflict {
        object.rival(entry);
    }
    object.write(text)
}

/// Adds the object for a suspicion that only warns the suspect.
pub(crate) fn write_warned(text: &mut Text, listener: &Listener, sent: &Sent, packet: &Packet) {
    let mut object = Object::new(text.alloc());
    object.sent(listener, sent);
    object.escaped("name", packet.claim().name().bytes());
    object.word("event", "warned");
    object.number("incarnation", u64::from(packet.claim().inc()));
    object.escaped("by", packet.from_name());
    object.write(text)
}

/// Adds the object for a claim.
pub(crate) fn write_told(text: &mut Text, listener: &Listener, sent: &Sent, told: &Told) {
    let alloc = text.alloc();
    let mut object = Object::new(alloc);
    object.sent(listener, sent);
    object.escaped("name", told.claim.name().bytes());
    object.word("state", kind_word(told.claim.kind()));
    object.number("incarnation", u64::from(told.claim.inc()));
    if !told.from.is_empty() {
        object.escaped("by", told.from);
    }
    if let Some(details) = told.claim.details() {
        object.details(details);
    }
    object.write(text)
}

/// Adds an object for each name that a view shows.
pub(crate) fn write_roster(text: &mut Text, view: &str, roster: &Roster) {
    let alloc = text.alloc();
    for (name, known) in roster.iter() {
        let mut object = Object::new(alloc);
        object.word("view", view);
        object.text("name", name_text(alloc, name));
        known.write(&mut object);
        object.write(text);
    }
}
