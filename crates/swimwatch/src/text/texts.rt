//! Texts in lines and objects.

use crate::text::endpoint::endpoint;
use crate::text::moment::write_moment;
use crate::text::names::{escaped_name, write_name};
use crate::text::tags::write_meta;
use crate::text::written::Text;
use memberlist_view::{Entry, Event, MemberName, State};
use std::alloc::{AllocError, Global};
use std::fmt::{self, Display, Formatter, Write};
use swim_claim::{Details, Kind};

/// What stands for an address, an incarnation or an accuser that was not heard.
pub(crate) const NONE: &str = "-";

/// The word for a member that is alive and said that it leaves.
pub(crate) const LEAVING: &str = "leaving";

/// The word for a state.
pub(crate) fn state_word(state: &State) -> &'static str {
    match state {
        State::Noted => "noted",
        State::Seen | State::Alive => "alive",
        State::Suspect { .. } => "suspect",
        State::Dead { .. } => "dead",
        State::Left => "left",
    }
}

/// The word for a state that is shown: by Serf's rule a member that has a leave intent is leaving
/// while it is alive, and has left once it is dead.
pub(crate) fn shown_state(state: &State, leaving: bool) -> &'static str {
    match state {
        State::Alive | State::Seen if leaving => LEAVING,
        State::Dead { .. } if leaving => state_word(&State::Left),
        state => state_word(state),
    }
}

/// The words for an event.
pub(crate) fn event_words(event: Event) -> &'static str {
    match event {
        Event::Joined => "joined",
        Event::Known => "known",
        Event::Seen => "seen",
        Event::Back => "back",
        Event::Updated => "updated",
        Event::Renewed => "renewed",
        Event::Refuted => "refuted",
        Event::Suspected => "suspected",
        Event::AlsoSuspected => "also suspected",
        Event::Dead => "dead",
        Event::Left => "left",
        Event::Conflict => "conflict",
    }
}

/// An escaped name.
pub(crate) fn name_text(alloc: Global, name: &MemberName) -> Result<String, AllocError> {
    escaped_name(alloc, name.name().bytes())
}

/// The most bytes of a list of names before it is cut.
const MAX_LIST_LEN: usize = 60;

/// Escaped names, separated by commas. A long list is cut, and ends with how many more there are:
/// `web-1,web-2,+12`.
pub(crate) fn names_text(alloc: Global, names: &[MemberName]) -> Result<String, AllocError> {
    let mut text = Text::new(alloc);
    let mut between = "";
    for (index, name) in names.iter().enumerate() {
        text.push_str(between);
        if MAX_LIST_LEN < text.len() {
            write!(text, "+{}", names.len().saturating_sub(index));
            break;
        }
        write_name(&mut text, name.name().bytes());
        between = ",";
    }
    text.end()
}

/// The address and port in readable form: `10.20.1.11:7946`, `[fe80::1]:7946`.
pub(crate) fn address_text(alloc: Global, details: &Details) -> Result<String, AllocError> {
    match endpoint(details.addr(), details.port()) {
        Some(end) => format!(in alloc; "{end}"),
        None => hex::encode(alloc, details.addr()),
    }
}

/// The moment in the format of RFC 3339.
pub(crate) fn moment_text(alloc: Global, micros: u64) -> Result<String, AllocError> {
    let mut text = Text::new(alloc);
    write_moment(&mut text, micros);
    text.end()
}

/// The metadata: tags, or bytes in hexadecimal.
pub(crate) fn meta_text(alloc: Global, meta: &[u8]) -> Result<String, AllocError> {
    let mut text = Text::new(alloc);
    write_meta(&mut text, meta);
    text.end()
}

/// The incarnation of what is shown, or `-` if no claim was heard.
pub(crate) fn inc_text(alloc: Global, entry: &Entry) -> Result<String, AllocError> {
    let mut text = Text::new(alloc);
    write_inc(&mut text, entry);
    text.end()
}

/// Adds the incarnation of what is shown, or `-` if no claim was heard.
pub(crate) fn write_inc(text: &mut Text, entry: &Entry) {
    match entry.state {
        State::Seen => text.push_str(NONE),
        _ => write!(text, "{}", entry.inc),
    }
}

/// Where a member is, or `-` if nobody said it.
pub(crate) fn place_text(alloc: Global, entry: &Entry) -> Result<String, AllocError> {
    match entry.place() {
        Some(place) => address_text(alloc, place),
        None => String::from_str(alloc, NONE),
    }
}

/// The metadata that a member gave, or none.
pub(crate) fn meta_of(entry: &Entry) -> &[u8] {
    match &entry.details {
        Some(details) => details.meta(),
        None => &[],
    }
}

/// Names as in [`names_text`], or `-` if there are none.
fn by_names(alloc: Global, names: &[MemberName]) -> Result<String, AllocError> {
    if names.is_empty() {
        String::from_str(alloc, NONE)
    } else {
        names_text(alloc, names)
    }
}

/// Who says that a member is in this state: the member itself, or its accusers. `-` if nobody is
/// named.
pub(crate) fn by_text(
    alloc: Global,
    name: &MemberName,
    state: &State,
) -> Result<String, AllocError> {
    match state {
        State::Noted | State::Seen | State::Alive | State::Left => name_text(alloc, name),
        State::Dead { by } => by_names(alloc, by.as_slice()),
        State::Suspect { by } => by_names(alloc, by.names()),
    }
}

/// Adds an address and, if there is some, metadata: ` at 10.20.1.11:7946 role=web`.
pub(crate) fn write_place_and_meta(text: &mut Text, details: &Details) {
    text.push_str(" at ");
    text.add(address_text(text.alloc(), details));
    match text.made(meta_text(text.alloc(), details.meta())) {
        Some(meta) if !meta.is_empty() => write!(text, " {meta}"),
        _ => {}
    }
}

/// Adds both addresses of the newest conflict: ` at 10.20.1.9:7946, and is at 10.20.1.15:7946`.
pub(crate) fn write_rival(text: &mut Text, entry: &Entry) {
    if let Some(rival) = entry.rivals.details().last() {
        text.push_str(" at ");
        text.add(address_text(text.alloc(), rival));
        text.push_str(", and is at ");
        text.add(place_text(text.alloc(), entry));
    }
}

/// Microseconds, shown in milliseconds: to a tenth below 99.5, and rounded above.
#[derive(Clone, Copy)]
pub(crate) struct Millis(pub(crate) u64);

impl Display for Millis {
    fn fmt<W: Write>(&self, f: &mut Formatter<W>) -> fmt::Result {
        if self.0 < 99_500 {
            let tenths = (self.0 + 50) / 100;
            write!(f, "{}.{}", tenths / 10, tenths % 10)
        } else {
            write!(f, "{}", self.0.saturating_add(500) / 1000)
        }
    }
}

/// The word for a claim: what memberlist's message or stream record says.
pub(crate) fn kind_word(kind: Kind) -> &'static str {
    match kind {
        Kind::Alive => "alive",
        Kind::Suspect => "suspect",
        Kind::Confirm => "dead",
        Kind::Leave => "left",
    }
}
