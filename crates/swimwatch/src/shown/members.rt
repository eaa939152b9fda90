//! The members in a view, one per row.

ghost use Rattle.std.specs.Prelude.{◌≡◌, filter, map, IfOk};
ghost use Rattle.swimwatch.specs.Members.{is_since, member_of};

use crate::shown::deadline::{Deadline, Member};
use crate::shown::objects::write_member;
use crate::text::columns::Rows;
use crate::text::endpoint::endpoint;
use crate::text::moment::write_moment;
use crate::text::names::write_name;
use crate::text::tags::is_bare;
use crate::text::texts::{
    address_text, by_text, inc_text, meta_of, meta_text, moment_text, name_text, place_text,
    shown_state,
};
use crate::text::written::Text;
use crate::view::listener::Listener;
use crate::view::places::Places;
use memberlist_view::{Entry, MemberName};
use serf_view::Intents;
use std::alloc::{AllocError, Global};
use swim_claim::Details;

/// The members that a listener knows, and what decides how they are shown.
#[derive(Clone, Copy)]
pub(crate) struct Cluster<'a> {
    pub(crate) listener: &'a Listener,
    /// Where each name was when.
    pub(crate) places: &'a Places,
    /// Who leaves, or has left, as Serf's intents say.
    pub(crate) intents: &'a Intents,
    pub(crate) deadline: Deadline,
}

impl<'a> Cluster<'a> {
    /// The members that are shown, each once, in ascending byte order of their names.
    fn members(self, alloc: Global) -> Result<Vec<Member<'a>>, AllocError>
        ensures { IfOk result (λ members. map member_of members.items
            ≡ filter (λ e. is_since self.entry.deadline.from e.1)
            self.entry.listener.now.view.entries) }
    {
        self.deadline.members(alloc, &self.listener.view)
    }

    /// Whether a member was suspected for too long.
    fn is_overdue(self, entry: &Entry) -> bool {
        self.deadline.is_overdue(&self.listener.view, entry)
    }

    /// The word for a member's state.
    fn state(self, name: &MemberName, entry: &Entry) -> &'static str {
        shown_state(&entry.state, self.intents.is_leaving(name.name().bytes()))
    }
}

/// Adds the members that a listener knows: a header, and a row for each in ascending order of the
/// names; and a line for each conflict.
pub(crate) fn write_members(text: &mut Text, cluster: Cluster) {
    write_rows(text, cluster);
    for (name, entry) in cluster.listener.view.iter() {
        for rival in entry.rivals.details() {
            write_conflict(text, cluster.places, name, entry, rival);
        }
    }
}

/// Adds the same as JSON objects, one per line.
pub(crate) fn write_member_objects(text: &mut Text, cluster: Cluster) {
    let Some(members) = text.made(cluster.members(text.alloc())) else {
        return;
    };
    for Member { name, entry } in members {
        let (state, is_overdue) = (cluster.state(name, entry), cluster.is_overdue(entry));
        write_member(text, cluster.places, name, entry, state, is_overdue);
    }
}

/// Adds a line for another agent of a name: `web-4 conflict at 10.20.1.9:7946, last heard
/// 2026-11-25T02:01:43.010456Z, and is at 10.20.1.15:7946, last heard 2026-11-25T02:01:39.007123Z`.
fn write_conflict(
    text: &mut Text,
    places: &Places,
    name: &MemberName,
    entry: &Entry,
    rival: &Details,
) {
    let bytes = name.name().bytes();
    write_name(text, bytes);
    text.push_str(" conflict at ");
    write_last(text, places, bytes, rival);
    if let Some(place) = entry.place() {
        text.push_str(", and is at ");
        write_last(text, places, bytes, place);
    }
    text.push('\n')
}

/// Adds an address of a name, and when it was last heard.
fn write_last(text: &mut Text, places: &Places, name: &[u8], place: &Details) {
    text.add(address_text(text.alloc(), place));
    let Some(end) = endpoint(place.addr(), place.port()) else {
        return;
    };
    if let Some(Some(last)) = text.made(places.last(name, end)) {
        text.push_str(", last heard ");
        write_moment(text, last);
    }
}

/// Adds a header, and a row for each name.
fn write_rows(text: &mut Text, cluster: Cluster) {
    let alloc = text.alloc();
    let view = &cluster.listener.view;
    let has_tags = view.iter().any(|(_, entry)| !is_bare(meta_of(entry)));
    let tags = if has_tags { "TAGS" } else { "" };
    let heads = ["NAME", "ADDRESS", "STATE", "INC", "SINCE", "BY", tags];
    let mut rows = Rows::below(alloc, &heads);
    let Some(members) = text.made(cluster.members(alloc)) else {
        return;
    };
    for Member { name, entry } in members {
        add_row(&mut rows, cluster, name, entry);
    }
    rows.write(text);
}

fn add_row(rows: &mut Rows, cluster: Cluster, name: &MemberName, entry: &Entry) {
    let alloc = rows.alloc();
    rows.cell(name_text(alloc, name));
    rows.cell(place_text(alloc, entry));
    rows.word(if cluster.is_overdue(entry) {
        "overdue"
    } else {
        cluster.state(name, entry)
    });
    rows.cell(inc_text(alloc, entry));
    rows.cell(moment_text(alloc, entry.since));
    rows.cell(by_text(alloc, name, &entry.state));
    rows.cell(meta_text(alloc, meta_of(entry)));
    rows.end_row();
}
