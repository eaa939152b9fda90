//! How healthy each member is, as its probes tell.

use crate::shown::probes::{is_or_none, time_text, times_object};
use crate::text::columns::Rows;
use crate::text::json::{List, Object};
use crate::text::written::Text;
use memberlist_probes::{Awareness, Health, Healths};
use std::alloc::{AllocError, Global};

const HEADS: [&str; 10] = [
    "MEMBER",
    "PROBES",
    "FAILED",
    "AWARENESS",
    "WORST",
    "UNREAD",
    "ANSWERS",
    "OWN-P50",
    "OWN-MAX",
    "REFUTES",
];

/// Writes a row for each member. Times are in milliseconds.
pub(crate) fn write_health(
    alloc: Global,
    text: &mut Text,
    healths: &Healths,
    member: &Option<Vec<u8>>,
) {
    let mut rows = Rows::below(alloc, &HEADS);
    for (name, health) in healths.all() {
        if is_or_none(member, name) {
            add_row(&mut rows, name, health);
        }
    }
    rows.write(text);
}

fn add_row(rows: &mut Rows, name: &[u8], health: &Health) {
    let alloc = rows.alloc();
    rows.name(name);
    rows.number(health.probes);
    rows.number(health.failed);
    rows.cell(bounds_text(alloc, health.awareness));
    rows.number(u64::from(health.worst));
    rows.number(health.unread);
    rows.number(health.answers);
    rows.cell(time_text(alloc, health.own.percentile(50)));
    rows.cell(time_text(alloc, health.own.greatest()));
    rows.number(health.refutes);
    rows.end_row();
}

/// The bounds of a score: `0`, or `0..3` if it is not known.
fn bounds_text(alloc: Global, awareness: Awareness) -> Result<String, AllocError> {
    let (least, greatest) = (awareness.least(), awareness.greatest());
    if least == greatest {
        format!(in alloc; "{least}")
    } else {
        format!(in alloc; "{least}..{greatest}")
    }
}

/// Writes an object for each member.
pub(crate) fn write_health_objects(
    alloc: Global,
    text: &mut Text,
    healths: &Healths,
    member: &Option<Vec<u8>>,
) {
    for (name, health) in healths.all() {
        if !is_or_none(member, name) {
            continue;
        }
        let mut object = Object::new(alloc);
        object.escaped("member", name);
        object.number("probes", health.probes);
        object.number("failed", health.failed);
        let mut bounds = List::new(alloc);
        bounds.number(u64::from(health.awareness.least()));
        bounds.number(u64::from(health.awareness.greatest()));
        object.list("awareness", bounds);
        object.number("worst", u64::from(health.worst));
        object.number("unread", health.unread);
        object.number("answers", health.answers);
        object.object("own_us", times_object(alloc, &health.own));
        object.number("refutes", health.refutes);
        object.write(text);
    }
}
