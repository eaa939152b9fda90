//! What each prober made of its probes of each target.

use crate::text::columns::Rows;
use crate::text::json::{List, Object};
use crate::text::texts::{Millis, NONE};
use crate::text::written::Text;
use memberlist_probes::{Delays, Explanation, Left, Pair, Pairs};
use std::alloc::{AllocError, Global};

/// Which pairs are shown.
#[derive(Clone, Copy)]
pub(crate) struct Shown<'a> {
    /// The only name that probes, if there is one.
    pub(crate) prober: &'a Option<Vec<u8>>,
    /// The only name that is probed, if there is one.
    pub(crate) target: &'a Option<Vec<u8>>,
}

impl<'a> Shown<'a> {
    fn has(self, prober: &[u8], target: &[u8]) -> bool {
        is_or_none(self.prober, prober) && is_or_none(self.target, target)
    }
}

/// Whether this is the only name to show, or there is none.
pub(crate) fn is_or_none(only: &Option<Vec<u8>>, name: &[u8]) -> bool {
    match only {
        Some(only) => only.as_slice() == name,
        None => true,
    }
}

const HEADS: [&str; 13] = [
    "FROM", "TO", "PROBES", "ANSWERED", "LATE", "INDIRECT", "TCP", "FAILED", "OPEN", "NACKS",
    "P50", "P90", "MAX",
];

/// Writes a row for each pair. Round trips are in milliseconds.
pub(crate) fn write_pairs(alloc: Global, text: &mut Text, pairs: &Pairs, shown: Shown) {
    let mut rows = Rows::below(alloc, &HEADS);
    for ((prober, target), pair) in pairs.all() {
        if shown.has(prober, target) {
            add_row(&mut rows, prober, target, pair);
        }
    }
    rows.write(text);
}

fn add_row(rows: &mut Rows, prober: &[u8], target: &[u8], pair: &Pair) {
    rows.name(prober);
    rows.name(target);
    for number in numbers_of(pair) {
        rows.number(number);
    }
    let times = &pair.round_trips;
    for time in [times.percentile(50), times.percentile(90), times.greatest()] {
        rows.cell(time_text(rows.alloc(), time));
    }
    rows.end_row();
}

/// A time in milliseconds, or `-` if there is none.
pub(crate) fn time_text(alloc: Global, time: Option<u64>) -> Result<String, AllocError> {
    match time {
        Some(micros) => format!(in alloc; "{}", Millis(micros)),
        None => String::from_str(alloc, NONE),
    }
}

/// The numbers of a row, from the probes to the nacks.
fn numbers_of(pair: &Pair) -> [u64; 8] {
    let outcomes = pair.outcomes;
    [
        pair.probes,
        outcomes.answered,
        outcomes.late,
        outcomes.indirect,
        outcomes.tcp,
        outcomes.failed,
        outcomes.open,
        pair.nacks,
    ]
}

/// The keys of these numbers in JSON.
const KEYS: [&str; 8] = [
    "probes", "answered", "late", "indirect", "tcp", "failed", "open", "nacks",
];

/// Writes an object for each pair.
pub(crate) fn write_pair_objects(alloc: Global, text: &mut Text, pairs: &Pairs, shown: Shown) {
    for ((prober, target), pair) in pairs.all() {
        if !shown.has(prober, target) {
            continue;
        }
        let mut object = Object::new(alloc);
        object.escaped("from", prober);
        object.escaped("to", target);
        for (key, number) in KEYS.iter().zip(numbers_of(pair)) {
            object.number(key, number);
        }
        object.number("unread", pair.unread);
        object.object("rtt_us", times_object(alloc, &pair.round_trips));
        let mut maybe = List::new(alloc);
        for (left, probes) in &pair.maybe {
            let mut one = Object::new(alloc);
            one.list("of", explanations_of(alloc, left));
            one.number("probes", *probes);
            maybe.object(one);
        }
        object.list("maybe", maybe);
        object.write(text);
    }
}

/// The median, the 90th percentile and the greatest of times, if there are any.
pub(crate) fn times_object(alloc: Global, times: &Delays) -> Option<Object> {
    let half = times.percentile(50)?;
    let most = times.percentile(90)?;
    let all = times.greatest()?;
    let mut object = Object::new(alloc);
    object.number("p50", half);
    object.number("p90", most);
    object.number("max", all);
    Some(object)
}

/// The words for the explanations that are left.
pub(crate) fn explanations_of(alloc: Global, left: &Left) -> List {
    let mut words = List::new(alloc);
    for (explanation, is_left) in Explanation::ALL.iter().zip(left) {
        if *is_left {
            words.word(explanation.words());
        }
    }
    words
}
