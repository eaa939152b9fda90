//! Round trips between members, as Serf's coordinates estimate them.

use crate::arguments::chosen::{Chosen, Verb};
use crate::shown::probes::time_text;
use crate::text::columns::Rows;
use crate::text::json::Object;
use crate::text::texts::name_text;
use crate::text::written::Text;
use memberlist_view::MemberName;
use serf_message::Coordinate;
use serf_view::round_trip;
use std::alloc::{AllocError, Global};
use std::collections::BTreeMap;

/// Of how many members all pairs are shown (own). Their number grows with the square.
const MAX_MEMBERS: usize = 1000;

/// The newest coordinate of each member.
#[derive(Drop)]
pub(crate) struct Distances {
    alloc: Global,
    places: BTreeMap<MemberName, Coordinate>,
}

impl Distances {
    /// No coordinates yet, if distances are asked for.
    pub(crate) fn if_chosen(alloc: Global, chosen: &Chosen) -> Option<Distances> {
        if chosen.verb != Verb::Distances {
            return None;
        }
        Some(Distances {
            alloc,
            places: BTreeMap::new(alloc),
        })
    }

    /// Notes where a member is.
    pub(crate) fn note(
        &mut self,
        name: MemberName,
        coordinate: Coordinate,
    ) -> Result<(), AllocError> {
        self.places.insert(name, coordinate)?;
        Ok(())
    }

    /// Whether the coordinate of the only member to show is missing.
    pub(crate) fn lacks(&self, target: &[u8]) -> bool {
        !self
            .places
            .iter()
            .any(|(name, _)| name.name().bytes() == target)
    }

    /// How many members are left out, since there are too many for all their pairs.
    pub(crate) fn left_out(&self, target: &Option<Vec<u8>>) -> u64 {
        match target {
            Some(_) => 0,
            None => self.places.len().saturating_sub(MAX_MEMBERS) as u64,
        }
    }

    /// The pairs that are shown: all, or those of one member with each other one.
    fn pairs(&self, target: &Option<Vec<u8>>) -> Result<Vec<Pair>, AllocError> {
        let mut pairs = Vec::new(self.alloc);
        match target {
            Some(target) => self.pairs_with(target, &mut pairs)?,
            None => {
                for (index, (name, place)) in self.places.iter().take(MAX_MEMBERS).enumerate() {
                    self.pairs_from(index, name, place, &mut pairs)?;
                }
            }
        }
        Ok(pairs)
    }

    /// Adds the pairs of one member with those after it.
    fn pairs_from<'a>(
        &'a self,
        index: usize,
        name: &'a MemberName,
        place: &'a Coordinate,
        pairs: &mut Vec<Pair<'a>>,
    ) -> Result<(), AllocError> {
        let first = index.saturating_add(1);
        for (other, its) in self.places.iter().take(MAX_MEMBERS).skip(first) {
            pairs.push(Pair {
                from: name,
                to: other,
                nanos: round_trip(place, its),
            })?;
        }
        Ok(())
    }

    /// Adds the pairs of each other member with this one.
    fn pairs_with<'a>(
        &'a self,
        target: &[u8],
        pairs: &mut Vec<Pair<'a>>,
    ) -> Result<(), AllocError> {
        let found = self
            .places
            .iter()
            .find(|(name, _)| name.name().bytes() == target);
        let Some((to, place)) = found else {
            return Ok(());
        };
        for (from, its) in self.places.iter() {
            if from.name().bytes() != target {
                pairs.push(Pair {
                    from,
                    to,
                    nanos: round_trip(its, place),
                })?;
            }
        }
        Ok(())
    }

    /// Adds a header, and a row for each pair.
    pub(crate) fn write(&self, text: &mut Text, target: &Option<Vec<u8>>) {
        let Some(pairs) = text.made(self.pairs(target)) else {
            return;
        };
        let mut rows = Rows::below(self.alloc, &["FROM", "TO", "RTT-MS"]);
        for pair in &pairs {
            rows.cell(name_text(self.alloc, pair.from));
            rows.cell(name_text(self.alloc, pair.to));
            rows.cell(time_text(self.alloc, pair.micros()));
            rows.end_row();
        }
        rows.write(text);
    }

    /// Adds the same as JSON objects, one per line.
    pub(crate) fn write_objects(&self, text: &mut Text, target: &Option<Vec<u8>>) {
        let Some(pairs) = text.made(self.pairs(target)) else {
            return;
        };
        for pair in &pairs {
            let mut object = Object::new(self.alloc);
            object.text("from", name_text(self.alloc, pair.from));
            object.text("to", name_text(self.alloc, pair.to));
            if let Some(micros) = pair.micros() {
                object.number("rtt_us", micros);
            }
            object.write(text);
        }
    }
}

/// Two members, and the round trip between them, if their coordinates tell it.
#[derive(Clone, Copy)]
struct Pair<'a> {
    from: &'a MemberName,
    to: &'a MemberName,
    nanos: Option<u64>,
}

impl Pair<'_> {
    /// The round trip in microseconds.
    fn micros(&self) -> Option<u64> {
        Some(self.nanos?.saturating_add(500) / 1000)
    }
}
