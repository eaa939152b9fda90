//! The time in which probes had no answer, without a long pause.

use crate::facts::Facts;
use crate::{Case, Episode, Member};
use std::alloc::AllocError;
use std::collections::{BTreeMap, BTreeSet};

/// How long before the first failed probe answered ones count (own), in microseconds.
const BEFORE: u64 = 500_000;

/// How long before the first failed probe, or after the last one, a suspicion may begin that belongs
/// to them (own).
const EARLIER: u64 = 1_000_000;

const LATER: u64 = 8_000_000;

/// How long before it a member may have left (own).
const LEFT_BEFORE: u64 = 3_000_000;

/// The time in which probes had no answer, without a long pause, and the probes in it.
#[derive(Drop)]
pub(crate) struct Scene<'a> {
    pub(crate) facts: &'a Facts,
    pub(crate) begin: u64,
    /// The time of the last probe without an answer in time.
    pub(crate) last: u64,
    /// When it was over: an interval later, or when the last suspicion that belongs to it ended.
    pub(crate) end: u64,
    /// The probes without an answer in time, except those of members that left.
    pub(crate) bad: Vec<&'a Case>,
    /// Those of members that left.
    pub(crate) leaving: Vec<&'a Case>,
    pub(crate) good: Vec<&'a Case>,
    /// The members that left.
    pub(crate) left: Vec<Member>,
}

impl<'a> Scene<'a> {
    /// The scene whose probes without an answer were sent between these times.
    pub(crate) fn of(facts: &'a Facts, begin: u64, last: u64) -> Result<Scene<'a>, AllocError> {
        let end = end_of(facts, None, (begin, last));
        let mut scene = Scene {
            facts,
            begin,
            last,
            end,
            bad: Vec::new(facts.alloc),
            leaving: Vec::new(facts.alloc),
            good: Vec::new(facts.alloc),
            left: Vec::new(facts.alloc),
        };
        let mut left = BTreeSet::new(facts.alloc);
        for leave in &facts.episodes.leaves {
            let is_timely = begin.saturating_sub(LEFT_BEFORE) <= leave.time && leave.time <= end;
            if is_timely && left.insert(leave.of)? {
                scene.left.push(leave.of)?;
            }
        }
        for case in &facts.cases {
            scene.take(case, &left)?;
        }
        Ok(scene)
    }

    /// Takes a probe in, if it belongs to it. `left` has the members that left.
    fn take(&mut self, case: &'a Case, left: &BTreeSet<Member>) -> Result<(), AllocError> {
        let time = case.time;
        if case.is_bad() && self.begin <= time && time <= self.last {
            let ends = [case.prober, case.target];
            if ends
                .iter()
                .any(|end| case.touches(*end) && left.contains(end))
            {
                self.leaving.push(case)?;
            } else {
                self.bad.push(case)?;
            }
        } else if case.is_good() && self.begin.saturating_sub(BEFORE) <= time && time <= self.end {
            self.good.push(case)?;
        }
        Ok(())
    }

    /// The targets of these probes that are suspected about then.
    pub(crate) fn suspects(&self, cases: &[&Case]) -> Result<BTreeSet<Member>, AllocError> {
        let mut suspects = BTreeSet::new(self.facts.alloc);
        let mut found = BTreeSet::new(self.facts.alloc);
        let episodes = &self.facts.episodes;
        for episode in episodes.ended.iter().chain(episodes.open().values()) {
            if is_near(episode, self.begin, self.last) {
                suspects.insert(episode.of)?;
            }
        }
        for case in cases {
            if suspects.contains(&case.target) {
                found.insert(case.target)?;
            }
        }
        Ok(found)
    }

    /// How many of these probes touch each member.
    pub(crate) fn touched(&self, cases: &[&Case]) -> Result<BTreeMap<Member, u64>, AllocError> {
        let mut counts = BTreeMap::new(self.facts.alloc);
        for case in cases {
            for member in [case.prober, case.target] {
                if case.touches(member) {
                    let before = counts.get(&member).copied().unwrap_or(0u64);
                    counts.insert(member, before.saturating_add(1))?;
                }
            }
        }
        Ok(counts)
    }
}

/// When all is over that failed probes led to: an interval after the last of them, or when the last
/// suspicion ended that belongs to them. Of one member only its own suspicions count, and if no probe
/// failed after the last of them, all was over with it.
pub(crate) fn end_of(facts: &Facts, of: Option<Member>, (begin, last): (u64, u64)) -> u64 {
    let mut end = 0;
    let episodes = &facts.episodes;
    for episode in episodes.ended.iter().chain(episodes.open().values()) {
        let is_of_it = match of {
            Some(member) => member == episode.of,
            None => true,
        };
        if is_of_it && is_near(episode, begin, last) {
            end = end.max(episode.end().unwrap_or(facts.now));
        }
    }
    if of.is_some() && last <= end {
        end
    } else {
        end.max(last.saturating_add(facts.interval))
    }
}

/// Whether a suspicion belongs to probes that were sent in this time.
fn is_near(episode: &Episode, begin: u64, last: u64) -> bool {
    let earliest = begin.saturating_sub(EARLIER);
    earliest <= episode.begin && episode.begin <= last.saturating_add(LATER)
}
