//! Several members in trouble at once.

use crate::members::{has, order};
use crate::scene::Scene;
use crate::trouble::{Of, Trouble};
use crate::{Case, Cause, Evidence, Member, Tried};
use memberlist_probes::Outcome;
use std::alloc::{AllocError, Global};
use std::collections::BTreeMap;
use std::mem;

/// How long after the first failed probe answered ones tell who hears whom (own), in microseconds.
const AFTER: u64 = 1_000_000;

/// How long before the last one (own).
const BEFORE: u64 = 500_000;

/// Members that answered probes join, in no order.
#[derive(Drop)]
struct Group {
    /// By what groups are in order.
    label: u32,
    members: Vec<Member>,
}

/// The members in groups: answered probes join those of one group.
#[derive(Drop)]
struct Groups {
    alloc: Global,
    /// The index of the group of each member.
    places: BTreeMap<Member, usize>,
    /// Those that are joined to others have no members any more.
    all: Vec<Group>,
}

impl Groups {
    /// Each member that one of the probes touches, in a group of its own.
    fn apart(alloc: Global, scene: &Scene) -> Result<Groups, AllocError> {
        let mut groups = Groups {
            alloc,
            places: BTreeMap::new(alloc),
            all: Vec::new(alloc),
        };
        for case in scene.bad.iter().chain(scene.good.iter()) {
            groups.add(case.prober)?;
            groups.add(case.target)?;
        }
        Ok(groups)
    }

    /// Adds a member in a group of its own, unless it is in one.
    fn add(&mut self, member: Member) -> Result<(), AllocError> {
        if self.places.contains_key(&member) {
            return Ok(());
        }
        let place = self.all.len();
        let label = u32::try_from(place).unwrap_or(u32::MAX);
        let mut members = Vec::new(self.alloc);
        members.push(member)?;
        self.all.push(Group { label, members })?;
        self.places.insert(member, place)?;
        Ok(())
    }

    /// Joins the groups of two members. The label of the first one's group stays.
    fn join(&mut self, one: Member, other: Member) -> Result<(), AllocError> {
        let (Some(kept), Some(lost)) = (self.place(one), self.place(other)) else {
            return Ok(());
        };
        if kept == lost {
            return Ok(());
        }
        let label = self
            .all
            .get(kept)
            .map(|group| group.label)
            .unwrap_or(u32::MAX);
        // The members of the smaller group move, so that each moves few times.
        let (from, to) = if self.size(kept) < self.size(lost) {
            (kept, lost)
        } else {
            (lost, kept)
        };
        self.pour(from, to)?;
        if let Some(group) = self.all.get_mut(to) {
            group.label = label;
        }
        Ok(())
    }

    /// Moves the members of one group into another.
    fn pour(&mut self, from: usize, to: usize) -> Result<(), AllocError> {
        let Some(group) = self.all.get_mut(from) else {
            return Ok(());
        };
        let members = mem::replace(&mut group.members, Vec::new(self.alloc));
        for member in &members {
            self.places.insert(*member, to)?;
            if let Some(group) = self.all.get_mut(to) {
                group.members.push(*member)?;
            }
        }
        Ok(())
    }

    /// Joins the prober and those that it asked and that said what came of it.
    fn join_helpers(&mut self, case: &Case) -> Result<(), AllocError> {
        for asked in &case.asked {
            if asked.has_nacked || asked.has_reached {
                self.join(case.prober, asked.member)?;
            }
        }
        Ok(())
    }

    fn place(&self, member: Member) -> Option<usize> {
        self.places.get(&member).copied()
    }

    /// How many members are in a group.
    fn size(&self, place: usize) -> usize {
        match self.all.get(place) {
            Some(group) => group.members.len(),
            None => 0,
        }
    }

    /// Whether a probe goes from one group to another.
    fn is_crossed(&self, case: &Case) -> bool {
        self.place(case.prober) != self.place(case.target)
    }

    /// The groups of two members and more, by their labels.
    fn large(mut self) -> Result<Vec<Vec<Member>>, AllocError> {
        self.all.sort_unstable_by_key(|group| group.label);
        let mut large = Vec::new(self.alloc);
        for group in self.all {
            let mut members = group.members;
            if members.len() >= 2 {
                members.sort_unstable();
                large.push(members)?;
            }
        }
        Ok(large)
    }
}

/// Two groups of members or more that do not hear each other: answered probes and indirect pings join
/// the members of each, each failed one crosses, and no member is an end of nearly all of them.
pub(crate) fn partition(scene: &Scene) -> Result<Option<Trouble>, AllocError> {
    let alloc = scene.facts.alloc;
    let mut groups = Groups::apart(alloc, scene)?;
    let from = scene.begin.saturating_add(AFTER);
    let to = scene.last.saturating_sub(BEFORE);
    for case in &scene.good {
        if from <= case.time && case.time <= to {
            groups.join(case.prober, case.target)?;
        }
    }
    for case in &scene.bad {
        groups.join_helpers(case)?;
    }
    let failed = scene.bad.len() as u64;
    let counts = scene.touched(&scene.bad)?;
    let is_of_one = counts.values().any(|count| failed.saturating_mul(9)
        <= count.saturating_mul(10));
    let is_crossing = scene.bad.iter().all(|case| groups.is_crossed(case));
    let large = groups.large()?;
    if large.len() < 2 || is_of_one || !is_crossing {
        return Ok(None);
    }
    let span = (scene.begin, scene.end);
    let of = Of::Groups(large);
    let mut trouble = Trouble::new(alloc, span, of, Cause::Partition, &scene.bad)?;
    trouble
        .evidence
        .push(Evidence::Crossing { probes: failed })?;
    Ok(Some(trouble))
}

/// Several members of which nothing was heard at one time, at none of which a capture was taken.
pub(crate) fn cut_off_together(scene: &Scene) -> Result<Option<Trouble>, AllocError> {
    let facts = scene.facts;
    let alloc = facts.alloc;
    let from = scene.begin.saturating_add(AFTER);
    let silent = silent_targets(scene, from)?;
    let mut of_them = Vec::new(alloc);
    for case in &scene.bad {
        if has(&silent, case.target) {
            of_them.push(*case)?;
        }
    }
    let is_most = scene.bad.len().saturating_mul(4) <= of_them.len().saturating_mul(5);
    if silent.len() < 2 || !is_most || are_answered(&of_them) {
        return Ok(None);
    }
    let mut by = Vec::new(alloc);
    for case in &of_them {
        if case.is_seen {
            by.push(case.prober)?;
        }
    }
    order(&mut by);
    let mut heard = Vec::new(alloc);
    for case in &scene.good {
        let is_between = from < case.time && case.time < scene.last;
        if is_between && !has(&silent, case.target) && has(&by, case.prober) {
            heard.push(case.target)?;
        }
    }
    order(&mut heard);
    if heard.is_empty() && !only_point_hears(scene, from) {
        return Ok(None);
    }
    let evidence = Evidence::NotHeardTogether {
        members: silent.len() as u64,
        by,
        heard,
    };
    let span = (scene.begin, scene.end);
    let of = Of::Several(silent);
    let mut trouble = Trouble::new(alloc, span, of, Cause::CutOffTogether, &scene.bad)?;
    trouble.evidence.push(evidence)?;
    Ok(Some(trouble))
}

/// The members whose probes failed, of which nothing was heard, and at which nothing was captured.
fn silent_targets(scene: &Scene, from: u64) -> Result<Vec<Member>, AllocError> {
    let facts = scene.facts;
    let mut failed = Vec::new(facts.alloc);
    for case in &scene.bad {
        if case.outcome == Outcome::Failed {
            failed.push(case.target)?;
        }
    }
    order(&mut failed);
    let mut silent = Vec::new(facts.alloc);
    for member in failed {
        if !facts.is_captured(member) && !facts.is_heard(member, from, scene.last) {
            silent.push(member)?;
        }
    }
    Ok(silent)
}

/// Whether one of the probes was refused, or something came from the targets of more than a fifth of
/// those that were seen: a connection that is dialled before all is over may be answered after it.
fn are_answered(cases: &[&Case]) -> bool {
    let seen = cases.iter().filter(|case| case.is_seen).count();
    let answered = cases.iter().filter(|case| is_answered(case)).count();
    let is_refused = cases.iter().any(|case| case.is_refused());
    is_refused || seen < answered.saturating_mul(5)
}

/// Whether something came from the target of a probe.
fn is_answered(case: &Case) -> bool {
    !matches!(case.tried, None | Some(Tried::Unanswered(_))) || case.acked.is_some()
}

/// Whether all captures are of one member, which hears something.
fn only_point_hears(scene: &Scene, from: u64) -> bool {
    match scene.facts.points.first() {
        Some(member) => {
            scene.facts.points.len() == 1 && scene.facts.words_to(*member, from, scene.last) > 0
        }
        None => false,
    }
}
