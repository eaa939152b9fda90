//! A probe that is over, as far as it tells of causes.

use crate::{Member, Members};
use memberlist_probes::{Captures, Explanation, Fallback, Left, Outcome, Probe, Timing};
use std::alloc::{AllocError, Global};

/// A member that the prober asked to probe the target, too.
#[derive(Clone, Copy)]
pub struct Asked {
    pub member: Member,
    /// Whether it got an answer.
    pub has_reached: bool,
    /// Whether it said that it got none.
    pub has_nacked: bool,
}

/// What came of the TCP connection by which the prober tried again.
#[derive(Clone, Copy, PartialEq, Eq)]
pub enum Tried {
    /// The target's host refused it.
    Refused,
    /// The target's agent answered.
    Answered,
    /// The target's host accepted it, and its agent did not answer.
    Mute,
    /// Nothing answered so many SYNs.
    Unanswered(u32),
}

/// A probe that is over.
#[derive(Drop)]
pub struct Case {
    pub prober: Member,
    pub target: Member,
    /// When the ping was sent.
    pub time: u64,
    pub seq_no: u32,
    /// Whether a capture has the ping. If none has, it was sent a timeout before the first indirect
    /// ping.
    pub is_seen: bool,
    pub is_relayed: bool,
    /// Whether no capture has the ping of the member that asked for it.
    pub is_for_unseen: bool,
    pub outcome: Outcome,
    /// Whether the ack was there in time, and the prober went on all the same.
    pub is_unread: bool,
    /// What may have happened, if there was no answer in time.
    pub left: Left,
    /// How long the ack took to the prober.
    pub round_trip: Option<u64>,
    /// When an ack was first seen.
    pub acked: Option<u64>,
    /// Whether the ping was seen at the target.
    pub is_seen_at_target: bool,
    /// Whether a capture ran at the prober.
    pub is_prober_captured: bool,
    /// Whether a capture ran at the target.
    pub is_target_captured: bool,
    pub asked: Vec<Asked>,
    pub tried: Option<Tried>,
    /// Whether the connection was established before the deadline, and the agent mute until then.
    pub is_mute: bool,
}

impl Case {
    /// That of a probe. None if there are too many members.
    pub(crate) fn of(
        alloc: Global,
        members: &mut Members,
        probe: &Probe,
        captures: &Captures,
        timing: &Timing,
        end: u64,
    ) -> Result<Option<Case>, AllocError> {
        let (Some(prober), Some(target)) = (
            members.named(&probe.prober)?,
            members.named(&probe.target)?,
        ) else {
            return Ok(None);
        };
        let outcome = probe.outcome(captures, timing, end);
        let time = sent(probe, captures, timing);
        let mut case = Case {
            prober,
            target,
            time,
            seq_no: probe.seq_no,
            is_seen: probe.is_seen(),
            is_relayed: probe.is_relayed,
            is_for_unseen: probe.is_for_unseen,
            outcome,
            is_unread: outcome == Outcome::Answered && probe.is_unread(captures, timing),
            left: [false; 7],
            round_trip: probe.round_trip(captures),
            acked: probe.acked.first().map(|seen| seen.time),
            is_seen_at_target: probe.pinged.at(captures, probe.to.ip()).is_some(),
            is_prober_captured: captures.covers(probe.from.ip(), time, 0),
            is_target_captured: captures.covers(probe.to.ip(), time, 0),
            asked: Vec::new(alloc),
            tried: probe.fallback.as_ref().map(outcome_of),
            is_mute: probe.is_mute(captures, timing),
        };
        if case.is_bad() {
            case.explain(members, probe, captures, timing)?;
        }
        Ok(Some(case))
    }

    /// Notes what may have happened, and who was asked.
    fn explain(
        &mut self,
        members: &Members,
        probe: &Probe,
        captures: &Captures,
        timing: &Timing,
    ) -> Result<(), AllocError> {
        let leg = probe.leg(captures, timing);
        for (place, explanation) in self.left.iter_mut().zip(Explanation::ALL) {
            *place = leg.may_be(explanation);
        }
        for helper in &probe.helpers {
            let Some(member) = members.at(helper.end) else {
                continue;
            };
            self.asked.push(Asked {
                member,
                has_reached: helper.acked.first().is_some(),
                has_nacked: helper.nacked.first().is_some(),
            })?;
        }
        Ok(())
    }

    /// A copy.
    pub(crate) fn try_clone(&self, alloc: Global) -> Result<Case, AllocError> {
        Ok(Case {
            asked: self.asked.to_vec(alloc)?,
            ..*self
        })
    }

    /// Whether it counts: one that was sent for another member does only if no capture has that
    /// member's own ping.
    fn counts(&self) -> bool {
        !self.is_relayed || self.is_for_unseen
    }

    /// Whether it counts, and had no answer in time.
    pub(crate) fn is_bad(&self) -> bool {
        let is_well = matches!(self.outcome, Outcome::Answered | Outcome::Open);
        self.counts() && (self.is_unread || !is_well)
    }

    /// Whether it counts, and was answered in time.
    pub(crate) fn is_good(&self) -> bool {
        self.counts() && self.outcome == Outcome::Answered && !self.is_unread
    }

    /// What happened, if only one thing may have.
    pub(crate) fn only(&self) -> Option<Explanation> {
        let mut found = None;
        for (explanation, is_left) in Explanation::ALL.iter().zip(&self.left) {
            if !*is_left {
                continue;
            }
            if found.is_some() {
                return None;
            }
            found = Some(*explanation);
        }
        found
    }

    /// Whether the target's host refused it.
    pub(crate) fn is_refused(&self) -> bool {
        self.only() == Some(Explanation::Refused)
    }

    /// Whether the member is the target, or the prober for itself. What the target's host refused says
    /// nothing of the prober.
    pub(crate) fn touches(&self, member: Member) -> bool {
        let is_of_prober = !self.is_relayed && !self.is_refused();
        self.target == member || is_of_prober && self.prober == member
    }

    /// The one of prober and target that is not this member.
    pub(crate) fn other(&self, member: Member) -> Member {
        if self.target == member {
            self.prober
        } else {
            self.target
        }
    }

    /// Whether another member reached the target.
    pub(crate) fn is_relayed_answer(&self) -> bool {
        self.asked.iter().any(|asked| asked.has_reached)
    }

    /// Whether the ack came to the prober, later than this.
    pub(crate) fn is_later_than(&self, timeout: u64) -> bool {
        match self.round_trip {
            Some(time) => timeout < time,
            None => false,
        }
    }

    /// Whether an ack was seen on the way, in time.
    pub(crate) fn was_acked_within(&self, timeout: u64) -> bool {
        match self.acked {
            Some(time) => time.saturating_sub(self.time) < timeout,
            None => false,
        }
    }
}

/// When the ping was sent, as far as the captures tell.
fn sent(probe: &Probe, captures: &Captures, timing: &Timing) -> u64 {
    if probe.is_seen() {
        probe.sent(captures)
    } else {
        probe.time().saturating_sub(timing.timeout())
    }
}

/// What came of a fallback.
fn outcome_of(fallback: &Fallback) -> Tried {
    if fallback.is_refused {
        Tried::Refused
    } else if fallback.answered.is_some() {
        Tried::Answered
    } else if fallback.accepted.is_some() {
        Tried::Mute
    } else {
        Tried::Unanswered(fallback.syns)
    }
}
