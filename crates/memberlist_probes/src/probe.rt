//! A probe, and what the captures have of it.

ghost use Rattle.std.specs.Prelude.{◌≡◌, ◌≢◌, ℕ, MatchBool, Contains, Option, Some, is_some, unwrap_or, slice_get};
ghost use Rattle.memberlist_probes.specs.declared.captures.Sighting.{Sighting};
ghost use Rattle.std.specs.Net.Socket.{socket_ip};
ghost use Rattle.memberlist_probes.specs.Captured.{IsSeenAt, IsPassage, IsFollowed, IsAwaited, IsLegOf};
ghost use Rattle.memberlist_probes.specs.Complete.{ShowsComplete};

use crate::captures::{Captures, Sighting, Sightings};
use crate::timing::Timing;
use crate::{Answers, Leg, Outcome, Passage, Refusal, Terms};
use std::net::{IpAddr, SocketAddr};

/// How late or early a timer of the prober may seem (own), in microseconds.
const SLACK: u64 = 20_000;

/// How long after the deadline an answer over TCP may come and count (own), in microseconds.
const READ: u64 = 100_000;

/// How long before its next probe a prober whose health is bad ends this one (own).
const BEFORE_NEXT: u64 = 150_000;

/// How long after the ping all that comes of it is over (own).
const SETTLED: u64 = 10_000_000;

/// By how much the clocks of two captures may differ (own).
const SKEW: u64 = 1_000_000;

/// Neither the ping nor the ack was seen.
const UNSEEN: Passage = Passage {
    ping: None,
    ack: None,
};

/// A member that the prober asked to probe the target, too.
#[derive(Drop)]
pub struct Helper {
    pub end: SocketAddr,
    /// Whether it says so if it gets no answer.
    pub nacks: bool,
    pub asked: Sightings,
    pub acked: Sightings,
    pub nacked: Sightings,
}

/// The TCP connection by which the prober tries again.
#[derive(Drop)]
pub struct Fallback {
    /// When its first SYN was seen.
    pub dialled: Sightings,
    /// How many SYNs the prober sent.
    pub syns: u32,
    /// When the target's host accepted it.
    pub accepted: Option<u64>,
    /// When the prober went on, so that it is established.
    pub established: Option<u64>,
    /// Whether the target's host refused it.
    pub is_refused: bool,
    /// When the target's agent answered.
    pub answered: Option<u64>,
}

/// A ping of a member to another one, and all that came of it. Of a ping that no capture has,
/// indirect pings may tell: who asks for them had no answer in time.
#[derive(Drop)]
pub struct Probe {
    /// The name of who asks, or its address and port if the ping gives none.
    pub prober: Vec<u8>,
    /// The name of who is asked, or its address and port.
    pub target: Vec<u8>,
    pub from: SocketAddr,
    pub to: SocketAddr,
    pub seq_no: u32,
    /// Whether it was sent for another member, which asked for it.
    pub is_relayed: bool,
    /// Whether no capture has the ping of the member that asked for it.
    pub is_for_unseen: bool,
    pub pinged: Sightings,
    pub acked: Sightings,
    pub helpers: Vec<Helper>,
    pub fallback: Option<Fallback>,
    /// Whether the target's host refused the ping.
    pub is_refused: bool,
    /// When the prober sent its next ping of its own.
    pub next: Option<u64>,
    /// Whether the prober suspects the target for it. It does so only if nothing answered.
    pub is_accused: bool,
}

impl Probe {
    /// Whether a capture has the ping.
    pub fn is_seen(&self) -> bool
        ensures { result ≡ is_some (slice_get self.now.pinged 0) }
    {
        self.pinged.first().is_some()
    }

    /// When the ping was first seen, or else the first indirect ping.
    pub fn time(&self) -> u64
        ensures seen { (seen : Sighting) → slice_get self.now.pinged 0 ≡ Some seen
            → result ≡ seen.time }
    {
        let asked = match self.helpers.first() {
            Some(helper) => helper.asked.first(),
            None => None,
        };
        match self.pinged.first().or(asked) {
            Some(seen) => seen.time,
            None => 0,
        }
    }

    /// When the prober sent the ping: when it was seen there, or first seen.
    pub fn sent(&self, captures: &Captures) -> u64
        ensures { (there : Option ℕ) × IsSeenAt captures.now (socket_ip self.now.from) self.now.pinged there
            × ((seen : Sighting) → slice_get self.now.pinged 0 ≡ Some seen
            → result ≡ unwrap_or there seen.time) }
    {
        match self.pinged.at(captures, self.from.ip()) {
            Some(time) => time,
            None => self.time(),
        }
    }

    /// How long the ack took to the prober, in microseconds. None if it did not come there.
    pub fn round_trip(&self, captures: &Captures) -> Option<u64> {
        let came = self.acked.came_to(captures, self.from.ip())?;
        Some(came.saturating_sub(self.sent(captures)))
    }

    /// When the first other member was asked.
    pub fn asked(&self) -> Option<u64> {
        let mut least = None;
        for helper in &self.helpers {
            let Some(seen) = helper.asked.first() else {
                continue;
            };
            least = match least {
                Some(time) if time <= seen.time => Some(time),
                _ => Some(seen.time),
            };
        }
        least
    }

    /// When the first ack came to the prober through another member.
    fn relayed(&self, captures: &Captures) -> Option<u64> {
        let mut least = None;
        for helper in &self.helpers {
            let Some(came) = helper.acked.came_to(captures, self.from.ip()) else {
                continue;
            };
            least = match least {
                Some(time) if time <= came => Some(time),
                _ => Some(came),
            };
        }
        least
    }

    /// How long after the ping the answers came to the prober.
    pub fn answers(&self, captures: &Captures) -> Answers {
        let sent = self.sent(captures);
        let over_tcp = match &self.fallback {
            Some(fallback) => fallback.answered,
            None => None,
        };
        Answers {
            direct: self.round_trip(captures),
            relayed: self.relayed(captures).map(|time| time.saturating_sub(sent)),
            tcp: over_tcp.map(|time| time.saturating_sub(sent.saturating_add(READ))),
        }
    }

    /// How many of the members that the prober asked said that they got no answer.
    pub fn nacks(&self) -> usize {
        self.helpers
            .iter()
            .filter(|helper| helper.nacked.first().is_some())
            .count()
    }

    /// How many of them were asked to say so.
    pub fn asked_for_nacks(&self) -> usize {
        self.helpers.iter().filter(|helper| helper.nacks).count()
    }

    /// How long the target took to answer, where it was captured.
    pub fn own_time(&self, captures: &Captures) -> Option<u64> {
        if self.from.ip() == self.to.ip() {
            return None;
        }
        self.passage(captures, self.to.ip()).elapsed()
    }

    /// Whether the prober went on as if the ack did not come in time.
    fn went_on(&self) -> bool {
        !self.helpers.is_empty() || self.fallback.is_some()
    }

    /// When the prober has to know, in microseconds after its ping: when it sends the next one, which
    /// it does later if its health is bad.
    fn deadline(&self, captures: &Captures, timing: &Timing) -> u64 {
        if self.is_relayed {
            return timing.timeout();
        }
        let next = match self.next {
            Some(next) if !self.helpers.is_empty() => {
                next.saturating_sub(self.sent(captures).saturating_add(BEFORE_NEXT))
            }
            _ => 0,
        };
        timing.interval().max(next).min(timing.longest())
    }

    /// What the prober made of it, by captures that end at this time.
    pub fn outcome(&self, captures: &Captures, timing: &Timing, end: u64) -> Outcome {
        let terms = Terms {
            timeout: timing.timeout().saturating_add(SLACK),
            deadline: self.deadline(captures, timing),
            end: end.saturating_sub(self.sent(captures)),
        };
        let outcome = self.answers(captures).outcome(terms);
        if self.is_accused && self.went_on() && outcome != Outcome::Open {
            Outcome::Failed
        } else {
            outcome
        }
    }

    /// Whether the ack was at the prober's host in time, and the prober went on all the same.
    pub fn is_unread(&self, captures: &Captures, timing: &Timing) -> bool {
        match self.round_trip(captures) {
            Some(time) => self.went_on() && time.saturating_add(SLACK) < timing.timeout(),
            None => false,
        }
    }

    /// Whether the target's host accepted the connection by which the prober tried again, and its
    /// agent did not answer in it before the prober had to know.
    pub fn is_mute(&self, captures: &Captures, timing: &Timing) -> bool {
        let Some(fallback) = &self.fallback else {
            return false;
        };
        let deadline = self
            .sent(captures)
            .saturating_add(self.deadline(captures, timing));
        let is_by = |time: Option<u64>, end: u64| time.is_some_and(|time| time <= end);
        is_by(fallback.established, deadline)
            && !is_by(fallback.answered, deadline.saturating_add(READ))
    }

    /// What the captures show of the ping and its ack: if they are complete, what happened, as
    /// [`Leg::may_be`] wants it.
    pub fn leg(&self, captures: &Captures, timing: &Timing) -> Leg
        ensures has { (socket_ip self.now.from ≢ socket_ip self.now.to)
            → IsLegOf captures.now self.now.pinged self.now.acked (socket_ip self.now.from)
            (socket_ip self.now.to) result }
        ensures shows { ShowsComplete captures.now self.now.pinged self.now.acked
            (socket_ip self.now.from) (socket_ip self.now.to) result }
    {
        let timeout = timing.timeout().saturating_sub(SLACK);
        if self.from.ip() == self.to.ip() {
            self.leg_within(captures, timeout)
        } else {
            self.leg_between(captures, timeout)
        }
    }

    /// What they show between two agents of one host, which nothing leaves or enters.
    fn leg_within(&self, captures: &Captures, timeout: u64) -> Leg
        ensures { ShowsComplete captures.now self.now.pinged self.now.acked
            (socket_ip self.now.from) (socket_ip self.now.to) result }
    {
        let between = self.passage_between(captures);
        let refusal = self.refusal(captures, false);
        Leg {
            timeout,
            at_prober: UNSEEN,
            at_target: UNSEEN,
            between,
            is_prober_complete: false,
            is_target_complete: false,
            refusal,
        }
    }

    /// What they show between two hosts.
    fn leg_between(&self, captures: &Captures, timeout: u64) -> Leg
        ensures has { IsLegOf captures.now self.now.pinged self.now.acked
            (socket_ip self.now.from) (socket_ip self.now.to) result }
        ensures shows { ShowsComplete captures.now self.now.pinged self.now.acked
            (socket_ip self.now.from) (socket_ip self.now.to) result }
    {
        let (prober, target) = (self.from.ip(), self.to.ip());
        let at_prober = self.passage(captures, prober);
        let at_target = self.passage(captures, target);
        let between = self.passage_between(captures);
        let is_prober_complete = is_followed(captures, prober, at_prober.ping);
        let is_target_complete = self.is_awaited(captures, target);
        let refusal = self.refusal(captures, is_target_complete);
        Leg {
            timeout,
            at_prober,
            at_target,
            between,
            is_prober_complete,
            is_target_complete,
            refusal,
        }
    }

    /// When the ping and the ack were seen at the host.
    fn passage(&self, captures: &Captures, host: IpAddr) -> Passage
        ensures ping { IsSeenAt captures.now host self.now.pinged result.ping }
        ensures ack { IsSeenAt captures.now host self.now.acked result.ack }
    {
        Passage {
            ping: self.pinged.at(captures, host),
            ack: self.acked.at(captures, host),
        }
    }

    /// When the ping and the ack were seen in one capture that was taken at neither of the hosts.
    fn passage_between(&self, captures: &Captures) -> Passage
        ensures { IsPassage self.now.pinged self.now.acked result }
    {
        let mut found = UNSEEN;
        for seen in self.acked.as_slice() {
            found = self.passage_in(captures, *seen, found);
        }
        found
    }

    /// The passage that was found, or the one in the capture that has this ack.
    fn passage_in(&self, captures: &Captures, seen: Sighting, found: Passage) -> Passage
        requires seen { Contains self.now.acked seen }
        requires found { IsPassage self.now.pinged self.now.acked found }
        ensures { IsPassage self.now.pinged self.now.acked result }
    {
        if self.is_at_end(captures, seen.capture) {
            return found;
        }
        let ack = Some(seen.time);
        match (self.pinged.in_capture(seen.capture), found.ack) {
            (Some(ping), _) => Passage {
                ping: Some(ping),
                ack,
            },
            (None, None) => Passage { ping: None, ack },
            (None, Some(_)) => found,
        }
    }

    /// Whether the capture with this number was taken at one of the hosts.
    fn is_at_end(&self, captures: &Captures, capture: usize) -> bool {
        captures.is_at(capture, self.from.ip()) || captures.is_at(capture, self.to.ip())
    }

    /// Whether a capture at the host ran from before the ping, whatever the clocks say, until all is
    /// over.
    fn is_awaited(&self, captures: &Captures, host: IpAddr) -> bool
        ensures { MatchBool result (IsAwaited captures.now host self.now.pinged)
            (IsAwaited captures.now host self.now.pinged → ⊥) }
    {
        match self.pinged.first() {
            Some(first) => captures.covers(
                host,
                first.time.saturating_sub(SKEW),
                SETTLED + SKEW * 2,
            ),
            None => false,
        }
    }

    /// Whether the target's host refused it. If captures there are complete, a refusal is seen by
    /// those that let refusals through, and there is none where nothing came.
    fn refusal(&self, captures: &Captures, is_complete: bool) -> Refusal {
        let target = self.to.ip();
        let (is_refused, is_accepted, came) = match &self.fallback {
            Some(fallback) => (
                fallback.is_refused,
                fallback.accepted.is_some(),
                fallback.dialled.at(captures, target).is_some(),
            ),
            None => (false, false, false),
        };
        let nothing_came = !came && self.pinged.at(captures, target).is_none();
        if self.is_refused || is_refused {
            Refusal::Seen
        } else if is_accepted || is_complete && (nothing_came || captures.shows_refusals(target)) {
            Refusal::Absent
        } else {
            Refusal::Unknown
        }
    }
}

/// Whether the ping was seen at the host, by a capture there that ran until all is over.
fn is_followed(captures: &Captures, host: IpAddr, ping: Option<u64>) -> bool
    ensures { MatchBool result (IsFollowed captures.now host ping)
        (IsFollowed captures.now host ping → ⊥) }
{
    match ping {
        Some(time) => captures.covers(host, time, SETTLED),
        None => false,
    }
}
