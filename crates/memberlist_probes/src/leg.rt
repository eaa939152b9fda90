//! What captures show of a ping and its ack, and what that leaves of the explanations.

ghost use Rattle.std.specs.Prelude.{◌≡◌, true, ◌&&◌, ◌/◌, max};
ghost use Rattle.memberlist_probes.specs.Showing.{Clocks, Shows, IsComplete};
ghost use Rattle.memberlist_probes.specs.Telling.{elapsed, own_least, own_most, whole_least, whole_most, is_answered};
ghost use Rattle.memberlist_probes.specs.Telling.{may_pass, may_answer, may_return, may_exceed, may_be_twice};
ghost use Rattle.memberlist_probes.specs.Telling.{may_be_unrefused, is_refused, may_be};
ghost use Rattle.memberlist_probes.specs.Worlds.{World, Obeys, truth};

use crate::Explanation;

/// When a ping and its ack passed a place, in microseconds by the clock there. `None` if it was not
/// seen.
#[derive(Clone, Copy, Default, PartialEq, Eq)]
pub struct Passage {
    pub ping: Option<u64>,
    pub ack: Option<u64>,
}

/// Whether the target's host refused the ping, or the TCP connection by which the prober tried again.
#[derive(Clone, Copy, PartialEq, Eq)]
pub enum Refusal {
    /// It was seen to.
    Seen,
    /// It may have.
    Unknown,
    /// It did not, since that would have been seen.
    Absent,
}

/// What captures show of a ping without an answer in time.
#[derive(Clone, Copy)]
pub struct Leg {
    /// How long the prober waits for the ack, in microseconds.
    pub timeout: u64,
    pub at_prober: Passage,
    pub at_target: Passage,
    /// On the way: neither at the prober nor at the target.
    pub between: Passage,
    /// Whether the captures at the prober miss no packet of this ping and its ack.
    pub is_prober_complete: bool,
    /// Whether those at the target miss none.
    pub is_target_complete: bool,
    pub refusal: Refusal,
}

impl Passage {
    /// From the ping to the ack.
    pub fn elapsed(&self) -> Option<u64>
        ensures { result ≡ elapsed self.now }
    {
        Some(self.ack?.saturating_sub(self.ping?))
    }
}

impl Leg {
    /// Whether this may be what happened, by what was seen.
    ///
    /// The true explanation is never excluded (`sound`), and it is the only one left if captures at
    /// both ends are complete and would have shown a refusal (`exact`): in each world that obeys the
    /// rules of pings and acks, whatever the clocks of the captures say.
    pub fn may_be(&self, explanation: Explanation) -> bool
        ensures rules { result ≡ may_be self.now explanation }
        ensures sound { (clocks : Clocks) (world : World) → Obeys world
            → Shows clocks world self.now → truth self.now.timeout world ≡ explanation
            → result ≡ true }
        ensures exact { (clocks : Clocks) (world : World) → Obeys world
            → Shows clocks world self.now → IsComplete self.now → result ≡ true
            → truth self.now.timeout world ≡ explanation }
    {
        self.is_left(explanation)
    }

    /// Whether the rules leave this explanation.
    fn is_left(&self, explanation: Explanation) -> bool
        ensures { result ≡ may_be self.now explanation }
    {
        match self.refusal {
            Refusal::Seen => is_refused(explanation),
            Refusal::Unknown if is_refused(explanation) => !self.is_answered(),
            Refusal::Unknown => self.may_be_unrefused(explanation),
            Refusal::Absent => self.may_be_unrefused(explanation),
        }
    }

    /// Whether this may be what happened, if the target's host refused nothing.
    fn may_be_unrefused(&self, explanation: Explanation) -> bool
        ensures { result ≡ may_be_unrefused self.now explanation }
    {
        match explanation {
            Explanation::PingLost => self.at_target.ping.is_none() && !self.is_answered(),
            Explanation::Refused => false,
            Explanation::Silent => may_pass(self.at_target.ping, self.is_target_complete)
                && !self.is_answered(),
            Explanation::AnswerLate => self.may_return() && self.may_be_target(),
            Explanation::WaySlow => self.may_return() && self.may_be_way(),
            Explanation::AnswerLost => self.may_answer() && self.at_prober.ack.is_none(),
            Explanation::Unread => self.may_return() && self.whole_least() <= self.timeout,
        }
    }

    /// Whether the target may have taken more than half of a time that is longer than the timeout.
    fn may_be_target(&self) -> bool
        ensures { result ≡ (may_exceed (whole_most self.now) self.now.timeout
            && may_exceed (own_most self.now)
            (max (whole_least self.now) self.now.timeout / 2)) }
    {
        may_exceed(self.at_prober.elapsed(), self.timeout)
            && may_exceed(self.own_most(), self.whole_least().max(self.timeout) / 2)
    }

    /// Whether the way may have taken at least half of a time that is longer than the timeout.
    fn may_be_way(&self) -> bool
        ensures { result ≡ may_be_twice (whole_most self.now) self.now.timeout (own_least self.now) }
    {
        match self.at_prober.elapsed() {
            Some(whole) => self.timeout < whole && self.own_least() <= whole / 2,
            None => true,
        }
    }

    /// Whether an ack was seen anywhere.
    fn is_answered(&self) -> bool
        ensures { result ≡ is_answered self.now }
    {
        self.at_prober.ack.is_some() || self.at_target.ack.is_some() || self.between.ack.is_some()
    }

    /// Whether the target may have answered.
    fn may_answer(&self) -> bool
        ensures { result ≡ may_answer self.now }
    {
        may_pass(self.at_target.ack, self.is_target_complete)
    }

    /// Whether the ack may have come to the prober.
    fn may_return(&self) -> bool
        ensures { result ≡ may_return self.now }
    {
        self.may_answer() && may_pass(self.at_prober.ack, self.is_prober_complete)
    }

    /// The least time that the target took.
    fn own_least(&self) -> u64
        ensures { result ≡ own_least self.now }
    {
        self.at_target.elapsed().unwrap_or(0)
    }

    /// The most time that the target took: no more than passed on the way, or at the prober.
    fn own_most(&self) -> Option<u64>
        ensures { result ≡ own_most self.now }
    {
        let on_the_way = self.between.elapsed().or(self.at_prober.elapsed());
        self.at_target.elapsed().or(on_the_way)
    }

    /// The least time that the prober waited: no less than passed on the way, or at the target.
    fn whole_least(&self) -> u64
        ensures { result ≡ whole_least self.now }
    {
        let on_the_way = self.between.elapsed().or(self.at_target.elapsed());
        self.at_prober.elapsed().or(on_the_way).unwrap_or(0)
    }
}

/// Whether it is that the target refused.
fn is_refused(explanation: Explanation) -> bool
    ensures { result ≡ is_refused explanation }
{
    matches!(explanation, Explanation::Refused)
}

/// Whether a packet may have passed: it was seen, or the captures there miss some.
fn may_pass(seen: Option<u64>, is_complete: bool) -> bool
    ensures { result ≡ may_pass seen is_complete }
{
    seen.is_some() || !is_complete
}

/// Whether a time may be longer than the limit, if it is known to be at most this.
fn may_exceed(most: Option<u64>, limit: u64) -> bool
    ensures { result ≡ may_exceed most limit }
{
    match most {
        Some(most) => limit < most,
        None => true,
    }
}
