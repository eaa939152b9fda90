//! One probe of a member (`probeNode` in state.go; SWIM, section 4.1).

ghost use Rattle.std.specs.Prelude.{◌≡◌, ◌≤◌, Decides};
ghost use Rattle.memberlist_member.specs.Probes.{IsAnswer, first_of, penalty_of, with_nack};

use memberlist_view::MemberName;

/// A probe that runs.
#[derive(Drop)]
pub(crate) struct Probe {
    /// The number of its ping.
    pub(crate) seq: u32,
    /// The member that is asked.
    pub(crate) name: MemberName,
    /// Its incarnation when the probe began, at which it is suspected.
    pub(crate) inc: u32,
    /// When others are asked to ping it; none once they were.
    pub(crate) ask_at: Option<u64>,
    /// Until when an answer counts.
    pub(crate) due: u64,
    /// How many of those that were asked say so if they get no answer.
    pub(crate) expected: u32,
    /// How many said so.
    pub(crate) nacks: u32,
    /// The connection over which it is asked too.
    pub(crate) conn: Option<u64>,
}

impl Probe {
    /// Whether an ack with this number at this time answers it.
    pub(crate) fn is_answered_by(&self, seq: u32, now: u64) -> bool
        ensures { Decides result (IsAnswer self.now seq now) }
    {
        self.seq == seq && now <= self.due
    }

    /// Notes that a member that was asked got no answer either.
    pub(crate) fn take_nack(&mut self, seq: u32)
        ensures counted { self.new ≡ with_nack self.old seq }
        ensures few { self.old.nacks ≤ self.old.expected → self.new.nacks ≤ self.new.expected }
    {
        if self.seq == seq && self.nacks < self.expected {
            self.nacks += 1;
        }
    }

    /// How much less well the member is that got no answer: by each nack that did not come, or by one
    /// if none was to come.
    pub(crate) fn penalty(&self) -> u32
        ensures { result ≡ penalty_of self.now }
    {
        if self.expected == 0 {
            1
        } else {
            self.expected.saturating_sub(self.nacks)
        }
    }

    /// When it goes on, if nothing comes.
    pub(crate) fn wakes_at(&self) -> u64
        ensures first { result ≡ first_of self.now.ask_at self.now.due }
        ensures in_time { result ≤ self.now.due }
    {
        match self.ask_at {
            Some(ask_at) => ask_at.min(self.due),
            None => self.due,
        }
    }
}
