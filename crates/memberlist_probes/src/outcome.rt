//! What a prober made of a probe.

ghost use Rattle.std.specs.Prelude.{◌≡◌};
ghost use Rattle.memberlist_probes.specs.Outcomes.{is_by, outcome_of};

/// What the prober made of a probe.
#[derive(Clone, Copy, PartialEq, Eq)]
pub enum Outcome {
    /// The ack came before other members were asked.
    Answered,
    /// The ack came later, and before the next probe.
    Late,
    /// Another member got an answer.
    Indirect,
    /// The target answered over TCP.
    Tcp,
    /// Nothing answered. memberlist suspects the target then.
    Failed,
    /// The captures end before that is known.
    Open,
}

/// How long after the ping the first answer of each kind came to the prober, in microseconds.
#[derive(Clone, Copy, Default)]
pub struct Answers {
    pub direct: Option<u64>,
    /// Through a member that the prober asked to probe the target.
    pub relayed: Option<u64>,
    pub tcp: Option<u64>,
}

/// The times of a probe, in microseconds after its ping.
#[derive(Clone, Copy)]
pub struct Terms {
    /// When the prober asks other members (memberlist's `ProbeTimeout`).
    pub timeout: u64,
    /// When it has to know, since it probes the next member.
    pub deadline: u64,
    /// When the captures end.
    pub end: u64,
}

impl Answers {
    /// The outcome (memberlist's `probeNode`, state.go): an ack counts until the deadline, then one
    /// that another member got, then one over TCP.
    pub fn outcome(&self, terms: Terms) -> Outcome
        ensures { result ≡ outcome_of self.now terms }
    {
        if is_by(self.direct, terms.timeout) {
            Outcome::Answered
        } else if is_by(self.direct, terms.deadline) {
            Outcome::Late
        } else if is_by(self.relayed, terms.deadline) {
            Outcome::Indirect
        } else if is_by(self.tcp, terms.deadline) {
            Outcome::Tcp
        } else if terms.end < terms.deadline {
            Outcome::Open
        } else {
            Outcome::Failed
        }
    }
}

/// Whether an answer came by this time.
fn is_by(answer: Option<u64>, time: u64) -> bool
    ensures { result ≡ is_by answer time }
{
    match answer {
        Some(came) => came <= time,
        None => false,
    }
}
