//! How a member scores its own health.

ghost use Rattle.std.specs.Prelude.{◌≡◌, ◌≤◌};
ghost use Rattle.memberlist_probes.specs.Health.{worse, score_after};

/// The worst score: one less than memberlist's `AwarenessMaxMultiplier`.
const WORST: u8 = 7;

/// What changes a member's score (memberlist's `probeNode` and `refute`, state.go).
#[derive(Clone, Copy, PartialEq, Eq)]
pub enum Change {
    /// A member that it probed answered: over UDP, through another member, or over TCP.
    Answered,
    /// A member that it probed did not.
    Failed {
        /// How many members it asked to probe that member, and to say so if they get no answer.
        asked: u32,
        /// How many of them said so.
        nacks: u32,
    },
    /// It refuted a suspicion or a death of itself.
    Refuted,
}

/// The bounds of a member's score, which no message carries: from 0, healthy, to 7. memberlist waits
/// longer for answers the greater it is (awareness.go).
#[derive(Clone, Copy, PartialEq, Eq)]
pub struct Awareness {
    least: u8,
    greatest: u8,
    ghost in_order: { least ≤ greatest },
    ghost in_range: { greatest ≤ 7 },
}

impl Awareness {
    /// Those of a member of which nothing is known.
    pub fn unknown() -> Awareness
        ensures least { result.least ≡ 0 }
        ensures greatest { result.greatest ≡ 7 }
    {
        Awareness {
            least: 0,
            greatest: WORST,
        }
    }

    /// Those of an agent that has just started.
    pub fn at_start() -> Awareness
        ensures least { result.least ≡ 0 }
        ensures greatest { result.greatest ≡ 0 }
    {
        Awareness {
            least: 0,
            greatest: 0,
        }
    }

    /// The least score that the member can have.
    pub fn least(self) -> u8
        ensures { result ≡ self.least }
    {
        self.least
    }

    /// The greatest.
    pub fn greatest(self) -> u8
        ensures { result ≡ self.greatest }
    {
        self.greatest
    }

    /// The bounds after a change.
    pub fn after(self, change: Change) -> Awareness
        ensures least { result.least ≡ score_after self.least change }
        ensures greatest { result.greatest ≡ score_after self.greatest change }
    {
        Awareness {
            least: score_after(self.least, change),
            greatest: score_after(self.greatest, change),
        }
    }
}

/// The score after a change (memberlist's `ApplyDelta`, awareness.go).
fn score_after(score: u8, change: Change) -> u8
    ensures { result ≡ score_after score change }
{
    match change {
        Change::Answered => score.saturating_sub(1),
        Change::Failed { asked: 0, .. } => worse(score, 1),
        Change::Failed { asked, nacks } => worse(score, asked.saturating_sub(nacks)),
        Change::Refuted => worse(score, 1),
    }
}

/// The score made worse by this much, and no worse than the worst.
fn worse(score: u8, by: u32) -> u8
    ensures { result ≡ worse score by }
{
    u32::from(score).saturating_add(by).min(u32::from(WORST)) as u8
}
