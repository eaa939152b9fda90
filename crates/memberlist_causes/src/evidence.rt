//! What a cause stands on.

use crate::Member;
use memberlist_probes::Explanation;

/// What the numbers of a member's pings tell. An agent numbers all its pings by one counter.
#[derive(Clone, Copy, PartialEq, Eq)]
pub enum Numbers {
    /// They begin anew: another process.
    Anew { before: u64, after: u64 },
    /// It sent at least so many pings in a silence of so many microseconds: it was at work.
    AtWork { pings: u64, silence: u64 },
    /// It sent fewer in a silence of so many microseconds than an agent at work sends.
    Still { silence: u64 },
}

/// What a cause stands on. Times are in microseconds, those of the day since the start of 1970.
#[derive(Drop)]
pub enum Evidence {
    /// So many of the probes of it had no answer within the timeout.
    ProbesOfIt {
        failed: u64,
        all: u64,
        by: Vec<Member>,
        timeout: u64,
    },
    /// So many of its own probes had none.
    OwnProbes {
        failed: u64,
        all: u64,
    },
    /// So many more of it, or of its own, had none: no capture has them, and indirect pings tell.
    Unseen {
        is_own: bool,
        probes: u64,
        with: Vec<Member>,
    },
    /// Its host refused so many times.
    Refused {
        times: u64,
        first: u64,
    },
    /// A process with small numbers began there.
    NewProcess,
    /// From then on another member was at its address and port.
    Succeeded {
        by: Member,
        from: u64,
    },
    /// Its host accepted connections, and its agent answered so many pings in them too late or never.
    Accepted {
        connections: u64,
        mute: u64,
    },
    /// How long a handshake took in the middle.
    Handshake {
        took: u64,
    },
    /// Its host accepted, and who dialled did not go on.
    HalfOpen {
        times: u64,
    },
    /// Nothing answered connections to it.
    Unanswered {
        connections: u64,
    },
    /// How long nothing was heard of its agent at most.
    Silence {
        longest: u64,
    },
    /// Nothing was heard of its agent from then on.
    NotHeard {
        since: u64,
    },
    /// Answers of it came late, in the middle by so much.
    LateFromIt {
        answers: u64,
        by: u64,
        to: Vec<Member>,
    },
    /// Answers to it came late.
    LateToIt {
        answers: u64,
        by: u64,
    },
    /// What happened to probes of it, or to its own, where only one thing may have.
    Explained {
        is_own: bool,
        counts: [u64; 7],
    },
    /// What the numbers of its pings tell.
    Numbers(Numbers),
    /// It was silent from one moment to another, then it answered what had waited.
    SilentUntil {
        from: u64,
        to: u64,
    },
    /// It was silent from a moment on.
    SilentFrom {
        from: u64,
    },
    /// Answers were at its host in time, and it went on as if not.
    Unheeded,
    /// So many probes were answered over TCP alone.
    OverTcp {
        probes: u64,
    },
    /// Nothing arrived at it for so long.
    NothingArrived {
        time: u64,
    },
    /// It hears all that it probes, and none answers it.
    Unanswering {
        packets: u64,
    },
    /// Whose probes failed, and whose did not.
    Hit {
        hit: Vec<Member>,
        not: Vec<Member>,
    },
    /// So many were answered through others.
    Through {
        probes: u64,
        by: Vec<Member>,
    },
    /// It sends, and answers nobody.
    AnswersNobody,
    /// It sends, answers nobody, and nobody answers it.
    NobodyAnswersIt,
    /// How many failed probes speak for the way to it, and from it, each twice.
    Votes {
        to_it: u64,
        from_it: u64,
    },
    /// So many failed probes cross from one group to the other, and no answered one does.
    Crossing {
        probes: u64,
    },
    /// Nothing was heard of so many at the same time by these, who heard others.
    NotHeardTogether {
        members: u64,
        by: Vec<Member>,
        heard: Vec<Member>,
    },
    /// So many probes were under way as it left.
    UnderWay {
        probes: u64,
    },
}

impl Evidence {
    /// When what it tells of began, if it says so.
    pub(crate) fn since(&self) -> Option<u64> {
        match self {
            Evidence::Refused { first: since, .. }
            | Evidence::Succeeded { from: since, .. }
            | Evidence::NotHeard { since }
            | Evidence::SilentUntil { from: since, .. }
            | Evidence::SilentFrom { from: since }
            | Evidence::Numbers(Numbers::Anew { before: since, .. }) => Some(*since),
            _ => None,
        }
    }
}

/// The place of an explanation in counts.
pub(crate) fn place_of(explanation: Explanation) -> usize {
    Explanation::ALL
        .iter()
        .position(|other| *other == explanation)
        .unwrap_or(0)
}
