//! Why a prober had no answer in time.

/// What became of a ping and its ack, if the prober had no answer in time. Of each probe exactly one
/// is true.
#[derive(Clone, Copy, PartialEq, Eq)]
pub enum Explanation {
    /// The ping did not come to the target's host.
    PingLost,
    /// No process has the port: the target's host refused the ping, or the TCP connection by which
    /// the prober tried again.
    Refused,
    /// The ping came to the target's host, and its agent never answered.
    Silent,
    /// The ack came too late, and the target's agent took more than half of the time.
    AnswerLate,
    /// The ack came too late, and the way took at least half of the time.
    WaySlow,
    /// The target answered, and the ack did not come to the prober's host.
    AnswerLost,
    /// The ack was at the prober's host in time, and its agent did not look.
    Unread,
}

impl Explanation {
    /// All of them.
    pub const ALL: [Explanation; 7] = [
        Explanation::PingLost,
        Explanation::Refused,
        Explanation::Silent,
        Explanation::AnswerLate,
        Explanation::WaySlow,
        Explanation::AnswerLost,
        Explanation::Unread,
    ];

    /// A few words: `ping lost`.
    pub fn words(self) -> &'static str {
        match self {
            Explanation::PingLost => "ping lost",
            Explanation::Refused => "refused",
            Explanation::Silent => "silent",
            Explanation::AnswerLate => "answer late",
            Explanation::WaySlow => "way slow",
            Explanation::AnswerLost => "answer lost",
            Explanation::Unread => "unread",
        }
    }
}
