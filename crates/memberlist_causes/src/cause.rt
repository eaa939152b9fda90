//! Why probes had no answer in time.

/// Which way between a member and others is meant.
#[derive(Clone, Copy, PartialEq, Eq)]
pub enum Way {
    ToIt,
    FromIt,
}

/// Why probes had no answer in time, as far as the captures tell.
#[derive(Clone, Copy, PartialEq, Eq)]
pub enum Cause {
    /// It was leaving the cluster.
    Left,
    /// Two groups of members did not hear each other.
    Partition,
    /// Several members were not heard at one time, which others did not see for themselves.
    CutOffTogether,
    /// Its host says that no process has the port.
    ProcessGone,
    /// Another process has its name, and nothing says what became of the one before.
    Restarted,
    /// Its host works, or its pings show that it does not, and its agent does nothing.
    Stopped,
    /// Its agent takes too long.
    SlowMember,
    /// The way to it and back takes too long.
    WaySlow,
    /// One of the two.
    SlowMemberOrWay,
    /// TCP passes, and UDP does not.
    UdpBlocked,
    /// Nothing arrives at it.
    HearsNobody,
    /// Nothing comes from it, and nothing comes to it.
    CutOff,
    /// Nothing is heard of it.
    GoneOrCutOff,
    /// What goes one way does not arrive, with some of the others alone or with all.
    OneWay { way: Way, is_some: bool },
    /// What goes one way or the other does not arrive, with some of the others.
    Some,
    /// A part of what goes this way does not arrive.
    Loss(Way),
    /// A part of what goes both ways does not arrive.
    LossBothWays,
    /// A part of it does not arrive.
    LossOfSome,
    /// A part of what goes between two members does not arrive.
    LossBetween,
    /// Too few to tell.
    SingleLosses,
    /// Too few to tell, of a member that is suspected.
    Unknown,
}

impl Cause {
    /// A few words: `process gone`.
    pub fn words(self) -> &'static str {
        match self {
            Cause::Left => "left",
            Cause::Partition => "partition",
            Cause::CutOffTogether => "cut off together",
            Cause::ProcessGone => "process gone",
            Cause::Restarted => "process or host gone, restarted",
            Cause::Stopped => "stopped",
            Cause::SlowMember => "slow member",
            Cause::WaySlow => "way slow",
            Cause::SlowMemberOrWay => "slow member or slow way",
            Cause::UdpBlocked => "UDP blocked",
            Cause::HearsNobody => "hears nobody",
            Cause::CutOff => "cut off",
            Cause::GoneOrCutOff => "host gone or cut off",
            Cause::OneWay { way, is_some } => one_way_words(way, is_some),
            Cause::Some => "one way or both, for some",
            Cause::Loss(Way::ToIt) => "loss to it",
            Cause::Loss(Way::FromIt) => "loss from it",
            Cause::LossBothWays => "loss both ways",
            Cause::LossOfSome => "loss",
            Cause::LossBetween => "loss between",
            Cause::SingleLosses => "single losses",
            Cause::Unknown => "unknown",
        }
    }

    /// Whether little is known: what is told of a pair may say more.
    pub(crate) fn is_weak(self) -> bool {
        matches!(
            self,
            Cause::LossBetween | Cause::SingleLosses | Cause::LossOfSome | Cause::Unknown
        )
    }

    /// Whether loss alone speaks for it, and nothing that the member or its host did.
    pub(crate) fn is_by_loss(self) -> bool {
        self.is_weak() || self.is_of_ways()
    }

    /// Whether it is about the way between two members, so that one pair cannot tell of which.
    pub(crate) fn is_of_ways(self) -> bool {
        matches!(
            self,
            Cause::Loss(_)
                | Cause::LossBothWays
                | Cause::LossOfSome
                | Cause::OneWay { .. }
                | Cause::Some
                | Cause::SingleLosses
                | Cause::Unknown
        )
    }
}

fn one_way_words(way: Way, is_some: bool) -> &'static str {
    match (way, is_some) {
        (Way::ToIt, false) => "one-way to it",
        (Way::FromIt, false) => "one-way from it",
        (Way::ToIt, true) => "one-way to it, for some",
        (Way::FromIt, true) => "one-way from it, for some",
    }
}
