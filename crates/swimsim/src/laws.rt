//! What must never happen.

use crate::measured::count;
use std::alloc::{AllocError, Global};
use std::collections::BTreeMap;
use std::fmt;

/// The most bytes of a datagram.
pub(crate) const MOST_BYTES: usize = 1400;

/// The type of a compound message.
const COMPOUND: u8 = 7;

/// What must never happen.
#[derive(Clone, Copy, Debug, PartialEq, Eq)]
pub(crate) enum Law {
    /// A datagram is too long.
    Long,
    /// A member declares another one dead before the least time of its suspicion is over.
    Early,
    /// In calm, where each answer comes in time, a member suspects another one.
    Alarm,
    /// A member that does not leave shows itself as not alive.
    Disowned,
    /// A member that was told the time wants to be told it at a time that is past.
    Asleep,
    /// A member answers a datagram with more datagrams than it has messages.
    Many,
}

/// A suspicion: when it began, and for how long it lasts at least, in microseconds.
#[derive(Clone, Copy, Debug)]
struct Begun {
    since: u64,
    least: u64,
}

/// How often each law was broken.
#[derive(Drop)]
pub(crate) struct Laws {
    long: u64,
    early: u64,
    alarms: u64,
    disowned: u64,
    asleep: u64,
    many: u64,
    /// Which was broken first, by whom, and when, in microseconds.
    first: Option<(Law, u32, u64)>,
    /// The suspicions of each member, by who suspects and who is suspected.
    begun: BTreeMap<(u32, u32), Begun>,
}

impl Laws {
    pub(crate) fn new(alloc: Global) -> Laws {
        Laws {
            long: 0,
            early: 0,
            alarms: 0,
            disowned: 0,
            asleep: 0,
            many: 0,
            first: None,
            begun: BTreeMap::new(alloc),
        }
    }

    /// How often laws were broken.
    pub(crate) fn broken(&self) -> u64 {
        self.long
            .saturating_add(self.early)
            .saturating_add(self.alarms)
            .saturating_add(self.disowned)
            .saturating_add(self.asleep)
            .saturating_add(self.many)
    }

    /// A member broke a law.
    pub(crate) fn broke(&mut self, law: Law, number: u32, now: u64) {
        if self.first.is_none() {
            self.first = Some((law, number, now));
        }
        count(match law {
            Law::Long => &mut self.long,
            Law::Early => &mut self.early,
            Law::Alarm => &mut self.alarms,
            Law::Disowned => &mut self.disowned,
            Law::Asleep => &mut self.asleep,
            Law::Many => &mut self.many,
        });
    }

    /// One member suspects another one, from now on, for at least so long.
    pub(crate) fn suspected(
        &mut self,
        pair: (u32, u32),
        since: u64,
        least: u64,
    ) -> Result<(), AllocError> {
        match self.begun.insert(pair, Begun { since, least }) {
            Ok(_) => Ok(()),
            Err(_) => Err(AllocError),
        }
    }

    /// One member does not suspect another one any more.
    pub(crate) fn relieved(&mut self, pair: (u32, u32)) {
        let _ = self.begun.remove(&pair);
    }

    /// One member declared another one dead.
    pub(crate) fn declared(&mut self, pair: (u32, u32), now: u64) {
        match self.begun.remove(&pair) {
            Some(begun) if begun.least <= now.saturating_sub(begun.since) => {}
            _ => self.broke(Law::Early, pair.0, now),
        }
    }
}

/// How many messages are in a datagram in the clear.
pub(crate) fn messages_in(bytes: &[u8]) -> usize {
    match bytes {
        [first, many, ..] if *first == COMPOUND => usize::from(*many),
        _ => 1,
    }
}

impl fmt::Display for Laws {
    fn fmt<W: fmt::Write>(&self, f: &mut fmt::Formatter<W>) -> fmt::Result {
        write!(
            f,
            "broken laws: {} datagrams above {MOST_BYTES} bytes; {} deaths declared before the least \
             time of suspicion; {} suspicions though each answer came in time; ",
            self.long, self.early, self.alarms
        )?;
        write!(
            f,
            "{} times a member that did not leave showed itself as not alive; {} times one that was \
             told the time wanted to be told it at a time that is past; {} times one answered with \
             more datagrams than it got messages",
            self.disowned, self.asleep, self.many
        )?;
        match &self.first {
            Some((law, number, time)) => {
                write!(
                    f,
                    "; first {law:?} by member {number} at {} ms",
                    time / 1000
                )
            }
            None => Ok(()),
        }
    }
}
