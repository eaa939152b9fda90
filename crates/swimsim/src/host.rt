//! One member, and what became of it.

use crate::agenda::What;
use crate::failure::Failure;
use crate::naming::{details, name};
use memberlist_member::{Config, Cover, Identity, Member, Settings};
use rand_pcg::Pcg32;
use std::alloc::Global;

/// A member is not well for so long after its trouble ended, in microseconds: its longest probe.
const GRACE: u64 = 8_000_000;

/// Whether a member runs.
#[derive(Clone, Copy, Debug, PartialEq, Eq)]
pub(crate) enum Standing {
    Up,
    /// It is stopped, and what comes waits.
    Paused,
    Down,
}

/// What the network does with what a member sends and gets.
#[derive(Clone, Copy, Debug, PartialEq, Eq)]
pub(crate) enum Line {
    Whole,
    /// The datagrams that it sends are lost.
    Mute,
    /// All that it sends is lost.
    OneWay,
    /// All that it sends or gets is lost.
    Cut,
}

/// One member of the cluster.
#[derive(Drop)]
pub(crate) struct Host {
    pub(crate) member: Member,
    pub(crate) standing: Standing,
    pub(crate) line: Line,
    /// Whether it leaves, or has left.
    pub(crate) is_leaving: bool,
    /// Until when what others show of it may be wrong, and what it shows of others.
    troubled_until: u64,
    /// When it wants to be told the time, and when it will be next.
    pub(crate) wake: u64,
    pub(crate) scheduled: u64,
    /// What came while it was stopped.
    pub(crate) waiting: Vec<What>,
    /// Whether it has heard of the change, and whether it has shown the last member as gone.
    pub(crate) has_news: bool,
    pub(crate) has_seen_end: bool,
}

impl Host {
    /// A member that knows nobody yet; a silent one only answers.
    pub(crate) fn new(
        alloc: Global,
        number: u32,
        is_silent: bool,
        now: u64,
        rng: &mut Pcg32,
    ) -> Result<Host, Failure> {
        let identity = Identity {
            name: name(alloc, number)?,
            inc: 1,
            details: details(alloc, number)?,
        };
        let settings = Settings::new(Config {
            is_silent,
            enable_compression: false,
            ..Config::lan()
        })?;
        let member = Member::new(alloc, settings, Cover::none(alloc), identity, now, rng)?;
        Ok(Host {
            member,
            standing: Standing::Up,
            line: Line::Whole,
            is_leaving: false,
            troubled_until: 0,
            wake: 0,
            scheduled: u64::MAX,
            waiting: Vec::new(alloc),
            has_news: false,
            has_seen_end: false,
        })
    }

    /// Whether it runs, and does not leave.
    pub(crate) fn is_here(&self) -> bool {
        self.standing != Standing::Down && !self.is_leaving
    }

    /// Whether it runs in a whole network, and did for some time.
    pub(crate) fn is_well(&self, now: u64) -> bool {
        self.troubled_until <= now
    }

    /// Trouble begins.
    pub(crate) fn trouble(&mut self) {
        self.troubled_until = u64::MAX;
    }

    /// Trouble ends.
    pub(crate) fn recover(&mut self, now: u64) {
        self.troubled_until = now.saturating_add(GRACE);
    }
}
