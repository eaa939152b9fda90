//! What happens when.

use std::fmt;

/// When it happens, in microseconds: the first thing of each scenario.
pub(crate) const START: u64 = 10_000_000;

/// What happens in a run. All but `Calm` also change the metadata of the first member at the start.
#[derive(Clone, Copy, Debug, PartialEq, Eq)]
pub(crate) enum Scenario {
    /// Nothing.
    Calm,
    /// The last member is killed.
    Kill,
    /// The last member is cut off from all others for 60 s.
    Cut,
    /// The last member is stopped for 8 s; what comes waits.
    Pause,
    /// The last member is killed, and begins anew 20 s later.
    Restart,
    /// The datagrams that the last member sends are lost for 15 s.
    Mute,
    /// Whatever the last member sends is lost for 15 s.
    OneWay,
    /// The last member leaves.
    Leave,
    /// The last member is silent: it only answers.
    Silent,
}

/// Something that is done to a member.
#[derive(Clone, Copy, Debug, PartialEq, Eq)]
pub(crate) enum Act {
    /// The first member has other metadata; each other act is of the last member.
    Change,
    Kill,
    Restart,
    Cut,
    Mute,
    OneWay,
    /// Its connection is whole again.
    Mend,
    Pause,
    Resume,
    Leave,
    /// It is seen whether all members show each other rightly.
    Look,
}

const KILL: [(u64, Act); 2] = [(0, Act::Kill), (0, Act::Change)];

const CUT: [(u64, Act); 3] = [(0, Act::Cut), (0, Act::Change), (60, Act::Mend)];

const PAUSE: [(u64, Act); 3] = [(0, Act::Pause), (0, Act::Change), (8, Act::Resume)];

const RESTART: [(u64, Act); 3] = [(0, Act::Kill), (0, Act::Change), (20, Act::Restart)];

const MUTE: [(u64, Act); 3] = [(0, Act::Mute), (0, Act::Change), (15, Act::Mend)];

const ONE_WAY: [(u64, Act); 3] = [(0, Act::OneWay), (0, Act::Change), (15, Act::Mend)];

const LEAVE: [(u64, Act); 2] = [(0, Act::Leave), (0, Act::Change)];

const SILENT: [(u64, Act); 1] = [(0, Act::Change)];

impl Scenario {
    /// The scenario with this name.
    pub(crate) fn named(word: &str) -> Option<Scenario> {
        match word {
            "calm" => Some(Scenario::Calm),
            "kill" => Some(Scenario::Kill),
            "cut" => Some(Scenario::Cut),
            "pause" => Some(Scenario::Pause),
            "restart" => Some(Scenario::Restart),
            "mute" => Some(Scenario::Mute),
            "oneway" => Some(Scenario::OneWay),
            "leave" => Some(Scenario::Leave),
            "silent" => Some(Scenario::Silent),
            _ => None,
        }
    }

    /// How many seconds a run takes if nothing else is said.
    pub(crate) fn seconds(self) -> u64 {
        match self {
            Scenario::Cut => 180,
            _ => 60,
        }
    }

    /// What is done, and how many seconds after the start.
    pub(crate) fn plan(self) -> &'static [(u64, Act)] {
        match self {
            Scenario::Calm => &[],
            Scenario::Kill => &KILL,
            Scenario::Cut => &CUT,
            Scenario::Pause => &PAUSE,
            Scenario::Restart => &RESTART,
            Scenario::Mute => &MUTE,
            Scenario::OneWay => &ONE_WAY,
            Scenario::Leave => &LEAVE,
            Scenario::Silent => &SILENT,
        }
    }
}

impl fmt::Display for Scenario {
    fn fmt<W: fmt::Write>(&self, f: &mut fmt::Formatter<W>) -> fmt::Result {
        let name = match self {
            Scenario::Calm => "calm",
            Scenario::Kill => "kill",
            Scenario::Cut => "cut",
            Scenario::Pause => "pause",
            Scenario::Restart => "restart",
            Scenario::Mute => "mute",
            Scenario::OneWay => "oneway",
            Scenario::Leave => "leave",
            Scenario::Silent => "silent",
        };
        write!(f, "{name}")
    }
}
