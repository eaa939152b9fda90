//! What the command line asks for.

ghost use Rattle.std.specs.Prelude.{◌≡◌};
ghost use Rattle.swimwatch.specs.Seated.{has_views};

use crate::text::moment::When;
use crate::text::window::Times;
use memberlist_transport::InTheClear;
use std::alloc::Global;
use std::time::Duration;

/// memberlist's `SuspicionMult` in a local network.
pub(crate) const SUSPICION_MULT: u64 = 4;

/// What the program should show.
#[derive(Clone, Copy, PartialEq, Eq)]
pub(crate) enum Verb {
    /// The members, as they are at the end or at a moment.
    Members,
    /// What changed, and when.
    Timeline,
    /// Each claim.
    Claims,
    /// What each sender sent, by kind.
    Talkers,
    /// The dump of the table of all claims.
    Dump,
    /// What members answer when asked.
    Pull,
    /// What changed between two sides.
    Diff,
    /// A picture of who was in the cluster, and in which state.
    Chart,
    /// What each prober made of its probes of each target.
    Probes,
    /// How healthy each member is, as its probes tell.
    Health,
    /// Why members were suspected.
    Why,
    /// When each member first had each piece of news.
    Spread,
    /// How long the way from each member to each other one takes, as coordinates tell.
    Distances,
    /// One page with all of it.
    Report,
}

impl Verb {
    /// The verb with this name.
    pub(crate) fn named(name: &str) -> Option<Verb> {
        match name {
            "members" => Some(Verb::Members),
            "timeline" => Some(Verb::Timeline),
            "claims" => Some(Verb::Claims),
            "talkers" => Some(Verb::Talkers),
            "dump" => Some(Verb::Dump),
            "pull" => Some(Verb::Pull),
            "diff" => Some(Verb::Diff),
            "chart" => Some(Verb::Chart),
            "probes" => Some(Verb::Probes),
            "health" => Some(Verb::Health),
            "why" => Some(Verb::Why),
            "spread" => Some(Verb::Spread),
            "distances" => Some(Verb::Distances),
            "report" => Some(Verb::Report),
            _ => None,
        }
    }

    /// Whether it tells what the failure detectors did.
    pub(crate) fn detects(self) -> bool {
        matches!(self, Verb::Probes | Verb::Health) || self.finds_causes()
    }

    /// Whether it tells why members were suspected.
    pub(crate) fn finds_causes(self) -> bool {
        matches!(self, Verb::Why | Verb::Report)
    }

    /// Whether it sums up probes by prober and target.
    pub(crate) fn counts_probes(self) -> bool {
        self.detects() && self != Verb::Why
    }

    /// Whether it tells of changes as they come, and of Serf's events and queries.
    pub(crate) fn tells_news(self) -> bool {
        matches!(self, Verb::Timeline | Verb::Report)
    }

    /// Whether it shows who leaves, as Serf says.
    pub(crate) fn hears_serf(self) -> bool {
        matches!(self, Verb::Members | Verb::Diff) || self.tells_news()
    }

    /// Whether it shows when an address of a member was last heard.
    pub(crate) fn shows_places(self) -> bool {
        matches!(self, Verb::Members | Verb::Report)
    }

    /// Whether each capture has a view of its own, unless they are merged.
    pub(crate) fn has_views(self) -> bool
        ensures { result ≡ has_views self }
    {
        matches!(self, Verb::Members | Verb::Timeline)
    }

    /// Whether all is gathered for one page.
    pub(crate) fn gathers(self) -> bool {
        self == Verb::Report
    }

    /// What is said if nothing was heard about the only member to show.
    pub(crate) fn lacks_member(self) -> &'static str {
        match self {
            Verb::Why => "nothing was heard about a member of that name, and no file has it",
            Verb::Distances => "no coordinate of the --target name was heard",
            _ => "nothing was heard about the --member name",
        }
    }
}

/// What the arguments ask for.
#[derive(Drop)]
pub(crate) struct Chosen {
    pub(crate) verb: Verb,
    /// The words that name captures, of which `-` is standard input; members to ask; or the two
    /// sides of a comparison.
    pub(crate) inputs: Vec<String>,
    /// The key files, in the order in which their keys are tried.
    pub(crate) key_files: Vec<String>,
    /// The only name to show, if there is one.
    pub(crate) member: Option<Vec<u8>>,
    /// The time that is shown.
    pub(crate) times: Times,
    /// The times at which the members of one capture are compared.
    pub(crate) moments: Vec<When>,
    /// The file with the table to begin with, if there is one.
    pub(crate) start: Option<String>,
    /// How many microseconds memberlist waits before it forgets a dead member.
    pub(crate) wait: u64,
    /// The ports whose traffic is taken in; all if there are none.
    pub(crate) ports: Vec<u16>,
    /// Whether all captures are one view.
    pub(crate) merge: bool,
    /// memberlist's `SuspicionMult`.
    pub(crate) mult: u64,
    /// Whether to show JSON objects.
    pub(crate) json: bool,
    /// Whether to write a dump.
    pub(crate) dump: bool,
    /// Whether to show Serf's user events alone.
    pub(crate) events: bool,
    /// How to ask members.
    pub(crate) asking: Asking,
    /// Whether to ask them again and again.
    pub(crate) following: Option<Following>,
    /// Which probes to show.
    pub(crate) probing: Probing,
    /// The files with the logs of agents.
    pub(crate) agent_logs: Vec<String>,
}

impl Chosen {
    /// With the command alone.
    pub(crate) fn new(alloc: Global, verb: Verb) -> Chosen {
        Chosen {
            verb,
            inputs: Vec::new(alloc),
            key_files: Vec::new(alloc),
            member: None,
            times: Times::default(),
            moments: Vec::new(alloc),
            start: None,
            wait: 0,
            ports: Vec::new(alloc),
            merge: false,
            mult: SUSPICION_MULT,
            json: false,
            dump: false,
            events: false,
            asking: Asking {
                timeout: 0,
                label: Vec::new(alloc),
                clear: InTheClear::Refused,
            },
            following: None,
            probing: Probing::default(),
            agent_logs: Vec::new(alloc),
        }
    }
}

/// Which probes to show, and how their cluster is set up.
#[derive(Default, Drop)]
pub(crate) struct Probing {
    /// The only name that probes, if there is one.
    pub(crate) prober: Option<Vec<u8>>,
    /// The only name that is probed, if there is one.
    pub(crate) target: Option<Vec<u8>>,
    /// memberlist's `ProbeTimeout` in microseconds, if it is given.
    pub(crate) timeout: Option<u64>,
    /// memberlist's `ProbeInterval` in microseconds, if it is given.
    pub(crate) interval: Option<u64>,
}

/// How to ask members, and what to believe.
#[derive(Drop)]
pub(crate) struct Asking {
    /// How many seconds a member may take in total.
    pub(crate) timeout: u64,
    /// The label of the cluster, of at most 255 bytes; empty if it has none.
    pub(crate) label: Vec<u8>,
    /// What becomes of packets, streams and answers in the clear if there are keys.
    pub(crate) clear: InTheClear,
}

/// How to ask members again and again.
#[derive(Drop)]
pub(crate) struct Following {
    /// From the beginning of one round to that of the next.
    pub(crate) every: Duration,
    /// How many rounds there are, if not endlessly many.
    pub(crate) count: Option<u64>,
    /// The file to which metrics are written after each round, if there is one.
    pub(crate) metrics: Option<String>,
    /// How long a name is kept that no answer names, if not for ever.
    pub(crate) forget: Option<Duration>,
}
