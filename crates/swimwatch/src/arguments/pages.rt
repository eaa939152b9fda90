//! The commands, their arguments, and what the help says about each.

use crate::arguments::help;
use clap::{Arg, ArgAction, Command};
use std::alloc::{AllocError, Global};

/// An argument that some commands have, in addition to the key files.
#[derive(Clone, Copy)]
enum Flag {
    At,
    Ats,
    From,
    To,
    For,
    Start,
    Wait,
    Mult,
    Port,
    Merge,
    Member,
    Timeout,
    Label,
    Json,
    Dump,
    Events,
    Every,
    Count,
    Metrics,
    Forget,
    Prober,
    Target,
    PairsOf,
    ProbeTimeout,
    ProbeInterval,
    AgentLog,
}

/// The words that a command reads.
#[derive(Clone, Copy)]
enum Inputs {
    Captures,
    Hosts,
    Sides,
}

/// What the help says about a command, and its arguments.
#[derive(Clone, Copy)]
struct Page {
    name: &'static str,
    about: &'static str,
    example: &'static str,
    inputs: Inputs,
    flags: &'static [Flag],
}

/// The program's commands.
const PAGES: [Page; 14] = [
    Page {
        name: "members",
        about: "Prints the members as they are at the end of the captures",
        example: help::MEMBERS,
        inputs: Inputs::Captures,
        flags: &[
            Flag::Wait,
            Flag::Mult,
            Flag::At,
            Flag::From,
            Flag::To,
            Flag::For,
            Flag::Start,
            Flag::Port,
            Flag::Label,
            Flag::Merge,
            Flag::Json,
        ],
    },
    Page {
        name: "timeline",
        about: "Prints each change as it is read: when, who said so, and where",
        example: help::TIMELINE,
        inputs: Inputs::Captures,
        flags: &[
            Flag::Wait,
            Flag::Member,
            Flag::From,
            Flag::To,
            Flag::For,
            Flag::Start,
            Flag::Port,
            Flag::Label,
            Flag::Merge,
            Flag::Events,
            Flag::Json,
        ],
    },
    Page {
        name: "claims",
        about: "Prints each claim about a member as it is read",
        example: help::CLAIMS,
        inputs: Inputs::Captures,
        flags: &[
            Flag::Wait,
            Flag::Member,
            Flag::From,
            Flag::To,
            Flag::For,
            Flag::Port,
            Flag::Label,
            Flag::Json,
        ],
    },
    Page {
        name: "talkers",
        about: "Prints what each sender sent, by kind",
        example: help::TALKERS,
        inputs: Inputs::Captures,
        flags: &[
            Flag::Wait,
            Flag::From,
            Flag::To,
            Flag::For,
            Flag::Port,
            Flag::Label,
            Flag::Json,
        ],
    },
    Page {
        name: "dump",
        about: "Writes the table of all claims as one push/pull stream, for swimtab",
        example: help::DUMP,
        inputs: Inputs::Captures,
        flags: &[Flag::Wait, Flag::For, Flag::Port, Flag::Label],
    },
    Page {
        name: "chart",
        about: "Draws who was in the cluster, and in what state (SVG)",
        example: help::CHART,
        inputs: Inputs::Captures,
        flags: &[
            Flag::Wait,
            Flag::Member,
            Flag::From,
            Flag::To,
            Flag::For,
            Flag::Start,
            Flag::Port,
            Flag::Label,
        ],
    },
    Page {
        name: "probes",
        about: "Prints what each member made of its probes of each other one",
        example: help::PROBES,
        inputs: Inputs::Captures,
        flags: &[
            Flag::Prober,
            Flag::Target,
            Flag::From,
            Flag::To,
            Flag::For,
            Flag::Port,
            Flag::Label,
            Flag::ProbeTimeout,
            Flag::ProbeInterval,
            Flag::Json,
        ],
    },
    Page {
        name: "health",
        about: "Prints how healthy each member is, as its probes tell",
        example: help::HEALTH,
        inputs: Inputs::Captures,
        flags: &[
            Flag::Member,
            Flag::From,
            Flag::To,
            Flag::For,
            Flag::Port,
            Flag::Label,
            Flag::ProbeTimeout,
            Flag::ProbeInterval,
            Flag::Json,
        ],
    },
    Page {
        name: "why",
        about: "Prints why members were suspected, as each suspicion ends",
        example: help::WHY,
        inputs: Inputs::Captures,
        flags: &[
            Flag::Member,
            Flag::AgentLog,
            Flag::From,
            Flag::To,
            Flag::For,
            Flag::Port,
            Flag::Label,
            Flag::ProbeTimeout,
            Flag::ProbeInterval,
            Flag::Json,
        ],
    },
    Page {
        name: "spread",
        about: "Prints when each member first heard or said each piece of news",
        example: help::SPREAD,
        inputs: Inputs::Captures,
        flags: &[
            Flag::Member,
            Flag::From,
            Flag::To,
            Flag::For,
            Flag::Port,
            Flag::Label,
            Flag::Json,
        ],
    },
    Page {
        name: "distances",
        about: "Prints how long the way between members takes, as their coordinates tell",
        example: help::DISTANCES,
        inputs: Inputs::Captures,
        flags: &[
            Flag::PairsOf,
            Flag::From,
            Flag::To,
            Flag::For,
            Flag::Port,
            Flag::Label,
            Flag::Json,
        ],
    },
    Page {
        name: "report",
        about: "Writes one page about all of it, for a browser (HTML)",
        example: help::REPORT,
        inputs: Inputs::Captures,
        flags: &[
            Flag::Wait,
            Flag::Mult,
            Flag::Member,
            Flag::From,
            Flag::To,
            Flag::For,
            Flag::Start,
            Flag::Port,
            Flag::Label,
            Flag::ProbeTimeout,
            Flag::ProbeInterval,
        ],
    },
    Page {
        name: "pull",
        about: "Asks live members for their tables, and prints whether they agree",
        example: help::PULL,
        inputs: Inputs::Hosts,
        flags: &[
            Flag::Every,
            Flag::Count,
            Flag::Metrics,
            Flag::Forget,
            Flag::Events,
            Flag::Timeout,
            Flag::Label,
            Flag::Json,
            Flag::Dump,
        ],
    },
    Page {
        name: "diff",
        about: "Prints what changed between two captures, streams or members",
        example: help::DIFF,
        inputs: Inputs::Sides,
        flags: &[
            Flag::Ats,
            Flag::Wait,
            Flag::Timeout,
            Flag::Label,
            Flag::Json,
        ],
    },
];

/// The program with its commands.
pub(crate) fn command<'a>(alloc: Global) -> Result<Command<'a>, AllocError> {
    let mut command = Command::new(alloc, "swimwatch")
        .about("Shows who is in a memberlist cluster, and who said what when")
        .after_help(help::PROGRAM)
        .version(help::VERSION)
        .no_binary_name(true)
        .disable_help_subcommand(true);
    for page in PAGES {
        command = command.subcommand(page_command(alloc, page)?)?;
    }
    command.bin_name("swimwatch")
}

fn page_command<'a>(alloc: Global, page: Page) -> Result<Command<'a>, AllocError> {
    let keys = option(alloc, "key-file", "FILE", help::KEY_FILE).action(ArgAction::Append);
    let mut command = Command::new(alloc, page.name)
        .about(page.about)
        .after_help(page.example)
        .arg(keys)?
        .arg(switch(alloc, "accept-clear", help::ACCEPT_CLEAR))?;
    for flag in page.flags {
        command = command.arg(flag_argument(alloc, *flag))?;
    }
    command.arg(input_argument(alloc, page.inputs))
}

/// The argument for the words that a command reads.
fn input_argument<'a>(alloc: Global, inputs: Inputs) -> Arg<'a> {
    let words = Arg::new(alloc, "INPUT").required(true);
    match inputs {
        Inputs::Captures => words
            .value_name("CAPTURE")
            .help(help::CAPTURE)
            .num_args(1..),
        Inputs::Hosts => words.value_name("HOST").help(help::HOST).num_args(1..),
        Inputs::Sides => words.value_name("SIDE").help(help::SIDE).num_args(1..=2),
    }
}

fn flag_argument<'a>(alloc: Global, flag: Flag) -> Arg<'a> {
    match flag {
        Flag::From => option(alloc, "from", "TIME", help::FROM),
        Flag::To => option(alloc, "to", "TIME", help::TO),
        Flag::For => option(alloc, "for", "DURATION", help::FOR),
        Flag::Start => option(alloc, "start", "STREAM", help::START),
        Flag::At => option(alloc, "at", "TIME", help::AT),
        Flag::Ats => option(alloc, "at", "TIME", help::ATS).action(ArgAction::Append),
        Flag::Wait => option(alloc, "wait", "SECONDS", help::WAIT),
        Flag::Port => { option(alloc, "port", "PORT", help::PORT).action(ArgAction::Append) }
        Flag::Merge => switch(alloc, "merge", help::MERGE),
        Flag::Mult => option(alloc, "suspicion-mult", "NUMBER", help::MULT),
        Flag::Member => option(alloc, "member", "NAME", help::MEMBER),
        Flag::Timeout => option(alloc, "timeout", "SECONDS", help::TIMEOUT),
        Flag::Label => option(alloc, "label", "LABEL", help::LABEL),
        Flag::Json => switch(alloc, "json", help::JSON),
        Flag::Dump => switch(alloc, "dump", help::PULLED_DUMP),
        Flag::Events => switch(alloc, "events", help::EVENTS),
        Flag::Every => option(alloc, "every", "TIME", help::EVERY),
        Flag::Count => option(alloc, "count", "NUMBER", help::COUNT),
        Flag::Metrics => option(alloc, "metrics", "FILE", help::METRICS),
        Flag::Forget => option(alloc, "forget", "DURATION", help::FORGET),
        Flag::Prober => option(alloc, "prober", "NAME", help::PROBER),
        Flag::Target => option(alloc, "target", "NAME", help::TARGET),
        Flag::PairsOf => option(alloc, "target", "NAME", help::PAIRS_OF),
        Flag::ProbeTimeout => option(alloc, "probe-timeout", "TIME", help::PROBE_TIMEOUT),
        Flag::ProbeInterval => option(alloc, "probe-interval", "TIME", help::PROBE_INTERVAL),
        Flag::AgentLog => {
            option(alloc, "agent-log", "FILE", help::AGENT_LOG).action(ArgAction::Append)
        }
    }
}

/// An option without a value.
fn switch<'a>(alloc: Global, name: &'static str, help: &'static str) -> Arg<'a> {
    Arg::new(alloc, name)
        .long(name)
        .action(ArgAction::SetTrue)
        .help(help)
}

/// An option with a value.
fn option<'a>(
    alloc: Global,
    name: &'static str,
    value: &'static str,
    help: &'static str,
) -> Arg<'a> {
    Arg::new(alloc, name)
        .long(name)
        .value_name(value)
        .help(help)
}
