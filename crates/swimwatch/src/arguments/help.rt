//! The texts of the help and the version, except for those that `clap` makes of the commands.

/// The version of the program, and the tools that proved it.
pub(crate) const VERSION: &str = "0.3.0, proved with rattle-kit-13f, logic dac8208d650f15bf";

pub(crate) const CAPTURE: &str = "A pcap or pcapng file; - is standard input";

pub(crate) const KEY_FILE: &str =
    "A file with keys of the cluster, to decrypt packets; may be given more than once";

pub(crate) const MULT: &str =
    "memberlist's SuspicionMult, by which a suspicion is overdue (local network 4, wide 6) [default: 4]";

pub(crate) const ACCEPT_CLEAR: &str =
    "With keys, believe what is not encrypted too, as while a cluster begins to encrypt";

pub(crate) const PORT: &str =
    "Read only what is sent from or to this port; may be given more than once";

pub(crate) const MERGE: &str = "Make one view of all captures, even if their times overlap";

pub(crate) const FROM: &str =
    "Show only what was captured from this time on (RFC 3339, or 21:13:50 or 21:13 of that day)";

pub(crate) const TO: &str = "Show only what was captured until this time";

pub(crate) const FOR: &str =
    "Listen only for this long, as 60s or 5m, from the first record on, and to a pipe by the clock";

pub(crate) const START: &str = "Begin with the table in this file, as pull --dump writes it";

pub(crate) const WAIT: &str =
    "Seconds after which memberlist forgets a dead member [default: 30, a local network]";

pub(crate) const AT: &str = "Print the members as they were at this time (RFC 3339)";

pub(crate) const ATS: &str = "With one capture, twice: compare the members at these two times";

pub(crate) const MEMBER: &str = "Show only this member";

pub(crate) const JSON: &str = "Print one JSON object on each line";

pub(crate) const HOST: &str =
    "A member: a name or an address, with its port if that is not 7946, as in [fe80::1]:8301";

pub(crate) const SIDE: &str = "A capture, a file with a push/pull stream, or a member";

pub(crate) const TIMEOUT: &str = "Seconds to wait for the answer of a member [default: 5]";

pub(crate) const LABEL: &str = "The label of the cluster, if it has one";

pub(crate) const PULLED_DUMP: &str = "Write the table as one push/pull stream, for swimtab";

pub(crate) const EVENTS: &str =
    "Show only the user events of Serf, and in a timeline its queries too";

pub(crate) const EVERY: &str =
    "Ask again after this time, as 2s or 500ms, and print what changed, until the program is ended";

pub(crate) const COUNT: &str = "With --every: end after asking this often";

pub(crate) const METRICS: &str =
    "With --every: write metrics to this file each time, in Prometheus' text format";

pub(crate) const FORGET: &str =
    "With --every: keep a dead member that no answer names only for this time, as 24h";

pub(crate) const PROBER: &str = "Show only the probes of this member";

pub(crate) const TARGET: &str = "Show only probes of this member by others";

pub(crate) const PAIRS_OF: &str = "Show only the pairs of this member with each other one";

pub(crate) const PROBE_TIMEOUT: &str =
    "memberlist's ProbeTimeout, as 500ms [default: as the captures show it]";

pub(crate) const PROBE_INTERVAL: &str =
    "memberlist's ProbeInterval, as 1s [default: as the captures show it]";

pub(crate) const AGENT_LOG: &str =
    "Say which lines of this log of a member's agent the captures confirm; its times are in UTC";

pub(crate) const PROGRAM: &str = "\
A capture is what tcpdump writes: a pcap or pcapng file. Several are read side by side, by the
times of their records. The last line on standard error says what was read and what was left out.

Examples:
  swimwatch members cluster.pcap
  swimwatch timeline --member web-5 cluster.pcap
  tcpdump -U -w - port 7946 | swimwatch timeline -
  swimwatch pull web-1

Exit status: 0 done, 1 members differ or are silent, or something changed, 2 bad usage or help,
3 input refused, 4 device or connection failed, 5 out of memory";

pub(crate) const MEMBERS: &str = "\
Examples:
  swimwatch members cluster.pcap
  swimwatch members --at 2026-11-25T02:02:01Z cluster.pcap";

pub(crate) const TIMELINE: &str = "\
Examples:
  swimwatch timeline cluster.pcap
  tcpdump -U -w - port 7946 | swimwatch timeline -";

pub(crate) const CLAIMS: &str = "\
Examples:
  swimwatch claims --member web-5 cluster.pcap";

pub(crate) const TALKERS: &str = "\
Examples:
  swimwatch talkers cluster.pcap";

pub(crate) const DUMP: &str = "\
Examples:
  swimwatch dump cluster.pcap > cluster.bin
  swimtab list cluster.bin";

pub(crate) const PROBES: &str = "\
Give it captures of several members if you have them: what one member sent and another one did not
get is then known.

Examples:
  swimwatch probes web-1.pcap web-2.pcap web-3.pcap
  swimwatch probes --target web-5 web-1.pcap";

pub(crate) const HEALTH: &str = "\
Examples:
  swimwatch health web-1.pcap web-2.pcap web-3.pcap";

pub(crate) const WHY: &str = "\
Give it captures of several members if you have them, with a filter that lets refusals through:
port 7946 or icmp or icmp6. A first word that is no file is the only member to tell of.

Examples:
  swimwatch why web-1.pcap web-2.pcap web-3.pcap
  swimwatch why web-5 web-1.pcap";

pub(crate) const SPREAD: &str = "\
Give it captures of several members if you have them: when news came to a member is then known, and
else only when it was sent.

Examples:
  swimwatch spread web-1.pcap web-2.pcap web-3.pcap
  swimwatch spread --member web-5 web-1.pcap";

pub(crate) const DISTANCES: &str = "\
Serf's members put their coordinates into the acks of pings. From them follow the round trips of all
pairs, also of those that one capture never sees talk. Coordinates need some minutes to settle.

Examples:
  swimwatch distances web-1.pcap
  swimwatch distances --target web-5 web-1.pcap";

pub(crate) const REPORT: &str = "\
The page has the members, a chart, the episodes, the probes and the timeline. It needs no network.
Several captures are one view, that of a member which hears all of them.

Examples:
  swimwatch report web-1.pcap web-2.pcap web-3.pcap > incident.html";

pub(crate) const PULL: &str = "\
Asks without joining, so nothing changes in the cluster. Of several members it prints what most of
them report, and below it the names on which they differ and the members that do not answer.

Examples:
  swimwatch pull web-1
  swimwatch pull 10.20.1.11 10.20.1.12 10.20.1.13
  swimwatch pull --every 2s web-1 web-2
  swimwatch pull --events web-1 web-2
  swimwatch pull --key-file keys --dump web-1 > web-1.bin";

pub(crate) const DIFF: &str = "\
Prints which members are new, gone or changed in the second side, compared with the first.
Details that only one side has are not compared.

Examples:
  swimwatch diff before.pcap after.pcap
  swimwatch diff --at 21:13 --at 21:14 cluster.pcap
  swimwatch diff web-1.bin web-1";

pub(crate) const CHART: &str = "\
Examples:
  swimwatch chart cluster.pcap > cluster.svg";
