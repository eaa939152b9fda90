//! What was read from captures, and what was left out and why.

use crate::heard::unread::Unread;
use crate::text::written::Text;
use std::alloc::{AllocError, Global};
use std::net::IpAddr;
use swim_program::fault_name;
use swim_wire::WireFault;

/// How often each thing occurred.
#[derive(Clone, Copy, Default)]
pub(crate) struct Counts {
    /// Records of the captures.
    pub(crate) records: u64,
    /// Datagrams.
    pub(crate) datagrams: u64,
    /// Datagrams that make claims.
    pub(crate) claiming: u64,
    /// Streams that are pings, acks, user messages or errors.
    pub(crate) other_streams: u64,
    /// Push/pull streams.
    pub(crate) streams: u64,
    /// Packets and streams that are encrypted, and that no key decrypts.
    pub(crate) closed: u64,
    /// Packets and streams in the clear that are refused because there are keys.
    pub(crate) unencrypted: u64,
    /// Who sent the first of them.
    pub(crate) unencrypted_from: Option<IpAddr>,
    /// Frames from and to other ports than those asked for.
    pub(crate) other_ports: u64,
    /// Packets of clusters with other labels.
    pub(crate) other_labels: u64,
    /// The two ports of one address at which a name was claimed.
    pub(crate) mixed: Option<(u16, u16)>,
    /// Parts of packets that are no messages.
    pub(crate) unread: u64,
    /// Streams that members refuse for the versions in their records.
    pub(crate) misversed: u64,
    /// Streams with an invalid record.
    pub(crate) invalid: u64,
    /// What is wrong with the first of them.
    pub(crate) first_invalid: Option<WireFault>,
    /// Datagrams and connections that are not memberlist's.
    pub(crate) foreign: u64,
    /// Connections with missing bytes.
    pub(crate) gaps: u64,
    /// Directions of connections that were closed after a long silence, before a stream was complete.
    pub(crate) silent: u64,
    /// Directions of connections that were closed because there were too many, before a stream was
    /// complete.
    pub(crate) dropped: u64,
    /// Frames that do not carry IP.
    pub(crate) not_ip: u64,
    /// Fragments.
    pub(crate) fragments: u64,
    /// Packets wrapped in GRE.
    pub(crate) gre: u64,
    /// Packets of IP in packets of IP.
    pub(crate) ip_in_ip: u64,
    /// Packets wrapped in MPLS.
    pub(crate) mpls: u64,
    /// Packets that were seen on a second interface.
    pub(crate) twice: u64,
    /// Packets that are neither UDP nor TCP.
    pub(crate) others: u64,
    /// Frames that the capture cut short.
    pub(crate) cut: u64,
    /// Frames with invalid headers.
    pub(crate) malformed: u64,
    /// Records without a time.
    pub(crate) timeless: u64,
    /// Records after the requested moment.
    pub(crate) later: u64,
    /// Claims that were not followed as news, since there was too much of it.
    pub(crate) crowded: u64,
    /// Frames of a link type that is not read.
    pub(crate) unknown_links: u64,
    /// Payloads of acks that are no coordinate.
    pub(crate) placeless: u64,
    /// Members whose distances are not shown, since there are too many.
    pub(crate) apart: u64,
    /// User messages and states that are not Serf's.
    pub(crate) users: Unread,
}

/// Adds a number, up to the greatest one.
fn add(number: &mut u64, more: u64) {
    *number = number.saturating_add(more);
}

/// Adds one, up to the greatest number.
pub(crate) fn count(number: &mut u64) {
    *number = number.saturating_add(1);
}

impl Counts {
    /// Adds what another view counted.
    pub(crate) fn add(&mut self, other: &Counts) {
        add(&mut self.records, other.records);
        add(&mut self.datagrams, other.datagrams);
        add(&mut self.claiming, other.claiming);
        add(&mut self.other_streams, other.other_streams);
        add(&mut self.streams, other.streams);
        add(&mut self.closed, other.closed);
        add(&mut self.unencrypted, other.unencrypted);
        add(&mut self.other_ports, other.other_ports);
        add(&mut self.other_labels, other.other_labels);
        add(&mut self.unread, other.unread);
        add(&mut self.misversed, other.misversed);
        add(&mut self.invalid, other.invalid);
        add(&mut self.foreign, other.foreign);
        add(&mut self.gaps, other.gaps);
        add(&mut self.silent, other.silent);
        add(&mut self.dropped, other.dropped);
        add(&mut self.not_ip, other.not_ip);
        add(&mut self.fragments, other.fragments);
        add(&mut self.gre, other.gre);
        add(&mut self.ip_in_ip, other.ip_in_ip);
        add(&mut self.mpls, other.mpls);
        add(&mut self.twice, other.twice);
        add(&mut self.others, other.others);
        add(&mut self.cut, other.cut);
        add(&mut self.malformed, other.malformed);
        add(&mut self.timeless, other.timeless);
        add(&mut self.later, other.later);
        add(&mut self.crowded, other.crowded);
        add(&mut self.unknown_links, other.unknown_links);
        add(&mut self.placeless, other.placeless);
        add(&mut self.apart, other.apart);
        self.users.add(&other.users);
        self.mixed = self.mixed.or(other.mixed);
        self.unencrypted_from = self.unencrypted_from.or(other.unencrypted_from);
        self.first_invalid = self.first_invalid.or(other.first_invalid);
    }

    /// Counts a packet or a stream in the clear that is refused.
    pub(crate) fn refuse(&mut self, source: IpAddr) {
        count(&mut self.unencrypted);
        if self.unencrypted_from.is_none() {
            self.unencrypted_from = Some(source);
        }
    }

    /// Counts a stream with an invalid record.
    pub(crate) fn invalidate(&mut self, fault: WireFault) {
        count(&mut self.invalid);
        if self.first_invalid.is_none() {
            self.first_invalid = Some(fault);
        }
    }

    /// What was read, and what was left out and why, in one line: `670 records; 640 packets, 12
    /// with claims; 24 streams; 3 that no key decrypts; 1 fragmented`.
    pub(crate) fn text(&self, alloc: Global, has_keys: bool) -> Result<String, AllocError> {
        let records = noun(self.records, "record", "records");
        let packets = noun(self.datagrams, "packet", "packets");
        let streams = noun(self.streams, "stream", "streams");
        let mut text = Text::new(alloc);
        write!(
            text,
            "{} {records}; {} {packets}, {} with claims; {} {streams}",
            self.records, self.datagrams, self.claiming, self.streams
        );
        for (number, what) in self.others(has_keys) {
            if number > 0 {
                write!(text, "; {number} {what}");
            }
        }
        if let Some(source) = self.unencrypted_from {
            let number = self.unencrypted;
            write!(
                text,
                "; {number} not encrypted, the first from {source}, and not believed \
                 (--accept-clear believes them)"
            );
        }
        if let Some((one, other)) = self.mixed {
            write!(
                text,
                "; a name is claimed at ports {one} and {other} of one address: --port reads one \
                 cluster"
            );
        }
        if let Some(fault) = self.first_invalid {
            let (number, code) = (self.invalid, fault.number());
            write!(
                text,
                "; {number} with an invalid record, the first with fault {code} {}",
                fault_name(code)
            );
        }
        self.users.write(&mut text);
        text.end()
    }

    /// How often each other thing occurred, with its name.
    fn others(&self, has_keys: bool) -> [(u64, &'static str); 25] {
        let closed = if has_keys {
            "that no key decrypts"
        } else {
            "encrypted (give the keys with --key-file)"
        };
        let other = noun(
            self.other_streams,
            "other message over TCP",
            "other messages over TCP",
        );
        [
            (self.other_streams, other),
            (self.closed, closed),
            (self.foreign, "not from memberlist"),
            (self.unread, "parts of packets unread"),
            (self.misversed, "with versions that members do not share"),
            (self.gaps, "with bytes missing"),
            (self.silent, "still incomplete after 60 s of silence"),
            (
                self.dropped,
                "closed incomplete because more than 65536 were open",
            ),
            (self.not_ip, "not IP"),
            (self.fragments, "fragmented"),
            (self.gre, "in GRE, which is not unwrapped"),
            (self.ip_in_ip, "in IP in IP, which is not unwrapped"),
            (self.mpls, "in MPLS, which is not unwrapped"),
            (self.twice, "seen on a second interface and counted once"),
            (self.others, "neither UDP nor TCP"),
            (self.cut, "cut by the snap length"),
            (self.malformed, "malformed"),
            (self.timeless, "without a time"),
            (self.other_ports, "from and to other ports"),
            (self.other_labels, "with another label"),
            (self.later, "after the --at or --to time"),
            (
                self.crowded,
                "claims left out because there was too much news",
            ),
            (self.unknown_links, "of an unknown link type"),
            (self.placeless, "payloads of acks that are no coordinate"),
            (
                self.apart,
                "members left out because there are too many pairs (--target NAME shows those of \
                 one)",
            ),
        ]
    }
}

/// The noun for this number of things.
pub(crate) fn noun(number: u64, one: &'static str, several: &'static str) -> &'static str {
    if number == 1 { one } else { several }
}
