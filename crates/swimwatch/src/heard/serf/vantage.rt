//! Where a capture was taken, as its packets tell.

use crate::heard::sent::Sent;
use std::net::IpAddr;

/// How many microseconds of a capture must have passed before what it first sees can be new (own):
/// gossip repeats a message for a few seconds.
const SETTLED: u64 = 5_000_000;

/// The hosts that all packets of a capture have at an end.
#[derive(Clone, Copy, PartialEq, Eq)]
enum Common {
    /// Either of two: all packets were between them.
    Two(IpAddr, IpAddr),
    /// One: the capture was taken there.
    One(IpAddr),
    /// None: the capture was taken between the hosts, and is believed to have all packets.
    Nobody,
}

/// Where a capture was taken, and since when.
#[derive(Clone, Copy)]
pub(crate) struct Vantage {
    begun: u64,
    common: Common,
}

impl Vantage {
    /// That of a capture whose first packet this is.
    pub(crate) fn of(sent: &Sent) -> Vantage {
        Vantage {
            begun: sent.time,
            common: Common::Two(sent.source.ip(), sent.destination.ip()),
        }
    }

    /// Takes in the hosts of a further packet.
    pub(crate) fn note(&mut self, sent: &Sent) {
        let is_end = |host: IpAddr| host == sent.source.ip() || host == sent.destination.ip();
        self.common = match self.common {
            Common::Two(one, other) => match (is_end(one), is_end(other)) {
                (true, true) => Common::Two(one, other),
                (true, false) => Common::One(one),
                (false, true) => Common::One(other),
                (false, false) => Common::Nobody,
            },
            Common::One(one) if is_end(one) => Common::One(one),
            Common::One(_) | Common::Nobody => Common::Nobody,
        };
    }

    /// Whether the capture has all that was sent to the sender, long enough before.
    pub(crate) fn has_all_to(&self, sent: &Sent) -> bool {
        let is_there = match self.common {
            Common::Two(_, _) => false,
            Common::One(host) => host == sent.source.ip(),
            Common::Nobody => true,
        };
        is_there && SETTLED <= sent.time.saturating_sub(self.begun)
    }
}
