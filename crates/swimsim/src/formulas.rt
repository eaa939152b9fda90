//! What theory says of a cluster.

use memberlist_member::{milli_log, retransmit_limit, suspicion_timeout};
use std::fmt;

/// What theory says of a cluster of so many members with memberlist's configuration for a local
/// network: a probe each second, gossip to three each 200 ms.
#[derive(Clone, Copy, Debug)]
pub(crate) struct Formulas {
    members: u32,
}

/// Thousandths of 1 / (1 - 1/e), the expected number of protocol periods until some member probes one
/// that failed (SWIM, section 4.1), in a large cluster.
const DETECTION: u64 = 1582;

impl Formulas {
    pub(crate) fn of(members: u32) -> Formulas {
        Formulas {
            members: members.max(1),
        }
    }

    /// For how many milliseconds a member is suspected at least, once three suspect it (Lifeguard).
    pub(crate) fn suspicion(self) -> u64 {
        suspicion_timeout(4, self.members, 1000) / 1000
    }

    /// The binary logarithm, rounded up: in so many rounds news could double to all members.
    fn rounds(self) -> u32 {
        let mut rounds = 0u32;
        for power in 0..32u32 {
            if 1u64 << power < u64::from(self.members) {
                rounds = power.saturating_add(1);
            }
        }
        rounds
    }

    /// Hundredths of the natural logarithm.
    fn natural(self) -> u64 {
        u64::from(milli_log(self.members.max(1))).saturating_mul(2303) / 10_000
    }
}

impl fmt::Display for Formulas {
    fn fmt<W: fmt::Write>(&self, f: &mut fmt::Formatter<W>) -> fmt::Result {
        let natural = self.natural();
        write!(
            f,
            "formula, {} members: 2 datagrams/s (ping, ack) without news or loss; some member probes a failed one \
             after {DETECTION} ms, a given one after at most {} periods; suspected {} ms at least, {} ms at \
             most; news in log2 N = {} rounds of 200 ms = {} ms, ln N = {}.{:02} rounds = {} ms, each {} times",
            self.members,
            u64::from(self.members).saturating_mul(2).saturating_sub(1),
            self.suspicion(),
            self.suspicion().saturating_mul(6),
            self.rounds(),
            u64::from(self.rounds()).saturating_mul(200),
            natural / 100,
            natural % 100,
            natural.saturating_mul(2),
            retransmit_limit(4, self.members),
        )
    }
}
