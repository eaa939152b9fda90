//! Which connections have been silent for the longest time.

use capture::Ends;
use std::alloc::{AllocError, Global};
use std::collections::BTreeSet;

/// How long one direction of a connection is kept without a segment, in microseconds. memberlist
/// gives a connection 30 seconds at most (`TCPTimeout` of its WAN settings, `config.go`), and Linux
/// keeps a half-open one for 60 seconds (`nf_conntrack_tcp_timeout_syn_recv`).
const SILENCE: u64 = 60_000_000;

/// The most directions of connections that are kept: some 32 MiB of memory if they are half-open.
const MAX_FLOWS: usize = 65_536;

/// One direction of a connection, and since when it may be silent.
#[derive(Clone, Copy, PartialEq, Eq, PartialOrd, Ord)]
pub(crate) struct Due {
    pub(crate) since: u64,
    pub(crate) ends: Ends,
}

/// The open directions of connections, by the times from which on they may be silent.
#[derive(Drop)]
pub(crate) struct Waiting {
    queue: BTreeSet<Due>,
}

impl Waiting {
    pub(crate) fn new(alloc: Global) -> Waiting {
        Waiting {
            queue: BTreeSet::new(alloc),
        }
    }

    pub(crate) fn len(&self) -> usize {
        self.queue.len()
    }

    /// Whether there are more than are kept.
    pub(crate) fn is_full(&self) -> bool {
        MAX_FLOWS < self.queue.len()
    }

    /// Whether the first one may have been silent for too long at this time.
    pub(crate) fn is_due(&self, time: u64) -> bool {
        match self.queue.first() {
            Some(due) => SILENCE < time.saturating_sub(due.since),
            None => false,
        }
    }

    pub(crate) fn add(&mut self, ends: Ends, since: u64) -> Result<(), AllocError> {
        let _ = self.queue.insert(Due { since, ends })?;
        Ok(())
    }

    pub(crate) fn remove(&mut self, ends: Ends, since: u64) {
        let _ = self.queue.remove(&Due { since, ends });
    }

    /// Takes the first one out.
    pub(crate) fn pop(&mut self) -> Option<Due> {
        self.queue.pop_first()
    }
}
