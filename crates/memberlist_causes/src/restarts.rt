//! Members whose pings begin anew, since another process has their name.

use crate::contacts::{Answer, Contacts};
use crate::evidence::{Evidence, Numbers};
use crate::numbers::{Ping, anew};
use crate::trouble::{Of, Trouble};
use crate::{Cause, Member};
use std::alloc::{AllocError, Global};
use std::collections::{BTreeMap, VecDeque};
use std::net::SocketAddr;

/// How long a member may be away that nobody suspects meanwhile (own), in microseconds.
const UNNOTICED: u64 = 12_000_000;

/// How long after a leave a new process is no surprise (own).
const LEFT: u64 = 60_000_000;

/// A member whose pings begin anew.
#[derive(Clone, Copy)]
pub(crate) struct Restart {
    pub(crate) of: Member,
    /// The last ping of the process before, and the first of the new one.
    pub(crate) before: u64,
    pub(crate) after: u64,
}

/// The last ping from each endpoint of a member, and those that began anew and were not told of. Two
/// processes with one name have two endpoints, and neither began anew.
#[derive(Drop)]
pub(crate) struct Restarts {
    last: BTreeMap<SocketAddr, Ping>,
    pub(crate) all: VecDeque<Restart>,
}

impl Restarts {
    /// None yet.
    pub(crate) fn new(alloc: Global) -> Restarts {
        Restarts {
            last: BTreeMap::new(alloc),
            all: VecDeque::new(alloc),
        }
    }

    /// Takes in a ping of a member, from this endpoint.
    pub(crate) fn ping(
        &mut self,
        of: Member,
        from: SocketAddr,
        ping: Ping,
    ) -> Result<(), AllocError> {
        let Some(before) = self.last.get(&from).copied() else {
            self.last.insert(from, ping)?;
            return Ok(());
        };
        if ping.number == before.number {
            return Ok(());
        }
        if ping.number < before.number {
            let Some(Numbers::Anew { before, after }) = anew(before, ping) else {
                return Ok(());
            };
            if after.saturating_sub(before) <= UNNOTICED {
                self.all.push_back(Restart { of, before, after })?;
            }
        }
        self.last.insert(from, ping)?;
        Ok(())
    }

    /// Forgets those of these members in this time: they are told of.
    pub(crate) fn told(&mut self, trouble: &Trouble, from: u64, to: u64) -> Result<(), AllocError> {
        for _ in 0..self.all.len() {
            let Some(restart) = self.all.pop_front() else {
                break;
            };
            let is_within = from <= restart.after && restart.before <= to;
            if !is_within || !trouble.of.has(restart.of) {
                self.all.push_back(restart)?;
            }
        }
        Ok(())
    }
}

impl Restart {
    /// Whether the process before left the cluster, at the time that is given.
    pub(crate) fn is_after_leave(&self, left: u64) -> bool {
        left <= self.after && self.after.saturating_sub(left) <= LEFT
    }

    /// What is told of it: its host refused, if that was captured, and another process began.
    pub(crate) fn trouble(
        &self,
        alloc: Global,
        contacts: &Contacts,
    ) -> Result<Trouble, AllocError> {
        let from = self.after.saturating_sub(UNNOTICED);
        let (mut times, mut first) = (0u64, self.after);
        for contact in contacts.all() {
            let is_timely = from <= contact.time && contact.time <= self.after;
            if contact.at == self.of && contact.answer == Answer::Refused && is_timely {
                times = times.saturating_add(1);
                first = first.min(contact.time);
            }
        }
        let cause = if times > 0 {
            Cause::ProcessGone
        } else {
            Cause::Restarted
        };
        let span = (self.before.min(first), self.after);
        let mut trouble = Trouble::new(alloc, span, Of::One(self.of), cause, &[])?;
        if times > 0 {
            trouble.evidence.push(Evidence::Refused { times, first })?;
        }
        trouble.evidence.push(Evidence::Numbers(Numbers::Anew {
            before: self.before,
            after: self.after,
        }))?;
        Ok(trouble)
    }
}
