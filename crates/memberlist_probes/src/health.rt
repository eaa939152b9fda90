//! How healthy each member is, as its probes tell.

use crate::captures::Captures;
use crate::timing::Timing;
use crate::{Awareness, Change, Delays, Outcome, Probe};
use std::alloc::{AllocError, Global};
use std::collections::BTreeMap;

/// How healthy a member is.
#[derive(Drop)]
pub struct Health {
    /// How many probes of its own it sent.
    pub probes: u64,
    /// How many of them failed.
    pub failed: u64,
    /// The bounds of its score.
    pub awareness: Awareness,
    /// The worst score that it had at least.
    pub worst: u8,
    /// How many acks were there in time, and it went on all the same.
    pub unread: u64,
    /// How many probes it answered.
    pub answers: u64,
    /// How long it took for that, where it was captured.
    pub own: Delays,
    /// How often it refuted a suspicion or a death of itself.
    pub refutes: u64,
    /// The number of its last ping.
    last: u32,
}

impl Health {
    /// Of a member that sent no probes yet.
    fn new(alloc: Global) -> Health {
        Health {
            probes: 0,
            failed: 0,
            awareness: Awareness::unknown(),
            worst: 0,
            unread: 0,
            answers: 0,
            own: Delays::new(alloc),
            refutes: 0,
            last: 0,
        }
    }

    fn change(&mut self, change: Change) {
        self.awareness = self.awareness.after(change);
        self.worst = self.worst.max(self.awareness.least());
    }
}

/// The greatest number of the first ping of an agent that has just started (own).
const FIRST: u32 = 2;

/// The most members (own). Others are left out.
const MAX_MEMBERS: usize = 1_048_576;

/// How healthy each member is, by its name.
#[derive(Drop)]
pub struct Healths {
    alloc: Global,
    all: BTreeMap<Vec<u8>, Health>,
}

impl Healths {
    /// None yet.
    pub fn new(alloc: Global) -> Healths {
        Healths {
            alloc,
            all: BTreeMap::new(alloc),
        }
    }

    /// Each member, in the order of their names.
    pub fn all(&self) -> &BTreeMap<Vec<u8>, Health> {
        &self.all
    }

    /// That of the member with this name.
    fn of(&mut self, name: &[u8]) -> Result<Option<&mut Health>, AllocError> {
        let key = name.to_vec(self.alloc)?;
        if !self.all.contains_key(&key) {
            if MAX_MEMBERS <= self.all.len() {
                return Ok(None);
            }
            let _ = self
                .all
                .insert(name.to_vec(self.alloc)?, Health::new(self.alloc))?;
        }
        Ok(self.all.get_mut(&key))
    }

    /// Notes that a member refuted a suspicion or a death of itself.
    ///
    /// # Errors
    ///
    /// `AllocError` if out of memory.
    pub fn note_refuted(&mut self, name: &[u8]) -> Result<(), AllocError> {
        if let Some(health) = self.of(name)? {
            health.refutes = health.refutes.saturating_add(1);
            health.change(Change::Refuted);
        }
        Ok(())
    }

    /// Notes a probe that is over, of captures that end at this time.
    ///
    /// # Errors
    ///
    /// `AllocError` if out of memory.
    pub fn note(
        &mut self,
        probe: &Probe,
        captures: &Captures,
        timing: &Timing,
        end: u64,
    ) -> Result<(), AllocError> {
        self.note_answer(probe, captures)?;
        if probe.is_relayed {
            return Ok(());
        }
        let outcome = probe.outcome(captures, timing, end);
        let is_unread = outcome == Outcome::Answered && probe.is_unread(captures, timing);
        let change = match outcome {
            Outcome::Open => None,
            Outcome::Failed => Some(Change::Failed {
                asked: u32::try_from(probe.asked_for_nacks()).unwrap_or(u32::MAX),
                nacks: u32::try_from(probe.nacks()).unwrap_or(u32::MAX),
            }),
            _ => Some(Change::Answered),
        };
        let Some(health) = self.of(&probe.prober)? else {
            return Ok(());
        };
        if probe.seq_no <= FIRST && (health.probes == 0 || probe.seq_no < health.last) {
            health.awareness = Awareness::at_start();
        }
        health.last = probe.seq_no;
        health.probes = health.probes.saturating_add(1);
        if outcome == Outcome::Failed {
            health.failed = health.failed.saturating_add(1);
        }
        if is_unread {
            health.unread = health.unread.saturating_add(1);
        }
        if let Some(change) = change {
            health.change(change);
        }
        Ok(())
    }

    /// Notes that the target answered, if it did.
    fn note_answer(&mut self, probe: &Probe, captures: &Captures) -> Result<(), AllocError> {
        if probe.acked.first().is_none() {
            return Ok(());
        }
        let own = probe.own_time(captures);
        let Some(health) = self.of(&probe.target)? else {
            return Ok(());
        };
        health.answers = health.answers.saturating_add(1);
        match own {
            Some(time) => health.own.note(time),
            None => Ok(()),
        }
    }
}
