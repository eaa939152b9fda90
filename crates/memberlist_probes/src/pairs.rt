//! What each prober made of its probes of each target.

use crate::captures::Captures;
use crate::timing::Timing;
use crate::{Delays, Explanation, Outcome, Probe};
use std::alloc::{AllocError, Global};
use std::collections::BTreeMap;

/// How many probes had each outcome.
#[derive(Clone, Copy, Default)]
pub struct Outcomes {
    pub answered: u64,
    pub late: u64,
    pub indirect: u64,
    pub tcp: u64,
    pub failed: u64,
    pub open: u64,
}

impl Outcomes {
    /// Counts one.
    pub fn note(&mut self, outcome: Outcome) {
        let count = match outcome {
            Outcome::Answered => &mut self.answered,
            Outcome::Late => &mut self.late,
            Outcome::Indirect => &mut self.indirect,
            Outcome::Tcp => &mut self.tcp,
            Outcome::Failed => &mut self.failed,
            Outcome::Open => &mut self.open,
        };
        *count = count.saturating_add(1);
    }
}

/// Which explanations are left, in the order of [`Explanation::ALL`].
pub type Left = [bool; 7];

/// What one prober made of its probes of one target.
#[derive(Drop)]
pub struct Pair {
    pub probes: u64,
    pub outcomes: Outcomes,
    /// How many members said that they got no answer either.
    pub nacks: u64,
    /// How many acks were there in time, and the prober went on all the same.
    pub unread: u64,
    pub round_trips: Delays,
    /// What may have happened to those without an answer in time, and how often.
    pub maybe: BTreeMap<Left, u64>,
}

/// Who asks, and who is asked.
pub type Names = (Vec<u8>, Vec<u8>);

/// The most pairs that are told apart (own). Probes of others are left out, and counted.
const MAX_PAIRS: usize = 1_048_576;

/// What each prober made of its probes of each target, by their names.
#[derive(Drop)]
pub struct Pairs {
    alloc: Global,
    all: BTreeMap<Names, Pair>,
    left_out: u64,
}

impl Pairs {
    /// None yet.
    pub fn new(alloc: Global) -> Pairs {
        Pairs {
            alloc,
            all: BTreeMap::new(alloc),
            left_out: 0,
        }
    }

    /// Each pair, in the order of their names.
    pub fn all(&self) -> &BTreeMap<Names, Pair> {
        &self.all
    }

    /// How many probes were left out, since there are too many pairs.
    pub fn left_out(&self) -> u64 {
        self.left_out
    }

    /// Notes a probe that is over, of captures that end at this time.
    ///
    /// # Errors
    ///
    /// `AllocError` if out of memory.
    pub fn note(
        &mut self,
        probe: &Probe,
        captures: &Captures,
        timing: &Timing,
        end: u64,
    ) -> Result<(), AllocError> {
        if probe.is_relayed {
            return Ok(());
        }
        let names = (
            probe.prober.to_vec(self.alloc)?,
            probe.target.to_vec(self.alloc)?,
        );
        if !self.all.contains_key(&names) {
            if MAX_PAIRS <= self.all.len() {
                self.left_out = self.left_out.saturating_add(1);
                return Ok(());
            }
            let _ = self.all.insert(
                (names.0.to_vec(self.alloc)?, names.1.to_vec(self.alloc)?),
                Pair::new(self.alloc),
            )?;
        }
        match self.all.get_mut(&names) {
            Some(pair) => pair.note(probe, captures, timing, end),
            None => Ok(()),
        }
    }
}

impl Pair {
    /// Without probes.
    fn new(alloc: Global) -> Pair {
        Pair {
            probes: 0,
            outcomes: Outcomes::default(),
            nacks: 0,
            unread: 0,
            round_trips: Delays::new(alloc),
            maybe: BTreeMap::new(alloc),
        }
    }

    fn note(
        &mut self,
        probe: &Probe,
        captures: &Captures,
        timing: &Timing,
        end: u64,
    ) -> Result<(), AllocError> {
        let outcome = probe.outcome(captures, timing, end);
        let is_unread = outcome == Outcome::Answered && probe.is_unread(captures, timing);
        self.probes = self.probes.saturating_add(1);
        self.outcomes.note(outcome);
        self.nacks = self.nacks.saturating_add(probe.nacks() as u64);
        if is_unread {
            self.unread = self.unread.saturating_add(1);
        }
        if let Some(time) = probe.round_trip(captures) {
            self.round_trips.note(time)?;
        }
        let is_well = matches!(outcome, Outcome::Answered | Outcome::Open);
        if is_well && !is_unread {
            return Ok(());
        }
        let leg = probe.leg(captures, timing);
        let mut left = [false; 7];
        for (place, explanation) in left.iter_mut().zip(Explanation::ALL) {
            *place = leg.may_be(explanation);
        }
        let before = self.maybe.get(&left).copied().unwrap_or(0);
        self.maybe.insert(left, before.saturating_add(1))?;
        Ok(())
    }
}
