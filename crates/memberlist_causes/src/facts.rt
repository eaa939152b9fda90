//! What the captures tell, as far as it is not told yet.

use crate::contacts::Contacts;
use crate::episodes::Episodes;
use crate::restarts::Restarts;
use crate::words::Words;
use crate::{Case, Member, Members};
use memberlist_probes::{Captures, Timing};
use std::alloc::{AllocError, Global};
use std::collections::VecDeque;

/// What the captures tell, as far as it is not told yet.
#[derive(Drop)]
pub(crate) struct Facts {
    pub(crate) alloc: Global,
    pub(crate) members: Members,
    pub(crate) words: Words,
    pub(crate) contacts: Contacts,
    pub(crate) episodes: Episodes,
    pub(crate) restarts: Restarts,
    /// The probes that are over, in the order of their times.
    pub(crate) cases: VecDeque<Case>,
    /// The members at whose hosts captures were taken.
    pub(crate) points: Vec<Member>,
    /// Whether a capture was taken elsewhere.
    pub(crate) is_between: bool,
    /// memberlist's `ProbeTimeout` and `ProbeInterval`, in microseconds.
    pub(crate) timeout: u64,
    pub(crate) interval: u64,
    /// The last time of a packet.
    pub(crate) now: u64,
}

impl Facts {
    /// None yet.
    pub(crate) fn new(alloc: Global) -> Facts {
        Facts {
            alloc,
            members: Members::new(alloc),
            words: Words::new(alloc),
            contacts: Contacts::new(alloc),
            episodes: Episodes::new(alloc),
            restarts: Restarts::new(alloc),
            cases: VecDeque::new(alloc),
            points: Vec::new(alloc),
            is_between: false,
            timeout: 0,
            interval: 0,
            now: 0,
        }
    }

    /// Notes where the captures were taken, and how the cluster is set up.
    pub(crate) fn look(&mut self, captures: &Captures, timing: &Timing) -> Result<(), AllocError> {
        self.timeout = timing.timeout();
        self.interval = timing.interval();
        self.points.clear();
        self.is_between = false;
        for capture in captures.as_slice() {
            match capture.point.host() {
                Some(host) => {
                    if let Some(member) = self.members.at_host(host) {
                        self.points.push(member)?;
                    }
                }
                None => self.is_between = true,
            }
        }
        Ok(())
    }

    /// Whether a capture was taken at the member's host.
    pub(crate) fn is_captured(&self, member: Member) -> bool {
        self.points.contains(&member)
    }

    /// Whether all captures were taken at the member's host.
    pub(crate) fn is_only_captured(&self, member: Member) -> bool {
        let is_it = self.points.iter().all(|point| *point == member);
        is_it && !self.points.is_empty() && !self.is_between
    }

    /// Whether the member's agent was heard between these times, their ends left out.
    pub(crate) fn is_heard(&self, member: Member, from: u64, to: u64) -> bool {
        match self.words.of(member) {
            Some(words) => words.iter().any(|word| from < word.time && word.time < to),
            None => false,
        }
    }

    /// How many datagrams and streams went to the member between these times.
    pub(crate) fn words_to(&self, member: Member, from: u64, to: u64) -> u64 {
        let mut count = 0u64;
        for words in self.words.all().values() {
            let came = words
                .iter()
                .filter(|word| word.to == Some(member) && from < word.time && word.time < to)
                .count();
            count = count.saturating_add(came as u64);
        }
        count
    }

    /// Forgets what was before this time.
    pub(crate) fn forget(&mut self, before: u64) {
        self.words.forget(before);
        self.contacts.forget(before);
        self.episodes.forget(before);
        for _ in 0..self.cases.len() {
            match self.cases.front() {
                Some(case) if case.time < before => {
                    let _ = self.cases.pop_front();
                }
                _ => break,
            }
        }
    }
}
