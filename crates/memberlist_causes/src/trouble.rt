//! Trouble: probes without an answer in time, and what explains them.

use crate::{Case, Cause, Evidence, Member};
use std::alloc::{AllocError, Global};

/// Whom a cause is about.
#[derive(Drop)]
pub enum Of {
    One(Member),
    /// Each of them, or the way between two.
    Several(Vec<Member>),
    /// Groups that do not hear each other.
    Groups(Vec<Vec<Member>>),
}

impl Of {
    /// Whether it is about the member.
    pub(crate) fn has(&self, member: Member) -> bool {
        match self {
            Of::One(only) => *only == member,
            Of::Several(members) => members.contains(&member),
            Of::Groups(groups) => groups.iter().any(|group| group.contains(&member)),
        }
    }
}

/// Probes without an answer in time, and what explains them.
#[derive(Drop)]
pub struct Trouble {
    pub begin: u64,
    pub until: u64,
    pub of: Of,
    pub cause: Cause,
    pub evidence: Vec<Evidence>,
    /// Who probed whom without an answer in time.
    pub legs: Vec<(Member, Member)>,
}

impl Trouble {
    /// Trouble with these probes.
    pub(crate) fn new(
        alloc: Global,
        (begin, until): (u64, u64),
        of: Of,
        cause: Cause,
        cases: &[&Case],
    ) -> Result<Trouble, AllocError> {
        let mut legs = Vec::new(alloc);
        for case in cases {
            legs.push((case.prober, case.target))?;
        }
        Ok(Trouble {
            begin,
            until,
            of,
            cause,
            evidence: Vec::new(alloc),
            legs,
        })
    }

    /// Whether one of the probes is of the member.
    pub(crate) fn probes(&self, member: Member) -> bool {
        self.legs.iter().any(|(_, target)| *target == member)
    }

    /// Whether it began before this time, and all that it stands on.
    pub(crate) fn began_before(&self, time: u64) -> bool {
        let is_earlier = |evidence: &Evidence| match evidence.since() {
            Some(since) => since <= time,
            None => true,
        };
        self.begin <= time && self.evidence.iter().all(is_earlier)
    }
}
