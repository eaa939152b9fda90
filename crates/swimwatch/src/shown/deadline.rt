//! Which members are shown, and for which moment.

ghost use Rattle.std.specs.Prelude.{◌≡◌, List, map, filter, IfOk};
ghost use Rattle.swimwatch.specs.Members.{is_since, member_of};

use crate::shown::suspicion::longest;
use memberlist_view::{Entry, MemberName, State, View};
use std::alloc::{AllocError, Global};

/// What decides which members are shown, and whether a suspicion is overdue.
#[derive(Clone, Copy)]
pub(crate) struct Deadline {
    /// The moment for which the members are shown.
    pub(crate) now: u64,
    /// Only members whose state began at this moment or later are shown.
    pub(crate) from: Option<u64>,
    /// memberlist's `SuspicionMult`.
    pub(crate) mult: u64,
}

/// A member that is shown.
#[derive(Clone, Copy)]
pub(crate) struct Member<'a> {
    pub(crate) name: &'a MemberName,
    pub(crate) entry: &'a Entry,
}

impl Deadline {
    /// The members that are shown, each once, in ascending byte order of their names.
    pub(crate) fn members<'a>(
        self,
        alloc: Global,
        view: &'a View,
    ) -> Result<Vec<Member<'a>>, AllocError>
        ensures { IfOk result (λ members. map member_of members.items
            ≡ filter (λ e. is_since self.from e.1) view.now.entries) }
    {
        let mut members = Vec::new(alloc);
        for (name, entry) in view.iter() {
            if self.shows(entry) {
                members.push(Member { name, entry })?;
            }
        }
        Ok(members)
    }

    /// Whether a member is shown.
    fn shows(self, entry: &Entry) -> bool
        ensures { result ≡ is_since self.from entry.now }
    {
        match self.from {
            Some(from) => from <= entry.since,
            None => true,
        }
    }

    /// Whether a member was suspected for longer than memberlist suspects one: then its death was
    /// not heard.
    pub(crate) fn is_overdue(self, view: &View, entry: &Entry) -> bool {
        match entry.state {
            State::Suspect { .. } => {
                longest(view.len(), self.mult) < self.now.saturating_sub(entry.since)
            }
            _ => false,
        }
    }
}
