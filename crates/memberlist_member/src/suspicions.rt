//! The members that are suspected.

ghost use Rattle.std.specs.Prelude.{◌≡◌, ◌≢◌, ◌+◌, ◌≤◌, ◌∷◌, ◌++◌, ℕ, [], All, Any, IfNone, IfSome};
ghost use Rattle.std.specs.Prelude.{IsPermutation, List, OnErr, OnOk, count_by, find, length, position};
ghost use Rattle.std.specs.Bool.{OnFalse, OnTrue};
ghost use Rattle.std.specs.Option.{option_copied};
ghost use Rattle.memberlist_member.specs.Lists.{without_first};
ghost use Rattle.memberlist_member.specs.Probes.{first_of};
ghost use Rattle.memberlist_member.specs.Suspects.{IsDueBy, IsLater, IsNotBefore, IsOver};
ghost use Rattle.memberlist_member.specs.Suspects.{is_suspect, wanted_of};

use crate::suspicion::Suspicion;
use memberlist_view::{MemberName, State, View};
use std::alloc::{AllocError, Global};

/// A member that is suspected, and for how long.
#[derive(Drop)]
struct Suspect {
    name: MemberName,
    suspicion: Suspicion,
}

/// The members that are suspected, each once. Since when and by whom, the view says.
#[derive(Drop)]
pub(crate) struct Suspicions {
    list: Vec<Suspect>,
    ghost apart: { (name : List ℕ) → count_by (is_suspect name) list.items ≤ 1 },
}

impl Suspicions {
    /// None.
    pub(crate) fn new(alloc: Global) -> Suspicions
        ensures { result.list.items ≡ [] }
    {
        Suspicions {
            list: Vec::new(alloc),
        }
    }

    /// Whether the member with this name is suspected.
    pub(crate) fn has(&self, name: &MemberName) -> bool
        ensures once { OnTrue result (count_by (is_suspect name.now) self.now.list.items ≡ 1) }
        ensures none { OnFalse result (count_by (is_suspect name.now) self.now.list.items ≡ 0) }
    {
        match self.place_of(name) {
            Some(_) => true,
            None => false,
        }
    }

    /// The member with this name, which was not suspected, is suspected from now on.
    ///
    /// # Errors
    ///
    /// `AllocError` if out of memory: it is not.
    pub(crate) fn add(&mut self, name: MemberName, suspicion: Suspicion) -> Result<(), AllocError>
        requires new { count_by (is_suspect name) self.old.list.items ≡ 0 }
        ensures added { OnOk result (self.new.list.items
            ≡ self.old.list.items ++ record { name = name; suspicion = suspicion } ∷ []) }
        ensures refused { OnErr result (self.new.list.items ≡ self.old.list.items) }
    {
        self.list.push(Suspect { name, suspicion })?;
        Ok(())
    }

    /// It is suspected no more.
    pub(crate) fn remove(&mut self, name: &MemberName)
        ensures removed { IsPermutation (without_first (is_suspect name.now) self.old.list.items)
            self.new.list.items }
        ensures gone { count_by (is_suspect name.now) self.new.list.items ≡ 0 }
        ensures fewer { length self.new.list.items + count_by (is_suspect name.now)
            self.old.list.items ≡ length self.old.list.items }
        ensures others { (other : List ℕ) → other ≢ name.now
            → count_by (is_suspect other) self.new.list.items
            ≡ count_by (is_suspect other) self.old.list.items }
    {
        if let Some(place) = self.place_of(name) {
            let _ = self.list.swap_remove(place);
        }
    }

    fn place_of(&self, name: &MemberName) -> Option<usize>
        ensures { result ≡ position (is_suspect name.now) self.now.list.items }
    {
        self.list.iter().position(|each| each.name == *name)
    }

    /// How many accusers count, of the member with this name; none if it is not suspected.
    pub(crate) fn wanted(&self, name: &MemberName) -> u32
        ensures wanted { result ≡ wanted_of name.now self.now.list.items }
        ensures few { result ≤ 4 }
    {
        match self.found(name) {
            Some(suspect) => suspect.suspicion.wanted(),
            None => 0,
        }
    }

    fn found(&self, name: &MemberName) -> Option<&Suspect>
        ensures { option_copied result ≡ find (is_suspect name.now) self.now.list.items }
    {
        self.list.iter().find(|each| each.name == *name)
    }

    /// The first whose time is over.
    pub(crate) fn first_due(&self, view: &View, now: u64) -> Option<&MemberName>
        ensures over { IfSome result (λ name. Any (λ suspect.
            (suspect.name ≡ name.now) × IsOver view.now now suspect) self.now.list.items) }
        ensures none { IfNone result (All (IsLater view.now now) self.now.list.items) }
    {
        for suspect in &self.list {
            if due_of(suspect, view) <= now {
                return Some(&suspect.name);
            }
        }
        None
    }

    /// When the time of the next one is over.
    pub(crate) fn wakes_at(&self, view: &View) -> Option<u64>
        ensures one { IfSome result (λ first.
            Any (λ suspect. IsDueBy view.now suspect first) self.now.list.items) }
        ensures first { IfSome result (λ first.
            All (IsNotBefore view.now first) self.now.list.items) }
        ensures none { IfNone result (self.now.list.items ≡ []) }
    {
        let mut first = None;
        for suspect in &self.list {
            first = Some(earlier(first, due_of(suspect, view)));
        }
        first
    }
}

/// The earlier one of two times, or the one that there is.
fn earlier(first: Option<u64>, due: u64) -> u64
    ensures { result ≡ first_of first due }
{
    match first {
        Some(found) => found.min(due),
        None => due,
    }
}

/// When the time of a member that is suspected is over.
fn due_of(suspect: &Suspect, view: &View) -> u64
    ensures { IsDueBy view.now suspect.now result }
{
    let Some(entry) = view.get(&suspect.name) else {
        return 0;
    };
    match &entry.state {
        State::Suspect { by } => suspect.suspicion.due(entry.since, by.names().len()),
        State::Noted | State::Seen | State::Alive | State::Dead { .. } | State::Left => 0,
    }
}
