//! In which order members are probed (SWIM, section 4.3: round robin).

ghost use Rattle.std.specs.Prelude.{◌≡◌, ◌<◌, ◌≤◌, ◌∷◌, ◌++◌, ◌↔◌, [], Contains, IfSome, IsPermutation};
ghost use Rattle.std.specs.Prelude.{IsSome, OnErr, OnOk, length, slice_get};
ghost use Rattle.std.specs.Option.{is_some, option_copied};
ghost use Rattle.memberlist_view.specs.Told.{entry_of};
ghost use Rattle.memberlist_member.specs.Rounds.{shown_of};

use memberlist_view::{MemberName, View};
use rand::RngExt;
use rand::seq::SliceRandom;
use rand_core::Rng;
use std::alloc::{AllocError, Global};

/// The names of all members, dead ones not yet forgotten among them, in the order in which they are
/// probed.
#[derive(Drop)]
pub(crate) struct Rounds {
    names: Vec<MemberName>,
    /// The index of the next one.
    at: usize,
    ghost within: { at ≤ length names.items },
}

impl Rounds {
    ghost use Rattle.std.specs.Borrow.{sem};
    ghost use Rattle.memberlist_member.specs.Passing.{GoesOn};

    /// No names.
    pub(crate) fn new(alloc: Global) -> Rounds
        ensures names { result.names.items ≡ [] }
        ensures at { result.at ≡ 0 }
    {
        Rounds {
            names: Vec::new(alloc),
            at: 0,
        }
    }

    /// How many members there are (`estNumNodes`).
    pub(crate) fn len(&self) -> usize
        ensures { result ≡ length self.now.names.items }
    {
        self.names.len()
    }

    /// The name at this index, in the order in which they are probed.
    pub(crate) fn get(&self, index: usize) -> Option<&MemberName>
        ensures { option_copied result ≡ slice_get self.now.names.items index }
    {
        self.names.get(index)
    }

    /// A member at random; none if there is none.
    pub(crate) fn any<R: Rng>(&self, rng: &mut R) -> Option<&MemberName>
        ensures some { IsSome result ↔ (0 < length self.now.names.items) }
        ensures among { IfSome result (λ name. Contains self.now.names.items name.now) }
    {
        if self.names.is_empty() {
            return None;
        }
        self.names.get(rng.random_range(0..self.names.len()))
    }

    /// Adds a name at a random place, whose name becomes the last one (`aliveNode`).
    ///
    /// # Errors
    ///
    /// `AllocError` if out of memory: nothing is changed.
    pub(crate) fn add<R: Rng>(&mut self, name: MemberName, rng: &mut R) -> Result<(), AllocError>
        ensures added { OnOk result (IsPermutation (self.old.names.items ++ name ∷ [])
            self.new.names.items) }
        ensures refused { OnErr result (self.new.names.items ≡ self.old.names.items) }
        ensures at { self.new.at ≡ self.old.at }
    {
        self.names.push(name)?;
        let last = self.names.len() - 1;
        let place = rng.random_range(0..self.names.len());
        self.names.swap(place, last);
        Ok(())
    }

    /// The next name of this round; none at its end.
    pub(crate) fn next(&mut self) -> Option<&MemberName>
        ensures* after { sem 𝓛 (GoesOn self.entry) }
        ensures next { option_copied result ≡ slice_get self.old.names.items self.old.at }
    {
        let at = self.at;
        if self.names.len() <= at {
            return None;
        }
        self.at = at + 1;
        self.names.get(at)
    }

    /// Begins another round: of those that the view shows, in another order (`resetNodes`).
    pub(crate) fn begin<R: Rng>(&mut self, view: &View, rng: &mut R)
        ensures names { IsPermutation (shown_of view.now self.old.names.items)
            self.new.names.items }
        ensures at { self.new.at ≡ 0 }
    {
        self.at = 0;
        keep_shown(&mut self.names, view);
        self.names.shuffle(rng);
    }
}

/// Drops the names that the view does not show.
fn keep_shown(names: &mut Vec<MemberName>, view: &View)
    ensures { names.new.items ≡ shown_of view.now names.old.items }
{
    names.retain(
        |name: &MemberName| -> bool
            ensures { result ≡ is_some (entry_of view.entry.now name.now) }
        { view.get(name).is_some() },
    );
}
