//! Whose turn it is, among captures that are read together.

ghost use Rattle.std.specs.Prelude.{◌≡◌, ◌∷◌, ◌↔◌, ◌⊎◌, [], Contains, IfSome, IfNone, OnOk};
ghost use Rattle.swimwatch.specs.Turns.{IsFirst};
ghost use Rattle.swimwatch.specs.declared.input.turns.Turn.{Turn};

use std::alloc::{AllocError, Global};
use std::collections::BTreeSet;

/// The turn of the capture with this index, whose next record was captured at this time. A record
/// without a time comes first. If two have the same time, the first capture comes first.
#[derive(Clone, Copy, PartialEq, Eq, PartialOrd, Ord)]
pub(crate) struct Turn {
    /// Nanoseconds since the start of 1970.
    pub(crate) time: u64,
    pub(crate) place: usize,
}

/// The turns of captures that have records left.
#[derive(Drop)]
pub(crate) struct Turns {
    waiting: BTreeSet<Turn>,
}

impl Turns {
    /// No turns.
    pub(crate) fn new(alloc: Global) -> Turns
        ensures { result.waiting.keys ≡ [] }
    {
        Turns {
            waiting: BTreeSet::new(alloc),
        }
    }

    /// The first turn, if there is one left.
    pub(crate) fn first(&self) -> Option<Turn>
        ensures first { IfSome result (IsFirst self.now.waiting.keys) }
        ensures none { IfNone result (self.now.waiting.keys ≡ []) }
    {
        self.waiting.first().copied()
    }

    /// Ends the first turn.
    pub(crate) fn end(&mut self) -> Option<Turn>
        ensures removal { IfSome result (λ turn. self.old.waiting.keys
            ≡ turn ∷ self.new.waiting.keys) }
        ensures first { IfSome result (IsFirst self.old.waiting.keys) }
        ensures none { IfNone result (self.old.waiting.keys ≡ []) }
    {
        self.waiting.pop_first()
    }

    /// Adds a turn.
    pub(crate) fn wait(&mut self, turn: Turn) -> Result<(), AllocError>
        ensures { OnOk result ((other : Turn) → Contains self.new.waiting.keys other
            ↔ ((turn ≡ other) ⊎ Contains self.old.waiting.keys other)) }
    {
        self.waiting.insert(turn)?;
        Ok(())
    }
}
