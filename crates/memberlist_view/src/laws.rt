//! Laws about the definitions that the contracts of this crate cite. Each is the contract of a
//! function that does nothing.
ghost use Rattle.std.specs.Prelude.{◌≡◌, ◌↔◌, ◌++◌, ◌∷◌, [], ℕ, List, Some, None, true, IsSome, IfSome};
ghost use Rattle.memberlist_view.specs.declared.entry.Entry.{Entry};
ghost use Rattle.memberlist_view.specs.declared.heard.Heard.{Heard};
ghost use Rattle.memberlist_view.specs.Lasting.{IsRevival, IsStill, IsSince};
ghost use Rattle.memberlist_view.specs.Rules.{is_gone};
ghost use Rattle.memberlist_view.specs.Shown.{shown};
ghost use Rattle.memberlist_view.specs.Sources.{Counts, Was, WasHeard};
ghost use Rattle.memberlist_view.specs.Told.{ViewValue, event_of, view_after, IsViewOf};

/// What was heard has one view, if a dead member is forgotten after one wait.
pub fn one_view()
    ensures { (view other : ViewValue) (heard : List Heard) → view.wait ≡ other.wait
        → IsViewOf view heard → IsViewOf other heard → view ≡ other }
{}

/// There is an event if and only if the view changes.
pub fn events_tell_changes()
    ensures { (view : ViewValue) (heard : Heard)
        → (event_of view heard ≡ None) ↔ (view_after view heard ≡ view) }
{}

/// What is heard again at once is not reported again.
pub fn told_once()
    ensures { (view : ViewValue) (heard : Heard)
        → event_of (view_after view heard) heard ≡ None }
{}

/// A name is shown if and only if anything was heard about it but Alives with invalid versions.
pub fn known_by_what_was_heard()
    ensures { (wait : ℕ) (heard : List Heard) (name : List ℕ)
        → IsSome (shown wait heard name) ↔ Was heard (Counts name) }
{}

/// Whatever is shown for a name was heard about it: the address and all other details, the
/// incarnation, the time, each accuser, who declared it dead, and each rival. A suspicion or a death
/// that names nobody was heard too.
pub fn nothing_invented()
    ensures { (wait : ℕ) (heard : List Heard) (name : List ℕ)
        → IfSome (shown wait heard name) (WasHeard heard name) }
{}

/// A member that is dead or left stays so, at its incarnation, since the same time and with its
/// details, until an Alive of it is heard that is greater at the same address and port, that comes
/// after more than the wait, or that has another address or port than one that left. Only rivals
/// may come; and if no Alive of it was heard before, details, and an address by a packet.
pub fn gone_stays()
    ensures { (wait : ℕ) (past later : List Heard) (name : List ℕ) (entry : Entry)
        → shown wait past name ≡ Some entry → is_gone entry.state ≡ true
        → ¬ Was later (IsRevival wait name entry)
        → (after : Entry) × (shown wait (past ++ later) name ≡ Some after) × IsStill entry after }
{}

/// The time of an entry is that of the last change of its state: whatever is heard, the state is
/// the same since then, or is another one since now.
pub fn since_the_last_change()
    ensures { (wait : ℕ) (past : List Heard) (heard : Heard) (name : List ℕ)
        → IfSome (shown wait (past ++ heard ∷ []) name)
        (IsSince (shown wait past name) heard.time) }
{}
