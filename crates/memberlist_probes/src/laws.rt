//! Laws about the definitions that the contracts of this crate cite. Each is the contract of a
//! function that does nothing.
ghost use Rattle.std.specs.Prelude.{◌≡◌, ◌≤◌, ◌+◌, ℕ, List};
ghost use Rattle.memberlist_probes.specs.declared.awareness.Change.{Change};
ghost use Rattle.memberlist_probes.specs.Health.{scored, answers, points};

/// A member's score stays within the bounds that held it at first, whatever changes come.
pub fn bounds_hold_the_score()
    ensures { (changes : List Change) (least score greatest : ℕ) → least ≤ score → score ≤ greatest
        → (scored least changes ≤ scored score changes)
        × (scored score changes ≤ scored greatest changes) }
{}

/// Once there were seven answers more than points for faults, the score is known.
pub fn answers_close_the_bounds()
    ensures { (changes : List Change) (least greatest : ℕ) → least ≤ greatest → greatest ≤ 7
        → points changes + 7 ≤ answers changes
        → scored least changes ≡ scored greatest changes }
{}
