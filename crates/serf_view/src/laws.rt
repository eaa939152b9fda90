//! Laws about the definitions that the contracts of this crate cite. Each is the contract of a
//! function that does nothing.

ghost use Rattle.std.specs.Prelude.{◌≡◌, ◌≢◌, ℕ, max, Option, List, false};
ghost use Rattle.serf_message.specs.Coordinates.{CoordinateValue};
ghost use Rattle.serf_view.specs.declared.intents.Intent.{Intent};
ghost use Rattle.serf_view.specs.declared.intents.Standing.{Standing};
ghost use Rattle.serf_view.specs.declared.intents.Standing.TheVariants.{Down};
ghost use Rattle.serf_view.specs.RoundTrip.{magnitude, round_trip_of};
ghost use Rattle.serf_view.specs.Intents.{time_of, is_newer, leave_after, join_after, returned_after};

/// An intent that is heard again is no news, and changes nothing, wherever the member is then.
pub fn told_once()
    ensures leave_news { (known : Option Intent) (time : ℕ)
        → is_newer (leave_after known time) time ≡ false }
    ensures leave { (known : Option Intent) (time : ℕ)
        → leave_after (leave_after known time) time ≡ leave_after known time }
    ensures join_news { (known : Option Intent) (time : ℕ) (standing : Standing)
        → is_newer (join_after known time standing) time ≡ false }
    ensures join { (known : Option Intent) (time : ℕ) (standing later : Standing)
        → join_after (join_after known time standing) time later
        ≡ join_after known time standing }
{}

/// Of two intents about a member that is not down, the order in which they are heard does not count
/// if their times differ; of two of one kind, it never does.
pub fn any_order()
    ensures leaves { (known : Option Intent) (time other : ℕ)
        → leave_after (leave_after known time) other ≡ leave_after (leave_after known other) time }
    ensures joins { (known : Option Intent) (time other : ℕ) (standing later : Standing)
        → standing ≢ Down → later ≢ Down
        → join_after (join_after known time standing) other later
        ≡ join_after (join_after known other standing) time later }
    ensures leave_and_join { (known : Option Intent) (time other : ℕ) (standing later : Standing)
        → standing ≢ Down → later ≢ Down → time ≢ other
        → join_after (leave_after known time) other later
        ≡ leave_after (join_after known other standing) time }
{}

/// The time of what is believed is the greatest that was heard, so it never decreases.
pub fn time_is_the_greatest()
    ensures leave { (known : Option Intent) (time : ℕ)
        → time_of (leave_after known time) ≡ max (time_of known) time }
    ensures join { (known : Option Intent) (time : ℕ) (standing : Standing)
        → time_of (join_after known time standing) ≡ max (time_of known) time }
    ensures returned { (known : Option Intent)
        → time_of (returned_after known) ≡ time_of known }
{}

/// The way between two members takes as long there as back if both have one height and one
/// adjustment. Serf adds these one after the other, so others may differ in the last bit.
pub fn there_and_back()
    ensures places { (here there : List ℕ) → magnitude here there ≡ magnitude there here }
    ensures members { (one other : CoordinateValue) → one.height ≡ other.height
        → one.adjustment ≡ other.adjustment → round_trip_of one other ≡ round_trip_of other one }
{}
