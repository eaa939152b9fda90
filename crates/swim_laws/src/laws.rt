//! Laws about the definitions of a table and of a view. Each is the contract of a function that
//! does nothing.
ghost use Rattle.std.specs.Prelude.{◌≡◌, ◌≢◌, ◌↔◌, ◌⊎◌, ◌<◌, ◌≤◌, ℕ, Bool, true, false, List, Option, Some, None, Contains, IsSome};
ghost use Rattle.swim_claim.specs.declared.claim.Claim.{Claim};
ghost use Rattle.swim_claim.specs.declared.claim.Claim.TheVariants.{Alive};
ghost use Rattle.swim_claim.specs.Details.{DetailsValue};
ghost use Rattle.swim_table.specs.Standing.{Standing};
ghost use Rattle.swim_table.specs.Table.{Entries, TableOf, get};
ghost use Rattle.memberlist_view.specs.declared.entry.Entry.{Entry};
ghost use Rattle.memberlist_view.specs.declared.heard.Heard.{Heard};
ghost use Rattle.memberlist_view.specs.declared.heard.Said.{Said};
ghost use Rattle.memberlist_view.specs.declared.heard.Said.TheVariants.{Dead};
ghost use Rattle.memberlist_view.specs.Heard.{about, said_in_packet, said_in_record};
ghost use Rattle.memberlist_view.specs.Member.{member_view_after, view_without_dropped};
ghost use Rattle.memberlist_view.specs.Rules.{are_sound_versions, is_gone};
ghost use Rattle.memberlist_view.specs.Shown.{shown};
ghost use Rattle.memberlist_view.specs.Sources.{Was};
ghost use Rattle.memberlist_view.specs.Told.{ViewValue, IsAscending, entry_of};
ghost use Rattle.swim_laws.specs.Above.{is_claimed, TookIn, Has, IsStateBelow, AreDetailsBelow, IsFinalFrom, IsFinalOrFrom};
ghost use Rattle.swim_laws.specs.Claims.{claim_of, claims_of};
ghost use Rattle.swim_laws.specs.Living.{IsOneLife, IsFounded, IsAfterAlives, IsSame, IsSameThroughout};
ghost use Rattle.swim_laws.specs.Nodes.{node_at, IsOfMember, Becomes};
ghost use Rattle.swim_laws.specs.Places.{IsAtOnePlace, IsHomeAt};
ghost use Rattle.swim_laws.specs.Runs.{Runs, AreInOrder, last_time, member_view};
ghost use Rattle.swim_laws.specs.State.{Node, Handles, Resets, TimesOut};

/// Who hears a claim in a record of a stream, or in a packet in anybody's name, hears this claim
/// and no other; and the claims that were heard are those of all that was heard.
pub fn claims_are_heard()
    ensures in_record { (c : Claim) (joins : Bool) → claim_of (said_in_record c joins) ≡ Some c }
    ensures in_packet { (c : Claim) (from : Option (List ℕ))
        → claim_of (said_in_packet c from) ≡ Some c }
    ensures all { (heard : List Heard) (c : Claim)
        → Contains (claims_of heard) c ↔ Was heard (λ h. claim_of h.said ≡ Some c) }
{}

/// A view shows nothing above a table that took in the same claims, and maybe more. Whatever state
/// it shows for a name was claimed at that incarnation, and the claim does not override the table's
/// top. So a member that it shows as dead, or as one that left, is dead or has left in the table,
/// at no lower incarnation; one that it shows as alive or suspected is dead or has left there, or
/// is at no lower incarnation. Details were claimed in an Alive that does not override the table's
/// home.
pub fn never_above()
    ensures state { (wait : ℕ) (heard : List Heard) (name : List ℕ) (entry : Entry)
        (table : Entries) → TookIn table (claims_of heard) → shown wait heard name ≡ Some entry
        → is_claimed entry.state ≡ true → Has table name (IsStateBelow heard name entry) }
    ensures gone { (wait : ℕ) (heard : List Heard) (name : List ℕ) (entry : Entry)
        (table : Entries) → TookIn table (claims_of heard) → shown wait heard name ≡ Some entry
        → is_gone entry.state ≡ true → Has table name (IsFinalFrom entry.inc) }
    ensures here { (wait : ℕ) (heard : List Heard) (name : List ℕ) (entry : Entry)
        (table : Entries) → TookIn table (claims_of heard) → shown wait heard name ≡ Some entry
        → is_claimed entry.state ≡ true → Has table name (IsFinalOrFrom entry.inc) }
    ensures details { (wait : ℕ) (heard : List Heard) (name : List ℕ) (entry : Entry)
        (table : Entries) (details : DetailsValue) → TookIn table (claims_of heard)
        → shown wait heard name ≡ Some entry → entry.details ≡ Some details
        → Has table name (AreDetailsBelow heard name details) }
{}

/// If all Alives of a name are at one address and port, the details that a view shows for it are at
/// those of the home that a table of the same claims has. The view has details if the home has
/// sound versions and is above incarnation 0, and also at 0 while the member is not dead and has
/// not left.
pub fn one_place()
    ensures same { (wait : ℕ) (heard : List Heard) (name : List ℕ) (entry : Entry)
        (table : Entries) (details : DetailsValue) → IsAtOnePlace name (claims_of heard)
        → TableOf table (claims_of heard) → shown wait heard name ≡ Some entry
        → entry.details ≡ Some details → Has table name (IsHomeAt details) }
    ensures known { (wait : ℕ) (heard : List Heard) (name : List ℕ) (entry : Entry)
        (table : Entries) (standing : Standing) (inc : ℕ) (details : DetailsValue)
        → TableOf table (claims_of heard) → get table name ≡ Some standing
        → standing.home ≡ Some (Alive name inc details) → are_sound_versions details.vsn ≡ true
        → shown wait heard name ≡ Some entry → (0 < inc) ⊎ (is_gone entry.state ≡ false)
        → IsSome entry.details }
{}

/// If nothing was claimed of a name but Alives with sound versions, at one place, and suspicions
/// that are founded, a view and a table of the same claims show the same for it, whatever the times
/// are. For that it is enough that each suspicion comes after an Alive of at least its incarnation;
/// and where they show the same after each thing that was heard, all suspicions are founded.
pub fn the_same_where_nobody_died()
    ensures same { (wait : ℕ) (heard : List Heard) (name : List ℕ) (table : Entries)
        → TableOf table (claims_of heard) → IsOneLife name (claims_of heard)
        → IsFounded name (claims_of heard) → IsSame (shown wait heard name) (get table name) }
    ensures enough { (name : List ℕ) (claims : List Claim) → IsAfterAlives name claims
        → IsFounded name claims }
    ensures needed { (wait : ℕ) (heard : List Heard) (name : List ℕ)
        → IsSameThroughout wait heard name → IsFounded name (claims_of heard) }
{}

/// What a member shows for a name, after any list of things heard at times that do not go back, is
/// a run of memberlist's state.go in which no timer ends. At each step the node of the name becomes
/// what handling makes of it, and those of other names stay. Whoever was dead, or had left, for
/// longer than the wait is forgotten at once; and what a view is told to forget, resetNodes
/// forgets.
pub fn a_member_hears_as_state_go()
    ensures run { (wait : ℕ) (heard : List Heard) (name : List ℕ) → AreInOrder 0 heard
        → Runs wait name 0 None heard (last_time 0 heard)
        (node_at wait (last_time 0 heard) (entry_of (member_view wait heard) name)) }
    ensures step { (view : ViewValue) (heard : Heard) (name : List ℕ) → about heard.said ≡ name
        → IsOfMember (entry_of view name) → Becomes view.wait heard.time name heard.said
        (node_at view.wait heard.time (entry_of view name))
        (node_at view.wait heard.time (entry_of (member_view_after view heard) name)) }
    ensures others { (view : ViewValue) (heard : Heard) (name : List ℕ) → about heard.said ≢ name
        → entry_of (member_view_after view heard) name ≡ entry_of view name }
    ensures member { (view : ViewValue) (heard : Heard) (name : List ℕ)
        → IsOfMember (entry_of view name)
        → IsOfMember (entry_of (member_view_after view heard) name) }
    ensures waits { (wait time later : ℕ) (entry : Option Entry) → time ≤ later
        → Resets wait later (node_at wait time entry) (node_at wait later entry) }
    ensures forgets { (view : ViewValue) (time : ℕ) (name : List ℕ) → IsAscending view.entries
        → Resets view.wait time (node_at view.wait time (entry_of view name))
        (node_at view.wait time (entry_of (view_without_dropped view time) name)) }
{}

/// What state.go makes of a node when it handles something is one thing only. When a timer ends, it
/// is as if a death was heard in the member's own name.
pub fn state_go_has_one_answer()
    ensures one { (name : List ℕ) (time : ℕ) (said : Said) (old new other : Option Node)
        → Handles name time said old new → Handles name time said old other → new ≡ other }
    ensures timer { (name own : List ℕ) (time : ℕ) (node : Node) (new : Option Node) → own ≢ name
        → TimesOut time (Some node) new
        → Handles name time (Dead name node.inc (Some own)) (Some node) new }
{}
