//! Facts about the dump that memberlist merges, independent of any code. Each law is the contract
//! of a function that does nothing.

ghost use Rattle.std.specs.Prelude.{◌≡◌, ◌≤◌, ◌∷◌, [], Bool, ℕ, List, Option, Some, None, Contains, true, length};
ghost use Rattle.swim_claim.specs.declared.claim.Claim.{Claim};
ghost use Rattle.swim_claim.specs.Claim.{inc_of};
ghost use Rattle.swim_wire.specs.Limits.{max_nodes, max_user_state_len};
ghost use Rattle.swim_wire.specs.Streams.{StreamText};
ghost use Rattle.swim_table.specs.MemberlistDump.{are_versions, details_at, later, memberlist_dump_bytes, told, told_of};
ghost use Rattle.swim_table.specs.Standing.{Standing};
ghost use Rattle.swim_table.specs.Table.{Entries, Reduced, IsLegalTable, beside_home};

/// Nothing is told that the table does not keep, and of no member more than one claim. A member
/// whose newest Alive has sound versions is told: by its state, or by that Alive if it came back.
/// Neither is older than what is told.
pub fn one_record_each()
    ensures within { (table : Entries) (c : Claim) → Contains (told_of table) c
        → Contains (Reduced table) c }
    ensures one { (entry : Standing) → length (told entry) ≤ 1 }
    ensures told { (top home : Claim) → are_versions (details_at (Some home)).vsn ≡ true
        → told (record { top = top; home = Some home }) ≡ later top home ∷ [] }
    ensures latest { (top home : Claim)
        → (inc_of home ≤ inc_of (later top home))
        × (beside_home top ≡ top ∷ [] → inc_of top ≤ inc_of (later top home)) }
{}

/// The dump that memberlist merges, of at most 131,072 records and 20,971,520 bytes of user state,
/// is a push/pull stream of the claims that are told and with the join flag, and of no other claims
/// and no other flag.
pub fn memberlist_dump()
    ensures stream { (table : Entries) (join : Bool) (user : List ℕ) → IsLegalTable table
        → length (told_of table) ≤ max_nodes → length user ≤ max_user_state_len
        → StreamText (memberlist_dump_bytes table join user) (told_of table) join }
    ensures no_other { (table : Entries) (join flag : Bool) (user : List ℕ) (claims : List Claim)
        → IsLegalTable table → length (told_of table) ≤ max_nodes
        → length user ≤ max_user_state_len
        → StreamText (memberlist_dump_bytes table join user) claims flag
        → (claims ≡ told_of table) × (flag ≡ join) }
{}
