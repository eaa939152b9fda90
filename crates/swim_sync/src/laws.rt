//! Laws of exchanges and runs. Each is the contract of a function that does nothing.
ghost use Rattle.std.specs.Prelude.{◌≡◌, ◌↔◌, ◌<◌, ◌≤◌, ◌-◌, ◌*◌, ◌+◌, ◌++◌, ◌∷◌, [], ℕ, Bool, List, Some, Contains, length};
ghost use Rattle.swim_claim.specs.declared.claim.Claim.{Claim};
ghost use Rattle.swim_claim.specs.declared.claim.Claim.TheVariants.{Alive};
ghost use Rattle.swim_claim.specs.Claim.{name_of, Overrides};
ghost use Rattle.swim_pack.specs.Ends.{Source};
ghost use Rattle.swim_wire.specs.Limits.{max_nodes};
ghost use Rattle.swim_wire.specs.Streams.{StreamText};
ghost use Rattle.swim_table.specs.Standing.{Standing};
ghost use Rattle.swim_table.specs.Table.{Entries, TableOf, Same, Reduced, IsLegalTable};
ghost use Rattle.swim_table.specs.Join.{Join, table_of};
ghost use Rattle.swim_table.specs.Dump.{dump_bytes};
ghost use Rattle.swim_table.specs.Listing.{listing};
ghost use Rattle.swim_table.specs.Refuting.{Due, IsNext};
ghost use Rattle.swim_sync.specs.declared.event.Event.{Event};
ghost use Rattle.swim_sync.specs.declared.event.Event.TheVariants.{Hear, HearAll, Exchange, Half, Refute};
ghost use Rattle.swim_sync.specs.Exchanging.{IsSendable, Brings, TakesDump, TakesStream};
ghost use Rattle.swim_sync.specs.Heard.{Member, after, heard, heard_by, refutation};
ghost use Rattle.swim_sync.specs.Levels.{level_list, all_heard};
ghost use Rattle.swim_sync.specs.Paths.{AreTwoNodes, Reaches};

/// Two members that take in the same claims, in any order and grouping and however often, have one
/// table, one listing and one dump. Joining their tables is commutative, associative and
/// idempotent. Every claim shown was taken in, and no claim taken in overrides a state shown. A
/// dump of at most 131,072 records is read back as what it was made from.
pub fn two_members()
    ensures commutative { (table other : Entries) → Join table other ≡ Join other table }
    ensures associative { (table other third : Entries) → TableOf table (Reduced table)
        → TableOf other (Reduced other) → TableOf third (Reduced third)
        → Join (Join table other) third ≡ Join table (Join other third) }
    ensures idempotent { (table : Entries) → TableOf table (Reduced table)
        → Join table table ≡ table }
    ensures tops { (table : Entries) (claims : List Claim) → TableOf table claims
        → (s : Standing) → Contains table s → Contains claims s.top }
    ensures homes { (table : Entries) (claims : List Claim) → TableOf table claims
        → (s : Standing) (a : Claim) → Contains table s → s.home ≡ Some a → Contains claims a }
    ensures stands { (table : Entries) (claims : List Claim) → TableOf table claims
        → (s : Standing) → Contains table s → (c : Claim) → Contains claims c
        → name_of c ≡ name_of s.top → ¬ Overrides c s.top }
    ensures same { (table other : Entries) (claims others : List Claim) → TableOf table claims
        → TableOf other others → Same claims others → table ≡ other }
    ensures one_listing { (table other : Entries) (claims others : List Claim)
        → TableOf table claims → TableOf other others → Same claims others
        → listing table ≡ listing other }
    ensures one_dump { (table other : Entries) (claims others : List Claim) (join : Bool)
        → TableOf table claims → TableOf other others → Same claims others
        → dump_bytes table join ≡ dump_bytes other join }
    ensures read_back { (table : Entries) (join flag : Bool) (claims : List Claim)
        → IsLegalTable table → length (Reduced table) ≤ max_nodes
        → StreamText (dump_bytes table join) claims flag
        → (claims ≡ Reduced table) × (flag ≡ join) }
{}

/// A completed exchange leaves both sides with the join. The dump of each of two tables of at most
/// 131,072 records comes to the other side, with either join flag and any bytes after it, and each
/// side takes one stream in, as [`answer`](crate::answer) and [`finish`](crate::finish) do. Then
/// both tables are the join, which is the table of all claims of which the two were tables. Each
/// side consumed exactly the other one's dump, with its flag, and left the bytes after it. If the
/// bytes of a side's inlet are unknown, as with a socket, the side is the join of what it was and
/// the table of the claims of some stream.
pub fn completed_exchange()
    ensures joins { (first second a b : Entries) → IsSendable first → IsSendable second
        → TakesDump first a second → TakesDump second b first
        → (a ≡ Join first second) × (b ≡ Join first second) }
    ensures all { (first second a b : Entries) → IsSendable first → IsSendable second
        → TakesDump first a second → TakesDump second b first
        → (claims others : List Claim) → TableOf first claims → TableOf second others
        → TableOf a (claims ++ others) × TableOf b (claims ++ others) }
    ensures side { (before after other : Entries) (sent read : Bool) (old new : Source)
        (rest : List ℕ) → IsSendable other → Brings old other sent rest
        → (TakesStream old new before after read
        ↔ ((after ≡ Join before other) × (read ≡ sent) × (new.coming ≡ Some rest))) }
    ensures any_end { (before after : Entries) (read : Bool) (old new : Source)
        → TakesStream old new before after read
        → (text : List ℕ) × (claims : List Claim) × StreamText text claims read
        × (after ≡ Join before (table_of claims)) }
{}

/// A member's refutation is its Alive at the next incarnation if one is due and this incarnation is
/// at most 4,294,967,295, and otherwise nothing.
pub fn refutations()
    ensures due { (member : Member) (claims : List Claim) (inc : ℕ)
        → Due claims member.name member.details → IsNext claims member.name inc → inc ≤ 4294967295
        → refutation member claims ≡ Alive member.name inc member.details ∷ [] }
    ensures none { (member : Member) (claims : List Claim)
        → ((inc : ℕ) → Due claims member.name member.details → IsNext claims member.name inc
        → ¬ (inc ≤ 4294967295))
        → refutation member claims ≡ [] }
    ensures said { (member : Member) (claims : List Claim) (said : Claim)
        → Contains (refutation member claims) said
        → (inc : ℕ) × (said ≡ Alive member.name inc member.details)
        × Due claims member.name member.details
        × IsNext claims member.name inc × (inc ≤ 4294967295) }
{}

/// The list of exchanges that levels a cluster has two exchanges for each node, less three. After
/// it each node has heard exactly what all nodes had heard together, so all have one table.
pub fn levels()
    ensures count { (nodes : ℕ) → 2 ≤ nodes → length (level_list nodes) ≡ 2 * nodes - 3 }
    ensures level { (members : List Member) (start : List (List Claim)) → (k : ℕ) → k < length start
        → Same (heard_by (heard members start (level_list (length start))) k) (all_heard start) }
    ensures one_table { (members : List Member) (start : List (List Claim))
        → (j k : ℕ) (table other : Entries) → j < length start → k < length start
        → TableOf table (heard_by (heard members start (level_list (length start))) j)
        → TableOf other (heard_by (heard members start (level_list (length start))) k)
        → table ≡ other }
{}

/// An event with a number that is not a node's, and an exchange of a node with itself, change
/// nothing. No event adds or removes a node.
pub fn idle_events()
    ensures hear { (members : List Member) (lists : List (List Claim)) (k : ℕ) (claim : Claim)
        → length lists ≤ k → after members lists (Hear k claim) ≡ lists }
    ensures hear_all { (members : List Member) (lists : List (List Claim)) (k : ℕ)
        (claims : List Claim) → length lists ≤ k → after members lists (HearAll k claims) ≡ lists }
    ensures exchange { (members : List Member) (lists : List (List Claim)) (j k : ℕ)
        → ¬ AreTwoNodes (length lists) j k → after members lists (Exchange j k) ≡ lists }
    ensures half { (members : List Member) (lists : List (List Claim)) (j k : ℕ)
        → ¬ AreTwoNodes (length lists) j k → after members lists (Half j k) ≡ lists }
    ensures refute { (members : List Member) (lists : List (List Claim)) (k : ℕ) → length lists ≤ k
        → after members lists (Refute k) ≡ lists }
    ensures nodes { (members : List Member) (start : List (List Claim)) (events : List Event)
        → length (heard members start events) ≡ length start }
{}

/// A node has heard a claim exactly if the claim entered some node, at the start or with an event,
/// and later events lead in turn from that node to this one. So nothing is invented, and nothing
/// that a path carries is lost.
pub fn paths()
    ensures { (members : List Member) (start : List (List Claim)) (events : List Event)
        → (claim : Claim) (k : ℕ)
        → (Contains (heard_by (heard members start events) k) claim
        ↔ Reaches members start events claim k) }
{}

/// Sending the claims that a table keeps has the same effect as sending all claims of which it is
/// the table, whatever was heard before.
pub fn reduced_enough()
    ensures { (table whole : Entries) (claims more : List Claim) → TableOf table claims
        → (TableOf whole (more ++ Reduced table) ↔ TableOf whole (more ++ claims)) }
{}

/// Two nodes that heard the same claims have one table, even in two runs of different events.
pub fn same_heard()
    ensures { (members others : List Member) (start begun : List (List Claim))
        (events happened : List Event) → (j k : ℕ) (table other : Entries)
        → TableOf table (heard_by (heard members start events) j)
        → TableOf other (heard_by (heard others begun happened) k)
        → Same (heard_by (heard members start events) j) (heard_by (heard others begun happened) k)
        → table ≡ other }
{}
