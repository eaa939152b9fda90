//! Facts about the definitions, independent of any code.

ghost use Rattle.std.specs.Prelude.{◌≡◌, Bool, List, ℕ, [], ◌++◌, Option, None, Some, IsSome};
ghost use Rattle.swim_claim.specs.declared.claim.Claim.{Claim};
ghost use Rattle.memberlist_wrap.specs.Wrapping.{Unwraps};
ghost use Rattle.memberlist_transport.specs.Packet.{max_message_len};
ghost use Rattle.memberlist_transport.specs.Unwrapped.{IsInside, IsInsideStream, IsInsideReply};
ghost use Rattle.memberlist_transport.specs.declared.in_the_clear.InTheClear.{InTheClear};
ghost use Rattle.swim_table.specs.Listing.{listing};
ghost use Rattle.swim_table.specs.Node.{NodeValue};
ghost use Rattle.swim_table.specs.Table.{Entries, TableOf, Same, Reduced, get};
ghost use Rattle.swim_c.specs.declared.progress.Progress.{Progress};
ghost use Rattle.swim_c.specs.Calls.{Call, Calls, HasHeard, IsIdle, heard, heard_after};
ghost use Rattle.swim_c.specs.Forgetting.{ForgetsName, LetsNameGo};
ghost use Rattle.swim_c.specs.Forms.{Wanted, bytes_in};
ghost use Rattle.swim_c.specs.Progressing.{IsProgressIn};
ghost use Rattle.swim_c.specs.Sealing.{IsSealedPacket, IsSealedStream, IsSealedReply};
ghost use Rattle.swim_c.specs.Taking.{TakesClaims};
ghost use Rattle.swim_c.specs.Unwrapping.{max_stream_len};
ghost use Rattle.swim_c.specs.Watching.{IsNoted, LetsGo, NotesChanges};

/// Progress in a stream stays valid when more bytes follow.
pub fn progress_carries_on()
    ensures { (bytes more : List ℕ) (p : Progress) → IsProgressIn bytes p
        → IsProgressIn (bytes ++ more) p }
{}

/// The keys that encrypted a packet or a stream unwrap it to what is in the message, whatever it is,
/// and whatever becomes of what is in the clear. A packet unwraps to nothing else. A stream with a
/// label is unwrapped whatever label the reader has, a stream without one by a reader without a
/// label, and a reply by a reader with the label that it was encrypted with.
pub fn sealed_is_unwrapped()
    ensures packet { (policy : InTheClear) (keys : List (List ℕ))
        (nonce label message packet inner : List ℕ)
        → IsSealedPacket keys nonce label message packet
        → Unwraps max_message_len message inner → IsInside policy keys packet inner }
    ensures no_other { (policy : InTheClear) (keys : List (List ℕ))
        (nonce label message packet inner : List ℕ)
        → IsSealedPacket keys nonce label message packet
        → IsInside policy keys packet inner → Unwraps max_message_len message inner }
    ensures stream { (policy : InTheClear) (keys : List (List ℕ))
        (nonce label message bytes inner : List ℕ)
        → IsSealedStream keys nonce label message bytes
        → Unwraps max_stream_len message inner
        → IsInsideStream max_stream_len policy keys bytes inner }
    ensures behind { (policy : InTheClear) (keys : List (List ℕ))
        (nonce label own message bytes inner : List ℕ)
        → IsSealedStream keys nonce label message bytes
        → Unwraps max_stream_len message inner → (label ≡ [] → own ≡ [])
        → IsInsideReply max_stream_len policy keys own bytes inner }
    ensures reply { (policy : InTheClear) (keys : List (List ℕ))
        (nonce label message bytes inner : List ℕ)
        → IsSealedReply keys nonce label message bytes
        → Unwraps max_stream_len message inner
        → IsInsideReply max_stream_len policy keys label bytes inner }
{}

/// A node knows each name that it noted, whatever claims it takes in and names it returns or
/// forgets. So each is returned in the end.
pub fn noted_names_are_known()
    ensures taken { (old new : Option Entries) (before after : Entries) (claims : List Claim)
        → TableOf before (Reduced before) → TakesClaims claims before after
        → NotesChanges old new before after
        → ((name : List ℕ) → IsNoted old name → IsSome (get before name))
        → (name : List ℕ) → IsNoted new name → IsSome (get after name) }
    ensures told { (old new : Option Entries) (table : Entries) → LetsGo old new 0
        → ((name : List ℕ) → IsNoted old name → IsSome (get table name))
        → (name : List ℕ) → IsNoted new name → IsSome (get table name) }
    ensures forgotten { (gone : List ℕ) (old new : Option Entries) (before after : NodeValue)
        → TableOf before.table (Reduced before.table) → ForgetsName gone before after
        → LetsNameGo gone old new 0
        → ((name : List ℕ) → IsNoted old name → IsSome (get before.table name))
        → (name : List ℕ) → IsNoted new name → IsSome (get after.table name) }
{}

/// The table of a handle's node is that of what the node heard in the calls on the handle, whatever
/// the calls were, in any order, done or refused: its member's own Alive when it was opened; the
/// claims of each packet that was taken in, and of each stream that was answered or finished; and
/// the member's Alive at each refutation and update. A forgotten name takes the claims about it
/// away, and a readmitted one all but its newest Alive.
pub fn table_is_what_was_heard()
    ensures handle { (old new : Option NodeValue) (calls : Calls old new) (had : List Claim)
        → HasHeard old had → HasHeard new (heard calls had) }
    ensures node { (node : NodeValue) (calls : Calls None (Some node))
        → TableOf node.table (heard calls []) }
{}

/// Two handles whose nodes heard the same claims, in any order and however often, have one table,
/// one listing, and in each form and with the same user state one dump.
pub fn same_claims_same_table()
    ensures table { (node other : NodeValue) (calls : Calls None (Some node))
        (others : Calls None (Some other)) → Same (heard calls []) (heard others [])
        → node.table ≡ other.table }
    ensures listing { (node other : NodeValue) (calls : Calls None (Some node))
        (others : Calls None (Some other)) → Same (heard calls []) (heard others [])
        → listing node.table ≡ listing other.table }
    ensures dump { (node other : NodeValue) (calls : Calls None (Some node))
        (others : Calls None (Some other)) → Same (heard calls []) (heard others [])
        → (form : Wanted) (join : Bool)
        → bytes_in form node.table join ≡ bytes_in form other.table join }
{}

/// A call that returns another status than 0, and one that keeps the node, changes nothing, and
/// nothing is heard in it.
pub fn idle_calls_change_nothing()
    ensures node { (old new : Option NodeValue) (call : Call old new) → IsIdle call → new ≡ old }
    ensures heard { (old new : Option NodeValue) (call : Call old new) (had : List Claim)
        → IsIdle call → heard_after old new call had ≡ had }
{}
