//! Laws of the rules of a member. Each is the contract of a function that does nothing.

ghost use Rattle.std.specs.Prelude.{◌≡◌, ◌∷◌, ◌+◌, ◌*◌, ◌-◌, ◌^◌, ◌<◌, ◌≤◌, Bool, ℕ, List, Some};
ghost use Rattle.std.specs.Prelude.{false, length, max, min, true};
ghost use Rattle.std.specs.List.{Contains};
ghost use Rattle.std.specs.Str.{bytes_eq};
ghost use Rattle.memberlist_member.specs.Compound.{datagram_bytes, total};
ghost use Rattle.memberlist_member.specs.Histories.{IsClear, IsHere, IsNoEnd, IsWell, Lives};
ghost use Rattle.memberlist_member.specs.Histories.{Runs, Spares, longest, shortest};
ghost use Rattle.memberlist_member.specs.Staying.{IsProbing};
ghost use Rattle.memberlist_member.specs.Steps.{AreWaitedFor};
ghost use Rattle.memberlist_view.specs.Told.{entry_of};
ghost use Rattle.memberlist_view.specs.declared.entry.State.TheVariants as state;
ghost use Rattle.memberlist_member.specs.Queues.{AreApart, put};
ghost use Rattle.swim_claim.specs.Details.{DetailsValue};
ghost use Rattle.memberlist_view.specs.Rules.{are_sound_versions, change_of_entry};
ghost use Rattle.memberlist_view.specs.declared.entry.Entry.{Entry};
ghost use Rattle.memberlist_view.specs.declared.heard.Said.TheVariants.{Alive};
ghost use Rattle.memberlist_member.specs.Refuting.{HoldsAlive, IsFromThere};
ghost use Rattle.memberlist_member.specs.Runs.{Event, Run, times};
ghost use Rattle.memberlist_member.specs.Runs.Event.{added, taken};
ghost use Rattle.memberlist_member.specs.Suspicions.{IsDue, Lasts, Span};
ghost use Rattle.memberlist_member.specs.declared.member.Member.{Member};
ghost use Rattle.memberlist_member.specs.declared.queue.Broadcast.{Broadcast};

/// There is at most one broadcast about each member: a new one takes the place of the older one.
pub fn one_about_each()
    ensures { (b : Broadcast) (waiting : List Broadcast) → AreApart waiting
        → AreApart (put b waiting) }
{}

/// In all that happens to a queue, each broadcast is picked at most as often as the greatest limit
/// that was given says, and once if that is 0.
pub fn sent_at_most_the_limit()
    ensures { (limit : ℕ) (events : List Event) (waiting : List Broadcast) (next id : ℕ)
        → Run limit events waiting next → times id events ≤ max 1 limit }
{}

/// Once a broadcast about a member was added, no older one about it is picked for a datagram.
pub fn a_claim_is_not_sent_after_a_newer_one()
    ensures { (limit : ℕ) (events : List Event) (picked waiting : List Broadcast) (next : ℕ)
        (newer sent : Broadcast) → Run limit (taken picked ∷ events) waiting next
        → Contains events (added newer) → Contains picked sent
        → bytes_eq sent.subject.items newer.subject.items ≡ true → newer.id ≤ sent.id }
{}

/// Messages that take at most so many bytes, with two for each and two for all besides their own,
/// make a datagram of at most so many.
pub fn each_datagram_fits()
    ensures { (parts : List (List ℕ)) (n : ℕ) → total 2 parts + 2 ≤ n
        → length (datagram_bytes parts) ≤ n }
{}

/// A member that more members accuse is suspected no longer than with fewer of them.
pub fn more_accusers_never_lengthen()
    ensures { (k c d least most r s : ℕ) → c ≤ d → Lasts k c least most r
        → Lasts k d least most s → s ≤ r }
{}

/// So a suspicion ends no later with more accusers.
pub fn more_accusers_never_delay()
    ensures { (s : Span) (few many start one other : ℕ) → few ≤ many → IsDue s few start one
        → IsDue s many start other → other ≤ one }
{}

/// A member is suspected for the least time or longer, and for the longest time or less.
pub fn a_suspicion_lasts_between()
    ensures { (k c least most r : ℕ) → c ≤ k → least ≤ most → Lasts k c least most r
        → (least ≤ r) × (r ≤ most) }
{}

/// While none of the confirmations that are wanted has come, it is the longest time.
pub fn alone_it_lasts_longest()
    ensures { (k least most r : ℕ) → 1 ≤ k → Lasts k 0 least most r → r ≡ most }
{}

/// Once all that are wanted have come, it is the least time.
pub fn confirmed_it_lasts_least()
    ensures { (k least most r : ℕ) → least ≤ most → Lasts k k least most r → r ≡ least }
{}

/// Whatever a view shows for a member at its place, before this incarnation: once it hears from
/// there that the member is alive at this incarnation, it holds that, and what is said of an older
/// one changes nothing any more. So a member that takes an incarnation above its own and above the
/// accused one refutes every accusation.
pub fn a_refutation_is_enough()
    ensures { (wait time inc : ℕ) (entry : Entry) (name : List ℕ) (details : DetailsValue)
        (joins : Bool) → IsFromThere entry.details details → entry.inc < inc
        → are_sound_versions details.vsn ≡ true
        → HoldsAlive wait inc (change_of_entry wait time entry (Alive name inc details joins)) }
{}

/// A member is not shown as suspect or dead unless somebody accuses it. If it is not at first, and
/// then no datagram and no table says that it is, and no probe of it is over without an answer, it is
/// shown as neither.
pub fn nobody_is_accused_without_cause()
    ensures { (name : List ℕ) (first last : Member) → Lives (Spares name) first last
        → IsClear name first.view → IsClear name last.view }
{}

/// A member that is well is not shown as dead before the shortest suspicion is over, whoever
/// suspects it, unless somebody says that it is dead or left.
pub fn nobody_dies_early()
    ensures { (name : List ℕ) (first last : Member) → Lives (IsNoEnd name) first last
        → IsWell name first.view → last.time < min (first.time + shortest first.settings) (2 ^ 64 -
        1)
        → IsHere name last.view }
{}

/// A suspicion ends. After a tick, no member is shown as suspect for longer than the longest
/// suspicion in the largest cluster; a silent member, which declares nobody dead, waits for others.
pub fn every_suspicion_ends()
    ensures { (m : Member) (name : List ℕ) (entry : Entry) (by : List (List ℕ)) → AreWaitedFor m
        → m.settings.is_silent ≡ false → entry_of m.view name ≡ Some entry
        → entry.state ≡ state.Suspect by → m.time < entry.since + longest m.settings }
{}

/// A probe has its time. In whatever happens to a member, none that began in the meantime ends
/// before the probe interval is over.
pub fn a_probe_has_its_time()
    ensures { (first last : Member) (seq : ℕ) (name : List ℕ) (inc due : ℕ) → Runs first last
        → IsProbing seq name inc due last
        → due < min (first.time + 1000 * first.settings.probe_interval) (2 ^ 64 - 1)
        → IsProbing seq name inc due first }
{}
