//! Push/pull streams, read only for what a table lacks.

ghost use Rattle.std.specs.Prelude.{◌≡◌, Bool, List, IfOk, IfErr, IsErrOf, MatchBool, OnOk};
ghost use Rattle.swim_claim.specs.declared.claim.Claim.{Claim};
ghost use Rattle.swim_pack.specs.Composing.{UnlessFailed};
ghost use Rattle.swim_pack.specs.Ends.{ConsumesText, NoTextAtFront, Advances, CountsFault};
ghost use Rattle.swim_wire.specs.Checks.{ReasonForStart};
ghost use Rattle.swim_wire.specs.Reading.{wire_cause};
ghost use Rattle.swim_wire.specs.Streams.{StreamText};
ghost use Rattle.swim_table.specs.News.{IsKnown, IsNewsOf, TakesNews};
ghost use Rattle.swim_table.specs.Steps.{ReasonForStream};
ghost use Rattle.swim_table.specs.Table.{IsAscending};
ghost use Rattle.tiered_vec.specs.Tiers.{items, index_of, IsPlaceOf};

use crate::entry::Entry;
use crate::placing::find_near;
use crate::stream_reader::StreamReader;
use crate::table::Table;
use std::alloc::Global;
use swim_claim::Claim;
use swim_pack::Inlet;
use swim_wire::{WireFault, read_state, skip_user};
use tiered_vec::{Place, TieredVec};

/// Reads one push/pull stream (memberlist's `net.go`) for what this table lacks. Returns the table
/// of those of its claims that would change it, and the join flag. Bytes after the stream stay in
/// the inlet.
///
/// A claim that the table covers takes no memory beyond its own. Where the claims come in the order
/// of the table's names, as in a canonical dump, each costs one comparison, otherwise a search.
///
/// # Errors
///
/// Those of [`read_stream`](crate::read_stream).
pub fn read_news<I: Inlet>(
    alloc: Global,
    inlet: &mut I,
    table: &Table,
) -> Result<(Table, bool), WireFault>
    // The bytes taken are one stream, and joining the news in is taking its claims in.
    ensures takes { IfOk result (λ read. (claims : List Claim) × IsNewsOf table.now read.0 claims
        × ConsumesText (I.seen inlet.old) (I.seen inlet.new) (λ b. StreamText b claims read.1)) }

    // If refused, and neither the inlet failed nor memory ran out, the bytes do not begin with a
    // stream, and the fault says why.
    ensures lacks { IfErr result (λ fault. UnlessFailed (wire_cause fault)
        (NoTextAtFront (I.seen inlet.old)
        (λ b. (claims : List Claim) × (join : Bool) × StreamText b claims join))) }
    ensures reason { IfErr result (λ fault.
        ReasonForStart (ReasonForStream fault) (I.seen inlet.old)) }
    ensures fault { IsErrOf result WireFault.Fault
        → CountsFault (I.seen inlet.old).faults (I.seen inlet.new).faults }
    ensures end { Advances (I.seen inlet.old) (I.seen inlet.new) }
{
    let header = *StreamReader::begin(alloc, inlet)?.header();
    // opens the invariant: the table is legal
    let _ = table.len();
    let entries = table.tiers();
    let mut news = Table::new(alloc);
    let mut next = entries.place(0);
    let mut left = header.nodes;
    while left > 0 {
        let claim = read_state(alloc, inlet)?;
        next = take_news(entries, next, &mut news, claim)?;
        left -= 1;
    }
    skip_user(inlet, header.user_len)?;
    Ok((news, header.join))
}

/// Takes a claim into the news unless the entries cover it. Returns the place after the name's, or
/// the same place if the name is new.
fn take_news(
    entries: &TieredVec<Entry>,
    next: Place,
    news: &mut Table,
    claim: Claim,
) -> Result<Place, WireFault>
    requires ascending { IsAscending (items entries.now) }
    requires next { IsPlaceOf entries.now.blocks (index_of entries.now.blocks next) next }
    ensures takes { OnOk result (TakesNews (items entries.now) news.old news.new claim) }
    ensures next { IfOk result (λ p.
        IsPlaceOf entries.now.blocks (index_of entries.now.blocks p) p) }
    ensures memory { IfErr result (λ fault. fault ≡ WireFault.Memory) }
{
    let (known, next) = look_up(entries, next, &claim);
    if known {
        return Ok(next);
    }
    match news.take(claim) {
        Ok(_) => Ok(next),
        Err(_) => Err(WireFault::Memory),
    }
}

/// Whether the entries cover a claim, and the place after its name's, or the same place if the name
/// is new.
fn look_up(entries: &TieredVec<Entry>, next: Place, claim: &Claim) -> (bool, Place)
    requires ascending { IsAscending (items entries.now) }
    requires next { IsPlaceOf entries.now.blocks (index_of entries.now.blocks next) next }
    ensures known { MatchBool result.0 (IsKnown (items entries.now) claim.now)
        (¬ IsKnown (items entries.now) claim.now) }
    ensures next { IsPlaceOf entries.now.blocks (index_of entries.now.blocks result.1) result.1 }
{
    match find_near(entries, next, claim.name().bytes()) {
        Ok(place) => {
            let known = entries.get_at(place).covers_claim(claim);
            (known, entries.after(place))
        }
        Err(_) => (false, next),
    }
}
