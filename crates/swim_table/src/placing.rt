//! Where a name is among entries in the order of their names, and putting an entry there.
ghost use Rattle.std.specs.Prelude.{◌≡◌, ◌+◌, ◌≤◌, ◌<◌, length, IfOk, IfErr, MatchResult, OnOk, OnErr};
ghost use Rattle.swim_claim.specs.Claim.{name_of};
ghost use Rattle.std.specs.List.Sorted.{IsPermutation};
ghost use Rattle.swim_table.specs.Table.{Entries, name_cmp, IsAscending};
ghost use Rattle.swim_table.specs.Place.{IsAt, IsGapFor};
ghost use Rattle.swim_table.specs.Prefix.{IsPrefixOf};
ghost use Rattle.tiered_vec.specs.Tiers.{items, index_of, room, IsPlace, IsGap, IsPlaceOf};
ghost use Rattle.swim_table.specs.Join.{put, put_each};

use crate::entry::Entry;
use crate::prefix::Prefix;
use std::alloc::AllocError;
use std::cmp::Ordering;
use tiered_vec::{Place, TieredVec};

/// Where the name is, or where it would go. A name above the last one costs one comparison, and one
/// below the first costs two; names that come in order cost no more.
// If this is inlined, LLVM makes a search without branches, which waits for each entry in turn.
#[inline(never)]
pub(crate) fn find_place(entries: &TieredVec<Entry>, name: &[u8]) -> Result<Place, Place>
    requires { IsAscending (items entries.now) }
    ensures range { MatchResult result (IsPlace entries.now.blocks) (IsGap entries.now.blocks) }
    ensures found { IfOk result (λ p.
        IsAt (items entries.now) name.now (index_of entries.now.blocks p)) }
    ensures absent { IfErr result (λ p.
        IsGapFor (items entries.now) name.now (index_of entries.now.blocks p)) }
{
    let prefix = Prefix::new(name);
    if let Some(last) = entries.last() {
        if last.order(&prefix, name).is_lt() {
            return Err(entries.end());
        }
    }
    if let Some(first) = entries.get(0) {
        if first.order(&prefix, name).is_gt() {
            return Err(entries.place(0));
        }
    }
    search_place(entries, &prefix, name)
}

/// Where the name is, or where it would go. If the entry at the place `near` has the name, this costs
/// one comparison.
pub(crate) fn find_near(
    entries: &TieredVec<Entry>,
    near: Place,
    name: &[u8],
) -> Result<Place, Place>
    requires ascending { IsAscending (items entries.now) }
    requires near { IsPlaceOf entries.now.blocks (index_of entries.now.blocks near) near }
    ensures range { MatchResult result (IsPlace entries.now.blocks) (IsGap entries.now.blocks) }
    ensures found { IfOk result (λ p.
        IsAt (items entries.now) name.now (index_of entries.now.blocks p)) }
    ensures absent { IfErr result (λ p.
        IsGapFor (items entries.now) name.now (index_of entries.now.blocks p)) }
{
    if let Some(entry) = entries.get_from(near) {
        if entry.order(&Prefix::new(name), name).is_eq() {
            return Ok(near);
        }
    }
    find_place(entries, name)
}

/// Where the name is, or where it would go, by a binary search.
fn search_place(entries: &TieredVec<Entry>, prefix: &Prefix, name: &[u8]) -> Result<Place, Place>
    requires ascending { IsAscending (items entries.now) }
    requires prefix { IsPrefixOf prefix.now name.now }
    ensures range { MatchResult result (IsPlace entries.now.blocks) (IsGap entries.now.blocks) }
    ensures found { IfOk result (λ p.
        IsAt (items entries.now) name.now (index_of entries.now.blocks p)) }
    ensures absent { IfErr result (λ p.
        IsGapFor (items entries.now) name.now (index_of entries.now.blocks p)) }
{
    entries.find_by(
        |entry: &Entry| -> Ordering
            requires { IsPrefixOf prefix.now name.now }
            ensures { result ≡ name_cmp (name_of entry.now.top) name.entry.now }
        { entry.order(prefix, name) },
    )
}

/// Puts each entry at its place in the order of their names, so that each goes near the one before.
/// If there is no memory for the order and all entries, nothing changes.
pub(crate) fn put_sorted(
    entries: &mut TieredVec<Entry>,
    others: Vec<Entry>,
) -> Result<(), AllocError>
    requires { IsAscending (items entries.old) }
    ensures ok { OnOk result ((sorted : Entries) × IsPermutation others.items sorted
        × (items entries.new ≡ put_each (items entries.old) sorted)) }
    ensures err { OnErr result (items entries.new ≡ items entries.old) }
{
    let mut others = others;
    others.sort_by(|one: &Entry, other: &Entry| -> Ordering { one.order_to(other) })?;
    entries.reserve(others.len())?;
    put_all(entries, others);
    Ok(())
}

/// Puts each entry at its place, or combines it with the one there. There is room for all.
fn put_all(entries: &mut TieredVec<Entry>, others: Vec<Entry>)
    requires ascending { IsAscending (items entries.old) }
    requires room { length others.items ≤ room entries.old }
    ensures { items entries.new ≡ put_each (items entries.old) others.items }
{
    for other in others {
        put_in_room(entries, other);
    }
}

/// Puts each entry of a table at its place, or combines it with the one there. There is room for
/// all.
pub(crate) fn put_entries(entries: &mut TieredVec<Entry>, others: TieredVec<Entry>)
    requires ascending { IsAscending (items entries.old) }
    requires room { length (items others) ≤ room entries.old }
    ensures { items entries.new ≡ put_each (items entries.old) (items others) }
{
    for other in others.into_iter() {
        put_in_room(entries, other);
    }
}

/// Puts an entry, for which there is room, at its place, or combines it with the one there.
fn put_in_room(entries: &mut TieredVec<Entry>, other: Entry)
    requires ascending { IsAscending (items entries.old) }
    requires room { 0 < room entries.old }
    ensures items { items entries.new ≡ put (items entries.old) other }
    ensures room { room entries.old ≤ room entries.new + 1 }
{
    match find_place(entries, other.name().bytes()) {
        Ok(place) => {
            let entry = entries.get_mut_at(place);
            entry.combine(other);
        }
        Err(place) => match entries.insert_at(place, other) {
            Ok(()) => {}
            Err(_) => unreachable!(),
        },
    }
}
