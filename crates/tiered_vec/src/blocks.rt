//! Operations on the vectors that hold the blocks.
ghost use Rattle.std.specs.Prelude.{◌≡◌, ◌+◌, ◌<◌, ◌≤◌, ◌++◌, ◌∷◌, [], All, max, length, take, drop, vec_capacity};
ghost use Rattle.std.specs.Prelude.{slice_index_or, OnOk, OnErr, IfOk, IsOk, MatchBool, MatchResult};
ghost use Rattle.std.specs.Fn.{ComputesKey};
ghost use Rattle.std.specs.List.{remove};
ghost use Rattle.std.specs.List.Sorted.{IsBinarySearchResult};
ghost use Rattle.tiered_vec.specs.Sound.{shape, HasRoom, HasRooms};
ghost use Rattle.tiered_vec.specs.Tiers.{IsBlock, IsGap, IsPlace, IsPlaceOf, IsOpened, block_size, half_size, cut_room};
ghost use Rattle.tiered_vec.specs.Tiers.{end_room, with_put, without, cut, block_at, flatten, index_of, index_result};

use crate::place::Place;
use std::alloc::{AllocError, Global};
use std::cmp::Ordering;

/// The most elements in a block. The specs name it too, as `block_size`: change both together.
pub(crate) const BLOCK: usize = 128;

/// Where a full block is cut.
pub(crate) const HALF: usize = BLOCK / 2;

/// The most blocks.
const MAX_BLOCKS: usize = 1 << 54;

/// Makes empty blocks until there are n, with a place for each among the blocks, and for each block
/// among the empty ones. If there are n already it takes no memory.
///
/// # Errors
///
/// If there is not enough memory, or there would be more than MOST blocks. The blocks are as they
/// were, and no spare one is lost.
pub(crate) fn make_spares<T>(
    alloc: Global,
    blocks: &mut Vec<Vec<T>>,
    spares: &mut Vec<Vec<T>>,
    n: usize,
) -> Result<(), AllocError>
    requires { HasRooms blocks.old spares.old }
    ensures rooms { HasRooms blocks.new spares.new }
    ensures items { blocks.new.items ≡ blocks.old.items }
    ensures ok { OnOk result (n ≤ length spares.new.items) }
    ensures more { length spares.old.items ≤ length spares.new.items }
    ensures few { length spares.new.items ≤ max (length spares.old.items) n }
    ensures succeeds { n ≤ length spares.old.items → IsOk result }
{
    if n <= spares.len() {
        return Ok(());
    }
    if n > MAX_BLOCKS - blocks.len() {
        return Err(AllocError);
    }
    blocks.reserve(n)?;
    spares.reserve(n - spares.len() + blocks.len())?;
    while spares.len() < n {
        let block = Vec::with_capacity(alloc, BLOCK)?;
        spares.push_reserved(block);
    }
    Ok(())
}

/// Moves the upper half of a full block to an empty one.
pub(crate) fn move_upper<T>(block: &mut Vec<T>, upper: &mut Vec<T>)
    requires full { length block.old.items ≡ block_size }
    requires empty { upper.old.items ≡ [] }
    requires room { HasRoom upper.old }
    ensures lower { block.new.items ≡ take half_size block.old.items }
    ensures upper { upper.new.items ≡ drop half_size block.old.items }
    ensures capacity { vec_capacity block.new ≡ vec_capacity block.old }
    ensures upper_capacity { vec_capacity upper.new ≡ vec_capacity upper.old }
{
    while block.len() > HALF {
        let x = block.take_last();
        upper.push_reserved(x);
    }
    upper.as_mut_slice().reverse();
}

/// Cuts a full block in two.
pub(crate) fn split<T>(blocks: &mut Vec<Vec<T>>, spares: &mut Vec<Vec<T>>, block: usize)
    requires rooms { HasRooms blocks.old spares.old }
    requires spare { 0 < length spares.old.items }
    requires block { block < length blocks.old.items }
    requires full { length (block_at (shape blocks.old.items) block) ≡ block_size }
    ensures rooms { HasRooms blocks.new spares.new }
    ensures spares { length spares.old.items ≡ length spares.new.items + 1 }
    ensures shape { shape blocks.new.items ≡ cut (shape blocks.old.items) block }
{
    let mut upper = spares.take_last();
    move_upper(&mut blocks[block], &mut upper);
    match blocks.insert(block + 1, upper) {
        Ok(()) => {}
        Err(_) => unreachable!(),
    }
}

/// Adds an empty block at the end.
pub(crate) fn add_block<T>(blocks: &mut Vec<Vec<T>>, spares: &mut Vec<Vec<T>>)
    requires rooms { HasRooms blocks.old spares.old }
    requires spare { 0 < length spares.old.items }
    ensures rooms { HasRooms blocks.new spares.new }
    ensures spares { length spares.old.items ≡ length spares.new.items + 1 }
    ensures shape { shape blocks.new.items ≡ shape blocks.old.items ++ [] ∷ [] }
{
    let block = spares.take_last();
    blocks.push_reserved(block);
}

/// Puts an element into a block that is not full.
pub(crate) fn put<T>(blocks: &mut Vec<Vec<T>>, block: usize, at: usize, x: T)
    requires rooms { All HasRoom blocks.old.items }
    requires block { block < length blocks.old.items }
    requires at { at ≤ length (block_at (shape blocks.old.items) block) }
    requires fits { length (block_at (shape blocks.old.items) block) < block_size }
    ensures rooms { All HasRoom blocks.new.items }
    ensures len { length blocks.new.items ≡ length blocks.old.items }
    ensures capacity { vec_capacity blocks.new ≡ vec_capacity blocks.old }
    ensures shape { shape blocks.new.items ≡ with_put (shape blocks.old.items) block at x }
{
    let block = &mut blocks[block];
    match block.insert(at, x) {
        Ok(()) => {}
        Err(_) => unreachable!(),
    }
}

/// Removes an element from a block, which may leave it empty.
pub(crate) fn take_from<T>(blocks: &mut Vec<Vec<T>>, block: usize, at: usize) -> T
    requires rooms { All HasRoom blocks.old.items }
    requires block { block < length blocks.old.items }
    requires at { at < length (block_at (shape blocks.old.items) block) }
    ensures value { result
        ≡ slice_index_or (block_at (shape blocks.old.items) block) at result }
    ensures rooms { All HasRoom blocks.new.items }
    ensures len { length blocks.new.items ≡ length blocks.old.items }
    ensures capacity { vec_capacity blocks.new ≡ vec_capacity blocks.old }
    ensures shape { shape blocks.new.items ≡ without (shape blocks.old.items) block at }
{
    let block = &mut blocks[block];
    block.remove(at)
}

/// Moves an empty block to the spare ones.
pub(crate) fn spare_block<T>(blocks: &mut Vec<Vec<T>>, spares: &mut Vec<Vec<T>>, block: usize)
    requires rooms { HasRooms blocks.old spares.old }
    requires block { block < length blocks.old.items }
    requires empty { block_at (shape blocks.old.items) block ≡ [] }
    ensures rooms { HasRooms blocks.new spares.new }
    ensures spares { length spares.new.items ≡ length spares.old.items + 1 }
    ensures shape { shape blocks.new.items ≡ remove (shape blocks.old.items) block }
{
    let empty = blocks.remove(block);
    spares.push_reserved(empty);
}

/// Removes the element at a place from the blocks. A block that is then empty becomes a spare one.
#[tactic(auto, unfolding(crate::specs::Tiers::index_of))]
pub(crate) fn take_out<T>(blocks: &mut Vec<Vec<T>>, spares: &mut Vec<Vec<T>>, place: Place) -> T
    requires rooms { HasRooms blocks.old spares.old }
    requires each { All IsBlock (shape blocks.old.items) }
    requires place { IsPlace (shape blocks.old.items) place }
    ensures value { let old = shape blocks.old.items in
        result ≡ slice_index_or (flatten old) (index_of old place) result }
    ensures items { let old = shape blocks.old.items in
        flatten (shape blocks.new.items) ≡ remove (flatten old) (index_of old place) }
    ensures rooms { HasRooms blocks.new spares.new }
    ensures each { All IsBlock (shape blocks.new.items) }
    ensures spares { length spares.old.items ≤ length spares.new.items }
    ensures room { cut_room (shape blocks.old.items) (length spares.old.items)
        ≤ cut_room (shape blocks.new.items) (length spares.new.items) }
    ensures end_room { end_room (shape blocks.old.items) (length spares.old.items)
        ≤ end_room (shape blocks.new.items) (length spares.new.items) }
{
    let x = take_from(blocks, place.block, place.at);
    if !blocks[place.block].is_empty() {
        return x;
    }
    spare_block(blocks, spares, place.block);
    x
}

/// Makes a place ready for an element: a full block there is cut first. Returns where the place is
/// then.
///
/// # Errors
///
/// If there is no spare block and not enough memory for one. The blocks are as they were.
#[tactic(auto, unfolding(crate::specs::Tiers::index_of))]
pub(crate) fn open<T>(
    alloc: Global,
    blocks: &mut Vec<Vec<T>>,
    spares: &mut Vec<Vec<T>>,
    place: Place,
) -> Result<Place, AllocError>
    requires rooms { HasRooms blocks.old spares.old }
    requires each { All IsBlock (shape blocks.old.items) }
    requires gap { IsGap (shape blocks.old.items) place }
    ensures rooms { HasRooms blocks.new spares.new }
    ensures ok { let old = shape blocks.old.items in
        IfOk result (IsOpened old (shape blocks.new.items) (index_of old place)) }
    ensures room { OnOk result (cut_room (shape blocks.old.items) (length spares.old.items)
        ≤ cut_room (shape blocks.new.items) (length spares.new.items)) }
    ensures spares { OnOk result (length spares.old.items ≤ length spares.new.items + 1) }
    ensures err { OnErr result (blocks.new.items ≡ blocks.old.items) }
    ensures more { OnErr result (length spares.old.items ≤ length spares.new.items) }
    ensures succeeds { 0 < length spares.old.items → IsOk result }
{
    if blocks.is_empty() {
        make_spares(alloc, blocks, spares, 1)?;
        add_block(blocks, spares);
        return Ok(place);
    }
    if blocks[place.block].len() < BLOCK {
        return Ok(place);
    }
    make_spares(alloc, blocks, spares, 1)?;
    split(blocks, spares, place.block);
    if place.at <= HALF {
        return Ok(place);
    }
    Ok(Place {
        block: place.block + 1,
        at: place.at - HALF,
    })
}

/// Makes the end ready for an element: if the last block is full, another one is added. Returns
/// where the end is then.
///
/// # Errors
///
/// If there is no spare block and not enough memory for one. The blocks are as they were.
#[tactic(auto, unfolding(crate::specs::Tiers::index_of))]
pub(crate) fn open_end<T>(
    alloc: Global,
    blocks: &mut Vec<Vec<T>>,
    spares: &mut Vec<Vec<T>>,
) -> Result<Place, AllocError>
    requires rooms { HasRooms blocks.old spares.old }
    requires each { All IsBlock (shape blocks.old.items) }
    ensures rooms { HasRooms blocks.new spares.new }
    ensures ok { let old = shape blocks.old.items in
        IfOk result (IsOpened old (shape blocks.new.items) (length (flatten old))) }
    ensures last { IfOk result (λ p. p.block + 1 ≡ length blocks.new.items) }
    ensures room { OnOk result (end_room (shape blocks.old.items) (length spares.old.items)
        ≤ end_room (shape blocks.new.items) (length spares.new.items)) }
    ensures err { OnErr result (blocks.new.items ≡ blocks.old.items) }
    ensures succeeds { 0 < end_room (shape blocks.old.items) (length spares.old.items)
        → IsOk result }
{
    let count = blocks.len();
    if count > 0 {
        let at = blocks[count - 1].len();
        if at < BLOCK {
            return Ok(Place {
                block: count - 1,
                at,
            });
        }
    }
    make_spares(alloc, blocks, spares, 1)?;
    add_block(blocks, spares);
    Ok(Place {
        block: count,
        at: 0,
    })
}

/// The place past the last element.
#[tactic(auto, unfolding(crate::specs::Tiers::index_of))]
pub(crate) fn end_of<T>(blocks: &[Vec<T>]) -> Place
    ensures gap { IsGap (shape blocks.now) result }
    ensures index { index_of (shape blocks.now) result ≡ length (flatten (shape blocks.now)) }
{
    let count = blocks.len();
    if count == 0 {
        return Place { block: 0, at: 0 };
    }
    Place {
        block: count - 1,
        at: blocks[count - 1].len(),
    }
}

/// The place that has this many elements before it.
#[tactic(auto, unfolding(crate::specs::Tiers::index_of))]
pub(crate) fn place_of<T>(blocks: &[Vec<T>], index: usize) -> Place
    requires { index ≤ length (flatten (shape blocks.now)) }
    ensures gap { IsGap (shape blocks.now) result }
    ensures index { index_of (shape blocks.now) result ≡ index }
    ensures place { index < length (flatten (shape blocks.now))
        → IsPlace (shape blocks.now) result }
{
    let mut at = index;
    let mut block = 0;
    while block + 1 < blocks.len() && blocks[block].len() <= at {
        at -= blocks[block].len();
        block += 1;
    }
    Place { block, at }
}

/// The place after the one of an element.
#[tactic(auto, unfolding(crate::specs::Tiers::index_of))]
pub(crate) fn place_after<T>(blocks: &[Vec<T>], place: Place) -> Place
    requires place { IsPlace (shape blocks.now) place }
    requires each { All IsBlock (shape blocks.now) }
    ensures { IsPlaceOf (shape blocks.now) (index_of (shape blocks.now) place + 1) result }
{
    let block = place.block;
    let at = place.at + 1;
    if at < blocks[block].len() || block + 1 >= blocks.len() {
        Place { block, at }
    } else {
        Place {
            block: block + 1,
            at: 0,
        }
    }
}

/// The same place, but the start of the next block in place of the end of one.
#[tactic(auto, unfolding(crate::specs::Tiers::index_of))]
pub(crate) fn settled<T>(blocks: &[Vec<T>], place: Place) -> Place
    requires place { IsGap (shape blocks.now) place }
    requires each { All IsBlock (shape blocks.now) }
    ensures { IsPlaceOf (shape blocks.now) (index_of (shape blocks.now) place) result }
{
    let Place { block, at } = place;
    if block + 1 >= blocks.len() || at < blocks[block].len() {
        Place { block, at }
    } else {
        Place {
            block: block + 1,
            at: 0,
        }
    }
}

/// Whether an element is at a place.
pub(crate) fn has_element<T>(blocks: &[Vec<T>], place: Place) -> bool
    ensures { MatchBool result (IsPlace (shape blocks.now) place)
        (¬ IsPlace (shape blocks.now) place) }
{
    place.block < blocks.len() && place.at < blocks[place.block].len()
}

/// A binary search over the first elements of the blocks, and then in a block.
#[tactic(auto, unfolding(crate::specs::Tiers::index_of))]
pub(crate) fn find_among<T, F: FnMut(&T) -> Ordering>(
    blocks: &[Vec<T>],
    mut f: F,
) -> Result<Place, Place>
    requires callable { F.IsAlwaysCallable f }
    requires each { All IsBlock (shape blocks.now) }
    ensures range { MatchResult result (IsPlace (shape blocks.now)) (IsGap (shape blocks.now)) }
    ensures position { (ord : T → Ordering) → ComputesKey F.FnMut ord f
        → IsBinarySearchResult ord (flatten (shape blocks.now))
        (index_result (shape blocks.now) result) }
{
    if blocks.len() == 0 {
        return Err(Place { block: 0, at: 0 });
    }
    let mut low = 0;
    let mut high = blocks.len();
    while high - low > 1 {
        let mid = low + (high - low) / 2;
        let block = &blocks[mid];
        if f(&block[0]).is_gt() {
            high = mid;
        } else {
            low = mid;
        }
    }
    match blocks[low].binary_search_by(f) {
        Ok(at) => Ok(Place { block: low, at }),
        Err(at) => Err(Place { block: low, at }),
    }
}
