//! A vector in blocks: what its callers see.
ghost use Rattle.std.specs.declared.alloc.Global.{Global};
ghost use Rattle.std.specs.Prelude.{◌≡◌, ◌+◌, ◌-◌, ◌/◌, ◌<◌, ◌≤◌, ◌^◌, ◌↔◌, ◌++◌, ◌∷◌, [], IsTrue, IsOk, IfOk, IfErr};
ghost use Rattle.std.specs.Prelude.{OnOk, OnErr, MatchBool, MatchResult, slice_get, slice_set, length, min, max};
ghost use Rattle.std.specs.Prelude.{slice_index_or};
ghost use Rattle.std.specs.List.{insert, remove};
ghost use Rattle.std.specs.Option.{option_copied};
ghost use Rattle.std.specs.List.Sorted.{IsBinarySearchResult};
ghost use Rattle.std.specs.Fn.{ComputesKey};
ghost use Rattle.tiered_vec.specs.Tiers.{block_size, half_size, items, room, tail_room, IsPlace, IsGap, IsPlaceOf};
ghost use Rattle.tiered_vec.specs.Tiers.{index_of, index_result, with_item_at};

use crate::blocks::{
    BLOCK, HALF, end_of, find_among, has_element, make_spares, open, open_end, place_after,
    place_of, put, settled, take_out,
};
use crate::iter::{IntoIter, Iter};
use crate::place::Place;
use std::alloc::{AllocError, AllocFailed, Global};
use std::cmp::Ordering;
use std::marker::Model;

/// A list of elements, kept in blocks of bounded size, so that an insertion or a removal in the
/// middle moves the elements of one block and not all that follow (own).
///
/// An element is reached by its `Place`, or by the number of elements before it. A place is valid
/// until the next insertion or push that succeeds, or the next removal.
#[derive(Drop, Debug)]
pub struct TieredVec<T> {
    alloc: Global,
    len: usize,
    // none is empty or holds more than BLOCK elements, and each has room for BLOCK
    blocks: Vec<Vec<T>>,
    // empty, with room for BLOCK elements each
    spares: Vec<Vec<T>>,
}

impl<T> Model for TieredVec<T> {
    ghost use Rattle.std.specs.Prelude.{length};
    ghost use Rattle.tiered_vec.specs.Tiers.{Tiers, tiers_code};

    ghost Value = { Tiers T };

    ghost coded = { tiers_code T.code };

    ghost use Rattle.tiered_vec.specs.Sound.{shape, IsSound};

    ghost view = { λ v. record { blocks = shape v.blocks.items; spares = length v.spares.items } };

    ghost invariant = { λ v. IsSound v.len v.blocks v.spares };
}

impl<T> TieredVec<T> {
    ghost use Rattle.std.specs.Borrow.{sem};
    ghost use Rattle.tiered_vec.specs.Lending.{lends_item};

    /// An empty list, which takes memory from the allocator as it grows. It takes none now.
    pub fn new(alloc: Global) -> TieredVec<T>
        ensures items { items result ≡ [] }
        ensures spares { result.spares ≡ 0 }
    {
        TieredVec {
            alloc,
            len: 0,
            blocks: Vec::new(alloc),
            spares: Vec::new(alloc),
        }
    }

    /// The number of elements. It is stored, so the time does not depend on it.
    pub fn len(&self) -> usize
        ensures len { result ≡ length (items self.now) }
        ensures small { result < 2 ^ 63 }
    {
        self.len
    }

    /// Whether there are no elements.
    pub fn is_empty(&self) -> bool
        ensures { IsTrue result ↔ (items self.now ≡ []) }
    {
        self.len == 0
    }

    /// The allocator. There is one `Global`, so this is the one that the list was made with.
    pub fn allocator(&self) -> &Global
        ensures { (other : Global) → result.now ≡ other }
    {
        &self.alloc
    }

    /// The element at a place, in constant time.
    pub fn get_at(&self, place: Place) -> &T
        requires { IsPlace self.now.blocks place }
        ensures { result.now
            ≡ slice_index_or (items self.now) (index_of self.now.blocks place) result.now }
    {
        let block = &self.blocks[place.block];
        &block[place.at]
    }

    /// The element at a place, to be changed, in constant time. Places and room stay as they are.
    pub fn get_mut_at(&mut self, place: Place) -> &mut T
        requires { IsPlace self.old.blocks place }
        ensures* writes_back { sem 𝓛 (lends_item T.row self.entry place result) }
        ensures value { result.now
            ≡ slice_index_or (items self.old) (index_of self.old.blocks place) result.now }
        ensures room { (x : T) → room (with_item_at self.old place x) ≡ room self.old }
        ensures set { (x : T) → items (with_item_at self.old place x)
            ≡ slice_set (items self.old) (index_of self.old.blocks place) x }
    {
        let block = &mut self.blocks[place.block];
        &mut block[place.at]
    }

    /// Puts an element at a place: those from there on come after it. While there is room this
    /// takes no memory. At most one block of elements is moved, and if a full block is cut in two,
    /// three words for each block that follows it.
    ///
    /// # Errors
    ///
    /// If there is not enough memory for a block, or there are 2^54 blocks. The element is
    /// returned, and the others and their places are as they were.
    #[tactic(auto, unfolding(crate::specs::Tiers::room))]
    pub fn insert_at(&mut self, place: Place, x: T) -> Result<(), AllocFailed<T>>
        requires { IsGap self.old.blocks place }
        ensures ok { OnOk result (items self.new
            ≡ insert (items self.old) (index_of self.old.blocks place) x) }
        ensures room { OnOk result (room self.old ≤ room self.new + 1) }
        ensures succeeds { 0 < room self.old → IsOk result }
        ensures refused { IfErr result (λ failed. failed.value ≡ x) }
        ensures err { OnErr result (self.new.blocks ≡ self.old.blocks) }
    {
        match open(self.alloc, &mut self.blocks, &mut self.spares, place) {
            Ok(at) => {
                put(&mut self.blocks, at.block, at.at, x);
                self.len += 1;
                Ok(())
            }
            Err(_) => Err(AllocFailed { value: x }),
        }
    }

    /// Removes and returns the element at a place. The index of each element after it drops by one.
    /// This takes no memory. At most one block of elements is moved. A block that is then empty is
    /// kept as a spare one, and three words are moved for each block that followed it.
    #[tactic(auto, unfolding(crate::specs::Tiers::room, crate::specs::Tiers::tail_room))]
    pub fn remove_at(&mut self, place: Place) -> T
        requires { IsPlace self.old.blocks place }
        ensures value { result
            ≡ slice_index_or (items self.old) (index_of self.old.blocks place) result }
        ensures items { items self.new ≡ remove (items self.old) (index_of self.old.blocks place) }
        ensures room { room self.old ≤ room self.new }
        ensures tail_room { tail_room self.old ≤ tail_room self.new }
    {
        let x = take_out(&mut self.blocks, &mut self.spares, place);
        self.len -= 1;
        x
    }

    /// An empty list, to which n elements can be pushed with no more memory.
    ///
    /// # Errors
    ///
    /// If there is not enough memory for them, or they need more than 2^54 blocks.
    #[tactic(auto, unfolding(crate::specs::Tiers::tail_room))]
    pub fn with_capacity(alloc: Global, n: usize) -> Result<TieredVec<T>, AllocError>
    where
        T: Drop,
        ensures items { IfOk result (λ v. items v ≡ []) }
        ensures tail_room { IfOk result (λ v. n ≤ tail_room v) }
        ensures few { IfOk result (λ v. v.spares ≤ n / block_size + 1) }
    {
        let mut made = TieredVec::new(alloc);
        make_spares(alloc, &mut made.blocks, &mut made.spares, n / BLOCK + 1)?;
        Ok(made)
    }

    /// Makes room for n insertions, at any places: those then take no memory. As each of them may
    /// cut a full block, this keeps a spare block for each half block of them and for each block
    /// that is there, and at most n.
    ///
    /// # Errors
    ///
    /// If there is not enough memory for them, or they need more than 2^54 blocks. The elements and
    /// their places are as they were, and no room is lost.
    pub fn reserve(&mut self, n: usize) -> Result<(), AllocError>
        ensures blocks { self.new.blocks ≡ self.old.blocks }
        ensures spares { self.old.spares ≤ self.new.spares }
        ensures room { OnOk result (n ≤ room self.new) }
        ensures few { self.new.spares ≤ max self.old.spares
            (min n (length self.old.blocks + n / half_size + 2)) }
        ensures succeeds { n ≤ self.old.spares → IsOk result }
    {
        let most = self.blocks.len() + n / HALF + 2;
        make_spares(self.alloc, &mut self.blocks, &mut self.spares, n.min(most))
    }

    /// Adds an element at the end, in constant time except for memory. It cuts no block, so
    /// elements that come in order fill the blocks.
    ///
    /// # Errors
    ///
    /// If there is not enough memory for a block, or there are 2^54 blocks. The element is
    /// returned, and the others and their places are as they were.
    #[tactic(auto, unfolding(crate::specs::Tiers::tail_room))]
    pub fn push(&mut self, x: T) -> Result<(), AllocFailed<T>>
        ensures ok { OnOk result (items self.new ≡ items self.old ++ x ∷ []) }
        ensures tail_room { OnOk result (tail_room self.old ≤ tail_room self.new + 1) }
        ensures succeeds { 0 < tail_room self.old → IsOk result }
        ensures refused { IfErr result (λ failed. failed.value ≡ x) }
        ensures err { OnErr result (self.new.blocks ≡ self.old.blocks) }
    {
        match open_end(self.alloc, &mut self.blocks, &mut self.spares) {
            Ok(at) => {
                put(&mut self.blocks, at.block, at.at, x);
                self.len += 1;
                Ok(())
            }
            Err(_) => Err(AllocFailed { value: x }),
        }
    }

    /// The place that has this many elements before it: that of an element, or the end. This counts
    /// block by block, so its time is the number of blocks.
    pub fn place(&self, index: usize) -> Place
        requires { index ≤ length (items self.now) }
        ensures { IsPlaceOf self.now.blocks index result }
    {
        place_of(&self.blocks, index)
    }

    /// The place after the one of an element: that of the next one, or the end. In constant time.
    pub fn after(&self, place: Place) -> Place
        requires { IsPlace self.now.blocks place }
        ensures { IsPlaceOf self.now.blocks (index_of self.now.blocks place + 1) result }
    {
        place_after(&self.blocks, place)
    }

    /// The element at a place where one can be put, which a search returns, or `None` past the last.
    /// In constant time.
    pub fn get_from(&self, place: Place) -> Option<&T>
        requires { IsGap self.now.blocks place }
        ensures { option_copied result
            ≡ slice_get (items self.now) (index_of self.now.blocks place) }
    {
        let place = self.settled(place);
        if self.has_element(place) {
            Some(self.get_at(place))
        } else {
            None
        }
    }

    /// The same place, but the start of the next block in place of the end of one.
    fn settled(&self, place: Place) -> Place
        requires { IsGap self.now.blocks place }
        ensures { IsPlaceOf self.now.blocks (index_of self.now.blocks place) result }
    {
        settled(&self.blocks, place)
    }

    /// Whether an element is at a place.
    fn has_element(&self, place: Place) -> bool
        ensures { MatchBool result (IsPlace self.now.blocks place)
            (¬ IsPlace self.now.blocks place) }
    {
        has_element(&self.blocks, place)
    }

    /// The element that has this many others before it, or `None` past the last. Its time is the
    /// number of blocks, as for `place`.
    pub fn get(&self, index: usize) -> Option<&T>
        ensures { option_copied result ≡ slice_get (items self.now) index }
    {
        if index < self.len {
            Some(self.get_at(self.place(index)))
        } else {
            None
        }
    }

    /// The last element, or `None` if the list is empty. In constant time.
    pub fn last(&self) -> Option<&T>
        ensures { option_copied result ≡ slice_get (items self.now) (length (items self.now) - 1) }
    {
        match self.blocks.last() {
            Some(block) => block.last(),
            None => None,
        }
    }

    /// The place past the last element, where `insert_at` adds at the end. In constant time.
    pub fn end(&self) -> Place
        ensures gap { IsGap self.now.blocks result }
        ensures index { index_of self.now.blocks result ≡ length (items self.now) }
    {
        end_of(&self.blocks)
    }

    /// A binary search, with a comparison that says how an element relates to the one searched for.
    /// `Ok` is the place of an element that is `Equal`, and `Err` the place before which every
    /// element is `Less` and from which on every one is `Greater`, if the elements are sorted by
    /// it.
    pub fn find_by<F: FnMut(&T) -> Ordering>(&self, f: F) -> Result<Place, Place>
        requires { F.IsAlwaysCallable f }
        ensures range { MatchResult result (IsPlace self.now.blocks) (IsGap self.now.blocks) }
        ensures position { (ord : T → Ordering) → ComputesKey F.FnMut ord f
            → IsBinarySearchResult ord (items self.now) (index_result self.now.blocks result) }
    {
        find_among(&self.blocks, f)
    }

    /// The elements, in order. The iterator is seen as the list of those that are left.
    pub fn iter(&self) -> Iter<'_, T>
        ensures items { result ≡ items self.now }
        ensures small { length (items self.now) < 2 ^ 63 }
    {
        Iter::new(&self.blocks)
    }

    /// The elements by value, in order. The spare blocks are freed at once, and each block as soon
    /// as the next one is started.
    pub fn into_iter(self) -> IntoIter<T>
    where
        T: Drop,
        ensures { result ≡ items self }
    {
        IntoIter::new(self.alloc, self.blocks)
    }
}
