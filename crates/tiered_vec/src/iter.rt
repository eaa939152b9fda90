//! The iterators of a vector in blocks.
ghost use Rattle.std.specs.Prelude.{◌≡◌, ◌↔◌, ◌<◌, ◌+◌, ◌++◌, IsSome, length};
ghost use Rattle.std.specs.Option.{option_to_list};
ghost use Rattle.std.specs.Iterator.{YieldsFirst, YieldsFirstRef, item_count};
ghost use Rattle.tiered_vec.specs.Tiers.{flatten};
ghost use Rattle.tiered_vec.specs.Sound.{shape};

use std::alloc::Global;
use std::marker::Model;
use std::{slice, vec};

/// The elements of a vector in blocks by value, seen as the list of those that are left.
#[derive(Drop)]
pub struct IntoIter<T> {
    block: vec::IntoIter<T>,
    rest: vec::IntoIter<Vec<T>>,
}

impl<T> Model for IntoIter<T> {
    ghost use Rattle.std.specs.Prelude.{List, ◌++◌};
    ghost use Rattle.std.specs.Vec.Iter.{into_iter_items};
    ghost use Rattle.tiered_vec.specs.Tiers.{flatten};
    ghost use Rattle.tiered_vec.specs.Sound.{shape};

    ghost Value = { List T };

    ghost view = { λ it. into_iter_items it.block ++ flatten (shape (into_iter_items it.rest)) };
}

impl<T: Drop> IntoIter<T> {
    // the elements of the blocks, one block after another
    pub(crate) fn new(alloc: Global, blocks: Vec<Vec<T>>) -> IntoIter<T>
        ensures { result ≡ flatten (shape blocks.items) }
    {
        IntoIter {
            block: Vec::new(alloc).into_iter(),
            rest: blocks.into_iter(),
        }
    }

    /// The next element, or `None` after the last. It takes no memory.
    pub fn next(&mut self) -> Option<T>
        ensures items { self.old ≡ option_to_list result ++ self.new }
        ensures variant { IsSome result ↔ (0 < length self.old) }
        ensures len { length self.new + length (option_to_list result) ≡ length self.old }
    {
        loop {
            if let Some(x) = self.block.next() {
                return Some(x);
            }
            match self.rest.next() {
                Some(block) => self.block = block.into_iter(),
                None => return None,
            }
        }
    }
}

impl<T: Drop> Iterator for IntoIter<T> {
    type Item = T;

    ghost next_gives = { YieldsFirst (λ rest. rest) };

    ghost remaining = { item_count (λ rest. rest) };

    fn next(&mut self) -> Option<T> {
        IntoIter::next(self)
    }
}

/// The elements of a vector in blocks, seen as the list of those that are left.
#[derive(Drop)]
pub struct Iter<'a, T> {
    block: slice::Iter<'a, T>,
    rest: slice::Iter<'a, Vec<T>>,
}

impl<'a, T> Model for Iter<'a, T> {
    ghost use Rattle.std.specs.Prelude.{List, ◌++◌};
    ghost use Rattle.std.specs.Slice.Iter.{iter_rest};
    ghost use Rattle.tiered_vec.specs.Tiers.{flatten};
    ghost use Rattle.tiered_vec.specs.Sound.{shape};

    ghost Value = { List T };

    ghost view = { λ it. iter_rest it.block ++ flatten (shape (iter_rest it.rest)) };
}

impl<'a, T> Iter<'a, T> {
    pub(crate) fn new(blocks: &'a [Vec<T>]) -> Iter<'a, T>
        ensures { result ≡ flatten (shape blocks.now) }
    {
        let none: &[T] = &[];
        Iter {
            block: none.iter(),
            rest: blocks.iter(),
        }
    }
}

impl<'a, T> Iterator for Iter<'a, T> {
    type Item = &'a T;

    ghost next_gives = { YieldsFirstRef (λ rest. rest) };

    ghost remaining = { item_count (λ rest. rest) };

    fn next(&mut self) -> Option<&'a T> {
        loop {
            if let Some(x) = self.block.next() {
                return Some(x);
            }
            match self.rest.next() {
                Some(block) => self.block = block.iter(),
                None => return None,
            }
        }
    }
}
