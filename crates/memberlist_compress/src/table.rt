//! Which code a word and the byte after it have, as in Go's compress/lzw: a table of slots, each at
//! the first free place from that of its hash on.

ghost use Rattle.std.specs.Prelude.{◌≡◌, ℕ, List, ◌*◌, ◌+◌, ◌<◌, ◌≢◌, length, slice_index, slice_set, IfOk};
ghost use Rattle.memberlist_compress.specs.Slots.{slots_len, AreFree, Finds, slot_of};

use std::alloc::{AllocError, Global};
use std::marker::Model;

/// How many slots there are, more than four for each word.
const SLOTS: usize = 16_384;

/// A slot that is free.
const FREE: u32 = 0;

/// Slots. One that is used has the code of a word in 12 bits, a byte in 8, and in the lowest 12 the
/// code of the word with that byte after it.
#[derive(Drop)]
pub(crate) struct Table {
    slots: Vec<u32>,
}

/// What a table has for a word and a byte.
#[derive(Clone, Copy)]
pub(crate) enum Found {
    /// Their code.
    Code(u32),
    /// No code: the slot that it would have.
    Slot(usize),
}

impl Model for Table {
    ghost Value = { List ℕ };

    ghost view = { λ table. table.slots.items };

    ghost invariant = { λ table. length table.slots.items ≡ slots_len };
}

impl Table {
    /// A table of free slots.
    pub(crate) fn new(alloc: Global) -> Result<Table, AllocError>
        ensures { IfOk result AreFree }
    {
        let mut slots = Vec::new(alloc);
        slots.resize(SLOTS, FREE)?;
        Ok(Table { slots })
    }

    /// Frees each slot.
    pub(crate) fn clear(&mut self)
        ensures { AreFree self.new }
    {
        self.slots.fill(FREE);
    }

    /// The code of the word of this code with the byte after it.
    pub(crate) fn find(&self, code: u32, byte: u8) -> Found
        requires { code < 4096 }
        ensures { Finds self.now code byte result }
    {
        let key = code * 256 + u32::from(byte);
        let mut place = (key ^ (key >> 12)) as usize % SLOTS;
        for _ in 0..SLOTS {
            let slot = self.slots[place];
            if slot == FREE {
                return Found::Slot(place);
            }
            if slot / 4096 == key {
                return Found::Code(slot % 4096);
            }
            place = (place + 1) % SLOTS;
        }
        Found::Slot(place)
    }

    /// The word of `code` with the byte after it has the code `longer`.
    pub(crate) fn put(&mut self, place: usize, code: u32, byte: u8, longer: u32)
        requires inside { place < slots_len }
        requires narrow { code < 4096 }
        requires short { longer < 4096 }
        ensures { self.new ≡ slice_set self.old place (slot_of code byte longer) }
    {
        self.slots[place] = (code * 256 + u32::from(byte)) * 4096 + longer;
    }
}
