//! Bits that are not a whole byte yet.

ghost use Rattle.std.specs.Prelude.{◌≡◌, ℕ, List, [], ◌++◌, ◌+◌, ◌-◌, ◌^◌, ◌<◌, ◌≤◌, length, MatchOption};
ghost use Rattle.memberlist_wrap.specs.Bits.{bits};

use std::marker::Model;

/// At most 24 bits, the first one lowest. Contracts see them as a list.
#[derive(Drop)]
pub(crate) struct Held {
    value: u32,
    count: u32,
}

impl Model for Held {
    ghost Value = { List ℕ };

    ghost view = { λ held. bits held.count held.value };

    ghost invariant = { λ held. (held.count ≤ 24) × (held.value < 2 ^ held.count) };
}

impl Held {
    /// No bits.
    pub(crate) fn new() -> Held
        ensures { result ≡ [] }
    {
        Held { value: 0, count: 0 }
    }

    /// Appends the `width` lowest bits of a code.
    pub(crate) fn add(&mut self, code: u32, width: u32)
        requires room { length self.old + width ≤ 24 }
        requires narrow { code < 2 ^ width }
        ensures { self.new ≡ self.old ++ bits width code }
    {
        self.value += code << self.count;
        self.count += width;
    }

    /// Removes the first 8 bits, if there are that many.
    pub(crate) fn take_byte(&mut self) -> Option<u8>
        ensures { MatchOption result
            ((self.new ≡ self.old) × (length self.old < 8))
            (λ byte. self.old ≡ bits 8 byte ++ self.new) }
    {
        if self.count < 8 {
            return None;
        }
        let byte = (self.value & 0xff) as u8;
        self.value >>= 8;
        self.count -= 8;
        Some(byte)
    }

    /// A byte of the bits and zeros after them, if there are any bits.
    pub(crate) fn last_byte(&self) -> Option<u8>
        requires { length self.now < 8 }
        ensures { MatchOption result
            (self.now ≡ [])
            (λ byte. (0 < length self.now)
            × (bits 8 byte ≡ self.now ++ bits (8 - length self.now) 0)) }
    {
        if self.count == 0 {
            return None;
        }
        Some(self.value as u8)
    }
}
