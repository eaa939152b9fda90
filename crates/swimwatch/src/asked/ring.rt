//! The keys under which a member is asked, one after the other.

use memberlist_keyring::Keyring;

/// A keyring that is turned, so that each of its keys can encrypt.
#[derive(Drop)]
pub(crate) struct Ring {
    keys: Keyring,
    /// The place of the first key before the ring was turned.
    first: usize,
}

impl Ring {
    pub(crate) fn new(keys: Keyring) -> Ring {
        Ring { keys, first: 0 }
    }

    /// How many requests there are to try: one for each key, or one in the clear.
    pub(crate) fn requests(&self) -> usize {
        self.keys.len().max(1)
    }

    /// The place behind this one; the first one behind the last.
    pub(crate) fn place_after(&self, place: usize) -> usize {
        let behind = place.wrapping_add(1);
        behind.checked_rem(self.keys.len()).unwrap_or(0)
    }

    /// The keys, of which the first encrypts.
    pub(crate) fn keys(&self) -> &Keyring {
        &self.keys
    }

    /// Turns the ring until the key at this place is first; it counts from 0, as the keys were
    /// given, and starts over behind the last.
    pub(crate) fn turn_to(&mut self, place: usize) {
        let len = self.keys.len();
        if len == 0 {
            return;
        }
        for _ in 0..len {
            if self.first == place % len {
                return;
            }
            self.keys.turn();
            self.first = (self.first % len + 1) % len;
        }
    }
}
