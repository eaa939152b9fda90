//! Each key of a keyring, and which one encrypts.

ghost use Rattle.std.specs.List.{remove, swap};
ghost use Rattle.std.specs.Prelude.{◌≡◌, ◌<◌, ◌≤◌, ◌⊎◌, ◌++◌, Some, take, drop, length, slice_get, MatchBool, MatchOption};

use crate::Keyring;

impl Keyring {
    /// How many keys there are.
    pub fn len(&self) -> usize
        ensures { result ≡ length self.now }
    {
        self.keys.len()
    }

    /// The bytes of the key at this index, from 0; none if there are fewer keys.
    pub fn get(&self, i: usize) -> Option<&[u8]>
        ensures { MatchOption result (length self.now ≤ i)
            (λ key. slice_get self.now i ≡ Some key.now) }
    {
        match self.keys.get(i) {
            Some(key) => Some(key.bytes()),
            None => None,
        }
    }

    /// From now on the key at this index encrypts: it and the first one change places. Returns
    /// whether there is such a key; if not, nothing changes.
    ///
    /// Source: memberlist's keyring.go, `UseKey`, by index.
    pub fn use_key(&mut self, i: usize) -> bool
        ensures { MatchBool result ((i < length self.old) × (self.new ≡ swap self.old 0 i))
            ((length self.old ≤ i) × (self.new ≡ self.old)) }
    {
        if i >= self.keys.len() {
            return false;
        }
        self.keys.swap(0, i);
        true
    }

    /// Removes the key at this index, and overwrites it. Returns whether there is such a key; if
    /// not, nothing changes. The first key, which encrypts, stays: it is not such a key.
    ///
    /// Source: memberlist's keyring.go, `RemoveKey`, by index.
    pub fn remove(&mut self, i: usize) -> bool
        ensures { MatchBool result ((0 < i) × (i < length self.old)
            × (self.new ≡ remove self.old i))
            ((i ≡ 0 ⊎ length self.old ≤ i) × (self.new ≡ self.old)) }
    {
        if i == 0 || i >= self.keys.len() {
            return false;
        }
        self.keys.remove(i);
        true
    }

    /// Moves the first key behind the others, so that the next one encrypts. Without keys it does
    /// nothing.
    pub fn turn(&mut self)
        ensures { self.new ≡ drop 1 self.old ++ take 1 self.old }
    {
        if !self.keys.is_empty() {
            self.keys.rotate_left(1);
        }
    }
}
