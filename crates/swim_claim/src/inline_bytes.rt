//! A few bytes, stored inline.
ghost use Rattle.std.specs.Prelude.{◌≡◌, ◌≤◌, length};

use std::marker::Model;

/// At most N bytes, without memory of their own.
#[derive(Drop, Debug)]
pub(crate) struct InlineBytes<const N: usize> {
    bytes: [u8; N],
    len: u8,
}

impl<const N: usize> Model for InlineBytes<N> {
    ghost use Rattle.std.specs.Prelude.{ℕ, List, ◌≤◌, take};

    ghost Value = { List ℕ };

    ghost view = { λ s. take s.len s.bytes };

    ghost invariant = { λ s. s.len ≤ N };
}

impl<const N: usize> InlineBytes<N> {
    #[inline(always)]
    pub(crate) fn new(bytes: &[u8]) -> InlineBytes<N>
        requires fits { length bytes.now ≤ N }
        requires small { length bytes.now ≤ 255 }
        ensures { result ≡ bytes.now }
    {
        let mut held = [0; N];
        held[..bytes.len()].copy_from_slice(bytes);
        InlineBytes {
            bytes: held,
            len: bytes.len() as u8,
        }
    }

    pub(crate) fn bytes(&self) -> &[u8]
        ensures { result.now ≡ self.now }
    {
        &self.bytes[..usize::from(self.len)]
    }

    /// A copy of the bytes.
    pub(crate) fn copy(&self) -> InlineBytes<N>
        ensures { result ≡ self.now }
    {
        InlineBytes {
            bytes: self.bytes,
            len: self.len,
        }
    }
}
