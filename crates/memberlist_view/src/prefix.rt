//! The prefix of a name as a number, which is compared before the name itself.

ghost use Rattle.std.specs.Prelude.{◌≡◌, ◌≢◌, ◌<◌, ℕ, List, slice_index};
ghost use Rattle.std.specs.declared.cmp.Ordering.TheVariants.{Equal};
ghost use Rattle.memberlist_view.specs.Prefix.{IsPrefixOf};
ghost use Rattle.memberlist_view.specs.Rules.{name_cmp};

use byteorder::{BigEndian, ByteOrder};
use std::cmp::Ordering;

/// How many bytes of a name are in a prefix.
const FRONT: usize = 16;

/// The first 16 bytes of a name, padded with zeros, as a big-endian number in two halves.
#[derive(Clone, Copy)]
pub(crate) struct Prefix {
    high: u64,
    low: u64,
}

impl Prefix {
    #[inline(always)]
    pub(crate) fn new(name: &[u8]) -> Prefix
        ensures { IsPrefixOf result name.now }
    {
        let front = padded(name);
        Prefix {
            high: BigEndian::read_u64(&front),
            low: BigEndian::read_u64(&front[8..]),
        }
    }

    /// How the names compare if their prefixes differ; otherwise `Equal`.
    #[inline(always)]
    pub(crate) fn order(&self, other: &Prefix) -> Ordering
        ensures { (name another : List ℕ) → IsPrefixOf self.now name
            → IsPrefixOf other.now another → result ≢ Equal → result ≡ name_cmp name another }
    {
        if self.high == other.high {
            self.low.cmp(&other.low)
        } else {
            self.high.cmp(&other.high)
        }
    }
}

/// The first 16 bytes of a name, padded with zeros.
#[inline(always)]
fn padded(name: &[u8]) -> [u8; FRONT]
    ensures { (k : ℕ) → k < 16 → slice_index result k ≡ slice_index name.now k }
{
    let mut front = [0u8; FRONT];
    let len = name.len().min(FRONT);
    front[..len].copy_from_slice(&name[..len]);
    front
}
