//! The name of a member, as a key of a view.

ghost use Rattle.std.specs.Prelude.{◌≡◌, IfOk, refl};
ghost use Rattle.std.specs.Ordering.{eq_by_cmp, as_partial_cmp, nat_cmp};
ghost use Rattle.std.specs.Cmp.{partial_equiv_from_equiv, partial_order_from_agreeing_total};
ghost use Rattle.std.specs.Cmp.Lexicographic.{slice_cmp};
ghost use Rattle.std.proofs.lemmas.Cmp.{eq_by_cmp_equiv, nat_list_cmp_total};

use crate::prefix::Prefix;
use byteorder::{BigEndian, ByteOrder};
use std::alloc::{AllocError, Global};
use std::cmp::Ordering;
use std::marker::Model;
use swim_claim::Name;

/// How many bytes are compared as one number.
const WORD: usize = 8;

/// The name of a member, as a key of a view.
///
/// Names are ordered byte by byte, and a proper prefix is less.
#[derive(Drop)]
pub struct MemberName {
    name: Name,
    // compared before the name itself
    prefix: Prefix,
}

impl Model for MemberName {
    ghost use Rattle.std.specs.Prelude.{ℕ, List};
    ghost use Rattle.memberlist_view.specs.Prefix.{IsPrefixOf};

    ghost Value = { List ℕ };

    ghost view = { λ m. m.name };

    ghost invariant = { λ m. IsPrefixOf m.prefix m.name };
}

impl MemberName {
    /// This name. It takes no memory.
    pub fn new(name: Name) -> MemberName
        ensures { result ≡ name }
    {
        let prefix = Prefix::new(name.bytes());
        MemberName { name, prefix }
    }

    /// The name, 1 to 1,024 bytes.
    pub fn name(&self) -> &Name
        ensures { result.now ≡ self.now }
    {
        &self.name
    }

    /// A copy.
    pub(crate) fn try_clone(&self, alloc: Global) -> Result<MemberName, AllocError>
        ensures { IfOk result (λ copy. copy ≡ self.now) }
    {
        Ok(MemberName {
            name: self.name.try_clone(alloc)?,
            prefix: self.prefix,
        })
    }
}

impl PartialEq for MemberName {
    ghost eq = { eq_by_cmp (slice_cmp nat_cmp) };

    ghost laws = { partial_equiv_from_equiv (eq_by_cmp_equiv nat_list_cmp_total) };

    fn eq(&self, other: &MemberName) -> bool {
        self.cmp(other).is_eq()
    }
}

impl Eq for MemberName {
    ghost laws = { eq_by_cmp_equiv nat_list_cmp_total };
}

impl PartialOrd for MemberName {
    ghost partial_cmp = { as_partial_cmp (slice_cmp nat_cmp) };

    ghost laws = { partial_order_from_agreeing_total (slice_cmp nat_cmp) nat_list_cmp_total
        (λ _ _. refl) (λ _ _. refl) };

    fn partial_cmp(&self, other: &MemberName) -> Option<Ordering> {
        Some(self.cmp(other))
    }
}

impl Ord for MemberName {
    ghost cmp = { slice_cmp nat_cmp };

    ghost total = { nat_list_cmp_total };

    ghost matches_partial_cmp = { λ _ _. refl };

    ghost matches_eq = { λ _ _. refl };

    fn cmp(&self, other: &MemberName) -> Ordering {
        match self.prefix.order(&other.prefix) {
            Ordering::Less => Ordering::Less,
            Ordering::Equal => order(self.name.bytes(), other.name.bytes()),
            Ordering::Greater => Ordering::Greater,
        }
    }
}

/// How the bytes of two names compare, eight at a time as numbers, since names often begin alike.
fn order(one: &[u8], other: &[u8]) -> Ordering
    ensures { result ≡ slice_cmp nat_cmp one.now other.now }
{
    let (mut one, mut other) = (one, other);
    while WORD <= one.len() && WORD <= other.len() {
        let (word, another) = (BigEndian::read_u64(one), BigEndian::read_u64(other));
        if word != another {
            return word.cmp(&another);
        }
        one = &one[WORD..];
        other = &other[WORD..];
    }
    one.cmp(other)
}
